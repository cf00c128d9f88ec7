// Adjustments in a chain: a time moved by an adjustment, two adjustments as one, and the one that takes another back. Each is a number of 33 bits.
#![tactic(auto)]

ghost use Rattle.std.specs.Prelude.{◌≡◌};
ghost use Rattle.adjust.specs.Adjust.{adjust_of, chain_of, undo_of};

use splice_time::{SpliceTime, TooLarge};

// The time moved by the adjustment; one that is not specified stays as it is.
pub fn adjust(time: SpliceTime, adjustment: u64) -> Result<SpliceTime, TooLarge>
    ensures { result ≡ adjust_of time adjustment }
{
    if 0x1_FFFF_FFFF < adjustment {
        return Err(TooLarge);
    }
    match time {
        SpliceTime::Immediate => Ok(SpliceTime::Immediate),
        SpliceTime::Unspecified => Ok(SpliceTime::Unspecified),
        SpliceTime::At(ticks) => {
            if 0x1_FFFF_FFFF < ticks {
                return Err(TooLarge);
            }
            Ok(SpliceTime::At((ticks + adjustment) % 0x2_0000_0000))
        }
    }
}

// The one adjustment that does what a and then b do.
pub fn chain(a: u64, b: u64) -> Result<u64, TooLarge>
    ensures { result ≡ chain_of a b }
{
    if 0x1_FFFF_FFFF < a {
        return Err(TooLarge);
    }
    if 0x1_FFFF_FFFF < b {
        return Err(TooLarge);
    }
    Ok((a + b) % 0x2_0000_0000)
}

// The adjustment that takes a back.
pub fn undo(a: u64) -> Result<u64, TooLarge>
    ensures { result ≡ undo_of a }
{
    if 0x1_FFFF_FFFF < a {
        return Err(TooLarge);
    }
    Ok((0x2_0000_0000 - a) % 0x2_0000_0000)
}
