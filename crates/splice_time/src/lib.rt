// splice_time() and the adjusted time.
#![tactic(auto)]

ghost use Rattle.std.specs.Prelude.{◌≡◌, ◌*◌};
ghost use Rattle.splice_time.specs.Time.{splice_time, time_read, adjusted_of};
ghost use Rattle.table.specs.Bits.{bits_of};
ghost use Rattle.table.specs.Table.{parse};

use table::cursor::{Cursor, Field, Short};
use table::numbers::time33;

pub mod break_duration;

// When a splice takes place: at once, at a time that is not specified, or at a time in ticks of 90 kHz.
#[derive(Clone, Copy)]
pub enum SpliceTime {
    Immediate,
    Unspecified,
    At(u64),
}

// The splice_time() that starts with a byte, as all of the standard's do, and the cursor after it.
pub fn read_aligned_time(s: &[u8], at: usize) -> Result<Field<SpliceTime, Cursor>, Short>
    ensures { result ≡ time_read (parse splice_time (bits_of s.now) (at * 8)) }
{
    if s.len() <= at {
        return Err(Short {
            expected: 0,
            actual: 0,
        });
    }
    if s[at] < 128 {
        return Ok(Field {
            value: SpliceTime::Unspecified,
            next: Cursor {
                byte: at + 1,
                bit: 0,
            },
        });
    }
    let left = s.len() - at;
    if left < 5 {
        return Err(Short {
            expected: 4,
            actual: left - 1,
        });
    }
    Ok(Field {
        value: SpliceTime::At(time33(s, at)),
        next: Cursor {
            byte: at + 5,
            bit: 0,
        },
    })
}

// Refusal 32: a number that exceeds its field.
#[derive(Clone, Copy, Debug, PartialEq, Eq)]
pub struct TooLarge;

// The time plus the adjustment, of which each has 33 bits; the carry out of the 33 bits is ignored. None where no time is specified.
pub fn adjusted_time(time: SpliceTime, pts_adjustment: u64) -> Result<Option<u64>, TooLarge>
    ensures { result ≡ adjusted_of time pts_adjustment }
{
    if 0x1_FFFF_FFFF < pts_adjustment {
        return Err(TooLarge);
    }
    match time {
        SpliceTime::Immediate => Ok(None),
        SpliceTime::Unspecified => Ok(None),
        SpliceTime::At(ticks) => {
            if 0x1_FFFF_FFFF < ticks {
                return Err(TooLarge);
            }
            Ok(Some((ticks + pts_adjustment) % 0x2_0000_0000))
        }
    }
}
