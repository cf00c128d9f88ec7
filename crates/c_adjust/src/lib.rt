// The flat forms of Q-12's answers: a time that was moved, and an adjustment.
#![tactic(auto)]

ghost use Rattle.std.specs.Prelude.{◌≡◌};
ghost use Rattle.c_adjust.specs.FlatAdjust.{flat_moved, flat_adjustment};

use c_section::headers::{FlatAdjusted, TOO_LARGE};
use splice_time::{SpliceTime, TooLarge};

#[repr(C)]
#[derive(Clone, Copy)]
pub struct FlatAdjustment {
    pub refusal: u64,
    pub adjustment: u64,
}

// A time of the kind that was handed in: one that is not specified keeps it.
pub fn flat_moved(kind: u64, m: Result<SpliceTime, TooLarge>) -> FlatAdjusted
    ensures { result ≡ flat_moved kind m }
{
    match m {
        Ok(time) => match time {
            SpliceTime::Immediate => FlatAdjusted {
                refusal: 0,
                kind,
                ticks: 0,
            },
            SpliceTime::Unspecified => FlatAdjusted {
                refusal: 0,
                kind,
                ticks: 0,
            },
            SpliceTime::At(ticks) => FlatAdjusted {
                refusal: 0,
                kind: 3,
                ticks,
            },
        },
        Err(TooLarge) => FlatAdjusted {
            refusal: TOO_LARGE,
            kind: 0,
            ticks: 0,
        },
    }
}

pub fn flat_adjustment(a: Result<u64, TooLarge>) -> FlatAdjustment
    ensures { result ≡ flat_adjustment a }
{
    match a {
        Ok(adjustment) => FlatAdjustment {
            refusal: 0,
            adjustment,
        },
        Err(TooLarge) => FlatAdjustment {
            refusal: TOO_LARGE,
            adjustment: 0,
        },
    }
}
