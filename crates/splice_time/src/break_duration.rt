// break_duration(): how long a break lasts, if it is flagged.
ghost use Rattle.std.specs.Prelude.{◌≡◌, true, ◌*◌};
ghost use Rattle.splice_time.specs.Break.{break_duration, break_read};
ghost use Rattle.names.specs.declared.flags.ReturnMode.{ReturnMode};
ghost use Rattle.table.specs.Bits.{pick, bits_of};
ghost use Rattle.table.specs.Table.{parse};

use names::flags::ReturnMode;
use table::cursor::{Field, Short};
use table::numbers::{time33, wide};

#[derive(Clone, Copy)]
pub struct SpliceDuration {
    pub return_mode: ReturnMode,
    pub duration: u64,
}

fn returning(automatic: bool) -> ReturnMode
    ensures { result ≡ pick automatic ReturnMode.Automatic ReturnMode.Manual }
{
    if automatic {
        return ReturnMode::Automatic;
    }
    ReturnMode::Manual
}

fn read_lasting(s: &[u8], at: usize) -> Result<Field<Option<SpliceDuration>, usize>, Short>
    ensures { result ≡ break_read (parse (break_duration true) (bits_of s.now) (at * 8)) }
{
    if s.len() <= at {
        return Err(Short {
            expected: 0,
            actual: 0,
        });
    }
    let left = s.len() - at;
    if left < 5 {
        return Err(Short {
            expected: 4,
            actual: left - 1,
        });
    }
    let first = wide(s[at]);
    Ok(Field {
        value: Some(SpliceDuration {
            return_mode: returning(first / 128 == 1),
            duration: time33(s, at),
        }),
        next: at + 5,
    })
}

// A break_duration() if it is flagged, and the place of the byte after it: it starts and ends with a byte.
pub fn read_break(
    s: &[u8],
    at: usize,
    flagged: bool,
) -> Result<Field<Option<SpliceDuration>, usize>, Short>
    ensures { result ≡ break_read (parse (break_duration flagged) (bits_of s.now) (at * 8)) }
{
    if flagged {
        return read_lasting(s, at);
    }
    Ok(Field {
        value: None,
        next: at,
    })
}
