// What a UPID's type says of its bytes.
ghost use Rattle.std.specs.Prelude.{◌≡◌};
ghost use Rattle.upid.specs.Upid.{length_of, is_text, reported_of, plain_of};

use crate::Refusal;
use crate::text::is_text;
use table::View;

// The bytes that a type must have, 0 where any number will do.
fn fixed(upid_type: u8) -> usize
    ensures { result ≡ length_of upid_type }
{
    match upid_type {
        2 | 5 | 8 => 8,
        3 | 6 | 7 | 10 => 12,
        4 => 32,
        _ => 0,
    }
}

fn has_text(upid_type: u8) -> bool
    ensures { result ≡ is_text upid_type }
{
    match upid_type {
        2 | 3 | 7 => true,
        _ => false,
    }
}

pub(crate) fn reported(upid_type: u8) -> u8
    ensures { result ≡ reported_of upid_type }
{
    if upid_type == 5 { 6 } else { upid_type }
}

// A payload of a type other than MID. `start` is where it lies in the top UPID.
pub(crate) fn check_plain(upid_type: u8, s: &[u8], start: usize) -> Result<u8, Refusal>
    ensures { result ≡ plain_of upid_type start s.now }
{
    if upid_type == 0 {
        return Err(Refusal::UpidLengthTypeMismatch);
    }
    let expected = fixed(upid_type);
    if expected == 0 {
        return Ok(reported(upid_type));
    }
    let actual = s.len();
    if actual != expected {
        return Err(Refusal::InvalidUpidLength {
            upid_type,
            expected,
            actual,
        });
    }
    if has_text(upid_type) {
        if is_text(s) {
            return Ok(reported(upid_type));
        }
        return Err(Refusal::InvalidUpidContent {
            upid_type,
            bytes: View {
                at: start,
                len: actual,
            },
        });
    }
    Ok(reported(upid_type))
}
