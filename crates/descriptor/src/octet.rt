// Numbers that bytes hold, and the refusal of a field that is not there.
ghost use Rattle.std.specs.Prelude.{◌≡◌, ◌+◌, ◌*◌, ◌^◌, ◌≤◌, ◌<◌, length};
ghost use Rattle.descriptor.specs.Private.{octet_of, lacking};
ghost use Rattle.table.specs.Bits.{bits_of, field};
ghost use Rattle.table.specs.Cursor.{place};
ghost use Rattle.table.specs.Table.{number, parse};

use crate::Descriptor;
use table::cursor::{Cursor, Field, Short};
use table::numbers::wide;
use upid::Refusal;

// The number in the next w bits, of which there are at most eight.
pub(crate) fn take_octet(s: &[u8], c: Cursor, w: usize) -> Result<Field<u8, Cursor>, Short>
    requires { w ≤ 8 }
    ensures { result ≡ octet_of (parse (number w) (bits_of s.now) (place c)) }
{
    let n = c.take(s, w)?;
    Ok(Field {
        value: n.value as u8,
        next: n.next,
    })
}

// The number in the four bytes from `at` on.
pub(crate) fn number32(s: &[u8], at: usize) -> u64
    requires { at + 4 ≤ length s.now }
    ensures { (result ≡ field (bits_of s.now) (at * 8) 32) × (result < 2 ^ 32) }
{
    let high = wide(s[at]) * 256 + wide(s[at + 1]);
    (high * 256 + wide(s[at + 2])) * 256 + wide(s[at + 3])
}

// The number in the five bytes from `at` on.
pub(crate) fn number40(s: &[u8], at: usize) -> u64
    requires { at + 5 ≤ length s.now }
    ensures { result ≡ field (bits_of s.now) (at * 8) 40 }
{
    number32(s, at) * 256 + wide(s[at + 4])
}
