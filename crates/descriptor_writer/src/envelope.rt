// A descriptor's tag, length and identifier.
ghost use Rattle.std.specs.Prelude.{◌≡◌, ◌∷◌, ◌<◌, ◌≤◌};
ghost use Rattle.descriptor_measure.specs.Writing.{cuei};
ghost use Rattle.table.specs.Bits.{AllBytes};
ghost use Rattle.descriptor_writer.specs.Private.{Stores, start, envelope_contents};

use bit_stores::{put_bits, put_run};
use table::cursor::Cursor;
use table::numbers::wide;

// A payload has at most so many bytes: the greatest descriptor_length, 254, less the identifier's four.
pub(crate) const MAX_PAYLOAD: usize = 250;

pub(crate) fn cuei() -> [u8; 4]
    ensures { result ≡ cuei }
{
    [0x43, 0x55, 0x45, 0x49]
}

// From the target's first byte on.
pub(crate) fn store_envelope(out: &mut [u8], tag: u8, len: usize, identifier: &[u8]) -> Cursor
    requires { len < 256 }
    ensures { Stores out.old start (envelope_contents tag len identifier.now) out.new result × AllBytes (tag ∷ (len ∷ identifier.now)) × AllBytes out.old }
{
    let first = Cursor { byte: 0, bit: 0 };
    let second = put_bits(out, first, 8, wide(tag));
    let third = put_bits(out, second, 8, len as u64);
    put_run(out, third, identifier)
}
