// Writing a splice_time().
ghost use Rattle.command_measure.specs.Fields.{ink, time_fields};
ghost use Rattle.bit_stores.specs.Pen.{Pens};
ghost use Rattle.bit_stores.specs.Private.{Fits};

use bit_stores::put_bits;
use splice_time::SpliceTime;
use table::cursor::Cursor;

// The flag and its reserved bits are all 1 where a time is specified; else the flag is clear. (An immediate time is refused or left out before; a time fits its
// 33 bits, which the remainder says to the proof.)
pub(crate) fn store_time(out: &mut [u8], c: Cursor, time: SpliceTime) -> Cursor
    requires { Fits out.old c (ink (time_fields time)) }
    ensures { Pens out.old c (ink (time_fields time)) out.new result }
{
    let ticks = match time {
        SpliceTime::At(t) => t,
        SpliceTime::Unspecified => return put_bits(out, c, 8, 0x7F),
        SpliceTime::Immediate => return put_bits(out, c, 8, 0x7F),
    };
    put_bits(out, c, 40, 0xFE_0000_0000 + ticks % 0x2_0000_0000)
}
