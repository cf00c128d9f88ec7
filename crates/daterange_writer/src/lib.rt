// EXT-X-DATERANGE lines of RFC 8216, written (Q-1). The section is any bytes here; `daterange` reads it first, and chooses the name.
#![tactic(auto)]

ghost use Rattle.std.specs.Prelude.{◌≡◌};
ghost use Rattle.bit_stores.specs.Written.{answer_of, later_of};
ghost use Rattle.attribute_list.specs.Grammar.{all, quoted_byte};
ghost use Rattle.daterange_writer.specs.Writing.{line_made};

use crate::storing::store_line;
use attribute_list::bytes::{Class, Quoted};
use daterange_line::Cue;

mod encoding;
mod storing;

// Whether a quoted string can hold them.
fn is_quotable(bytes: &[u8]) -> bool
    ensures { result ≡ all quoted_byte bytes.now }
{
    bytes.iter().all(|b| Quoted::has(*b))
}

// Writes a section's line: 53 for an ID or date that a quoted string can't hold, 36 for too little room. A refused write changes no byte.
pub fn write_line(
    section: &[u8],
    cue: Cue,
    id: &[u8],
    date: &[u8],
    target: &mut [u8],
) -> Result<usize, u8>
    ensures answer { result ≡ answer_of (line_made section.now cue id.now date.now) target.old }
    ensures bytes { target.new ≡ later_of (line_made section.now cue id.now date.now) target.old }
{
    if !is_quotable(id) || !is_quotable(date) {
        return Err(53);
    }
    match cue {
        Cue::Cmd => store_line(section, b"\",SCTE35-CMD=0x", id, date, target),
        Cue::Out => store_line(section, b"\",SCTE35-OUT=0x", id, date, target),
        Cue::In => store_line(section, b"\",SCTE35-IN=0x", id, date, target),
    }
}
