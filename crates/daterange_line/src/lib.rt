// EXT-X-DATERANGE lines of RFC 8216 that carry a cue, read (Q-1). A line has no line end.
#![tactic(auto)]

ghost use Rattle.std.specs.Prelude.{◌≡◌};
ghost use Rattle.daterange_line.specs.Reading.{number_of, read_of, read_later};

use crate::digits::decode;
use crate::looking::find_cue;
use table::View;

mod digits;
mod earlier;
mod looking;

// Which of the three names: SCTE35-CMD, SCTE35-OUT, SCTE35-IN.
#[derive(Clone, Copy)]
pub enum Cue {
    Cmd,
    Out,
    In,
}

// What an attribute's name says.
#[derive(Clone, Copy)]
pub enum Known {
    Id,
    Date,
    Signal(Cue),
    Other,
}

// What a line says: ID and START-DATE as views of the line, the name used, and how many bytes of the section stand in the target.
#[derive(Clone, Copy)]
pub struct Reading {
    pub id: View,
    pub date: View,
    pub cue: Cue,
    pub len: usize,
}

// Why a line is not read, in the order of the tests.
#[derive(Clone, Copy, Debug, PartialEq, Eq)]
pub enum LineRefusal {
    MalformedLine,
    AttributeMissing,
    TargetTooShort,
}

impl LineRefusal {
    // Document 02's number.
    pub fn number(self) -> u8
        ensures { result ≡ number_of self }
    {
        match self {
            LineRefusal::MalformedLine => 52,
            LineRefusal::AttributeMissing => 51,
            LineRefusal::TargetTooShort => 36,
        }
    }
}

// Reads a line that has no line end. The section's bytes go into the target and are not judged; a refusal changes no byte of it.
pub fn read_line(line: &[u8], target: &mut [u8]) -> Result<Reading, LineRefusal>
    ensures answer { result ≡ read_of line.now target.old }
    ensures bytes { target.new ≡ read_later line.now target.old }
{
    let f = find_cue(line)?;
    let from = f.digits.at + 2;
    let end = f.digits.at + f.digits.len;
    let len = (end - from) / 2;
    if target.len() < len {
        return Err(LineRefusal::TargetTooShort);
    }
    decode(target, &line[from..end]);
    Ok(Reading {
        id: f.id,
        date: f.date,
        cue: f.cue,
        len,
    })
}
