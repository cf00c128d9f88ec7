// What the attributes of a line say, one after the other.
ghost use Rattle.std.specs.Prelude.{◌≡◌};
ghost use Rattle.attribute_list.specs.Cutting.{value_in};
ghost use Rattle.daterange_line.specs.Reading.{known_of, fits_for};
ghost use Rattle.daterange_line.specs.Private.{or_else, noted, nothing, turn_of, ended, look_of};

use crate::digits::is_hexadecimal;
use crate::earlier::{has_earlier, size, value_from};
use crate::{Cue, Known, LineRefusal};
use attribute_list::bytes::same_bytes;
use attribute_list::cutting::cut_at;
use table::View;

// What was found so far: a blank view is one that was not. `digits` has the 0x too.
#[derive(Clone, Copy)]
pub(crate) struct Found {
    pub id: View,
    pub date: View,
    pub cue: Cue,
    pub digits: View,
}

// After one attribute more: it was the last one, or where the next one begins.
#[derive(Clone, Copy)]
pub(crate) enum Turn {
    Done(Found),
    More(Found, usize),
}

#[tactic(auto, unfolding(crate::specs::Reading::known_of))]
fn known_as(name: &[u8]) -> Known
    ensures { result ≡ known_of name.now }
{
    if same_bytes(name, b"ID") {
        return Known::Id;
    }
    if same_bytes(name, b"START-DATE") {
        return Known::Date;
    }
    if same_bytes(name, b"SCTE35-CMD") {
        return Known::Signal(Cue::Cmd);
    }
    if same_bytes(name, b"SCTE35-OUT") {
        return Known::Signal(Cue::Out);
    }
    if same_bytes(name, b"SCTE35-IN") {
        return Known::Signal(Cue::In);
    }
    Known::Other
}

// Whether a value is of the kind that its name asks for.
fn is_fit(word: Known, quoted: bool, value: &[u8]) -> bool
    ensures { result ≡ fits_for word (value_in quoted value.now) }
{
    match word {
        Known::Id | Known::Date => quoted,
        Known::Signal(_) => !quoted && is_hexadecimal(value),
        Known::Other => true,
    }
}

fn or_else(v: View, w: View) -> View
    ensures { result ≡ or_else v w }
{
    if v.at == 0 { w } else { v }
}

fn note(f: Found, word: Known, v: View) -> Found
    ensures { result ≡ noted f word v }
{
    match word {
        Known::Id => Found {
            id: or_else(f.id, v),
            ..f
        },
        Known::Date => Found {
            date: or_else(f.date, v),
            ..f
        },
        Known::Signal(c) if f.digits.at == 0 => Found {
            cue: c,
            digits: v,
            ..f
        },
        Known::Signal(_) | Known::Other => f,
    }
}

#[tactic(auto, unfolding(crate::specs::Private::turn_of))]
fn turn_at(line: &[u8], at: usize, f: Found) -> Result<Turn, LineRefusal>
    ensures { result ≡ turn_of line.now at f }
{
    let cut = cut_at(line, at).ok_or(LineRefusal::MalformedLine)?;
    let name = &line[at..at + cut.name];
    if has_earlier(line, at, name) {
        return Err(LineRefusal::MalformedLine);
    }
    let word = known_as(name);
    let from = at + value_from(cut);
    if !is_fit(word, cut.quoted, &line[from..from + cut.value]) {
        return Err(LineRefusal::MalformedLine);
    }
    let g = note(
        f,
        word,
        View {
            at: from,
            len: cut.value,
        },
    );
    let end = size(cut);
    if line.len() <= at + end {
        return Ok(Turn::Done(g));
    }
    Ok(Turn::More(g, at + (end + 1)))
}

#[tactic(auto, unfolding(crate::specs::Private::ended))]
fn finish(f: Found) -> Result<Found, LineRefusal>
    ensures { result ≡ ended f }
{
    if f.id.at == 0 || f.date.at == 0 || f.digits.at == 0 {
        return Err(LineRefusal::AttributeMissing);
    }
    Ok(f)
}

fn nothing_found() -> Found
    ensures { result ≡ nothing }
{
    let none = View { at: 0, len: 0 };
    Found {
        id: none,
        date: none,
        cue: Cue::Cmd,
        digits: none,
    }
}

// What a line says, or the first refusal that applies but for the last. No line has more attributes than bytes.
pub(crate) fn find_cue(line: &[u8]) -> Result<Found, LineRefusal>
    ensures { result ≡ look_of line.now }
{
    if line.len() < 17 || !same_bytes(&line[..17], b"#EXT-X-DATERANGE:") {
        return Err(LineRefusal::MalformedLine);
    }
    let mut f = nothing_found();
    let mut at: usize = 17;
    for _ in 0..line.len() {
        match turn_at(line, at, f)? {
            Turn::Done(g) => return finish(g),
            Turn::More(g, next) => {
                f = g;
                at = next;
            }
        }
    }
    Err(LineRefusal::MalformedLine)
}
