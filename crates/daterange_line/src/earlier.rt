// The attributes before a place of a line.
ghost use Rattle.std.specs.Prelude.{◌≡◌, ◌^◌, ◌<◌, length};
ghost use Rattle.attribute_list.specs.Cutting.{value_from, end_of};
ghost use Rattle.daterange_line.specs.Private.{earlier};

use attribute_list::bytes::same_bytes;
use attribute_list::cutting::{Cut, cut_at};

// Where an attribute's value begins: behind the name, `=` and a quote.
pub(crate) fn value_from(cut: Cut) -> usize
    requires { cut.name < 2 ^ 63 }
    ensures { result ≡ value_from cut.name cut.quoted }
{
    cut.name + if cut.quoted { 2 } else { 1 }
}

// Where an attribute ends.
pub(crate) fn size(cut: Cut) -> usize
    requires { end_of cut.name cut.quoted cut.value < 2 ^ 63 }
    ensures { result ≡ end_of cut.name cut.quoted cut.value }
{
    cut.name + cut.value + if cut.quoted { 3 } else { 1 }
}

// Whether an attribute before the one at `place` has its name. No line has more attributes than bytes.
pub(crate) fn has_earlier(line: &[u8], place: usize, name: &[u8]) -> bool
    ensures { result ≡ earlier (length line.now) line.now place name.now 17 }
{
    let mut at: usize = 17;
    for _ in 0..line.len() {
        if place <= at {
            return false;
        }
        let Some(cut) = cut_at(line, at) else {
            return false;
        };
        if same_bytes(&line[at..at + cut.name], name) {
            return true;
        }
        at += size(cut) + 1;
    }
    false
}
