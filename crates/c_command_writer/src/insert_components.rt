// The components of an insert: places of three words, after the refusal and the count of their struct.
ghost use Rattle.std.specs.Prelude.{◌≡◌, ◌≤◌};
ghost use Rattle.c_command_writer.specs.CommandGiven.{time_from, component_from, components_from, own_component, insert_components_within, own_insert_components};

use crate::{are_places_within, word_at, words_from};
use command::components::{InsertComponent, MAX_COMPONENTS, blanks};
use splice_time::SpliceTime;

// Where the first of them stands, how many words each has, and the words of one.
const FIRST: usize = 2;

const EACH: usize = 3;

const TAG: usize = 0;

const KIND: usize = 1;

const TICKS: usize = 2;

pub(crate) fn time_from(kind: u64, ticks: u64) -> SpliceTime
    ensures { result ≡ time_from (record { kind = kind; ticks = ticks }) }
{
    match kind {
        1 => SpliceTime::Immediate,
        3 => SpliceTime::At(ticks),
        _ => SpliceTime::Unspecified,
    }
}

fn component_from(words: &[u64]) -> InsertComponent
    ensures { result ≡ component_from words.now }
{
    InsertComponent {
        component_tag: (word_at(words, TAG) % 256) as u8,
        splice_time: time_from(word_at(words, KIND), word_at(words, TICKS)),
    }
}

// Refusal 33 of one of them: a kind that no time has, ticks beside another kind than that of a specified time. (A tag over 255 is refused with 32 before.)
fn is_own_component(words: &[u64]) -> bool
    ensures { result ≡ own_component words.now }
{
    if 255 < word_at(words, TAG) {
        return false;
    }
    match word_at(words, KIND) {
        1 | 2 => word_at(words, TICKS) == 0,
        3 => true,
        _ => false,
    }
}

// The first `count` in their array, blank past them.
// (`places_from` of c_descriptor_writer does this of another type. One function for both would take what makes a component as a closure, and its clause would
// say what each call of that returns: longer than the two loops.)
pub(crate) fn components_from(count: usize, words: &[u64]) -> [InsertComponent; MAX_COMPONENTS]
    requires { count ≤ 255 }
    ensures { result ≡ components_from count words.now }
{
    let mut out = blanks();
    for i in 0..count {
        out[i] = component_from(words_from(words, FIRST + i * EACH));
    }
    out
}

// Refusal 32 of the first `count`.
pub(crate) fn insert_components_within(count: usize, words: &[u64]) -> bool
    requires { count ≤ 255 }
    ensures { result ≡ insert_components_within count words.now }
{
    let widths: [u64; EACH] = [8, 2, 33];
    are_places_within(&widths, count, words_from(words, FIRST))
}

// Refusal 33 of the first `count`.
pub(crate) fn own_insert_components(count: usize, words: &[u64]) -> bool
    requires { count ≤ 255 }
    ensures { result ≡ own_insert_components count words.now }
{
    (0..count).all(|i| is_own_component(words_from(words, FIRST + i * EACH)))
}
