// What stands beside an item: an identifier; components, which are places of two words; and an EIDR, a byte to a word. Before the 255 places stand refusal,
// three values and the count, and behind them the EIDR.
ghost use Rattle.std.specs.Prelude.{◌≡◌, ◌≤◌};
ghost use Rattle.c_descriptor_writer.specs.ItemGiven.{identifier_from, place_from, places_from, eidr_from, beside_from};
ghost use Rattle.c_descriptor_writer.specs.ItemWords.{places_within, beside_within};

use crate::values::IDENTIFIER;
use c_command_writer::{are_four_within, are_places_within, word_at, words_from};
use descriptor::full::{Beside, blank_beside};
use descriptor::segmentation::{MAX_COMPONENTS, SegmentationComponent};
use std::array;

// Where the first component stands, and how many words each has; where each four bytes of the EIDR stand, and how many words all are.
pub(crate) const COMPONENTS: usize = 5;

pub(crate) const EACH: usize = 2;

const EIDR: usize = 515;

const EIDR_MIDDLE: usize = 519;

const EIDR_LAST: usize = 523;

pub(crate) const BESIDE_WORDS: usize = 527;

// Four bytes, the high one first.
pub(crate) fn identifier_from(words: &[u64]) -> [u8; 4]
    ensures { result ≡ identifier_from words.now }
{
    let number = word_at(words, IDENTIFIER);
    [
        (number / 0x100_0000 % 256) as u8,
        (number / 0x1_0000 % 256) as u8,
        (number / 0x100 % 256) as u8,
        (number % 256) as u8,
    ]
}

fn place_from(words: &[u64]) -> SegmentationComponent
    ensures { result ≡ place_from words.now }
{
    SegmentationComponent {
        component_tag: (word_at(words, 0) % 256) as u8,
        pts_offset: word_at(words, 1),
    }
}

// The first `count` components in their array, blank past them.
// (A twin of `components_from` of c_command_writer, which says why.)
fn places_from(count: usize, words: &[u64]) -> [SegmentationComponent; MAX_COMPONENTS]
    requires { count ≤ 255 }
    ensures { result ≡ places_from count words.now }
{
    let blank = blank_beside();
    let mut out = blank.components;
    for i in 0..count {
        out[i] = place_from(words_from(words, COMPONENTS + i * EACH));
    }
    out
}

pub(crate) fn eidr_from(words: &[u64]) -> [u8; 12]
    ensures { result ≡ eidr_from words.now }
{
    array::from_fn(|i| (word_at(words, EIDR + i) % 256) as u8)
}

pub(crate) fn beside_from(count: usize, words: &[u64]) -> Beside
    requires { count ≤ 255 }
    ensures { result ≡ beside_from count words.now }
{
    Beside {
        components: places_from(count, words),
        eidr: eidr_from(words),
    }
}

// Refusal 32 of the first `count` components.
fn places_within(count: usize, words: &[u64]) -> bool
    requires { count ≤ 255 }
    ensures { result ≡ places_within count words.now }
{
    let widths: [u64; EACH] = [8, 33];
    are_places_within(&widths, count, words_from(words, COMPONENTS))
}

// Do the words of the components and of the EIDR keep within their widths?
pub(crate) fn beside_within(count: usize, words: &[u64]) -> bool
    requires { count ≤ 255 }
    ensures { result ≡ beside_within count words.now }
{
    if !places_within(count, words) {
        return false;
    }
    if !are_four_within(8, 8, 8, 8, words_from(words, EIDR)) {
        return false;
    }
    if !are_four_within(8, 8, 8, 8, words_from(words, EIDR_MIDDLE)) {
        return false;
    }
    are_four_within(8, 8, 8, 8, words_from(words, EIDR_LAST))
}
