// The descriptor writer over the C boundary: an item from the words of its step, and of what stands beside it.
#![tactic(auto)]

ghost use Rattle.std.specs.Prelude.{◌≡◌, ◌≤◌};
ghost use Rattle.descriptor_measure.specs.Writing.{count_beside, descriptor_made};
ghost use Rattle.descriptor_writer.specs.Stores.{Writes};
ghost use Rattle.c_descriptor_writer.specs.ItemGiven.{padded_words, beside_from, own_item, words_refusal, descriptor_refusal, descriptor_words_made};
ghost use Rattle.c_descriptor_writer.specs.ItemWords.{item_seen, has_eidr, beside_there};
ghost use Rattle.c_command_writer.specs.Words.{flat_written};
ghost use Rattle.bit_stores.specs.Written.{answer_of, later_of};

use crate::beside::{
    BESIDE_WORDS, COMPONENTS, EACH, beside_from, beside_within, eidr_from, identifier_from,
};
use crate::values::{
    BYTES_AT, BYTES_LEN, KIND, STEP_WORDS, UPID_TYPE, descriptor_given, is_flat_item,
    is_item_within,
};
use c_command_writer::{FlatWritten, flat_written, lower_refusal, word_at};
use c_items::steps::flat_step;
use descriptor::Descriptor;
use descriptor::segmentation::{DescriptorDetail, SegmentationMode};
use descriptor_loop::Step;
use descriptor_writer::{write_descriptor, write_descriptor_without_components};
use std::array;
use table::View;
use table::lent::lies_in;
use upid::UPID_EIDR;

pub mod beside;
pub mod values;

// An EIDR's type, as a word.
const EIDR_TYPE: u64 = UPID_EIDR as u64;

// How many components it has.
fn count_in_descriptor(d: Descriptor) -> u8
    ensures { result ≡ count_beside d }
{
    let segmentation = match d {
        Descriptor::Avail(_) => return 0,
        Descriptor::Dtmf(_) => return 0,
        Descriptor::Segmentation(x) => x,
        Descriptor::Time(_) => return 0,
        Descriptor::Reserved {
            tag: _,
            private_bytes: _,
        } => return 0,
    };
    let detail = segmentation.descriptor_detail;
    let active = match detail {
        DescriptorDetail::Cancel => return 0,
        DescriptorDetail::Active(i) => i,
    };
    let mode = active.segmentation_mode;
    match mode {
        SegmentationMode::Program => 0,
        SegmentationMode::Component(n) => n,
    }
}

// Refusal 33: are the words of the item those of its own flat form?
fn is_own_item(d: Descriptor, words: &[u64]) -> bool
    ensures { result ≡ own_item d words.now }
{
    let step = flat_step(Step {
        item: Some(Ok(d)),
        identifier: [0; 4],
        next: 0,
    });
    let item = step.item;
    is_flat_item(item, words)
}

fn has_eidr(words: &[u64]) -> bool
    ensures { result ≡ has_eidr words.now }
{
    if word_at(words, KIND) != 4 {
        return false;
    }
    word_at(words, UPID_TYPE) == EIDR_TYPE
}

// Refusal 33: are the words beside the item there, where it has an EIDR or `count` components? They would count as 0.
fn is_beside_there(count: usize, words: &[u64], beside: &[u64]) -> bool
    requires { count ≤ 255 }
    ensures { result ≡ beside_there count words.now beside.now }
{
    if has_eidr(words) {
        return BESIDE_WORDS <= beside.len();
    }
    if count == 0 {
        return true;
    }
    COMPONENTS + count * EACH <= beside.len()
}

// Refusals 32 and 33 of the words themselves; 0 for none.
fn words_refusal(d: Descriptor, words: &[u64], beside: &[u64]) -> u64
    ensures { result ≡ words_refusal d words.now beside.now }
{
    let count = count_in_descriptor(d) as usize;
    if !is_item_within(words) {
        return 32;
    }
    if !beside_within(count, beside) {
        return 32;
    }
    if !is_own_item(d, words) {
        return 33;
    }
    if !is_beside_there(count, words, beside) {
        return 33;
    }
    0
}

// Refusal 31 of the words of an item: does their view, whatever the item's kind, lie in the lent bytes?
fn is_item_seen(words: &[u64], lent: &[u8]) -> bool
    ensures { result ≡ item_seen words.now lent.now }
{
    lies_in(
        lent,
        View {
            at: word_at(words, BYTES_AT) as usize,
            len: word_at(words, BYTES_LEN) as usize,
        },
    )
}

// Refusals 31 to 33 of the words themselves, in their order; 0 for none.
pub fn descriptor_refusal(d: Descriptor, words: &[u64], beside: &[u64], lent: &[u8]) -> u64
    ensures { result ≡ descriptor_refusal d words.now beside.now lent.now }
{
    if !is_item_seen(words, lent) {
        return 31;
    }
    words_refusal(d, words, beside)
}

// A descriptor with the components and the EIDR that the words make. Where it has no components no array of them is made.
fn write_given(
    d: Descriptor,
    identifier: [u8; 4],
    count: usize,
    beside: &[u64],
    lent: &[u8],
    target: &mut [u8],
) -> Result<usize, u8>
    requires { count ≤ 255 }
    ensures { Writes (descriptor_made d identifier (beside_from count beside.now) lent.now) target.old target.new result }
{
    if count == 0 {
        let eidr = eidr_from(beside);
        return write_descriptor_without_components(d, identifier, eidr, lent, target);
    }
    let aside = beside_from(count, beside);
    write_descriptor(d, identifier, aside, lent, target)
}

// The words of a step, 0 past the end of the slice.
fn padded(words: &[u64]) -> [u64; STEP_WORDS]
    ensures { result ≡ padded_words words.now }
{
    array::from_fn(|i| word_at(words, i))
}

// A descriptor from the target's first byte on, or a refusal: 31 to 34 or 36.
fn write_from_words(words: &[u64], beside: &[u64], lent: &[u8], target: &mut [u8]) -> FlatWritten
    ensures answer { result ≡ flat_written (answer_of (descriptor_words_made words.now beside.now lent.now) target.old) }
    ensures bytes { target.new ≡ later_of (descriptor_words_made words.now beside.now lent.now) target.old }
{
    let d = descriptor_given(words);
    let identifier = identifier_from(words);
    let count = count_in_descriptor(d) as usize;
    let refusal = descriptor_refusal(d, words, beside, lent);
    if 0 < refusal {
        return lower_refusal(
            refusal,
            write_given(d, identifier, count, beside, lent, &mut target[0..0]),
        );
    }
    flat_written(write_given(d, identifier, count, beside, lent, target))
}

// An item's descriptor, of its words. Where there are fewer words than the struct has, they are filled up, so that the compiler tests the slice's length once and not for each word.
pub fn write_descriptor_words(
    words: &[u64],
    beside: &[u64],
    lent: &[u8],
    target: &mut [u8],
) -> FlatWritten
    ensures answer { result ≡ flat_written (answer_of (descriptor_words_made words.now beside.now lent.now) target.old) }
    ensures bytes { target.new ≡ later_of (descriptor_words_made words.now beside.now lent.now) target.old }
{
    if words.len() < STEP_WORDS {
        let enough = padded(words);
        return write_from_words(&enough, beside, lent, target);
    }
    write_from_words(words, beside, lent, target)
}
