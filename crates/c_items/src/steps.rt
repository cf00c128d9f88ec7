// A step over a loop.
ghost use Rattle.std.specs.Prelude.{◌≡◌};
ghost use Rattle.c_items.specs.FlatItem.{refusal_in, values_in, flat_step};

use crate::descriptors::{FlatItem, flat_item};
use crate::refusals::{item_number, item_values};
use descriptor::Descriptor;
use descriptor_loop::{ItemRefusal, Step};
use table::numbers::big_endian;

// The identifier is that of a reserved descriptor, 0 with any other item.
#[repr(C)]
#[derive(Clone, Copy)]
pub struct FlatStep {
    pub refusal: u64,
    pub values: [u64; 3],
    pub next: u64,
    pub identifier: u64,
    pub item: FlatItem,
}

pub(crate) fn refusal_number(item: Option<Result<Descriptor, ItemRefusal>>) -> u64
    ensures { result ≡ refusal_in item }
{
    match item {
        None => 0,
        Some(Err(r)) => item_number(r),
        Some(Ok(_)) => 0,
    }
}

pub(crate) fn refusal_values(item: Option<Result<Descriptor, ItemRefusal>>) -> [u64; 3]
    ensures { result ≡ values_in item }
{
    match item {
        None => [0, 0, 0],
        Some(Err(r)) => item_values(r),
        Some(Ok(_)) => [0, 0, 0],
    }
}

pub fn flat_step(s: Step) -> FlatStep
    ensures { result ≡ flat_step s }
{
    let item = s.item;
    let identifier = s.identifier;
    FlatStep {
        refusal: refusal_number(item),
        values: refusal_values(item),
        next: s.next as u64,
        identifier: big_endian(&identifier, 0, 4),
        item: flat_item(item),
    }
}
