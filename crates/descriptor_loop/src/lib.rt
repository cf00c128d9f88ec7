// The items of a descriptor loop (document 01, "Loop items"). Views count from the loop's first byte.
#![tactic(auto)]

use descriptor::Descriptor;
use upid::Refusal;

pub mod iteration;
pub mod place;
pub mod reading;

// A loop has at most so many bytes: a section's 4,096 less the 20 around command and loop.
pub const MAX_LOOP: usize = 4076;

// The greatest descriptor_length.
pub const MAX_DESCRIPTOR: usize = 254;

// Refusals 2 and 21 to 25: 22, and those that a UPID has too.
#[derive(Clone, Copy, Debug, PartialEq, Eq)]
pub enum ItemRefusal {
    InvalidDescriptorLength,
    Other(Refusal),
}

// An item, the identifier of a reserved descriptor (all zero with any other item), and the offset of the next item.
#[derive(Clone, Copy)]
pub struct Step {
    pub item: Option<Result<Descriptor, ItemRefusal>>,
    pub identifier: [u8; 4],
    pub next: usize,
}
