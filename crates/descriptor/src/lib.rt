// Splice descriptors: what an item of the loop holds (document 01, "Loop items"). A payload is what follows the identifier; views count from its start.
#![tactic(auto)]

ghost use Rattle.std.specs.Prelude.{◌≡◌};
ghost use Rattle.descriptor.specs.Descriptor.{is_cuei, descriptor_of};

use crate::plain::{
    AvailDescriptor, DTMFDescriptor, TimeDescriptor, read_avail, read_dtmf, read_reserved,
    read_time,
};
use crate::segmentation::{SegmentationDescriptor, read_segmentation};
use table::View;
use upid::Refusal;

mod back;
mod front;
pub mod full;
mod octet;
pub mod plain;
pub mod segmentation;

// A descriptor. The identifier of a reserved one stands beside it.
#[derive(Clone, Copy)]
pub enum Descriptor {
    Avail(AvailDescriptor),
    Dtmf(DTMFDescriptor),
    Segmentation(SegmentationDescriptor),
    Time(TimeDescriptor),
    Reserved { tag: u8, private_bytes: View },
}

// Whether an identifier is "CUEI".
pub fn is_cuei(identifier: [u8; 4]) -> bool
    ensures { result ≡ is_cuei identifier }
{
    if identifier[0] != 0x43 {
        return false;
    }
    if identifier[1] != 0x55 {
        return false;
    }
    if identifier[2] != 0x45 {
        return false;
    }
    identifier[3] == 0x49
}

// The descriptor that a tag, an identifier and a payload make. Each arm returns, here and where a caller matches the answer: what
// is built is then stored where it goes, and is not merged with what the other arms build.
pub fn read_descriptor(tag: u8, identifier: [u8; 4], payload: &[u8]) -> Result<Descriptor, Refusal>
    ensures { result ≡ descriptor_of tag identifier payload.now }
{
    if is_cuei(identifier) {
        match tag {
            0 => return read_avail(payload),
            1 => return read_dtmf(payload),
            2 => return read_segmentation(payload),
            3 => return read_time(payload),
            _ => return read_reserved(tag, payload),
        }
    }
    read_reserved(tag, payload)
}
