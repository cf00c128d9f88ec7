// Whether the bytes of a descriptor and of a loop are canonical (document 01, "Canonical form and writer"): a walk by byte places that writes nothing.
#![tactic(auto)]

ghost use Rattle.std.specs.Prelude.{◌≡◌, ◌<◌};
ghost use Rattle.canonical_form.specs.Descriptor.{canonical_payload, canonical_descriptor, canonical_loop};

use crate::payload::is_canonical_dtmf;
use crate::segment::is_canonical_segmentation;
use descriptor::is_cuei;
use descriptor_loop::MAX_DESCRIPTOR;
use table::numbers::size;

mod payload;
mod segment;

// By identifier and tag. Every payload of a reserved descriptor is canonical.
fn is_canonical_payload(tag: u8, identifier: [u8; 4], payload: &[u8]) -> bool
    ensures { result ≡ canonical_payload tag identifier payload.now }
{
    if is_cuei(identifier) {
        return match tag {
            0 => payload.len() == 4,
            1 => is_canonical_dtmf(payload),
            2 => is_canonical_segmentation(payload),
            3 => payload.len() == 12,
            _ => true,
        };
    }
    true
}

// Whether these are the bytes of one canonical descriptor.
pub fn is_canonical_descriptor(descriptor: &[u8]) -> bool
    ensures { result ≡ canonical_descriptor descriptor.now }
{
    let end = descriptor.len();
    if end < 6 {
        return false;
    }
    let len = size(descriptor[1]);
    if len + 2 != end {
        return false;
    }
    if MAX_DESCRIPTOR < len {
        return false;
    }
    let identifier = [descriptor[2], descriptor[3], descriptor[4], descriptor[5]];
    is_canonical_payload(descriptor[0], identifier, &descriptor[6..end])
}

// Whether these are the bytes of canonical descriptors, one after the other.
pub fn is_canonical_loop(descriptors: &[u8]) -> bool
    ensures { result ≡ canonical_loop descriptors.now }
{
    let mut at: usize = 0;
    // Each descriptor says where the next one starts, so this counts no index.
    while at < descriptors.len() {
        let left = descriptors.len() - at;
        if left < 6 {
            return false;
        }
        let taken = size(descriptors[at + 1]) + 2;
        if left < taken {
            return false;
        }
        let next = at + taken;
        if !is_canonical_descriptor(&descriptors[at..next]) {
            return false;
        }
        at = next;
    }
    true
}
