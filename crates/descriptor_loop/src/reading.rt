// The full reading of an item, for those who ask: the step, and the components and the EIDR of a segmentation descriptor.
ghost use Rattle.std.specs.Prelude.{◌≡◌};
ghost use Rattle.descriptor_loop.specs.Items.{reading_of};

use crate::Step;
use crate::iteration::step;
use descriptor::full::{Beside, beside_of, blank_beside};

// A step, and what stands beside its item: blank beside all but a segmentation descriptor.
#[derive(Clone, Copy)]
pub struct Reading {
    pub step: Step,
    pub beside: Beside,
}

// The item at an offset of a loop, with all that stands beside it.
pub fn read_item(descriptors: &[u8], offset: usize) -> Reading
    ensures { result ≡ reading_of descriptors.now offset }
{
    let read = step(descriptors, offset);
    let item = read.item;
    let next = read.next;
    match item {
        None => Reading {
            step: read,
            beside: blank_beside(),
        },
        Some(Err(_)) => Reading {
            step: read,
            beside: blank_beside(),
        },
        Some(Ok(d)) => {
            let start = offset + 6;
            Reading {
                step: read,
                beside: beside_of(Ok(d), &descriptors[start..next]),
            }
        }
    }
}
