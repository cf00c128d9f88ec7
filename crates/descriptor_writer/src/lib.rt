// The descriptor writer (document 01, "Canonical form and writer"): all tests first, in the order of the refusals' numbers, and then the stores, so that a
// refused write changes no byte.
#![tactic(auto)]

ghost use Rattle.std.specs.Prelude.{[]};
ghost use Rattle.descriptor.specs.Full.{filled};
ghost use Rattle.descriptor_measure.specs.Writing.{descriptor_made};
ghost use Rattle.descriptor_writer.specs.Stores.{Writes};

use crate::plain::{write_avail, write_dtmf, write_reserved, write_time};
use crate::segmentation::{write_segmentation, write_segmentation_without_components};
use descriptor::Descriptor;
use descriptor::full::Beside;

mod envelope;
mod parts;
mod plain;
mod segmentation;

// The descriptor of an item, whose views are of the lent bytes. The identifier is that of a reserved one, all zero with any other. It has no components, or
// blank ones.
pub fn write_descriptor_without_components(
    d: Descriptor,
    identifier: [u8; 4],
    eidr: [u8; 12],
    lent: &[u8],
    target: &mut [u8],
) -> Result<usize, u8>
    ensures { Writes (descriptor_made d identifier (record { components = filled []; eidr = eidr }) lent.now) target.old target.new result }
{
    match d {
        Descriptor::Avail(x) => write_avail(x, identifier, eidr, target),
        Descriptor::Dtmf(x) => write_dtmf(x, identifier, eidr, lent, target),
        Descriptor::Segmentation(x) => write_segmentation_without_components(
            x, identifier, eidr, lent, target,
        ),
        Descriptor::Time(x) => write_time(x, identifier, eidr, target),
        Descriptor::Reserved { tag, private_bytes } => {
            write_reserved(tag, private_bytes, identifier, eidr, lent, target)
        }
    }
}

// With its components.
pub fn write_descriptor(
    d: Descriptor,
    identifier: [u8; 4],
    beside: Beside,
    lent: &[u8],
    target: &mut [u8],
) -> Result<usize, u8>
    ensures { Writes (descriptor_made d identifier beside lent.now) target.old target.new result }
{
    let eidr = beside.eidr;
    let x = match d {
        Descriptor::Avail(_) => return write_descriptor_without_components(
            d, identifier, eidr, lent, target,
        ),
        Descriptor::Dtmf(_) => return write_descriptor_without_components(
            d, identifier, eidr, lent, target,
        ),
        Descriptor::Segmentation(x) => x,
        Descriptor::Time(_) => return write_descriptor_without_components(
            d, identifier, eidr, lent, target,
        ),
        Descriptor::Reserved {
            tag: _,
            private_bytes: _,
        } => return write_descriptor_without_components(d, identifier, eidr, lent, target),
    };
    let components = beside.components;
    write_segmentation(x, identifier, components, eidr, lent, target)
}
