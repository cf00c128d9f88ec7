// What stands beside an item: the components and the EIDR of a segmentation descriptor.
ghost use Rattle.std.specs.Prelude.{◌≡◌, map};
ghost use Rattle.c_items.specs.FlatItem.{flat_component, flat_beside};

use crate::descriptors::flat_item;
use crate::steps::{refusal_number, refusal_values};
use crate::upids::flat_eidr;
use descriptor::segmentation::{MAX_COMPONENTS, SegmentationComponent};
use descriptor_loop::reading::Reading;
use std::array;

#[repr(C)]
#[derive(Clone, Copy)]
pub struct FlatSegmentationComponent {
    pub component_tag: u64,
    pub pts_offset: u64,
}

// The components before the count, all zero past it; the EIDR, a byte to a word, all zero where the UPID is no EIDR.
#[repr(C)]
#[derive(Clone, Copy)]
pub struct FlatBeside {
    pub refusal: u64,
    pub values: [u64; 3],
    pub count: u64,
    pub components: [FlatSegmentationComponent; 255],
    pub eidr: [u64; 12],
}

fn flat_component(c: SegmentationComponent) -> FlatSegmentationComponent
    ensures { result ≡ flat_component c }
{
    FlatSegmentationComponent {
        component_tag: c.component_tag as u64,
        pts_offset: c.pts_offset,
    }
}

// `from_fn` and not the array's `map`, which takes four times the instructions.
fn flat_components(
    cs: [SegmentationComponent; MAX_COMPONENTS],
) -> [FlatSegmentationComponent; MAX_COMPONENTS]
    ensures { result ≡ map flat_component cs }
{
    array::from_fn(|i| flat_component(cs[i]))
}

pub fn flat_beside(reading: Reading) -> FlatBeside
    ensures { result ≡ flat_beside reading }
{
    let step = reading.step;
    let item = step.item;
    let told = flat_item(item);
    let segmentation = told.segmentation;
    let beside = reading.beside;
    let components = beside.components;
    let eidr = beside.eidr;
    FlatBeside {
        refusal: refusal_number(item),
        values: refusal_values(item),
        count: segmentation.component_count,
        components: flat_components(components),
        eidr: flat_eidr(eidr),
    }
}
