// What an item of a loop is.
ghost use Rattle.std.specs.Prelude.{◌≡◌};
ghost use Rattle.descriptor.specs.declared.Descriptor.TheVariants.{Avail, Dtmf, Time, Reserved};
ghost use Rattle.descriptor.specs.declared.segmentation.DescriptorDetail.TheVariants.{Cancel, Active};
ghost use Rattle.c_items.specs.FlatItem.{flat_time_descriptor, blank_item, segmentation_item, flat_descriptor, flat_item};

use crate::segmentations::{FlatSegmentation, active_segmentation, segmentation_head};
use c_section::{FlatView, flat_view};
use descriptor::Descriptor;
use descriptor::plain::{AvailDescriptor, DTMFDescriptor, TimeDescriptor};
use descriptor::segmentation::{DescriptorDetail, SegmentationDetail};
use descriptor_loop::ItemRefusal;
use table::View;

#[repr(C)]
#[derive(Clone, Copy)]
pub struct FlatTimeDescriptor {
    pub tai_seconds: u64,
    pub tai_nanoseconds: u64,
    pub utc_offset: u64,
}

// Kind 0: the end; 1 avail, 2 DTMF, 3 cancelled segmentation, 4 segmentation, 5 time, 6 reserved; 7 refused. All that belongs to another kind is 0.
#[repr(C)]
#[derive(Clone, Copy)]
pub struct FlatItem {
    pub kind: u64,
    pub provider_avail_id: u64,
    pub preroll: u64,
    pub segmentation: FlatSegmentation,
    pub time: FlatTimeDescriptor,
    pub splice_descriptor_tag: u64,
    pub bytes: FlatView,
}

fn flat_time_descriptor(t: TimeDescriptor) -> FlatTimeDescriptor
    ensures { result ≡ flat_time_descriptor t }
{
    FlatTimeDescriptor {
        tai_seconds: t.tai_seconds,
        tai_nanoseconds: t.tai_nanoseconds as u64,
        utc_offset: t.utc_offset as u64,
    }
}

// An item of a kind, without the parts that the others have.
fn blank_item(kind: u64) -> FlatItem
    ensures { result ≡ blank_item kind }
{
    FlatItem {
        kind,
        provider_avail_id: 0,
        preroll: 0,
        segmentation: segmentation_head(0, 0),
        time: FlatTimeDescriptor {
            tai_seconds: 0,
            tai_nanoseconds: 0,
            utc_offset: 0,
        },
        splice_descriptor_tag: 0,
        bytes: FlatView { at: 0, len: 0 },
    }
}

fn avail_item(x: AvailDescriptor) -> FlatItem
    ensures { result ≡ flat_descriptor (Avail x) }
{
    let mut out = blank_item(1);
    out.provider_avail_id = x.provider_avail_id as u64;
    out
}

fn dtmf_item(x: DTMFDescriptor) -> FlatItem
    ensures { result ≡ flat_descriptor (Dtmf x) }
{
    let chars = x.dtmf_chars;
    let mut out = blank_item(2);
    out.preroll = x.preroll as u64;
    out.bytes = flat_view(chars);
    out
}

fn cancelled_item(event: u64) -> FlatItem
    ensures { result ≡ segmentation_item event Cancel }
{
    let mut out = blank_item(3);
    out.segmentation = segmentation_head(event, 1);
    out
}

fn active_item(event: u64, i: SegmentationDetail) -> FlatItem
    ensures { result ≡ segmentation_item event (Active i) }
{
    let upid = i.segmentation_upid;
    let bytes = upid.bytes;
    let mut out = blank_item(4);
    out.segmentation = active_segmentation(event, i);
    out.bytes = flat_view(bytes);
    out
}

fn time_item(x: TimeDescriptor) -> FlatItem
    ensures { result ≡ flat_descriptor (Time x) }
{
    let mut out = blank_item(5);
    out.time = flat_time_descriptor(x);
    out
}

fn reserved_item(tag: u8, private_bytes: View) -> FlatItem
    ensures { result ≡ flat_descriptor (Reserved tag private_bytes) }
{
    let mut out = blank_item(6);
    out.splice_descriptor_tag = tag as u64;
    out.bytes = flat_view(private_bytes);
    out
}

// Each arm returns: its words are then stored where they go, and are not merged with those of the other arms.
pub(crate) fn flat_item(item: Option<Result<Descriptor, ItemRefusal>>) -> FlatItem
    ensures { result ≡ flat_item item }
{
    match item {
        None => return blank_item(0),
        Some(Err(_)) => return blank_item(7),
        Some(Ok(d)) => match d {
            Descriptor::Avail(x) => return avail_item(x),
            Descriptor::Dtmf(x) => return dtmf_item(x),
            Descriptor::Segmentation(x) => {
                let event = x.segmentation_event_id as u64;
                let detail = x.descriptor_detail;
                match detail {
                    DescriptorDetail::Cancel => return cancelled_item(event),
                    DescriptorDetail::Active(i) => return active_item(event, i),
                }
            }
            Descriptor::Time(x) => return time_item(x),
            Descriptor::Reserved { tag, private_bytes } => return reserved_item(tag, private_bytes),
        },
    }
}
