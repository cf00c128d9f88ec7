// Where the views of an item lie, and the bytes that they name.
ghost use Rattle.std.specs.Prelude.{◌≡◌, ◌+◌, ◌^◌, ◌<◌};
ghost use Rattle.table.specs.Lent.{shifted, viewed};
ghost use Rattle.descriptor.specs.Descriptor.{moved_refusal};
ghost use Rattle.descriptor.specs.Views.{upid_views, descriptor_views, refusal_views};
ghost use Rattle.descriptor_loop.specs.Place.{first_view, view_of, moved_upid, moved_descriptor};
ghost use Rattle.descriptor_loop.specs.Private.{Movable, moved_active};

use crate::ItemRefusal;
use descriptor::Descriptor;
use descriptor::plain::DTMFDescriptor;
use descriptor::segmentation::{
    DescriptorDetail, SegmentationDescriptor, SegmentationDetail, SegmentationUpid,
};
use table::View;
use table::lent::view;
use upid::{Refusal, UPID_EIDR};

// A view of a part that lies at `base` of a whole, as a view of the whole.
fn move_view(v: View, base: usize) -> View
    requires { base + v.at < 2 ^ 64 }
    ensures { result ≡ shifted base v }
{
    View {
        at: base + v.at,
        len: v.len,
    }
}

// None and EIDR have the blank view wherever they lie.
fn move_upid(u: SegmentationUpid, base: usize) -> SegmentationUpid
    requires { Movable base (upid_views u) }
    ensures { result ≡ moved_upid base u }
{
    let upid_type = u.upid_type;
    let bytes = u.bytes;
    if upid_type == 0 {
        return u;
    }
    if upid_type == UPID_EIDR {
        return u;
    }
    SegmentationUpid {
        upid_type,
        bytes: move_view(bytes, base),
    }
}

fn move_active(active: SegmentationDetail, base: usize) -> SegmentationDetail
    requires { Movable base (upid_views active.segmentation_upid) }
    ensures { result ≡ moved_active base active }
{
    let upid = active.segmentation_upid;
    let delivery_restrictions = active.delivery_restrictions;
    let segmentation_mode = active.segmentation_mode;
    let segmentation_duration = active.segmentation_duration;
    let segmentation_type_id = active.segmentation_type_id;
    let sub_segments = active.sub_segments;
    SegmentationDetail {
        program_segmentation_flag: active.program_segmentation_flag,
        segmentation_duration_flag: active.segmentation_duration_flag,
        delivery_not_restricted_flag: active.delivery_not_restricted_flag,
        delivery_restrictions,
        segmentation_mode,
        segmentation_duration,
        segmentation_upid: move_upid(upid, base),
        segmentation_type_id,
        segment_num: active.segment_num,
        segments_expected: active.segments_expected,
        sub_segments,
    }
}

// A descriptor whose payload lies at `base` of the loop.
pub(crate) fn move_descriptor(d: Descriptor, base: usize) -> Descriptor
    requires { Movable base (descriptor_views d) }
    ensures { result ≡ moved_descriptor base d }
{
    match d {
        Descriptor::Avail(_) => d,
        Descriptor::Dtmf(dtmf) => {
            let chars = dtmf.dtmf_chars;
            Descriptor::Dtmf(DTMFDescriptor {
                preroll: dtmf.preroll,
                dtmf_chars: move_view(chars, base),
            })
        }
        Descriptor::Segmentation(segmentation) => {
            let detail = segmentation.descriptor_detail;
            match detail {
                DescriptorDetail::Cancel => d,
                DescriptorDetail::Active(active) => {
                    let there = DescriptorDetail::Active(move_active(active, base));
                    Descriptor::Segmentation(SegmentationDescriptor {
                        segmentation_event_id: segmentation.segmentation_event_id,
                        descriptor_detail: there,
                    })
                }
            }
        }
        Descriptor::Time(_) => d,
        Descriptor::Reserved { tag, private_bytes } => Descriptor::Reserved {
            tag,
            private_bytes: move_view(private_bytes, base),
        },
    }
}

// The refusal of such a payload.
pub(crate) fn move_refusal(r: Refusal, base: usize) -> Refusal
    requires { Movable base (refusal_views r) }
    ensures { result ≡ moved_refusal base r }
{
    match r {
        Refusal::InputTooLong => r,
        Refusal::NotEnoughData {
            expected: _,
            actual: _,
        } => r,
        Refusal::UpidLengthTypeMismatch => r,
        Refusal::InvalidUpidContent { upid_type, bytes } => Refusal::InvalidUpidContent {
            upid_type,
            bytes: move_view(bytes, base),
        },
        Refusal::InvalidUpidLength {
            upid_type: _,
            expected: _,
            actual: _,
        } => r,
    }
}

fn refusal_view(r: Refusal) -> View
    ensures { result ≡ first_view (refusal_views r) }
{
    match r {
        Refusal::InputTooLong => View { at: 0, len: 0 },
        Refusal::NotEnoughData {
            expected: _,
            actual: _,
        } => View { at: 0, len: 0 },
        Refusal::UpidLengthTypeMismatch => View { at: 0, len: 0 },
        Refusal::InvalidUpidContent {
            upid_type: _,
            bytes,
        } => bytes,
        Refusal::InvalidUpidLength {
            upid_type: _,
            expected: _,
            actual: _,
        } => View { at: 0, len: 0 },
    }
}

fn upid_view(u: SegmentationUpid) -> View
    ensures { result ≡ first_view (upid_views u) }
{
    if u.upid_type == 0 {
        return View { at: 0, len: 0 };
    }
    if u.upid_type == UPID_EIDR {
        return View { at: 0, len: 0 };
    }
    u.bytes
}

fn descriptor_view(d: Descriptor) -> View
    ensures { result ≡ first_view (descriptor_views d) }
{
    match d {
        Descriptor::Avail(_) => View { at: 0, len: 0 },
        Descriptor::Dtmf(dtmf) => dtmf.dtmf_chars,
        Descriptor::Segmentation(segmentation) => {
            let detail = segmentation.descriptor_detail;
            match detail {
                DescriptorDetail::Cancel => View { at: 0, len: 0 },
                DescriptorDetail::Active(active) => {
                    let upid = active.segmentation_upid;
                    upid_view(upid)
                }
            }
        }
        Descriptor::Time(_) => View { at: 0, len: 0 },
        Descriptor::Reserved {
            tag: _,
            private_bytes,
        } => private_bytes,
    }
}

// The view that an item has, blank where it has none.
pub fn view_of(item: Option<Result<Descriptor, ItemRefusal>>) -> View
    ensures { result ≡ view_of item }
{
    match item {
        None => View { at: 0, len: 0 },
        Some(Err(refusal)) => match refusal {
            ItemRefusal::InvalidDescriptorLength => View { at: 0, len: 0 },
            ItemRefusal::Other(r) => refusal_view(r),
        },
        Some(Ok(d)) => descriptor_view(d),
    }
}

// The bytes of an item's identifier (its DTMF characters, its UPID, its private bytes) or of the text that it is refused for, as a part of the lent loop.
pub fn bytes_of(descriptors: &[u8], item: Option<Result<Descriptor, ItemRefusal>>) -> &[u8]
    ensures { result.now ≡ viewed descriptors.now (view_of item) }
{
    let v = view_of(item);
    view(descriptors, v)
}
