// Segmentation descriptors.
ghost use Rattle.std.specs.Prelude.{◌≡◌, ◌*◌};
ghost use Rattle.descriptor.specs.Descriptor.{reported_upid, active_with, active_of, segmentation_of};
ghost use Rattle.descriptor.specs.Segmentation.{head};
ghost use Rattle.descriptor.specs.Private.{upid_checked, head_read};
ghost use Rattle.table.specs.Bits.{bits_of};
ghost use Rattle.table.specs.Table.{parse};

use crate::Descriptor;
use crate::back::{Back, read_back};
use crate::front::{Front, read_front};
use crate::octet::number32;
use names::flags::DeviceRestrictions;
use names::segmentation::SegmentationTypeId;
use table::View;
use table::cursor::Short;
use table::lent::view;
use upid::{Refusal, check_upid};

#[derive(Clone, Copy)]
pub struct DeliveryRestrictions {
    pub web_delivery_allowed_flag: bool,
    pub no_regional_blackout_flag: bool,
    pub archive_allowed_flag: bool,
    pub device_restrictions: DeviceRestrictions,
}

// By components, with their count. The components themselves stand beside a descriptor. (No Option: the whole program is no absence.)
#[derive(Clone, Copy)]
pub enum SegmentationMode {
    Program,
    Component(u8),
}

// A segmentation descriptor has at most so many components.
pub const MAX_COMPONENTS: usize = 255;

#[derive(Clone, Copy)]
pub struct SegmentationComponent {
    pub component_tag: u8,
    pub pts_offset: u64,
}

// The type of a UPID and its bytes. None (type 0) and EIDR (type 10), whose bytes stand beside a descriptor, have the blank view.
#[derive(Clone, Copy)]
pub struct SegmentationUpid {
    pub upid_type: u8,
    pub bytes: View,
}

#[derive(Clone, Copy)]
pub struct SubSegment {
    pub sub_segment_num: u8,
    pub sub_segments_expected: u8,
}

// The three flags say what their parts say.
#[derive(Clone, Copy)]
pub struct SegmentationDetail {
    pub program_segmentation_flag: bool,
    pub segmentation_duration_flag: bool,
    pub delivery_not_restricted_flag: bool,
    pub delivery_restrictions: Option<DeliveryRestrictions>,
    pub segmentation_mode: SegmentationMode,
    pub segmentation_duration: Option<u64>,
    pub segmentation_upid: SegmentationUpid,
    pub segmentation_type_id: SegmentationTypeId,
    pub segment_num: u8,
    pub segments_expected: u8,
    pub sub_segments: Option<SubSegment>,
}

// No Option: a cancelled event is no absence.
#[derive(Clone, Copy)]
pub enum DescriptorDetail {
    Cancel,
    Active(SegmentationDetail),
}

#[derive(Clone, Copy)]
pub struct SegmentationDescriptor {
    pub segmentation_event_id: u32,
    pub descriptor_detail: DescriptorDetail,
}

// A UPID that its rules accept. Where there are no bytes to view, or they stand beside the descriptor, the view is blank.
fn reported(upid_type: u8, bytes: View) -> SegmentationUpid
    ensures { result ≡ reported_upid upid_type bytes }
{
    match upid_type {
        0 | 10 => SegmentationUpid {
            upid_type,
            bytes: View { at: 0, len: 0 },
        },
        _ => SegmentationUpid { upid_type, bytes },
    }
}

// A UPID as written, by its own rules: with its reported type, or refused, with a view that counts from the payload's start.
fn checked_upid(payload: &[u8], written: SegmentationUpid) -> Result<SegmentationUpid, Refusal>
    ensures { result ≡ upid_checked payload.now written }
{
    let bytes = written.bytes;
    let part = view(payload, bytes);
    match check_upid(written.upid_type, part) {
        Ok(upid_type) => Ok(reported(upid_type, bytes)),
        Err(refusal) => match refusal {
            Refusal::InputTooLong => Err(refusal),
            Refusal::NotEnoughData {
                expected: _,
                actual: _,
            } => Err(refusal),
            Refusal::UpidLengthTypeMismatch => Err(refusal),
            Refusal::InvalidUpidContent {
                upid_type,
                bytes: text,
            } => Err(Refusal::InvalidUpidContent {
                upid_type,
                bytes: View {
                    at: bytes.at + text.at,
                    len: text.len,
                },
            }),
            Refusal::InvalidUpidLength {
                upid_type: _,
                expected: _,
                actual: _,
            } => Err(refusal),
        },
    }
}

// A descriptor that is not cancelled, of all its fields.
fn active_with(
    event: u32,
    front: Front,
    segmentation_upid: SegmentationUpid,
    back: Back,
) -> Result<Descriptor, Refusal>
    ensures { result ≡ active_with event front segmentation_upid back }
{
    let delivery_restrictions = front.delivery_restrictions;
    let segmentation_mode = front.segmentation_mode;
    let segmentation_duration = front.segmentation_duration;
    let segmentation_type_id = back.segmentation_type_id;
    let sub_segments = back.sub_segments;
    Ok(Descriptor::Segmentation(SegmentationDescriptor {
        segmentation_event_id: event,
        descriptor_detail: DescriptorDetail::Active(SegmentationDetail {
            program_segmentation_flag: front.program_segmentation_flag,
            segmentation_duration_flag: front.segmentation_duration_flag,
            delivery_not_restricted_flag: front.delivery_not_restricted_flag,
            delivery_restrictions,
            segmentation_mode,
            segmentation_duration,
            segmentation_upid,
            segmentation_type_id,
            segment_num: back.segment_num,
            segments_expected: back.segments_expected,
            sub_segments,
        }),
    }))
}

// What follows the head of a descriptor that is not cancelled, from byte `at` on.
fn read_active(payload: &[u8], at: usize, event: u32) -> Result<Descriptor, Refusal>
    ensures { result ≡ active_of payload.now event (at * 8) }
{
    let fronted = read_front(payload, at)?;
    let front = fronted.value;
    let written = front.segmentation_upid;
    let segmentation_upid = checked_upid(payload, written)?;
    let back = read_back(payload, fronted.next)?;
    active_with(event, front, segmentation_upid, back)
}

// The event and whether it is cancelled. They take five bytes.
#[derive(Clone, Copy)]
pub(crate) struct Headed {
    pub event: u32,
    pub cancel: bool,
}

pub(crate) fn read_head(payload: &[u8]) -> Result<Headed, Short>
    ensures { head_read result (parse head (bits_of payload.now) 0) }
{
    let left = payload.len();
    if left < 4 {
        return Err(Short {
            expected: 4,
            actual: left,
        });
    }
    if left < 5 {
        return Err(Short {
            expected: 0,
            actual: 0,
        });
    }
    Ok(Headed {
        event: number32(payload, 0) as u32,
        cancel: payload[4] / 128 % 2 == 1,
    })
}

// Tag 2.
pub fn read_segmentation(payload: &[u8]) -> Result<Descriptor, Refusal>
    ensures { result ≡ segmentation_of payload.now }
{
    let head = read_head(payload)?;
    if head.cancel {
        return Ok(Descriptor::Segmentation(SegmentationDescriptor {
            segmentation_event_id: head.event,
            descriptor_detail: DescriptorDetail::Cancel,
        }));
    }
    read_active(payload, 5, head.event)
}
