// Segmentation descriptors.
ghost use Rattle.std.specs.Prelude.{◌≡◌};
ghost use Rattle.descriptor.specs.Segmentation.{count_of, ticks};
ghost use Rattle.c_items.specs.FlatItem.{flat_restrictions, flat_sub_segments, segmentation_head, active_segmentation};

use c_section::flat_flag;
use descriptor::segmentation::{
    DeliveryRestrictions, SegmentationDetail, SegmentationMode, SubSegment,
};

#[repr(C)]
#[derive(Clone, Copy)]
pub struct FlatRestrictions {
    pub web_delivery_allowed_flag: u64,
    pub no_regional_blackout_flag: u64,
    pub archive_allowed_flag: u64,
    pub device_restrictions: u64,
}

#[repr(C)]
#[derive(Clone, Copy)]
pub struct FlatSubSegments {
    pub present: u64,
    pub sub_segment_num: u64,
    pub sub_segments_expected: u64,
}

// The UPID's reported type; its bytes are those that the item has. Of a cancelled one, all after the cancel indicator is 0.
#[repr(C)]
#[derive(Clone, Copy)]
pub struct FlatSegmentation {
    pub segmentation_event_id: u64,
    pub segmentation_event_cancel_indicator: u64,
    pub program_segmentation_flag: u64,
    pub segmentation_duration_flag: u64,
    pub delivery_not_restricted_flag: u64,
    pub delivery_restrictions: FlatRestrictions,
    pub component_count: u64,
    pub segmentation_duration: u64,
    pub segmentation_upid_type: u64,
    pub segmentation_type_id: u64,
    pub segment_num: u64,
    pub segments_expected: u64,
    pub sub_segments: FlatSubSegments,
}

fn flat_restrictions(flags: Option<DeliveryRestrictions>) -> FlatRestrictions
    ensures { result ≡ flat_restrictions flags }
{
    match flags {
        None => FlatRestrictions {
            web_delivery_allowed_flag: 0,
            no_regional_blackout_flag: 0,
            archive_allowed_flag: 0,
            device_restrictions: 0,
        },
        Some(d) => {
            let devices = d.device_restrictions;
            FlatRestrictions {
                web_delivery_allowed_flag: flat_flag(d.web_delivery_allowed_flag),
                no_regional_blackout_flag: flat_flag(d.no_regional_blackout_flag),
                archive_allowed_flag: flat_flag(d.archive_allowed_flag),
                device_restrictions: u8::from(devices) as u64,
            }
        }
    }
}

fn flat_sub_segments(s: Option<SubSegment>) -> FlatSubSegments
    ensures { result ≡ flat_sub_segments s }
{
    match s {
        None => FlatSubSegments {
            present: 0,
            sub_segment_num: 0,
            sub_segments_expected: 0,
        },
        Some(x) => FlatSubSegments {
            present: 1,
            sub_segment_num: x.sub_segment_num as u64,
            sub_segments_expected: x.sub_segments_expected as u64,
        },
    }
}

fn duration(d: Option<u64>) -> u64
    ensures { result ≡ ticks d }
{
    match d {
        None => 0,
        Some(t) => t,
    }
}

fn component_count(m: SegmentationMode) -> u64
    ensures { result ≡ count_of m }
{
    match m {
        SegmentationMode::Program => 0,
        SegmentationMode::Component(n) => n as u64,
    }
}

// A descriptor without its detail.
pub(crate) fn segmentation_head(event: u64, cancel: u64) -> FlatSegmentation
    ensures { result ≡ segmentation_head event cancel }
{
    FlatSegmentation {
        segmentation_event_id: event,
        segmentation_event_cancel_indicator: cancel,
        program_segmentation_flag: 0,
        segmentation_duration_flag: 0,
        delivery_not_restricted_flag: 0,
        delivery_restrictions: flat_restrictions(None),
        component_count: 0,
        segmentation_duration: 0,
        segmentation_upid_type: 0,
        segmentation_type_id: 0,
        segment_num: 0,
        segments_expected: 0,
        sub_segments: flat_sub_segments(None),
    }
}

pub(crate) fn active_segmentation(event: u64, i: SegmentationDetail) -> FlatSegmentation
    ensures { result ≡ active_segmentation event i }
{
    let restrictions = i.delivery_restrictions;
    let mode = i.segmentation_mode;
    let lasts = i.segmentation_duration;
    let upid = i.segmentation_upid;
    let type_id = i.segmentation_type_id;
    let sub_segments = i.sub_segments;
    FlatSegmentation {
        segmentation_event_id: event,
        segmentation_event_cancel_indicator: 0,
        program_segmentation_flag: flat_flag(i.program_segmentation_flag),
        segmentation_duration_flag: flat_flag(i.segmentation_duration_flag),
        delivery_not_restricted_flag: flat_flag(i.delivery_not_restricted_flag),
        delivery_restrictions: flat_restrictions(restrictions),
        component_count: component_count(mode),
        segmentation_duration: duration(lasts),
        segmentation_upid_type: upid.upid_type as u64,
        segmentation_type_id: u8::from(type_id) as u64,
        segment_num: i.segment_num as u64,
        segments_expected: i.segments_expected as u64,
        sub_segments: flat_sub_segments(sub_segments),
    }
}
