// The descriptor that words make, and refusals 32 and 33 of its words.
ghost use Rattle.std.specs.Prelude.{◌≡◌, drop};
ghost use Rattle.descriptor.specs.Segmentation.{device_of};
ghost use Rattle.c_command_writer.specs.Words.{within, same};
ghost use Rattle.c_descriptor_writer.specs.ItemGiven.{restrictions_in, sub_segments_in, segmentation_in, item_in, restrictions_from};
ghost use Rattle.c_descriptor_writer.specs.ItemWords.{item_words, item_widths};
ghost use Rattle.c_descriptor_writer.specs.ItemGiven.{delivery_from, mode_from, duration_from, sub_segments_from, detail_from, descriptor_from, descriptor_given};

use c_command_writer::{are_four_same, are_four_within, are_same, word_at, words_from};
use c_items::descriptors::{FlatItem, FlatTimeDescriptor};
use c_items::segmentations::{FlatRestrictions, FlatSegmentation, FlatSubSegments};
use c_section::FlatView;
use descriptor::Descriptor;
use descriptor::plain::{AvailDescriptor, DTMFDescriptor, TimeDescriptor};
use descriptor::segmentation::{
    DeliveryRestrictions, DescriptorDetail, SegmentationDescriptor, SegmentationDetail,
    SegmentationMode, SegmentationUpid, SubSegment,
};
use names::flags::DeviceRestrictions;
use names::segmentation::SegmentationTypeId;
use table::View;

// ---- the struct that words are

// A step's words, and those of them that more than one function looks at, by their fields: each that begins four which are tested together, the kind and the
// UPID's type, which tell of an EIDR, and the view.
pub(crate) const STEP_WORDS: usize = 33;

pub(crate) const IDENTIFIER: usize = 5;

pub(crate) const KIND: usize = 6;

const EVENT_ID: usize = 9;

const CANCEL_INDICATOR: usize = 10;

const NOT_RESTRICTED: usize = 13;

const WEB_DELIVERY: usize = 14;

const DEVICE_RESTRICTIONS: usize = 17;

const COMPONENT_COUNT: usize = 18;

pub(crate) const UPID_TYPE: usize = 20;

const TYPE_ID: usize = 21;

const SEGMENT_NUM: usize = 22;

const SUB_SEGMENT_NUM: usize = 25;

const SUB_SEGMENTS_EXPECTED: usize = 26;

const UTC_OFFSET: usize = 29;

const DESCRIPTOR_TAG: usize = 30;

pub(crate) const BYTES_AT: usize = 31;

pub(crate) const BYTES_LEN: usize = 32;

fn restrictions_in(words: &[u64]) -> FlatRestrictions
    ensures { result ≡ restrictions_in words.now }
{
    FlatRestrictions {
        web_delivery_allowed_flag: word_at(words, WEB_DELIVERY),
        no_regional_blackout_flag: word_at(words, 15),
        archive_allowed_flag: word_at(words, 16),
        device_restrictions: word_at(words, DEVICE_RESTRICTIONS),
    }
}

fn sub_segments_in(words: &[u64]) -> FlatSubSegments
    ensures { result ≡ sub_segments_in words.now }
{
    FlatSubSegments {
        present: word_at(words, 24),
        sub_segment_num: word_at(words, SUB_SEGMENT_NUM),
        sub_segments_expected: word_at(words, SUB_SEGMENTS_EXPECTED),
    }
}

fn segmentation_in(words: &[u64]) -> FlatSegmentation
    ensures { result ≡ segmentation_in words.now }
{
    FlatSegmentation {
        segmentation_event_id: word_at(words, EVENT_ID),
        segmentation_event_cancel_indicator: word_at(words, CANCEL_INDICATOR),
        program_segmentation_flag: word_at(words, 11),
        segmentation_duration_flag: word_at(words, 12),
        delivery_not_restricted_flag: word_at(words, NOT_RESTRICTED),
        delivery_restrictions: restrictions_in(words),
        component_count: word_at(words, COMPONENT_COUNT),
        segmentation_duration: word_at(words, 19),
        segmentation_upid_type: word_at(words, UPID_TYPE),
        segmentation_type_id: word_at(words, TYPE_ID),
        segment_num: word_at(words, SEGMENT_NUM),
        segments_expected: word_at(words, 23),
        sub_segments: sub_segments_in(words),
    }
}

fn item_in(words: &[u64]) -> FlatItem
    ensures { result ≡ item_in words.now }
{
    FlatItem {
        kind: word_at(words, KIND),
        provider_avail_id: word_at(words, 7),
        preroll: word_at(words, 8),
        segmentation: segmentation_in(words),
        time: FlatTimeDescriptor {
            tai_seconds: word_at(words, 27),
            tai_nanoseconds: word_at(words, 28),
            utc_offset: word_at(words, UTC_OFFSET),
        },
        splice_descriptor_tag: word_at(words, DESCRIPTOR_TAG),
        bytes: FlatView {
            at: word_at(words, BYTES_AT),
            len: word_at(words, BYTES_LEN),
        },
    }
}

// Refusal 32 of the identifier and of the words of an item, in their order: is each within its width?
pub(crate) fn is_item_within(words: &[u64]) -> bool
    ensures { result ≡ within item_widths (drop 5 words.now) }
{
    // identifier; kind, provider_avail_id, preroll
    if !are_four_within(32, 64, 32, 8, words_from(words, IDENTIFIER)) {
        return false;
    }
    // segmentation_event_id, segmentation_event_cancel_indicator, program_segmentation_flag, segmentation_duration_flag
    if !are_four_within(32, 1, 1, 1, words_from(words, EVENT_ID)) {
        return false;
    }
    // delivery_not_restricted_flag, web_delivery_allowed_flag, no_regional_blackout_flag, archive_allowed_flag
    if !are_four_within(1, 1, 1, 1, words_from(words, NOT_RESTRICTED)) {
        return false;
    }
    // device_restrictions, component_count, segmentation_duration, segmentation_upid_type
    if !are_four_within(2, 8, 40, 8, words_from(words, DEVICE_RESTRICTIONS)) {
        return false;
    }
    // segmentation_type_id, segment_num, segments_expected; present
    if !are_four_within(8, 8, 8, 1, words_from(words, TYPE_ID)) {
        return false;
    }
    // sub_segment_num, sub_segments_expected; tai_seconds, tai_nanoseconds
    if !are_four_within(8, 8, 48, 32, words_from(words, SUB_SEGMENT_NUM)) {
        return false;
    }
    // utc_offset; splice_descriptor_tag; bytes
    are_four_within(16, 8, 64, 64, words_from(words, UTC_OFFSET))
}

// Refusal 33 of the words of an item from sub_segments_expected on: are they those of a flat form?
fn is_flat_end(i: FlatItem, words: &[u64]) -> bool
    ensures { result ≡ same (drop 20 (item_words i)) (drop 26 words.now) }
{
    let s = i.segmentation;
    let subs = s.sub_segments;
    let time = i.time;
    let bytes = i.bytes;
    if !are_four_same(
        subs.sub_segments_expected,
        time.tai_seconds,
        time.tai_nanoseconds,
        time.utc_offset,
        words_from(words, SUB_SEGMENTS_EXPECTED),
    ) {
        return false;
    }
    let last = [i.splice_descriptor_tag, bytes.at, bytes.len];
    are_same(&last, words_from(words, DESCRIPTOR_TAG))
}

// From its count of components on.
fn is_flat_behind(i: FlatItem, words: &[u64]) -> bool
    ensures { result ≡ same (drop 12 (item_words i)) (drop 18 words.now) }
{
    let s = i.segmentation;
    let subs = s.sub_segments;
    if !are_four_same(
        s.component_count,
        s.segmentation_duration,
        s.segmentation_upid_type,
        s.segmentation_type_id,
        words_from(words, COMPONENT_COUNT),
    ) {
        return false;
    }
    if !are_four_same(
        s.segment_num,
        s.segments_expected,
        subs.present,
        subs.sub_segment_num,
        words_from(words, SEGMENT_NUM),
    ) {
        return false;
    }
    is_flat_end(i, words)
}

// Are the words those of this flat item?
pub(crate) fn is_flat_item(i: FlatItem, words: &[u64]) -> bool
    ensures { result ≡ same (item_words i) (drop 6 words.now) }
{
    let s = i.segmentation;
    let restrictions = s.delivery_restrictions;
    if !are_four_same(
        i.kind,
        i.provider_avail_id,
        i.preroll,
        s.segmentation_event_id,
        words_from(words, KIND),
    ) {
        return false;
    }
    if !are_four_same(
        s.segmentation_event_cancel_indicator,
        s.program_segmentation_flag,
        s.segmentation_duration_flag,
        s.delivery_not_restricted_flag,
        words_from(words, CANCEL_INDICATOR),
    ) {
        return false;
    }
    if !are_four_same(
        restrictions.web_delivery_allowed_flag,
        restrictions.no_regional_blackout_flag,
        restrictions.archive_allowed_flag,
        restrictions.device_restrictions,
        words_from(words, WEB_DELIVERY),
    ) {
        return false;
    }
    is_flat_behind(i, words)
}

// ---- the value that it makes

fn device_from(bits: u64) -> DeviceRestrictions
    ensures { result ≡ device_of bits }
{
    match bits {
        0 => DeviceRestrictions::RestrictGroup0,
        1 => DeviceRestrictions::RestrictGroup1,
        2 => DeviceRestrictions::RestrictGroup2,
        _ => DeviceRestrictions::None,
    }
}

fn restrictions_from(r: FlatRestrictions) -> DeliveryRestrictions
    ensures { result ≡ restrictions_from r }
{
    DeliveryRestrictions {
        web_delivery_allowed_flag: r.web_delivery_allowed_flag == 1,
        no_regional_blackout_flag: r.no_regional_blackout_flag == 1,
        archive_allowed_flag: r.archive_allowed_flag == 1,
        device_restrictions: device_from(r.device_restrictions),
    }
}

fn delivery_from(s: FlatSegmentation) -> Option<DeliveryRestrictions>
    ensures { result ≡ delivery_from s }
{
    if s.delivery_not_restricted_flag == 1 {
        return None;
    }
    let restrictions = s.delivery_restrictions;
    Some(restrictions_from(restrictions))
}

fn mode_from(s: FlatSegmentation) -> SegmentationMode
    ensures { result ≡ mode_from s }
{
    if s.program_segmentation_flag == 1 {
        return SegmentationMode::Program;
    }
    SegmentationMode::Component((s.component_count % 256) as u8)
}

fn duration_from(s: FlatSegmentation) -> Option<u64>
    ensures { result ≡ duration_from s }
{
    if s.segmentation_duration_flag == 1 {
        return Some(s.segmentation_duration);
    }
    None
}

fn sub_segments_from(s: FlatSubSegments) -> Option<SubSegment>
    ensures { result ≡ sub_segments_from s }
{
    if s.present == 1 {
        return Some(SubSegment {
            sub_segment_num: (s.sub_segment_num % 256) as u8,
            sub_segments_expected: (s.sub_segments_expected % 256) as u8,
        });
    }
    None
}

fn detail_from(s: FlatSegmentation, bytes: View) -> SegmentationDetail
    ensures { result ≡ detail_from s bytes }
{
    let subs = s.sub_segments;
    SegmentationDetail {
        program_segmentation_flag: s.program_segmentation_flag == 1,
        segmentation_duration_flag: s.segmentation_duration_flag == 1,
        delivery_not_restricted_flag: s.delivery_not_restricted_flag == 1,
        delivery_restrictions: delivery_from(s),
        segmentation_mode: mode_from(s),
        segmentation_duration: duration_from(s),
        segmentation_upid: SegmentationUpid {
            upid_type: (s.segmentation_upid_type % 256) as u8,
            bytes,
        },
        segmentation_type_id: SegmentationTypeId::from((s.segmentation_type_id % 256) as u8),
        segment_num: (s.segment_num % 256) as u8,
        segments_expected: (s.segments_expected % 256) as u8,
        sub_segments: sub_segments_from(subs),
    }
}

fn descriptor_from(i: FlatItem) -> Descriptor
    ensures { result ≡ descriptor_from i }
{
    let kind = i.kind;
    let s = i.segmentation;
    let time = i.time;
    let named = i.bytes;
    let bytes = View {
        at: named.at as usize,
        len: named.len as usize,
    };
    match kind {
        2 => Descriptor::Dtmf(DTMFDescriptor {
            preroll: (i.preroll % 256) as u8,
            dtmf_chars: bytes,
        }),
        3 => Descriptor::Segmentation(SegmentationDescriptor {
            segmentation_event_id: (s.segmentation_event_id % 0x1_0000_0000) as u32,
            descriptor_detail: DescriptorDetail::Cancel,
        }),
        4 => Descriptor::Segmentation(SegmentationDescriptor {
            segmentation_event_id: (s.segmentation_event_id % 0x1_0000_0000) as u32,
            descriptor_detail: DescriptorDetail::Active(detail_from(s, bytes)),
        }),
        5 => Descriptor::Time(TimeDescriptor {
            tai_seconds: time.tai_seconds,
            tai_nanoseconds: (time.tai_nanoseconds % 0x1_0000_0000) as u32,
            utc_offset: (time.utc_offset % 65536) as u16,
        }),
        6 => Descriptor::Reserved {
            tag: (i.splice_descriptor_tag % 256) as u8,
            private_bytes: bytes,
        },
        _ => Descriptor::Avail(AvailDescriptor {
            provider_avail_id: (i.provider_avail_id % 0x1_0000_0000) as u32,
        }),
    }
}

// The descriptor that the words of a step make.
pub(crate) fn descriptor_given(words: &[u64]) -> Descriptor
    ensures { result ≡ descriptor_given words.now }
{
    descriptor_from(item_in(words))
}
