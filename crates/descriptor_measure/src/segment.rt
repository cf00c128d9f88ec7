// A segmentation descriptor that is written: refusals 31 to 33, and its bytes.
ghost use Rattle.std.specs.Prelude.{◌≡◌, ◌<◌, [], take};
ghost use Rattle.descriptor.specs.Segmentation.{component_count, agrees, by_program, count_of, writable_detail, lasting, unrestricted, sub_bytes, mode_size, duration_size};
ghost use Rattle.descriptor.specs.Full.{filled};
ghost use Rattle.descriptor.specs.declared.segmentation.DescriptorDetail.TheVariants.{Active};
ghost use Rattle.table.specs.Writing.{within, refusal_in};
ghost use Rattle.descriptor_measure.specs.Private.{components_fields, mode_fields, duration_fields, sub_fields, numbers_fit};
ghost use Rattle.descriptor_measure.specs.Private.{RefusedSo};
ghost use Rattle.descriptor_measure.specs.Writing.{segmentation_made};

use crate::is_zero;
use crate::upids::is_writable_upid;
use descriptor::segmentation::{
    DeliveryRestrictions, DescriptorDetail, MAX_COMPONENTS, SegmentationComponent,
    SegmentationDescriptor, SegmentationDetail, SegmentationMode, SubSegment,
};
use names::numbering::Numbered;
use table::lent::lies_in;
use table::numbers::wide;
use upid::MAX_UPID;

// ---- what each flag should say

pub fn by_program(mode: SegmentationMode) -> bool
    ensures { result ≡ by_program mode }
{
    match mode {
        SegmentationMode::Program => true,
        SegmentationMode::Component(_) => false,
    }
}

pub fn lasts(duration: Option<u64>) -> bool
    ensures { result ≡ lasting duration }
{
    duration.is_some()
}

pub fn is_free(delivery: Option<DeliveryRestrictions>) -> bool
    ensures { result ≡ unrestricted delivery }
{
    delivery.is_none()
}

fn agree(flag: bool, says: bool) -> bool
    ensures { result ≡ agrees flag says }
{
    if flag { says } else { !says }
}

// Refusal 33: whether each flag says what its part says, and the type id is what its own number stands for.
fn is_writable_active(i: SegmentationDetail) -> bool
    ensures { result ≡ writable_detail (Active i) }
{
    let mode = i.segmentation_mode;
    let duration = i.segmentation_duration;
    let delivery = i.delivery_restrictions;
    let type_id = i.segmentation_type_id;
    if !agree(i.program_segmentation_flag, by_program(mode)) {
        return false;
    }
    if !agree(i.segmentation_duration_flag, lasts(duration)) {
        return false;
    }
    if !agree(i.delivery_not_restricted_flag, is_free(delivery)) {
        return false;
    }
    type_id.writable()
}

// ---- refusal 32. A number whose type is as wide as its field always fits.

// The first n components. Places past them are not looked at.
fn components_fit(components: [SegmentationComponent; MAX_COMPONENTS], n: usize) -> bool
    requires { n < 256 }
    ensures { result ≡ within (components_fields (take n components)) }
{
    for &component in &components[..n] {
        if 0x1_ffff_ffff < component.pts_offset {
            return false;
        }
    }
    true
}

fn mode_fits(mode: SegmentationMode, components: [SegmentationComponent; MAX_COMPONENTS]) -> bool
    ensures { (result ≡ within (mode_fields mode (take (count_of mode) components))) × (count_of mode < 256) }
{
    match mode {
        SegmentationMode::Program => true,
        SegmentationMode::Component(n) => components_fit(components, n as usize),
    }
}

fn duration_fits(duration: Option<u64>) -> bool
    ensures { result ≡ within (duration_fields duration) }
{
    match duration {
        None => true,
        Some(t) => t < 0x100_0000_0000,
    }
}

fn sub_segments_fit(sub_segments: Option<SubSegment>) -> bool
    ensures { result ≡ within (sub_fields sub_segments) }
{
    match sub_segments {
        None => true,
        Some(x) => {
            if 255 < wide(x.sub_segment_num) {
                return false;
            }
            wide(x.sub_segments_expected) < 256
        }
    }
}

// Of a count alone, without its components.
fn count_fits(mode: SegmentationMode) -> bool
    ensures { (result ≡ within (mode_fields mode [])) × (count_of mode < 256) }
{
    match mode {
        SegmentationMode::Program => true,
        SegmentationMode::Component(n) => wide(n) < 256,
    }
}

// All but the components' numbers.
fn numbers_fit(i: SegmentationDetail) -> bool
    ensures { (result ≡ numbers_fit i []) × (count_of i.segmentation_mode < 256) }
{
    let mode = i.segmentation_mode;
    let duration = i.segmentation_duration;
    let type_id = i.segmentation_type_id;
    let sub_segments = i.sub_segments;
    if !count_fits(mode) {
        return false;
    }
    if !duration_fits(duration) {
        return false;
    }
    if 255 < wide(type_id.into()) {
        return false;
    }
    sub_segments_fit(sub_segments)
}

// ---- the number of the first refusal of 31, 32 and 33, or 0. It is worked out without the components, and holds for all that fit.

fn refusal_of_active(
    event: u32,
    i: SegmentationDetail,
    identifier: [u8; 4],
    eidr: [u8; 12],
    lent: &[u8],
) -> u8
    ensures { RefusedSo (record { segmentation_event_id = event; descriptor_detail = Active i }) identifier eidr lent.now result }
{
    let upid = i.segmentation_upid;
    let bytes = upid.bytes;
    if !lies_in(lent, bytes) {
        return 31;
    }
    if MAX_UPID < bytes.len {
        return 32;
    }
    if !numbers_fit(i) {
        return 32;
    }
    if !is_zero(&identifier[..]) {
        return 33;
    }
    if !is_writable_active(i) {
        return 33;
    }
    if !is_writable_upid(upid, eidr, lent) {
        return 33;
    }
    0
}

fn refusal_without_components(
    x: SegmentationDescriptor,
    identifier: [u8; 4],
    eidr: [u8; 12],
    lent: &[u8],
) -> u8
    ensures { RefusedSo x identifier eidr lent.now result }
{
    let detail = x.descriptor_detail;
    match detail {
        DescriptorDetail::Cancel => {
            if !is_zero(&identifier[..]) {
                return 33;
            }
            if !is_zero(&eidr[..]) {
                return 33;
            }
            0
        }
        DescriptorDetail::Active(i) => {
            refusal_of_active(x.segmentation_event_id, i, identifier, eidr, lent)
        }
    }
}

// With blank components, which fit.
pub fn refusal_with_no_components(
    x: SegmentationDescriptor,
    identifier: [u8; 4],
    eidr: [u8; 12],
    lent: &[u8],
) -> u8
    ensures { result ≡ refusal_in (segmentation_made x identifier (record { components = filled []; eidr = eidr }) lent.now) }
{
    refusal_without_components(x, identifier, eidr, lent)
}

pub fn refusal_of_segmentation(
    x: SegmentationDescriptor,
    identifier: [u8; 4],
    components: [SegmentationComponent; MAX_COMPONENTS],
    eidr: [u8; 12],
    lent: &[u8],
) -> u8
    ensures { result ≡ refusal_in (segmentation_made x identifier (record { components = components; eidr = eidr }) lent.now) }
{
    let detail = x.descriptor_detail;
    let i = match detail {
        DescriptorDetail::Cancel => {
            return refusal_without_components(x, identifier, eidr, lent);
        }
        DescriptorDetail::Active(i) => i,
    };
    let mode = i.segmentation_mode;
    let upid = i.segmentation_upid;
    let bytes = upid.bytes;
    if !lies_in(lent, bytes) {
        return 31;
    }
    if !mode_fits(mode, components) {
        return 32;
    }
    refusal_without_components(x, identifier, eidr, lent)
}

// ---- the bytes of a payload

// How many components it has.
pub fn count_in_segmentation(x: SegmentationDescriptor) -> u8
    ensures { result ≡ component_count x }
{
    let detail = x.descriptor_detail;
    let active = match detail {
        DescriptorDetail::Cancel => return 0,
        DescriptorDetail::Active(i) => i,
    };
    let mode = active.segmentation_mode;
    match mode {
        SegmentationMode::Program => 0,
        SegmentationMode::Component(n) => n,
    }
}

pub fn mode_size(mode: SegmentationMode) -> usize
    ensures { (result ≡ mode_size mode) × (result < 1532) }
{
    match mode {
        SegmentationMode::Program => 0,
        SegmentationMode::Component(n) => 1 + (n as usize) * 6,
    }
}

pub fn duration_size(duration: Option<u64>) -> usize
    ensures { (result ≡ duration_size duration) × (result < 6) }
{
    if duration.is_some() { 5 } else { 0 }
}

pub fn sub_size(sub_segments: Option<SubSegment>) -> usize
    ensures { (result ≡ sub_bytes sub_segments) × (result < 3) }
{
    if sub_segments.is_some() { 2 } else { 0 }
}
