// The parts of a segmentation descriptor's payload, each stored from a cursor on as its table has it. A part that has no field is a store of no bits, which
// leaves the cursor as any other does.
ghost use Rattle.std.specs.Prelude.{◌≡◌, List, [], ◌∷◌, ◌++◌, ℕ, ◌<◌, take};
ghost use Rattle.descriptor.specs.declared.segmentation.SegmentationComponent.{SegmentationComponent};
ghost use Rattle.descriptor_measure.specs.Private.{head_fields, flag_fields, delivery_fields, components_fields, mode_fields, duration_fields, sub_fields, back_fields};
ghost use Rattle.table.specs.Writing.{number, contents, print};
ghost use Rattle.descriptor_writer.specs.Private.{Stores, component_bytes};

use bit_stores::{put_bits, put_run};
use descriptor::segmentation::{
    DeliveryRestrictions, MAX_COMPONENTS, SegmentationComponent, SegmentationDetail,
    SegmentationMode, SubSegment,
};
use table::cursor::Cursor;
use table::numbers::{flag_number, wide};

pub(crate) fn store_head(out: &mut [u8], c: Cursor, event: u32, cancel: bool) -> Cursor
    ensures { (from : List ℕ) → Stores out.old c (contents from (head_fields event cancel)) out.new result }
{
    put_bits(
        out,
        c,
        40,
        event as u64 * 256 + flag_number(cancel) * 128 + 127,
    )
}

// The five bits behind the flags: what is restricted, or reserved bits.
fn delivery_number(delivery: Option<DeliveryRestrictions>) -> u64
    ensures { (result < 32) × ((from : List ℕ) → print (contents from (delivery_fields delivery)) ≡ print (number 5 result ∷ [])) }
{
    match delivery {
        None => 31,
        Some(r) => {
            let device = r.device_restrictions;
            let web = flag_number(r.web_delivery_allowed_flag);
            let blackout = flag_number(r.no_regional_blackout_flag);
            let archive = flag_number(r.archive_allowed_flag);
            web * 16 + blackout * 8 + archive * 4 + wide(device.into())
        }
    }
}

// The byte of the flags.
pub(crate) fn store_flags(
    out: &mut [u8],
    c: Cursor,
    program: bool,
    lasts: bool,
    free: bool,
    delivery: Option<DeliveryRestrictions>,
) -> Cursor
    ensures { (from : List ℕ) → Stores out.old c (contents from (flag_fields program lasts free ++ delivery_fields delivery)) out.new result }
{
    let first = flag_number(program);
    let second = flag_number(lasts);
    let third = flag_number(free);
    let rest = delivery_number(delivery);
    put_bits(out, c, 8, first * 128 + second * 64 + third * 32 + rest)
}

// (The offset fits its 33 bits, which the remainder says to the proof.)
fn store_component(out: &mut [u8], c: Cursor, component: SegmentationComponent) -> Cursor
    ensures { (from : List ℕ) → Stores out.old c (contents from (components_fields (component ∷ []))) out.new result }
{
    let tag = wide(component.component_tag);
    put_bits(
        out,
        c,
        48,
        tag * 0x100_0000_0000 + 0xFE_0000_0000 + component.pts_offset % 0x2_0000_0000,
    )
}

// The first n components.
pub(crate) fn store_components(
    out: &mut [u8],
    c: Cursor,
    components: [SegmentationComponent; MAX_COMPONENTS],
    n: usize,
) -> Cursor
    requires { n < 256 }
    ensures { (from : List ℕ) → Stores out.old c (contents from (components_fields (take n components))) out.new result }
{
    let mut next = put_bits(out, c, 0, 0);
    for &component in &components[..n] {
        next = store_component(out, next, component);
    }
    next
}

// With its components' bytes.
pub(crate) fn store_mode(out: &mut [u8], c: Cursor, mode: SegmentationMode, listed: &[u8]) -> Cursor
    ensures { (from : List ℕ) (cs : List SegmentationComponent) → listed.now ≡ component_bytes cs → Stores out.old c (contents from (mode_fields mode cs)) out.new result }
{
    match mode {
        SegmentationMode::Program => put_bits(out, c, 0, 0),
        SegmentationMode::Component(n) => {
            let second = put_bits(out, c, 8, wide(n));
            put_run(out, second, listed)
        }
    }
}

pub(crate) fn store_duration(out: &mut [u8], c: Cursor, duration: Option<u64>) -> Cursor
    ensures { (from : List ℕ) → Stores out.old c (contents from (duration_fields duration)) out.new result }
{
    match duration {
        None => put_bits(out, c, 0, 0),
        Some(t) => put_bits(out, c, 40, t),
    }
}

fn store_sub_segments(out: &mut [u8], c: Cursor, sub_segments: Option<SubSegment>) -> Cursor
    ensures { (from : List ℕ) → Stores out.old c (contents from (sub_fields sub_segments)) out.new result }
{
    match sub_segments {
        None => put_bits(out, c, 0, 0),
        Some(x) => {
            let second = put_bits(out, c, 8, wide(x.sub_segment_num));
            put_bits(out, second, 8, wide(x.sub_segments_expected))
        }
    }
}

pub(crate) fn store_back(out: &mut [u8], c: Cursor, i: SegmentationDetail) -> Cursor
    ensures { (from : List ℕ) → Stores out.old c (contents from (back_fields i)) out.new result }
{
    let type_id = i.segmentation_type_id;
    let sub_segments = i.sub_segments;
    let second = put_bits(out, c, 8, wide(type_id.into()));
    let third = put_bits(out, second, 8, wide(i.segment_num));
    let fourth = put_bits(out, third, 8, wide(i.segments_expected));
    store_sub_segments(out, fourth, sub_segments)
}
