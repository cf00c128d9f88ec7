// Segmentation descriptors.
ghost use Rattle.std.specs.Prelude.{◌≡◌, List, [], ◌+◌, ◌≤◌, length};
ghost use Rattle.descriptor.specs.Segmentation.{component_count, count_of};
ghost use Rattle.descriptor.specs.Full.{filled};
ghost use Rattle.descriptor.specs.declared.segmentation.SegmentationComponent.{SegmentationComponent};
ghost use Rattle.descriptor.specs.declared.segmentation.DescriptorDetail.TheVariants.{Active};
ghost use Rattle.descriptor_measure.specs.Private.{upid_fields, active_fields, segment_fields, payload_size};
ghost use Rattle.descriptor_measure.specs.Writing.{cuei, enveloped_made, segmentation_made, upid_in, upid_source, written_upid};
ghost use Rattle.table.specs.Writing.{contents};
ghost use Rattle.descriptor_writer.specs.Stores.{Writes};
ghost use Rattle.descriptor_writer.specs.Private.{Stores, WritesTested, component_bytes};

use crate::envelope::{MAX_PAYLOAD, cuei, store_envelope};
use crate::parts::{
    store_back, store_components, store_duration, store_flags, store_head, store_mode,
};
use bit_stores::{put_bits, put_run};
use descriptor::full::blank_beside;
use descriptor::segmentation::{
    DescriptorDetail, MAX_COMPONENTS, SegmentationComponent, SegmentationDescriptor,
    SegmentationDetail, SegmentationUpid,
};
use descriptor_measure::segment::{
    by_program, count_in_segmentation, duration_size, is_free, lasts, mode_size,
    refusal_of_segmentation, refusal_with_no_components, sub_size,
};
use descriptor_measure::upids::{upid_size, written_type};
use table::cursor::Cursor;
use table::lent::view;
use table::numbers::wide;
use upid::UPID_EIDR;

// ---- the bytes of a payload

fn size_of_active(i: SegmentationDetail) -> usize
    requires { i.segmentation_upid.bytes.len ≤ 255 }
    ensures { (result ≡ payload_size (Active i)) × (count_of i.segmentation_mode ≤ 255) }
{
    let mode = i.segmentation_mode;
    let duration = i.segmentation_duration;
    let upid = i.segmentation_upid;
    let sub_segments = i.sub_segments;
    8 + mode_size(mode) + duration_size(duration) + upid_size(upid) + (3 + sub_size(sub_segments))
}

fn size_of(x: SegmentationDescriptor) -> usize
    requires { (upid_in x).bytes.len ≤ 255 }
    ensures { (result ≡ payload_size x.descriptor_detail) × (component_count x ≤ 255) }
{
    let detail = x.descriptor_detail;
    match detail {
        DescriptorDetail::Cancel => 5,
        DescriptorDetail::Active(i) => size_of_active(i),
    }
}

// ---- the stores of a payload

// A UPID as it is written: an EIDR's bytes stand beside the descriptor.
fn store_written_upid(
    out: &mut [u8],
    c: Cursor,
    u: SegmentationUpid,
    eidr: [u8; 12],
    lent: &[u8],
) -> Cursor
    requires { u.bytes.at + u.bytes.len ≤ length lent.now }
    ensures { Stores out.old c (contents (upid_source u eidr lent.now) (upid_fields (written_upid u))) out.new result }
{
    let upid_type = wide(written_type(u));
    let second = put_bits(out, c, 16, upid_type * 256 + upid_size(u) as u64 % 256);
    if u.upid_type == UPID_EIDR {
        return put_run(out, second, &eidr[..]);
    }
    let bytes = u.bytes;
    let part = view(lent, bytes);
    put_run(out, second, part)
}

fn store_active(
    out: &mut [u8],
    c: Cursor,
    i: SegmentationDetail,
    listed: &[u8],
    eidr: [u8; 12],
    lent: &[u8],
) -> Cursor
    requires { i.segmentation_upid.bytes.at + i.segmentation_upid.bytes.len ≤ length lent.now }
    ensures { (cs : List SegmentationComponent) → listed.now ≡ component_bytes cs → Stores out.old c (contents (upid_source i.segmentation_upid eidr lent.now) (active_fields i cs)) out.new result }
{
    let mode = i.segmentation_mode;
    let duration = i.segmentation_duration;
    let delivery = i.delivery_restrictions;
    let upid = i.segmentation_upid;
    let free = is_free(delivery);
    let second = store_flags(out, c, by_program(mode), lasts(duration), free, delivery);
    let third = store_mode(out, second, mode, listed);
    let fourth = store_duration(out, third, duration);
    let fifth = store_written_upid(out, fourth, upid, eidr, lent);
    store_back(out, fifth, i)
}

fn store_segmentation(
    out: &mut [u8],
    c: Cursor,
    x: SegmentationDescriptor,
    listed: &[u8],
    eidr: [u8; 12],
    lent: &[u8],
) -> Cursor
    requires { (upid_in x).bytes.at + (upid_in x).bytes.len ≤ length lent.now }
    ensures { (cs : List SegmentationComponent) → listed.now ≡ component_bytes cs → Stores out.old c (contents (upid_source (upid_in x) eidr lent.now) (segment_fields x.segmentation_event_id x.descriptor_detail cs)) out.new result }
{
    let detail = x.descriptor_detail;
    match detail {
        DescriptorDetail::Cancel => store_head(out, c, x.segmentation_event_id, true),
        DescriptorDetail::Active(i) => {
            let second = store_head(out, c, x.segmentation_event_id, false);
            store_active(out, second, i, listed, eidr, lent)
        }
    }
}

// ---- the descriptor

// One that nothing of 31 to 33 refuses, with its components' bytes.
fn write_tested_segmentation(
    x: SegmentationDescriptor,
    listed: &[u8],
    eidr: [u8; 12],
    lent: &[u8],
    target: &mut [u8],
) -> Result<usize, u8>
    requires { ((upid_in x).bytes.len ≤ 255) × ((upid_in x).bytes.at + (upid_in x).bytes.len ≤ length lent.now) }
    ensures { WritesTested x listed.now eidr lent.now target.old target.new result }
{
    let size = size_of(x);
    if MAX_PAYLOAD < size {
        return Err(34);
    }
    if target.len() < size + 6 {
        return Err(36);
    }
    let id = cuei();
    let c = store_envelope(target, 2, size + 4, &id[..]);
    let _last = store_segmentation(target, c, x, listed, eidr, lent);
    Ok(size + 6)
}

pub(crate) fn write_segmentation(
    x: SegmentationDescriptor,
    identifier: [u8; 4],
    components: [SegmentationComponent; MAX_COMPONENTS],
    eidr: [u8; 12],
    lent: &[u8],
    target: &mut [u8],
) -> Result<usize, u8>
    ensures { Writes (enveloped_made 2 cuei (segmentation_made x identifier (record { components = components; eidr = eidr }) lent.now)) target.old target.new result }
{
    let refusal = refusal_of_segmentation(x, identifier, components, eidr, lent);
    if refusal != 0 {
        return Err(refusal);
    }
    let n = count_in_segmentation(x) as usize;
    let mut room = [0u8; 1530];
    let _last = store_components(&mut room[..], Cursor { byte: 0, bit: 0 }, components, n);
    let end = n * 6;
    write_tested_segmentation(x, &room[0..end], eidr, lent, target)
}

// Without components no array of them is made. One that has some is written with blank ones.
pub(crate) fn write_segmentation_without_components(
    x: SegmentationDescriptor,
    identifier: [u8; 4],
    eidr: [u8; 12],
    lent: &[u8],
    target: &mut [u8],
) -> Result<usize, u8>
    ensures { Writes (enveloped_made 2 cuei (segmentation_made x identifier (record { components = filled []; eidr = eidr }) lent.now)) target.old target.new result }
{
    if 0 < count_in_segmentation(x) {
        let blank = blank_beside();
        let components = blank.components;
        return write_segmentation(x, identifier, components, eidr, lent, target);
    }
    let refusal = refusal_with_no_components(x, identifier, eidr, lent);
    if refusal != 0 {
        return Err(refusal);
    }
    // no bytes of components
    write_tested_segmentation(x, &lent[0..0], eidr, lent, target)
}
