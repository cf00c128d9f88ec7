// The items of a loop, a line for each: its offset, that of the next one, a word, values.
use crate::say::bytes;
use crate::upids::{contents, refused};
use descriptor::Descriptor;
use descriptor::full::{Beside, beside_of};
use descriptor::segmentation::{
    DeliveryRestrictions, DescriptorDetail, SegmentationDescriptor, SegmentationDetail,
    SegmentationMode, SegmentationUpid, read_segmentation,
};
use descriptor_loop::iteration::step;
use descriptor_loop::place::bytes_of;
use descriptor_loop::{ItemRefusal, Step};
use std::io;
use upid::UPID_EIDR;

// Every item. A step that does not go forward ends the list.
pub fn items(rt: &impl Print, lent: &[u8]) -> io::Result<()> {
    let mut offset: usize = 0;
    // Each step says where the next item starts, so this counts no index.
    while offset < lent.len() {
        let t = step(lent, offset);
        let next = t.next;
        print!(rt; "{offset} {next}")?;
        item(rt, lent, offset, t)?;
        println!(rt)?;
        if next <= offset {
            return Ok(());
        }
        offset = next;
    }
    Ok(())
}

fn item(rt: &impl Print, lent: &[u8], offset: usize, t: Step) -> io::Result<()> {
    let bytes = bytes_of(lent, t.item);
    match t.item {
        None => Ok(()),
        Some(Err(ItemRefusal::InvalidDescriptorLength)) => print!(rt; " badlength 255"),
        Some(Err(ItemRefusal::Other(r))) => refused(rt, r, bytes),
        Some(Ok(d)) => descriptor(rt, d, bytes, payload(lent, offset, t.next), t.identifier),
    }
}

// What follows tag, length and identifier.
fn payload(lent: &[u8], offset: usize, next: usize) -> &[u8] {
    lent.get(offset..next)
        .and_then(|item| item.get(6..))
        .unwrap_or_default()
}

fn descriptor(
    rt: &impl Print,
    d: Descriptor,
    part: &[u8],
    payload: &[u8],
    identifier: [u8; 4],
) -> io::Result<()> {
    match d {
        Descriptor::Avail(x) => print!(rt; " avail {}", x.provider_avail_id),
        Descriptor::Dtmf(x) => {
            print!(rt; " dtmf {}", x.preroll)?;
            bytes(rt, part)
        }
        Descriptor::Segmentation(x) => segmentation(rt, x, part, payload),
        Descriptor::Time(x) => {
            print!(rt;
                " time {} {} {}",
                x.tai_seconds, x.tai_nanoseconds, x.utc_offset
            )
        }
        Descriptor::Reserved { tag, .. } => {
            print!(rt; " reserved {tag}")?;
            bytes(rt, &identifier)?;
            bytes(rt, part)
        }
    }
}

fn segmentation(
    rt: &impl Print,
    x: SegmentationDescriptor,
    part: &[u8],
    payload: &[u8],
) -> io::Result<()> {
    match x.descriptor_detail {
        DescriptorDetail::Cancel => print!(rt; " cancel {}", x.segmentation_event_id),
        DescriptorDetail::Active(i) => {
            print!(rt; " segment {}", x.segmentation_event_id)?;
            front(rt, i, payload)?;
            identifier(rt, i.segmentation_upid, part, payload)?;
            back(rt, i)
        }
    }
}

fn front(rt: &impl Print, i: SegmentationDetail, payload: &[u8]) -> io::Result<()> {
    print!(rt;
        " {} {} {}",
        u8::from(i.program_segmentation_flag),
        u8::from(i.segmentation_duration_flag),
        u8::from(i.delivery_not_restricted_flag)
    )?;
    if let Some(r) = i.delivery_restrictions {
        restrictions(rt, r)?;
    }
    if let SegmentationMode::Component(n) = i.segmentation_mode {
        components(rt, payload, n)?;
    }
    if let Some(ticks) = i.segmentation_duration {
        print!(rt; " duration {ticks}")?;
    }
    Ok(())
}

fn restrictions(rt: &impl Print, r: DeliveryRestrictions) -> io::Result<()> {
    print!(rt;
        " restricted {} {} {} {}",
        u8::from(r.web_delivery_allowed_flag),
        u8::from(r.no_regional_blackout_flag),
        u8::from(r.archive_allowed_flag),
        u8::from(r.device_restrictions)
    )
}

fn beside_segmentation(payload: &[u8]) -> Beside {
    beside_of(read_segmentation(payload), payload)
}

fn components(rt: &impl Print, payload: &[u8], n: u8) -> io::Result<()> {
    print!(rt; " components {n}")?;
    let beside = beside_segmentation(payload);
    for c in beside.components.iter().take(n as usize) {
        print!(rt; " {} {}", c.component_tag, c.pts_offset)?;
    }
    Ok(())
}

// An EIDR is held by value; any other UPID is a part of what was lent.
fn identifier(rt: &impl Print, u: SegmentationUpid, part: &[u8], payload: &[u8]) -> io::Result<()> {
    if u.upid_type == UPID_EIDR {
        let beside = beside_segmentation(payload);
        return contents(rt, u.upid_type, &beside.eidr);
    }
    contents(rt, u.upid_type, part)
}

fn back(rt: &impl Print, i: SegmentationDetail) -> io::Result<()> {
    let type_id = u8::from(i.segmentation_type_id);
    print!(rt; " type {type_id} {} {}", i.segment_num, i.segments_expected)?;
    if let Some(s) = i.sub_segments {
        print!(rt; " sub {} {}", s.sub_segment_num, s.sub_segments_expected)?;
    }
    Ok(())
}
