// Lists the items of a descriptor loop, a line for each: offset, bytes used, a word, values (document 01, `looplist`).
#![tactic(auto)]

ghost use Rattle.std.specs.Prelude.{◌≤◌, length};

use descriptor::Descriptor;
use descriptor::segmentation::{DescriptorDetail, SegmentationDescriptor, SegmentationUpid};
use descriptor_loop::ItemRefusal;
use descriptor_loop::iteration::{count_items, step};
use read_input::read_full;
use std::io;
use upid::{Refusal, UPID_EIDR};

// `run_vectors` has another, which prints a text's bytes too.
fn print_refusal(rt: &impl Print, r: Refusal) -> io::Result<()> {
    match r {
        Refusal::InputTooLong => print!(rt; " refused 2"),
        Refusal::NotEnoughData { expected, actual } => print!(rt; " short {expected} {actual}"),
        Refusal::UpidLengthTypeMismatch => print!(rt; " mismatch 0"),
        Refusal::InvalidUpidContent { upid_type, .. } => print!(rt; " text {upid_type}"),
        Refusal::InvalidUpidLength {
            upid_type,
            expected,
            actual,
        } => print!(rt; " length {upid_type} {expected} {actual}"),
    }
}

// The bytes of a UPID: an EIDR has 12, held by value.
fn upid_length(u: SegmentationUpid) -> usize {
    if u.upid_type == UPID_EIDR {
        return 12;
    }
    u.bytes.len
}

fn print_segmentation(rt: &impl Print, s: SegmentationDescriptor) -> io::Result<()> {
    let event = s.segmentation_event_id;
    match s.descriptor_detail {
        DescriptorDetail::Cancel => print!(rt; " cancel {event}"),
        DescriptorDetail::Active(active) => {
            let upid = active.segmentation_upid;
            print!(rt;
                " segment {event} {}",
                u8::from(active.segmentation_type_id)
            )?;
            print!(rt; " {} {}", upid.upid_type, upid_length(upid))
        }
    }
}

fn print_descriptor(rt: &impl Print, d: Descriptor) -> io::Result<()> {
    match d {
        Descriptor::Avail(avail) => print!(rt; " avail {}", avail.provider_avail_id),
        Descriptor::Dtmf(dtmf) => print!(rt; " dtmf {} {}", dtmf.preroll, dtmf.dtmf_chars.len),
        Descriptor::Segmentation(s) => print_segmentation(rt, s),
        Descriptor::Time(t) => {
            print!(rt;
                " time {} {} {}",
                t.tai_seconds, t.tai_nanoseconds, t.utc_offset
            )
        }
        Descriptor::Reserved { tag, private_bytes } => {
            print!(rt; " reserved {tag} {}", private_bytes.len)
        }
    }
}

fn print_item(rt: &impl Print, item: Option<Result<Descriptor, ItemRefusal>>) -> io::Result<()> {
    match item {
        None => Ok(()),
        Some(Err(ItemRefusal::InvalidDescriptorLength)) => print!(rt; " badlength 255"),
        Some(Err(ItemRefusal::Other(r))) => print_refusal(rt, r),
        Some(Ok(d)) => print_descriptor(rt, d),
    }
}

// Every item of a loop that is not too long.
#[tactic(auto, using(descriptor_loop::proofs::Lists::step_forward))]
fn print_items(rt: &impl Print, bytes: &[u8]) -> io::Result<()>
    requires { length bytes.now ≤ 4076 }
{
    let mut offset: usize = 0;
    // Each step says where the next item starts, so this counts no index.
    while offset < bytes.len() {
        let s = step(bytes, offset);
        let next = s.next;
        print!(rt; "{offset} {}", next - offset)?;
        print_item(rt, s.item)?;
        println!(rt)?;
        offset = next;
    }
    Ok(())
}

#[tactic(auto, using(descriptor_loop::proofs::Theorems::counted_fits))]
fn list(rt: &impl Print, bytes: &[u8]) -> io::Result<()> {
    match count_items(bytes) {
        Err(_) => println!(rt; "refused 2"),
        Ok(n) => {
            println!(rt; "items {n}")?;
            print_items(rt, bytes)
        }
    }
}

// Lists the loop that is on standard input.
pub fn list_input(rt: &(impl Input + Print)) -> io::Result<()> {
    // One byte more than a loop may have.
    let mut buffer = [0u8; 4077];
    let n = read_full(&mut rt.reader(), &mut buffer)?;
    list(rt, &buffer[..n])
}
