// UPIDs, and the parts of a MID.
use crate::say::bytes;
use std::io;
use table::lent::view;
use upid::{PartList, Refusal, UPID_EIDR, UPID_MID, read_upid};

// A UPID alone.
pub fn upid(rt: &impl Print, upid_type: u8, lent: &[u8]) -> io::Result<()> {
    let u = read_upid(upid_type, lent);
    match u.read {
        Ok(UPID_EIDR) => contents(rt, UPID_EIDR, &u.eidr)?,
        Ok(reported) => contents(rt, reported, lent)?,
        Err(r) => match r {
            Refusal::InvalidUpidContent { bytes: place, .. } => refused(rt, r, view(lent, place))?,
            _ => refused(rt, r, lent)?,
        },
    }
    println!(rt)
}

// The reported type and the bytes; of a MID, its parts too.
pub fn contents(rt: &impl Print, upid_type: u8, part: &[u8]) -> io::Result<()> {
    print!(rt; " upid {upid_type}")?;
    bytes(rt, part)?;
    if upid_type == UPID_MID {
        let u = read_upid(UPID_MID, part);
        parts(rt, u.list)?;
    }
    Ok(())
}

fn parts(rt: &impl Print, list: PartList) -> io::Result<()> {
    print!(rt; " parts {}", list.count)?;
    for p in list.parts.iter().take(list.count) {
        print!(rt; "  {} {} {} {}", p.upid_type, p.level, p.start, p.len)?;
    }
    Ok(())
}

// A refusal; `part` is the text that is none.
pub fn refused(rt: &impl Print, r: Refusal, part: &[u8]) -> io::Result<()> {
    match r {
        Refusal::InputTooLong => print!(rt; " refused 2"),
        Refusal::NotEnoughData { expected, actual } => print!(rt; " short {expected} {actual}"),
        Refusal::UpidLengthTypeMismatch => print!(rt; " mismatch 0"),
        Refusal::InvalidUpidContent { upid_type, .. } => {
            print!(rt; " text {upid_type}")?;
            bytes(rt, part)
        }
        Refusal::InvalidUpidLength {
            upid_type,
            expected,
            actual,
        } => print!(rt; " length {upid_type} {expected} {actual}"),
    }
}
