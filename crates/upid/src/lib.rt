// UPIDs: what a segmentation descriptor says its segment is (document 01, "Identifiers").
#![tactic(auto)]

ghost use Rattle.std.specs.Prelude.{◌≡◌};
ghost use Rattle.table.specs.Lent.{viewed};
ghost use Rattle.upid.specs.declared.Refusal.TheVariants.{NotEnoughData};
ghost use Rattle.upid.specs.Upid.{check_of, upid_of, eidr_of, part_view};

use crate::mid::{blank, check_payload, list_parts};
use table::View;
use table::cursor::Short;
use table::lent::view;

mod mid;
mod plain;
pub mod text;

// A UPID has at most so many bytes, and a MID so many parts, at all levels together.
pub const MAX_UPID: usize = 255;

pub const MAX_PARTS: usize = 127;

// The types that are read in another way than the others: an EIDR is handed on by value, a MID has parts.
pub const UPID_EIDR: u8 = 10;

pub const UPID_MID: u8 = 13;

// Refusals 2, 21, 23, 24 and 25. A view counts from the start of the UPID.
#[derive(Clone, Copy, Debug, PartialEq, Eq)]
pub enum Refusal {
    InputTooLong,
    NotEnoughData {
        expected: usize,
        actual: usize,
    },
    UpidLengthTypeMismatch,
    InvalidUpidContent {
        upid_type: u8,
        bytes: View,
    },
    InvalidUpidLength {
        upid_type: u8,
        expected: usize,
        actual: usize,
    },
}

// 21 of what the fields of a table lack.
impl From<Short> for Refusal {
    ghost from_gives = { λ e r. r ≡ NotEnoughData e.expected e.actual };

    fn from(e: Short) -> Refusal {
        Refusal::NotEnoughData {
            expected: e.expected,
            actual: e.actual,
        }
    }
}

// A part of a MID: its reported type, its level (1 for the direct parts of the top MID), and its payload, `len` bytes from `start` of the top UPID on.
#[derive(Clone, Copy)]
pub struct Part {
    pub upid_type: u8,
    pub level: u8,
    pub start: u8,
    pub len: u8,
}

// The parts of a MID, each before those inside it; all zero past the count. (An array with its count: fixed memory, no heap.)
#[derive(Clone, Copy)]
pub struct PartList {
    pub parts: [Part; MAX_PARTS],
    pub count: usize,
}

// The whole answer: an EIDR by value, all zero where the UPID is no EIDR, and a MID's parts.
#[derive(Clone, Copy)]
pub struct Upid {
    pub read: Result<u8, Refusal>,
    pub eidr: [u8; 12],
    pub list: PartList,
}

// What the bytes are read as under the type `upid_type`, without the list of parts.
pub fn check_upid(upid_type: u8, upid: &[u8]) -> Result<u8, Refusal>
    ensures { result ≡ check_of upid_type upid.now }
{
    if MAX_UPID < upid.len() {
        return Err(Refusal::InputTooLong);
    }
    if upid.len() == 0 {
        return Ok(0);
    }
    check_payload(upid_type, upid, 0)
}

// What the bytes are read as under the type `upid_type`, with the list of parts.
pub fn read_upid(upid_type: u8, upid: &[u8]) -> Upid
    ensures { result ≡ upid_of upid_type upid.now }
{
    let held = eidr(upid_type, upid);
    let read = check_upid(upid_type, upid);
    match read {
        Err(_) => Upid {
            read,
            eidr: held,
            list: blank(),
        },
        Ok(_) => Upid {
            read,
            eidr: held,
            list: list_parts(upid_type, upid),
        },
    }
}

// The EIDR identifier by value; all zero where the UPID is no EIDR.
pub fn eidr(upid_type: u8, upid: &[u8]) -> [u8; 12]
    ensures { result ≡ eidr_of upid_type upid.now }
{
    let mut out = [0u8; 12];
    if upid_type != UPID_EIDR {
        return out;
    }
    if upid.len() != 12 {
        return out;
    }
    out.copy_from_slice(upid);
    out
}

// The bytes of a part, as a part of the lent top UPID.
pub fn part_bytes(upid: &[u8], part: Part) -> &[u8]
    ensures { result.now ≡ viewed upid.now (part_view part) }
{
    let place = View {
        at: part.start as usize,
        len: part.len as usize,
    };
    view(upid, place)
}
