// UPIDs, and the parts of a MID.
ghost use Rattle.std.specs.Prelude.{◌≡◌, map};
ghost use Rattle.c_items.specs.FlatUpid.{flat_part, no_parts, flat_upid};

use crate::refusals::{number, values};
use std::array;
use upid::{MAX_PARTS, Part, PartList, Upid};

#[repr(C)]
#[derive(Clone, Copy)]
pub struct FlatPart {
    pub upid_type: u64,
    pub level: u64,
    pub start: u64,
    pub len: u64,
}

// The reported type; the EIDR, a byte to a word; and the parts of a MID before the count, all zero past it.
#[repr(C)]
#[derive(Clone, Copy)]
pub struct FlatUpid {
    pub refusal: u64,
    pub values: [u64; 3],
    pub upid_type: u64,
    pub eidr: [u64; 12],
    pub count: u64,
    pub parts: [FlatPart; 127],
}

fn flat_part(p: Part) -> FlatPart
    ensures { result ≡ flat_part p }
{
    FlatPart {
        upid_type: p.upid_type as u64,
        level: p.level as u64,
        start: p.start as u64,
        len: p.len as u64,
    }
}

// The C interface has a blank array beside a refusal.
fn no_parts() -> [FlatPart; MAX_PARTS]
    ensures { result ≡ no_parts }
{
    [FlatPart {
        upid_type: 0,
        level: 0,
        start: 0,
        len: 0,
    }; MAX_PARTS]
}

// `from_fn` and not the array's `map`, which takes four times the instructions.
fn flat_parts(ps: [Part; MAX_PARTS]) -> [FlatPart; MAX_PARTS]
    ensures { result ≡ map flat_part ps }
{
    array::from_fn(|i| flat_part(ps[i]))
}

pub(crate) fn flat_eidr(e: [u8; 12]) -> [u64; 12]
    ensures { result ≡ e }
{
    array::from_fn(|i| u64::from(e[i]))
}

pub fn flat_upid(u: Upid) -> FlatUpid
    ensures { result ≡ flat_upid u }
{
    let read = u.read;
    match read {
        Ok(upid_type) => {
            let eidr = u.eidr;
            let list = u.list;
            let parts = list.parts;
            FlatUpid {
                refusal: 0,
                values: [0, 0, 0],
                upid_type: upid_type as u64,
                eidr: flat_eidr(eidr),
                count: list.count as u64,
                parts: flat_parts(parts),
            }
        }
        Err(r) => FlatUpid {
            refusal: number(r),
            values: values(r),
            upid_type: 0,
            eidr: [0; 12],
            count: 0,
            parts: no_parts(),
        },
    }
}
