// The flat forms of readings: structs of 64-bit words alone, which is what crosses to C. A named number crosses as its number, a flag as 0 or 1.
#![tactic(auto)]

ghost use Rattle.std.specs.Prelude.{◌≡◌};
ghost use Rattle.table.specs.Table.{flag_number};
ghost use Rattle.c_section.specs.Flat.{flat_view, flat_time};

use splice_time::SpliceTime;
use table::View;

pub mod commands;
pub mod components;
pub mod headers;
pub mod sections;

// A run of the lent bytes.
#[repr(C)]
#[derive(Clone, Copy)]
pub struct FlatView {
    pub at: u64,
    pub len: u64,
}

// A time: kind 0 where there is none, 1 immediate, 2 unspecified, 3 at so many ticks.
#[repr(C)]
#[derive(Clone, Copy)]
pub struct FlatTime {
    pub kind: u64,
    pub ticks: u64,
}

pub fn flat_flag(set: bool) -> u64
    ensures { result ≡ flag_number set }
{
    if set { 1 } else { 0 }
}

pub fn flat_view(v: View) -> FlatView
    ensures { result ≡ flat_view v }
{
    FlatView {
        at: v.at as u64,
        len: v.len as u64,
    }
}

pub(crate) fn flat_time(t: SpliceTime) -> FlatTime
    ensures { result ≡ flat_time t }
{
    match t {
        SpliceTime::Immediate => FlatTime { kind: 1, ticks: 0 },
        SpliceTime::Unspecified => FlatTime { kind: 2, ticks: 0 },
        SpliceTime::At(ticks) => FlatTime { kind: 3, ticks },
    }
}
