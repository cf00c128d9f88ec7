// The flat form of what a line says (Q-1).
#![tactic(auto)]

ghost use Rattle.std.specs.Prelude.{◌≡◌};
ghost use Rattle.c_daterange.specs.FlatDaterange.{name_number, flat_daterange, flat_line};

use c_section::{FlatView, flat_view};
use daterange_line::{Cue, LineRefusal, Reading};

#[repr(C)]
#[derive(Clone, Copy)]
pub struct FlatDaterange {
    pub refusal: u64,
    pub id: FlatView,
    pub date: FlatView,
    pub name: u64,
    pub length: u64,
}

#[tactic(auto, unfolding(crate::specs::FlatDaterange::name_number))]
fn name_number(c: Cue) -> u64
    ensures { result ≡ name_number c }
{
    match c {
        Cue::Cmd => 1,
        Cue::Out => 2,
        Cue::In => 3,
    }
}

// A refusal comes as any number.
#[tactic(auto, unfolding(crate::specs::FlatDaterange::flat_daterange))]
pub fn flat_daterange(x: Result<Reading, u8>) -> FlatDaterange
    ensures { result ≡ flat_daterange x }
{
    match x {
        Ok(y) => FlatDaterange {
            refusal: 0,
            id: flat_view(y.id),
            date: flat_view(y.date),
            name: name_number(y.cue),
            length: y.len as u64,
        },
        Err(number) => FlatDaterange {
            refusal: u64::from(number),
            id: FlatView { at: 0, len: 0 },
            date: FlatView { at: 0, len: 0 },
            name: 0,
            length: 0,
        },
    }
}

#[tactic(auto, unfolding(crate::specs::FlatDaterange::flat_line))]
pub fn flat_line(x: Result<Reading, LineRefusal>) -> FlatDaterange
    ensures { result ≡ flat_line x }
{
    match x {
        Ok(y) => flat_daterange(Ok(y)),
        Err(r) => flat_daterange(Err(r.number())),
    }
}
