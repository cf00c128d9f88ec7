// Measuring a command before it is written: which refusal it has, and how many bytes its payload has. One without components, or with blank ones, needs no array.
#![tactic(auto)]

ghost use Rattle.std.specs.Prelude.{◌≤◌, ◌≡◌, true, []};
ghost use Rattle.command.specs.Command.{array, count_in, private};
ghost use Rattle.command_measure.specs.Made.{command_made, measured_of};
ghost use Rattle.table.specs.Writing.{make};

use crate::measure::{measure_insert, measure_insert_without_components, measure_time};
use command::components::{InsertComponent, MAX_COMPONENTS};
use command::{Private, SpliceCommand};
use table::lent::lies_in;

pub mod measure;

// The number of a refusal, 0 for none, and how many bytes the payload has.
#[derive(Clone, Copy)]
pub struct Measured {
    pub refusal: u8,
    pub size: usize,
}

fn refuse(n: u8) -> Measured
    ensures { result ≡ record { refusal = n; size = 0 } }
{
    Measured {
        refusal: n,
        size: 0,
    }
}

// A private command; the rest of its payload is a view of the lent bytes.
fn measure_private(p: Private, lent: &[u8]) -> Measured
    ensures { result ≡ measured_of (make private true lent.now p) }
{
    let bytes = p.private_bytes;
    if !lies_in(lent, bytes) {
        return refuse(31);
    }
    Measured {
        refusal: 0,
        size: 4 + bytes.len,
    }
}

// Of a command whose components are all blank, if it has any: which refusal it has, 31 to 33, and how many bytes its payload has.
pub fn measure_without_components(command: SpliceCommand, lent: &[u8]) -> Measured
    ensures { (result ≡ measured_of (command_made command (array []) lent.now)) × (count_in command ≤ 255) }
{
    match command {
        SpliceCommand::SpliceNull => Measured {
            refusal: 0,
            size: 0,
        },
        SpliceCommand::SpliceInsert(i) => measure_insert_without_components(i),
        SpliceCommand::TimeSignal(t) => measure_time(t),
        SpliceCommand::BandwidthReservation => Measured {
            refusal: 0,
            size: 0,
        },
        SpliceCommand::PrivateCommand(p) => measure_private(p, lent),
    }
}

// Which refusal a command has, 31 to 33, and how many bytes its payload has.
pub fn measure_command(
    command: SpliceCommand,
    components: [InsertComponent; MAX_COMPONENTS],
    lent: &[u8],
) -> Measured
    ensures { (result ≡ measured_of (command_made command components lent.now)) × (count_in command ≤ 255) }
{
    match command {
        SpliceCommand::SpliceInsert(i) => measure_insert(i, components),
        _ => measure_without_components(command, lent),
    }
}
