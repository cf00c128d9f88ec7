// Writing the payload of a command. One without components, or with blank ones, is handed no array; the forms below that take it say what components add.
#![tactic(auto)]

ghost use Rattle.std.specs.Prelude.{◌≡◌, [], ◌+◌, ◌≤◌, length};
ghost use Rattle.command_measure.specs.Made.{counted, insert_made, command_made};
ghost use Rattle.command.specs.Command.{array, count_in};
ghost use Rattle.command_measure.specs.Fields.{private_ink};
ghost use Rattle.command_writer.specs.Private.{has_room, answer_measured};
ghost use Rattle.bit_stores.specs.Pen.{Pens};
ghost use Rattle.bit_stores.specs.Private.{Fits};
ghost use Rattle.bit_stores.specs.Written.{answer_of, later_of, refusal_in, bytes_in};
ghost use Rattle.table.specs.Bits.{AllBytes};
ghost use Rattle.table.specs.Lent.{stored};

use crate::insert::{store_insert, store_insert_without_components};
use crate::time::store_time;
use bit_stores::{put_bits, put_run};
use command::components::{InsertComponent, MAX_COMPONENTS};
use command::insert::SpliceInsert;
use command::{Private, SpliceCommand};
use command_measure::measure::measure_insert;
use command_measure::{Measured, measure_without_components};
use table::cursor::Cursor;
use table::lent::view;

pub mod insert;
pub mod time;

fn store_private(out: &mut [u8], c: Cursor, p: Private, lent: &[u8]) -> Cursor
    requires { Fits out.old c (private_ink p lent.now) }
    ensures { Pens out.old c (private_ink p lent.now) out.new result }
{
    let bytes = p.private_bytes;
    let c = put_bits(out, c, 32, p.identifier as u64);
    put_run(out, c, view(lent, bytes))
}

// A payload for which there is room, and no refusal.
fn store_without_components(out: &mut [u8], at: usize, command: SpliceCommand, lent: &[u8])
    requires { AllBytes out.old × (refusal_in (command_made command (array []) lent.now) ≡ 0) × (at + length (bytes_in (command_made command (array []) lent.now)) ≤ length out.old) × (count_in command ≤ 255) }
    ensures { out.new ≡ stored out.old at (bytes_in (command_made command (array []) lent.now)) }
{
    let c = Cursor { byte: at, bit: 0 };
    match command {
        SpliceCommand::SpliceNull => {}
        SpliceCommand::SpliceInsert(i) => {
            let _ = store_insert_without_components(out, c, i);
        }
        SpliceCommand::TimeSignal(t) => {
            let _ = store_time(out, c, t);
        }
        SpliceCommand::BandwidthReservation => {}
        SpliceCommand::PrivateCommand(p) => {
            let _ = store_private(out, c, p, lent);
        }
    }
}

// Is it not refused, and is there room for it from a byte on?
fn has_room(measured: Measured, at: usize, room: usize) -> bool
    ensures { result ≡ has_room measured at room }
{
    if 0 < measured.refusal {
        return false;
    }
    if room < at {
        return false;
    }
    if room - at < measured.size {
        return false;
    }
    true
}

// The payload from a byte of the target on; nothing where it is refused or does not fit.
pub fn put_without_components(out: &mut [u8], at: usize, command: SpliceCommand, lent: &[u8])
    ensures { out.new ≡ stored out.old at (bytes_in (command_made command (array []) lent.now)) }
{
    if has_room(measure_without_components(command, lent), at, out.len()) {
        store_without_components(out, at, command, lent);
    }
}

// What is answered where the target has `room` bytes.
fn answer_measured(measured: Measured, room: usize) -> Result<usize, u8>
    ensures { result ≡ answer_measured measured room }
{
    let refusal = measured.refusal;
    let size = measured.size;
    if 0 < refusal {
        return Err(refusal);
    }
    if room < size {
        return Err(36);
    }
    Ok(size)
}

// The payload from the target's first byte on, or a refusal: 31, 32, 33 or 36.
pub fn write_command_without_components(
    command: SpliceCommand,
    lent: &[u8],
    target: &mut [u8],
) -> Result<usize, u8>
    ensures answer { result ≡ answer_of (command_made command (array []) lent.now) target.old }
    ensures bytes { target.new ≡ later_of (command_made command (array []) lent.now) target.old }
{
    let answer = answer_measured(measure_without_components(command, lent), target.len());
    match answer {
        Ok(_) => store_without_components(target, 0, command, lent),
        Err(_) => {}
    }
    answer
}

// ---- with an array of components, which only an insert has

// Of an insert, the payload from a byte on.
fn put_insert(
    out: &mut [u8],
    at: usize,
    i: SpliceInsert,
    components: [InsertComponent; MAX_COMPONENTS],
)
    ensures { out.new ≡ stored out.old at (bytes_in (insert_made (counted i components))) }
{
    if has_room(measure_insert(i, components), at, out.len()) {
        let _ = store_insert(out, Cursor { byte: at, bit: 0 }, i, components);
    }
}

// The payload from a byte of the target on; nothing where it is refused or does not fit.
pub fn put_command(
    out: &mut [u8],
    at: usize,
    command: SpliceCommand,
    components: [InsertComponent; MAX_COMPONENTS],
    lent: &[u8],
)
    ensures { out.new ≡ stored out.old at (bytes_in (command_made command components lent.now)) }
{
    match command {
        SpliceCommand::SpliceInsert(i) => put_insert(out, at, i, components),
        _ => put_without_components(out, at, command, lent),
    }
}

// Of an insert, the payload from the first byte on.
fn write_insert(
    i: SpliceInsert,
    components: [InsertComponent; MAX_COMPONENTS],
    target: &mut [u8],
) -> Result<usize, u8>
    ensures answer { result ≡ answer_of (insert_made (counted i components)) target.old }
    ensures bytes { target.new ≡ later_of (insert_made (counted i components)) target.old }
{
    let answer = answer_measured(measure_insert(i, components), target.len());
    match answer {
        Ok(_) => {
            let _ = store_insert(target, Cursor { byte: 0, bit: 0 }, i, components);
        }
        Err(_) => {}
    }
    answer
}

// The payload from the target's first byte on, or a refusal: 31, 32, 33 or 36.
pub fn write_command(
    command: SpliceCommand,
    components: [InsertComponent; MAX_COMPONENTS],
    lent: &[u8],
    target: &mut [u8],
) -> Result<usize, u8>
    ensures answer { result ≡ answer_of (command_made command components lent.now) target.old }
    ensures bytes { target.new ≡ later_of (command_made command components lent.now) target.old }
{
    match command {
        SpliceCommand::SpliceInsert(i) => write_insert(i, components, target),
        _ => write_command_without_components(command, lent, target),
    }
}
