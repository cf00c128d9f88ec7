// The splice commands: what a section asks for.
#![tactic(auto)]

ghost use Rattle.std.specs.Prelude.{◌≡◌};
ghost use Rattle.command.specs.Command.{private, read, empty, command_of, number_of};
ghost use Rattle.command.specs.Insert.{insert};
ghost use Rattle.command.specs.Private.{Apart};
ghost use Rattle.command.specs.declared.SpliceCommand.{SpliceCommand};
ghost use Rattle.splice_time.specs.Time.{splice_time};
ghost use Rattle.table.specs.Bits.{bits_of};
ghost use Rattle.table.specs.Table.{parse};

use crate::insert::{SpliceInsert, read_insert};
use splice_time::{SpliceTime, read_aligned_time};
use table::View;
use table::numbers::big_endian;

pub mod components;
pub mod insert;

#[derive(Clone, Copy)]
pub struct Private {
    pub identifier: u32,
    pub private_bytes: View,
}

#[derive(Clone, Copy)]
pub enum SpliceCommand {
    SpliceNull,
    SpliceInsert(SpliceInsert),
    TimeSignal(SpliceTime),
    BandwidthReservation,
    PrivateCommand(Private),
}

// Refusals 10, a type that none has, and 11, a malformed payload.
#[derive(Clone, Copy, Debug, PartialEq, Eq)]
pub enum CommandRefusal {
    UnknownType,
    Malformed,
}

// Document 01's number of a reading, 0 of a command.
pub fn number(read: Result<SpliceCommand, CommandRefusal>) -> u8
    ensures { result ≡ number_of read }
{
    match read {
        Ok(_) => 0,
        Err(CommandRefusal::UnknownType) => 10,
        Err(CommandRefusal::Malformed) => 11,
    }
}

fn read_empty(payload: &[u8], command: SpliceCommand) -> Result<SpliceCommand, CommandRefusal>
    ensures { result ≡ empty command payload.now }
{
    if payload.len() == 0 {
        return Ok(command);
    }
    Err(CommandRefusal::Malformed)
}

fn read_time_signal(payload: &[u8]) -> Result<SpliceCommand, CommandRefusal>
    ensures { result ≡ read SpliceCommand.TimeSignal (parse splice_time (bits_of payload.now) 0) }
{
    match read_aligned_time(payload, 0) {
        Ok(t) => {
            let time = t.value;
            Ok(SpliceCommand::TimeSignal(time))
        }
        Err(_) => Err(CommandRefusal::Malformed),
    }
}

fn read_private(payload: &[u8]) -> Result<SpliceCommand, CommandRefusal>
    ensures { result ≡ read SpliceCommand.PrivateCommand (parse private (bits_of payload.now) 0) }
{
    if payload.len() < 4 {
        return Err(CommandRefusal::Malformed);
    }
    let identifier = big_endian(payload, 0, 4) as u32;
    Ok(SpliceCommand::PrivateCommand(Private {
        identifier,
        private_bytes: View {
            at: 4,
            len: payload.len() - 4,
        },
    }))
}

fn read_splice_insert(payload: &[u8]) -> Result<SpliceCommand, CommandRefusal>
    ensures { result ≡ read (λ x. SpliceCommand.SpliceInsert x.value) (parse insert (bits_of payload.now) 0) }
{
    match read_insert(payload) {
        Ok(i) => return Ok(SpliceCommand::SpliceInsert(i)),
        Err(_) => return Err(CommandRefusal::Malformed),
    }
}

// The command of a type other than the two that `read_command` reads itself. It is long, and not only `read_apart` calls it: so the compiler leaves it a call.
pub(crate) fn read_other(command_type: u8, payload: &[u8]) -> Result<SpliceCommand, CommandRefusal>
    requires { Apart command_type }
    ensures { result ≡ command_of command_type payload.now }
{
    // A return in each arm: answers that meet behind a match are copied there.
    match command_type {
        0x05 => return read_splice_insert(payload),
        0x07 => return read_empty(payload, SpliceCommand::BandwidthReservation),
        0xFF => return read_private(payload),
        _ => return Err(CommandRefusal::UnknownType),
    }
}

// What `read_other` reads, with an answer of its own: one that it is handed stays in memory as a whole, and `read_command`'s is taken apart.
fn read_apart(command_type: u8, payload: &[u8]) -> Result<SpliceCommand, CommandRefusal>
    requires { Apart command_type }
    ensures { result ≡ command_of command_type payload.now }
{
    read_other(command_type, payload)
}

// The command of a type, in its payload. It is short, so that the compiler puts it in place of its calls.
pub fn read_command(command_type: u8, payload: &[u8]) -> Result<SpliceCommand, CommandRefusal>
    ensures { result ≡ command_of command_type payload.now }
{
    match command_type {
        0x00 => return read_empty(payload, SpliceCommand::SpliceNull),
        0x06 => return read_time_signal(payload),
        _ => return read_apart(command_type, payload),
    }
}
