// A splice command.
ghost use Rattle.std.specs.Prelude.{◌≡◌};
ghost use Rattle.c_section.specs.FlatCommand.{flat_mode, flat_break, insert_head, active_insert, flat_insertion, no_command, flat_command, flat_command_read};

use crate::{FlatTime, FlatView, flat_time, flat_view};
use command::insert::{InsertDetail, SpliceDetail, SpliceInsert, SpliceMode};
use command::{CommandRefusal, SpliceCommand, number};
use splice_time::break_duration::SpliceDuration;

// By program, at a time; or by as many components.
#[repr(C)]
#[derive(Clone, Copy)]
pub struct FlatMode {
    pub program_splice_flag: u64,
    pub splice_time: FlatTime,
    pub component_count: u64,
}

#[repr(C)]
#[derive(Clone, Copy)]
pub struct FlatBreak {
    pub duration_flag: u64,
    pub auto_return: u64,
    pub duration: u64,
}

// Of a cancelled insert, all after `reserved` is 0.
#[repr(C)]
#[derive(Clone, Copy)]
pub struct FlatInsert {
    pub splice_event_id: u64,
    pub splice_event_cancel_indicator: u64,
    pub reserved: u64,
    pub out_of_network_indicator: u64,
    pub mode: FlatMode,
    pub break_duration: FlatBreak,
    pub unique_program_id: u64,
    pub avail_num: u64,
    pub avails_expected: u64,
}

// All that belongs to another type is 0.
#[repr(C)]
#[derive(Clone, Copy)]
pub struct FlatCommand {
    pub refusal: u64,
    pub splice_command_type: u64,
    pub insert: FlatInsert,
    pub splice_time: FlatTime,
    pub identifier: u64,
    pub private_bytes: FlatView,
}

fn flat_mode(m: SpliceMode) -> FlatMode
    ensures { result ≡ flat_mode m }
{
    match m {
        SpliceMode::Program(t) => FlatMode {
            program_splice_flag: 1,
            splice_time: flat_time(t),
            component_count: 0,
        },
        SpliceMode::Components(n) => FlatMode {
            program_splice_flag: 0,
            splice_time: FlatTime { kind: 0, ticks: 0 },
            component_count: n as u64,
        },
    }
}

fn flat_break(b: Option<SpliceDuration>) -> FlatBreak
    ensures { result ≡ flat_break b }
{
    match b {
        None => FlatBreak {
            duration_flag: 0,
            auto_return: 0,
            duration: 0,
        },
        Some(d) => {
            let mode = d.return_mode;
            FlatBreak {
                duration_flag: 1,
                auto_return: u8::from(mode) as u64,
                duration: d.duration,
            }
        }
    }
}

// An insert without its detail.
fn insert_head(event: u64, cancel: u64, reserved: u64) -> FlatInsert
    ensures { result ≡ insert_head event cancel reserved }
{
    FlatInsert {
        splice_event_id: event,
        splice_event_cancel_indicator: cancel,
        reserved,
        out_of_network_indicator: 0,
        mode: FlatMode {
            program_splice_flag: 0,
            splice_time: FlatTime { kind: 0, ticks: 0 },
            component_count: 0,
        },
        break_duration: flat_break(None),
        unique_program_id: 0,
        avail_num: 0,
        avails_expected: 0,
    }
}

fn active_insert(event: u64, reserved: u64, i: InsertDetail) -> FlatInsert
    ensures { result ≡ active_insert event 0 reserved i }
{
    let network = i.network_indicator;
    let mode = i.splice_mode;
    let duration = i.duration;
    FlatInsert {
        splice_event_id: event,
        splice_event_cancel_indicator: 0,
        reserved,
        out_of_network_indicator: u8::from(network) as u64,
        mode: flat_mode(mode),
        break_duration: flat_break(duration),
        unique_program_id: i.unique_program_id as u64,
        avail_num: i.avail_num as u64,
        avails_expected: i.avails_expected as u64,
    }
}

fn flat_insert(x: SpliceInsert) -> FlatInsert
    ensures { result ≡ flat_insertion x }
{
    let detail = x.splice_detail;
    match detail {
        SpliceDetail::Cancel => insert_head(x.splice_event_id as u64, 1, x.reserved as u64),
        SpliceDetail::Insert(i) => active_insert(x.splice_event_id as u64, x.reserved as u64, i),
    }
}

pub(crate) fn no_command(refusal: u64, command_type: u64) -> FlatCommand
    ensures { result ≡ no_command refusal command_type }
{
    FlatCommand {
        refusal,
        splice_command_type: command_type,
        insert: insert_head(0, 0, 0),
        splice_time: FlatTime { kind: 0, ticks: 0 },
        identifier: 0,
        private_bytes: FlatView { at: 0, len: 0 },
    }
}

pub(crate) fn flat_command(c: SpliceCommand) -> FlatCommand
    ensures { result ≡ flat_command c }
{
    match c {
        SpliceCommand::SpliceNull => no_command(0, 0),
        SpliceCommand::SpliceInsert(i) => FlatCommand {
            refusal: 0,
            splice_command_type: 5,
            insert: flat_insert(i),
            splice_time: FlatTime { kind: 0, ticks: 0 },
            identifier: 0,
            private_bytes: FlatView { at: 0, len: 0 },
        },
        SpliceCommand::TimeSignal(t) => FlatCommand {
            refusal: 0,
            splice_command_type: 6,
            insert: insert_head(0, 0, 0),
            splice_time: flat_time(t),
            identifier: 0,
            private_bytes: FlatView { at: 0, len: 0 },
        },
        SpliceCommand::BandwidthReservation => no_command(0, 7),
        SpliceCommand::PrivateCommand(p) => {
            let bytes = p.private_bytes;
            FlatCommand {
                refusal: 0,
                splice_command_type: 255,
                insert: insert_head(0, 0, 0),
                splice_time: FlatTime { kind: 0, ticks: 0 },
                identifier: p.identifier as u64,
                private_bytes: flat_view(bytes),
            }
        }
    }
}

pub fn flat_command_read(read: Result<SpliceCommand, CommandRefusal>) -> FlatCommand
    ensures { result ≡ flat_command_read read }
{
    match read {
        Ok(c) => flat_command(c),
        Err(CommandRefusal::UnknownType) => no_command(number(read) as u64, 0),
        Err(CommandRefusal::Malformed) => no_command(number(read) as u64, 0),
    }
}
