// splice_insert(), without its components: their count stands in the mode.
ghost use Rattle.std.specs.Prelude.{◌≡◌, List, ◌*◌, ◌≤◌, length};
ghost use Rattle.command.specs.Insert.{time_unless, moded, ending, active, insert};
ghost use Rattle.command.specs.Private.{moded_read, active_read, insert_read};
ghost use Rattle.splice_time.specs.Time.{time_read};
ghost use Rattle.command.specs.declared.components.InsertComponent.{InsertComponent};
ghost use Rattle.names.specs.declared.flags.NetworkIndicator.{NetworkIndicator};
ghost use Rattle.table.specs.Bits.{pick, bits_of};
ghost use Rattle.table.specs.Table.{parse};

use crate::components::skim;
use names::flags::NetworkIndicator;
use splice_time::break_duration::{SpliceDuration, read_break};
use splice_time::{SpliceTime, read_aligned_time};
use table::cursor::{Cursor, Field, Short};
use table::numbers::{big_endian, wide};

// By program, or by as many components; they are read on demand. (No Option: either says what is spliced.)
#[derive(Clone, Copy)]
pub enum SpliceMode {
    Program(SpliceTime),
    Components(u8),
}

#[derive(Clone, Copy)]
pub struct InsertDetail {
    pub network_indicator: NetworkIndicator,
    pub splice_mode: SpliceMode,
    pub duration: Option<SpliceDuration>,
    pub unique_program_id: u16,
    pub avail_num: u8,
    pub avails_expected: u8,
}

// No Option: a cancelled event is no absence, and a cue that cancels asks for something.
#[derive(Clone, Copy)]
pub enum SpliceDetail {
    Cancel,
    Insert(InsertDetail),
}

#[derive(Clone, Copy)]
pub struct SpliceInsert {
    pub splice_event_id: u32,
    pub reserved: u8,
    pub splice_detail: SpliceDetail,
}

fn indicator(out: bool) -> NetworkIndicator
    ensures { result ≡ pick out NetworkIndicator.Out NetworkIndicator.In }
{
    if out {
        return NetworkIndicator::Out;
    }
    NetworkIndicator::In
}

// A splice_time() unless the splice is immediate, from a byte on.
pub(crate) fn read_time_unless(
    payload: &[u8],
    at: usize,
    immediate: bool,
) -> Result<Field<SpliceTime, Cursor>, Short>
    ensures { result ≡ time_read (parse (time_unless immediate) (bits_of payload.now) (at * 8)) }
{
    if immediate {
        return Ok(Field {
            value: SpliceTime::Immediate,
            next: Cursor { byte: at, bit: 0 },
        });
    }
    read_aligned_time(payload, at)
}

// The mode and the place of the byte after it: each part of an insert starts and ends with a byte.
fn read_mode(
    payload: &[u8],
    at: usize,
    program: bool,
    immediate: bool,
) -> Result<Field<SpliceMode, usize>, Short>
    ensures { result ≡ moded_read (parse (moded program immediate) (bits_of payload.now) (at * 8)) }
{
    if program {
        let timed = read_time_unless(payload, at, immediate)?;
        return Ok(Field {
            value: SpliceMode::Program(timed.value),
            next: timed.next.byte,
        });
    }
    if payload.len() <= at {
        return Err(Short {
            expected: 1,
            actual: 0,
        });
    }
    let count = payload[at];
    let next = skim(payload, at + 1, count as usize, immediate)?;
    Ok(Field {
        value: SpliceMode::Components(count),
        next,
    })
}

// From the duration on. The answer is the same whichever components stand beside the mode.
fn read_ending(
    payload: &[u8],
    at: usize,
    out: bool,
    mode: SpliceMode,
    flagged: bool,
) -> Result<InsertDetail, Short>
    requires { at ≤ length payload.now }
    ensures { (cs : List InsertComponent) → result ≡ active_read (parse (ending out (record { value = mode; components = cs }) flagged) (bits_of payload.now) (at * 8)) }
{
    let broken = read_break(payload, at, flagged)?;
    let duration = broken.value;
    let at = broken.next;
    let left = payload.len() - at;
    if left < 2 {
        return Err(Short {
            expected: 2,
            actual: left,
        });
    }
    if left < 4 {
        return Err(Short {
            expected: 1,
            actual: 0,
        });
    }
    Ok(InsertDetail {
        network_indicator: indicator(out),
        splice_mode: mode,
        duration,
        unique_program_id: big_endian(payload, at, 2) as u16,
        avail_num: payload[at + 2],
        avails_expected: payload[at + 3],
    })
}

// What is not cancelled, from a byte on.
fn read_active(payload: &[u8], at: usize) -> Result<InsertDetail, Short>
    ensures { result ≡ active_read (parse active (bits_of payload.now) (at * 8)) }
{
    if payload.len() <= at {
        return Err(Short {
            expected: 0,
            actual: 0,
        });
    }
    let flags = wide(payload[at]);
    let program = flags / 64 % 2 == 1;
    let immediate = flags / 16 % 2 == 1;
    let moded = read_mode(payload, at + 1, program, immediate)?;
    let mode = moded.value;
    let next = moded.next;
    read_ending(payload, next, flags / 128 == 1, mode, flags / 32 % 2 == 1)
}

// The insert of a payload.
pub fn read_insert(payload: &[u8]) -> Result<SpliceInsert, Short>
    ensures { result ≡ insert_read (parse insert (bits_of payload.now) 0) }
{
    if payload.len() < 4 {
        return Err(Short {
            expected: 4,
            actual: payload.len(),
        });
    }
    if payload.len() < 5 {
        return Err(Short {
            expected: 0,
            actual: 0,
        });
    }
    let splice_event_id = big_endian(payload, 0, 4) as u32;
    let flags = payload[4];
    let reserved = flags % 128;
    if 128 <= flags {
        return Ok(SpliceInsert {
            splice_event_id,
            reserved,
            splice_detail: SpliceDetail::Cancel,
        });
    }
    let detail = read_active(payload, 5)?;
    Ok(SpliceInsert {
        splice_event_id,
        reserved,
        splice_detail: SpliceDetail::Insert(detail),
    })
}
