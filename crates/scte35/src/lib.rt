// The C boundary: include/scte35.h declares these functions, and the crate scte35_c exports them. Each takes bytes and an offset, reads what stands from there
// to the end (nothing where the offset lies past it), and answers a struct of 64-bit words. Views count from the offset; those of a loop's items, from the
// loop's first byte.
#![tactic(auto)]

ghost use Rattle.std.specs.Prelude.{◌≡◌, drop};
ghost use Rattle.command.specs.Command.{command_of, components_of};
ghost use Rattle.crc.specs.Crc.{crc_of};
ghost use Rattle.c_section.specs.Flat.{flat_header_read, flat_adjusted};
ghost use Rattle.c_section.specs.FlatCommand.{flat_command_read, flat_insert_components};
ghost use Rattle.c_section.specs.FlatSection.{flat_section_read};
ghost use Rattle.c_items.specs.FlatItem.{flat_step, flat_beside};
ghost use Rattle.c_items.specs.FlatUpid.{flat_upid};
ghost use Rattle.header.specs.Header.{header_of};
ghost use Rattle.splice_time.specs.Time.{adjusted_of};
ghost use Rattle.descriptor_loop.specs.Items.{step_of, reading_of};
ghost use Rattle.section.specs.Section.{section_of};
ghost use Rattle.upid.specs.Upid.{upid_of};
ghost use Rattle.scte35.specs.FlatNumber.{time_handed};

use c_items::beside::{FlatBeside, flat_beside};
use c_items::steps::{FlatStep, flat_step};
use c_items::upids::{FlatUpid, flat_upid};
use c_section::commands::{FlatCommand, flat_command_read};
use c_section::components::{FlatInsertComponents, flat_insert_components};
use c_section::headers::{FlatAdjusted, FlatHeader, flat_adjusted, read_flat_header};
use c_section::sections::{FlatSection, flat_parts, no_section};
use command::components::read_components;
use command::{CommandRefusal, SpliceCommand, read_command};
use crc::crc32;
use descriptor_loop::iteration::step;
use descriptor_loop::reading::read_item;
use section::{COMMAND_AT, COMMAND_TYPE_AT, Refusal, read_command_part, read_frame};
use splice_time::{SpliceTime, adjusted_time};
use upid::read_upid;

pub mod abi;
pub mod adjusting;
pub mod canonical;
pub mod numbers;
pub mod packet;
pub mod playlist;
pub mod relabelling;
pub mod shared_board;
pub mod writing;

// The bytes from an offset on.
pub(crate) fn rest(s: &[u8], at: usize) -> &[u8]
    ensures { result.now ≡ drop at s.now }
{
    let end = s.len();
    if end < at {
        return &s[end..];
    }
    &s[at..]
}

#[unsafe(no_mangle)]
pub extern "C" fn scte35_read_header(s: &[u8], at: usize) -> FlatHeader
    ensures { result ≡ flat_header_read (header_of (drop at s.now)) }
{
    read_flat_header(rest(s, at))
}

// Its header is read as numbers, its command as `read_section` reads it. There is a return in an arm for each type of answer: answers that meet behind a
// match, or behind a call, are held word by word.
#[unsafe(no_mangle)]
pub extern "C" fn scte35_read_section(section: &[u8], at: usize) -> FlatSection
    ensures { result ≡ flat_section_read (section_of (drop at section.now)) }
{
    let t = rest(section, at);
    let frame = match read_frame(t) {
        Ok(f) => f,
        Err(r) => return no_section(r),
    };
    let header = read_flat_header(&t[3..]);
    let payload = frame.command;
    let end = COMMAND_AT + payload.len;
    match read_command_part(t[COMMAND_TYPE_AT], &t[COMMAND_AT..end]) {
        Ok(command) => match command {
            SpliceCommand::SpliceNull => return flat_parts(
                header,
                SpliceCommand::SpliceNull,
                frame,
            ),
            SpliceCommand::SpliceInsert(i) => return flat_parts(
                header,
                SpliceCommand::SpliceInsert(i),
                frame,
            ),
            SpliceCommand::TimeSignal(time) => return flat_parts(
                header,
                SpliceCommand::TimeSignal(time),
                frame,
            ),
            SpliceCommand::BandwidthReservation => return flat_parts(
                header,
                SpliceCommand::BandwidthReservation,
                frame,
            ),
            SpliceCommand::PrivateCommand(p) => return flat_parts(
                header,
                SpliceCommand::PrivateCommand(p),
                frame,
            ),
        },
        Err(CommandRefusal::UnknownType) => return no_section(Refusal::UnknownCommand),
        Err(CommandRefusal::Malformed) => return no_section(Refusal::MalformedCommand),
    }
}

// The command of a type, in its payload.
#[unsafe(no_mangle)]
pub extern "C" fn scte35_read_command(command_type: u8, payload: &[u8], at: usize) -> FlatCommand
    ensures { result ≡ flat_command_read (command_of command_type (drop at payload.now)) }
{
    flat_command_read(read_command(command_type, rest(payload, at)))
}

// The components of an insert, in its payload.
#[unsafe(no_mangle)]
pub extern "C" fn scte35_read_insert_components(payload: &[u8], at: usize) -> FlatInsertComponents
    ensures { result ≡ flat_insert_components (command_of 0x05 (drop at payload.now)) (components_of (drop at payload.now)) }
{
    let listed = read_components(rest(payload, at));
    let read = listed.read;
    let components = listed.components;
    flat_insert_components(read, components)
}

// The item at an offset of a loop.
#[unsafe(no_mangle)]
pub extern "C" fn scte35_read_item(descriptors: &[u8], offset: usize) -> FlatStep
    ensures { result ≡ flat_step (step_of descriptors.now offset) }
{
    flat_step(step(descriptors, offset))
}

// What stands beside that item.
#[unsafe(no_mangle)]
pub extern "C" fn scte35_read_segmentation_components(
    descriptors: &[u8],
    offset: usize,
) -> FlatBeside
    ensures { result ≡ flat_beside (reading_of descriptors.now offset) }
{
    flat_beside(read_item(descriptors, offset))
}

// The UPID of a type, in all bytes from the offset on.
#[unsafe(no_mangle)]
pub extern "C" fn scte35_read_upid(upid_type: u8, upid: &[u8], at: usize) -> FlatUpid
    ensures { result ≡ flat_upid (upid_of upid_type (drop at upid.now)) }
{
    flat_upid(read_upid(upid_type, rest(upid, at)))
}

#[unsafe(no_mangle)]
pub extern "C" fn scte35_crc(s: &[u8], at: usize) -> u32
    ensures { result ≡ crc_of (drop at s.now) }
{
    crc32(rest(s, at))
}

// The time that is handed in. Ticks over 33 bits are kept whatever the kind, so that they are refused.
pub(crate) fn time_from(kind: u64, ticks: u64) -> SpliceTime
    ensures { result ≡ time_handed kind ticks }
{
    if kind == 3 {
        return SpliceTime::At(ticks);
    }
    if ticks < 0x2_0000_0000 {
        return SpliceTime::Unspecified;
    }
    SpliceTime::At(ticks)
}

// A time of kind 3 with its adjustment; any other kind is no time.
#[unsafe(no_mangle)]
pub extern "C" fn scte35_adjust_time(kind: u64, ticks: u64, pts_adjustment: u64) -> FlatAdjusted
    ensures { result ≡ flat_adjusted (adjusted_of (time_handed kind ticks) pts_adjustment) }
{
    flat_adjusted(adjusted_time(time_from(kind, ticks), pts_adjustment))
}
