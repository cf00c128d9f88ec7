// A section: header, command, and the place of its descriptor loop.
#![tactic(auto)]

ghost use Rattle.std.specs.Prelude.{◌≡◌, ◌+◌, ◌*◌, ◌<◌, ◌≤◌, length, drop, Err};
ghost use Rattle.section.specs.Section.{command_length, command_type, command_bytes, frame_in, moved, moved_read, accepted, frame_of, section_of, number_of, private_view};
ghost use Rattle.table.specs.Lent.{viewed};
ghost use Rattle.section.specs.Private.{view_start, layout_of};
ghost use Rattle.table.specs.Bits.{bits_of, field};
ghost use Rattle.command.specs.Command.{command_of};
ghost use Rattle.header.specs.Header.{header_of};

use command::{CommandRefusal, Private, SpliceCommand, read_command};
use crc::crc32;
use header::header::{SpliceInfoHeader, read_header};
use table::View;
use table::lent::view;
use table::numbers::wide;

pub mod full;

// A section has at most so many bytes.
pub const MAX_SECTION: usize = 4096;

// It has a header only from so many bytes on: three, the header's eleven and the CRC's four.
const LEAST_WITH_HEADER: usize = 18;

// Its command's type stands in this byte, and its command's payload starts at the next.
pub const COMMAND_TYPE_AT: usize = 13;

pub const COMMAND_AT: usize = 14;

// What a section says. Views count from its first byte; the items of the loop are read one step at a time. The payload is the command's.
#[derive(Clone, Copy)]
pub struct Section {
    pub header: SpliceInfoHeader,
    pub command: SpliceCommand,
    pub descriptors: View,
    pub payload: View,
}

// Refusals 1 to 11, in their order.
#[derive(Clone, Copy, Debug, PartialEq, Eq)]
pub enum Refusal {
    SectionTooShort,
    InputTooLong,
    OtherTable,
    WrongCrc,
    NoHeader,
    Encrypted,
    CommandTooLong,
    NoLoopLength,
    LoopTooLong,
    UnknownCommand,
    MalformedCommand,
}

impl Refusal {
    // Document 01's number.
    pub fn number(self) -> u8
        ensures { result ≡ number_of (Err self) }
    {
        match self {
            Refusal::SectionTooShort => 1,
            Refusal::InputTooLong => 2,
            Refusal::OtherTable => 3,
            Refusal::WrongCrc => 4,
            Refusal::NoHeader => 5,
            Refusal::Encrypted => 6,
            Refusal::CommandTooLong => 7,
            Refusal::NoLoopLength => 8,
            Refusal::LoopTooLong => 9,
            Refusal::UnknownCommand => 10,
            Refusal::MalformedCommand => 11,
        }
    }
}

// Where the two parts lie whose lengths a section says: the command's payload, and the loop.
#[derive(Clone, Copy)]
pub struct Frame {
    pub command: View,
    pub descriptors: View,
}

// A command whose views count from `base` bytes before it.
fn move_command(c: SpliceCommand, base: usize) -> SpliceCommand
    requires { (view_start c ≤ 4) × (base ≤ 14) }
    ensures { result ≡ moved base c }
{
    match c {
        SpliceCommand::SpliceNull => SpliceCommand::SpliceNull,
        SpliceCommand::SpliceInsert(i) => SpliceCommand::SpliceInsert(i),
        SpliceCommand::TimeSignal(t) => SpliceCommand::TimeSignal(t),
        SpliceCommand::BandwidthReservation => SpliceCommand::BandwidthReservation,
        SpliceCommand::PrivateCommand(p) => {
            let v = p.private_bytes;
            SpliceCommand::PrivateCommand(Private {
                identifier: p.identifier,
                private_bytes: View {
                    at: base + v.at,
                    len: v.len,
                },
            })
        }
    }
}

// ---- the frame

// splice_command_length: four bits of byte 11, and byte 12.
fn command_length(section: &[u8]) -> usize
    requires { 18 ≤ length section.now }
    ensures { (result ≡ command_length section.now) × (result < 4096) }
{
    (wide(section[11]) % 16 * 256 + wide(section[12])) as usize
}

// The number in the two bytes at a place.
fn two_bytes(section: &[u8], at: usize) -> usize
    requires { at + 2 ≤ length section.now }
    ensures { (result ≡ field (bits_of section.now) (at * 8) 16) × (result < 65536) }
{
    (wide(section[at]) * 256 + wide(section[at + 1])) as usize
}

// Refusals 6 to 9.
fn read_layout(section: &[u8]) -> Result<Frame, Refusal>
    requires { (18 ≤ length section.now) × (length section.now ≤ 4096) }
    ensures { result ≡ layout_of section.now }
{
    if 128 <= section[4] {
        return Err(Refusal::Encrypted);
    }
    let size = command_length(section);
    if section.len() - LEAST_WITH_HEADER < size {
        return Err(Refusal::CommandTooLong);
    }
    let room = section.len() - LEAST_WITH_HEADER - size;
    if room < 2 {
        return Err(Refusal::NoLoopLength);
    }
    let extent = two_bytes(section, COMMAND_AT + size);
    if room < extent + 2 {
        return Err(Refusal::LoopTooLong);
    }
    Ok(Frame {
        command: View {
            at: COMMAND_AT,
            len: size,
        },
        descriptors: View {
            at: 16 + size,
            len: extent,
        },
    })
}

// Refusals 1 to 9, in their order. A function of its own: its answers meet in `read_frame`, which is then so small that the compiler puts it in place of
// its calls.
fn test_frame(section: &[u8]) -> Result<Frame, Refusal>
    ensures { result ≡ frame_of section.now }
{
    if section.len() < 3 {
        return Err(Refusal::SectionTooShort);
    }
    if MAX_SECTION < section.len() {
        return Err(Refusal::InputTooLong);
    }
    if section[0] != 0xFC {
        return Err(Refusal::OtherTable);
    }
    if crc32(section) != 0 {
        return Err(Refusal::WrongCrc);
    }
    if section.len() < LEAST_WITH_HEADER {
        return Err(Refusal::NoHeader);
    }
    read_layout(section)
}

// Where command and loop lie, in a section whose parts are all there. Only its command is still to be read.
pub fn read_frame(section: &[u8]) -> Result<Frame, Refusal>
    ensures { result ≡ frame_of section.now }
{
    test_frame(section)
}

// ---- the reading

// The command of a type, in its payload, as a section has it: its views count from the section's first byte, 14 bytes before the payload. The C boundary's:
// it has one caller, so that no command is handed on by value.
pub fn read_command_part(command_type: u8, payload: &[u8]) -> Result<SpliceCommand, CommandRefusal>
    ensures { result ≡ moved_read (command_of command_type payload.now) }
{
    match read_command(command_type, payload) {
        Ok(c) => Ok(move_command(c, COMMAND_AT)),
        Err(CommandRefusal::UnknownType) => Err(CommandRefusal::UnknownType),
        Err(CommandRefusal::Malformed) => Err(CommandRefusal::Malformed),
    }
}

// The header and the command of a section whose parts are all there, beside its frame.
fn read_parts(section: &[u8], frame: Frame) -> Result<Section, Refusal>
    requires { (frame ≡ frame_in section.now) × (16 + command_length section.now ≤ length section.now) }
    ensures { result ≡ accepted (header_of (drop 3 section.now)) (moved_read (command_of (command_type section.now) (command_bytes section.now))) (frame_in section.now) }
{
    let header = match read_header(&section[3..]) {
        Some(h) => h,
        None => return Err(Refusal::NoHeader),
    };
    let payload = frame.command;
    let descriptors = frame.descriptors;
    let end = COMMAND_AT + payload.len;
    match read_command(section[COMMAND_TYPE_AT], &section[COMMAND_AT..end]) {
        Ok(c) => Ok(Section {
            header,
            command: move_command(c, COMMAND_AT),
            descriptors,
            payload,
        }),
        Err(CommandRefusal::UnknownType) => Err(Refusal::UnknownCommand),
        Err(CommandRefusal::Malformed) => Err(Refusal::MalformedCommand),
    }
}

// The section in these bytes.
pub fn read_section(section: &[u8]) -> Result<Section, Refusal>
    ensures { result ≡ section_of section.now }
{
    let frame = read_frame(section)?;
    read_parts(section, frame)
}

// The loop of a section, as a part of the lent bytes.
pub fn loop_of(section: &[u8], x: Section) -> &[u8]
    ensures { result.now ≡ viewed section.now x.descriptors }
{
    let place = x.descriptors;
    view(section, place)
}

// The bytes of a private command, as a part of the lent section; none of any other command.
pub fn private_bytes_of(section: &[u8], c: SpliceCommand) -> &[u8]
    ensures { result.now ≡ viewed section.now (private_view c) }
{
    let nothing = View { at: 0, len: 0 };
    match c {
        SpliceCommand::PrivateCommand(p) => {
            let place = p.private_bytes;
            view(section, place)
        }
        SpliceCommand::SpliceNull => view(section, nothing),
        SpliceCommand::SpliceInsert(_) => view(section, nothing),
        SpliceCommand::TimeSignal(_) => view(section, nothing),
        SpliceCommand::BandwidthReservation => view(section, nothing),
    }
}
