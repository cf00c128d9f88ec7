// The section writer: header, command and loop as a section's bytes.
#![tactic(auto)]

ghost use Rattle.std.specs.Prelude.{◌≡◌, true, [], ◌+◌, ◌^◌, ◌<◌, ◌≤◌, length, take, Ok};
ghost use Rattle.section_writer.specs.Frame.{head, numbers_fit, writable_head};
ghost use Rattle.section.specs.Section.{section_length, first, frame_of};
ghost use Rattle.canonical_form.specs.Section.{canonical_frame, canonical_section};
ghost use Rattle.command.specs.Command.{array};
ghost use Rattle.command_measure.specs.Made.{command_made};
ghost use Rattle.bit_stores.specs.Written.{answer_of, later_of};
ghost use Rattle.section_writer.specs.Writing.{writer_conditions, type_of, section_made};
ghost use Rattle.section_writer.specs.Private.{first_number, last_number, tail, answer_section};
ghost use Rattle.table.specs.Lent.{stored};

use command::components::{InsertComponent, MAX_COMPONENTS};
use command::{CommandRefusal, SpliceCommand, read_command};
use command_canonical::is_canonical_command;
use command_measure::{Measured, measure_command, measure_without_components};
use command_writer::{put_command, put_without_components};
use crc::crc32;
use descriptor_canonical::is_canonical_loop;
use header::header::SpliceInfoHeader;
use names::numbering::Numbered;
use section::{COMMAND_AT, COMMAND_TYPE_AT, Frame, read_frame};
use table::lent::view;
use table::numbers::{bits, wide};
use table::store::{put_bytes, put_number};

// What a section has room for: 4,096 bytes less the 20 around command and loop.
const MAX_INSIDE: usize = 4076;

// ---- what is asked of a header

// Refusal 32: is each of the header's numbers within its field? Its command length and type are not looked at.
fn numbers_fit(header: SpliceInfoHeader) -> bool
    ensures { result ≡ numbers_fit header }
{
    let algorithm = header.encryption_algorithm;
    if 63 < u8::from(algorithm) {
        return false;
    }
    if 0x1_FFFF_FFFF < header.pts_adjustment {
        return false;
    }
    if 0xFFF < header.tier {
        return false;
    }
    true
}

// Is there nothing of refusal 33: is it not encrypted, and its algorithm one that its own number stands for?
fn is_writable_head(header: SpliceInfoHeader) -> bool
    ensures { result ≡ writable_head header }
{
    if header.encrypted_packet {
        return false;
    }
    let algorithm = header.encryption_algorithm;
    algorithm.writable()
}

// Refusals 31 to 35, in order of number, and 0 where none applies: of a header; of a command that its own writer gives the refusal r, or `size` bytes; and of
// a loop of `extent` bytes.
fn refusal_of(header: SpliceInfoHeader, r: u8, size: usize, extent: usize, canonical: bool) -> u8
    ensures { result ≡ first 31 (writer_conditions header r size extent canonical) }
{
    if r == 31 {
        return 31;
    }
    if r == 32 {
        return 32;
    }
    if !numbers_fit(header) {
        return 32;
    }
    if r == 33 {
        return 33;
    }
    if !is_writable_head(header) {
        return 33;
    }
    if MAX_INSIDE < size {
        return 34;
    }
    if MAX_INSIDE - size < extent {
        return 34;
    }
    if !canonical {
        return 35;
    }
    0
}

// ---- the stores

// The first six bytes of a header that is not encrypted: version 8, encrypted 1, algorithm 6, pts_adjustment 33.
fn first_number(header: SpliceInfoHeader) -> u64
    requires { numbers_fit header ≡ true }
    ensures { result ≡ first_number header }
{
    let algorithm = header.encryption_algorithm;
    (wide(header.protocol_version) * 128 + wide(algorithm.into())) * 0x2_0000_0000
        + header.pts_adjustment
}

// Its last five: cw_index 8, tier 12, command length 12, command type 8.
fn last_number(header: SpliceInfoHeader, command_type: u8, size: usize) -> u64
    requires { (numbers_fit header ≡ true) × (size < 2 ^ 12) }
    ensures { result ≡ last_number header command_type size }
{
    ((wide(header.cw_index) * 4096 + header.tier as u64) * 4096 + size as u64) * 256
        + wide(command_type)
}

// All before the command: 14 bytes. section_length counts the 20 bytes around command and loop less 3.
fn put_head(out: &mut [u8], header: SpliceInfoHeader, command_type: u8, size: usize, extent: usize)
    requires { (numbers_fit header ≡ true) × (writable_head header ≡ true) × (section_length size extent ≤ 4096) × (14 ≤ length out.old) }
    ensures { out.new ≡ stored out.old 0 (head header command_type size extent) }
{
    put_number(out, 0, 3, 0xFC_3000 + (17 + size + extent) as u64);
    put_number(out, 3, 6, first_number(header));
    put_number(out, 9, 5, last_number(header, command_type, size));
}

// All behind the command, which ends at `at`: the loop's length, the loop, and the CRC of all that stands before it.
fn put_tail(out: &mut [u8], at: usize, descriptors: &[u8])
    requires { (at + length descriptors.now ≤ 4096) × (at + length descriptors.now + 6 ≤ length out.old) }
    ensures { out.new ≡ stored out.old at (tail (take at out.old) descriptors.now) }
{
    put_number(out, at, 2, descriptors.len() as u64);
    put_bytes(out, at + 2, descriptors);
    let end = at + 2 + descriptors.len();
    let crc = crc32(&out[0..end]);
    put_number(out, end, 4, crc as u64);
}

// ---- the writer

// The number of a command's type.
fn type_of(command: SpliceCommand) -> u8
    ensures { result ≡ type_of command }
{
    match command {
        SpliceCommand::SpliceNull => 0x00,
        SpliceCommand::SpliceInsert(_) => 0x05,
        SpliceCommand::TimeSignal(_) => 0x06,
        SpliceCommand::BandwidthReservation => 0x07,
        SpliceCommand::PrivateCommand(_) => 0xFF,
    }
}

// What is answered where the target has `room` bytes: one of the refusals 31 to 36, or how many bytes the section has.
fn answer_section(
    header: SpliceInfoHeader,
    measured: Measured,
    descriptors: &[u8],
    room: usize,
) -> Result<usize, u8>
    ensures { result ≡ answer_section header measured descriptors.now room }
{
    let canonical = is_canonical_loop(descriptors);
    let extent = descriptors.len();
    let refusal = refusal_of(header, measured.refusal, measured.size, extent, canonical);
    if 0 < refusal {
        return Err(refusal);
    }
    let length = 20 + measured.size + extent;
    if room < length {
        return Err(36);
    }
    Ok(length)
}

// A section from the target's first byte on, or a refusal: 31 to 36. `lent` are the bytes that the command's views refer to. No byte is stored before the last
// test.
pub fn write_section(
    header: SpliceInfoHeader,
    command: SpliceCommand,
    components: [InsertComponent; MAX_COMPONENTS],
    lent: &[u8],
    descriptors: &[u8],
    target: &mut [u8],
) -> Result<usize, u8>
    ensures answer { result ≡ answer_of (section_made header (command_made command components lent.now) (type_of command) descriptors.now) target.old }
    ensures bytes { target.new ≡ later_of (section_made header (command_made command components lent.now) (type_of command) descriptors.now) target.old }
{
    let measured = measure_command(command, components, lent);
    let size = measured.size;
    let answer = answer_section(header, measured, descriptors, target.len());
    match answer {
        Ok(_) => {
            put_head(target, header, type_of(command), size, descriptors.len());
            put_command(target, COMMAND_AT, command, components, lent);
            put_tail(target, COMMAND_AT + size, descriptors);
        }
        Err(_) => {}
    }
    answer
}

// A section, as `write_section` writes it, of a command whose components are all blank: one that has none needs no array.
pub fn write_section_without_components(
    header: SpliceInfoHeader,
    command: SpliceCommand,
    lent: &[u8],
    descriptors: &[u8],
    target: &mut [u8],
) -> Result<usize, u8>
    ensures answer { result ≡ answer_of (section_made header (command_made command (array []) lent.now) (type_of command) descriptors.now) target.old }
    ensures bytes { target.new ≡ later_of (section_made header (command_made command (array []) lent.now) (type_of command) descriptors.now) target.old }
{
    let measured = measure_without_components(command, lent);
    let size = measured.size;
    let outcome = answer_section(header, measured, descriptors, target.len());
    match outcome {
        Ok(_) => {
            put_head(target, header, type_of(command), size, descriptors.len());
            put_without_components(target, COMMAND_AT, command, lent);
            put_tail(target, COMMAND_AT + size, descriptors);
        }
        Err(_) => {}
    }
    outcome
}

// ---- the canonical form

// What the canonical form asks around command and loop of a section that has this frame.
fn is_canonical_around(section: &[u8], frame: Frame) -> bool
    requires { Ok frame ≡ frame_of section.now }
    ensures { result ≡ canonical_frame section.now }
{
    let payload = frame.command;
    let end = COMMAND_AT + payload.len;
    match read_command(section[COMMAND_TYPE_AT], &section[COMMAND_AT..end]) {
        Ok(_) => {}
        Err(CommandRefusal::UnknownType) => return false,
        Err(CommandRefusal::Malformed) => return false,
    }
    if bits(section, 1, 0, 4) != 0b0011 {
        return false;
    }
    if bits(section, 1, 4, 12) as usize != section.len() - 3 {
        return false;
    }
    let descriptors = frame.descriptors;
    if section.len() != descriptors.at + descriptors.len + 4 {
        return false;
    }
    true
}

// What the canonical form asks of a section around its command and its loop.
pub fn is_canonical_frame(section: &[u8]) -> bool
    ensures { result ≡ canonical_frame section.now }
{
    match read_frame(section) {
        Ok(frame) => return is_canonical_around(section, frame),
        Err(_) => return false,
    }
}

// Is the section canonical: its frame, its command and its loop?
pub fn is_canonical_section(section: &[u8]) -> bool
    ensures { result ≡ canonical_section section.now }
{
    let frame = match read_frame(section) {
        Ok(f) => f,
        Err(_) => return false,
    };
    if !is_canonical_around(section, frame) {
        return false;
    }
    let payload = frame.command;
    if !is_canonical_command(section[COMMAND_TYPE_AT], view(section, payload)) {
        return false;
    }
    let descriptors = frame.descriptors;
    is_canonical_loop(view(section, descriptors))
}
