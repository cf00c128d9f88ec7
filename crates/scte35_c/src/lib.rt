// libscte35.a: the functions that include/scte35.h declares, each with the clauses that the library scte35 has of it. Each takes bytes and an offset, reads
// what stands from there to the end (nothing where the offset lies past it), and answers a struct of 64-bit words. Views count from the offset; those of a
// loop's items, from the loop's first byte.
#![tactic(auto)]

ghost use Rattle.std.specs.Prelude.{◌≡◌, drop};
ghost use Rattle.command.specs.Command.{command_of, components_of};
ghost use Rattle.crc.specs.Crc.{crc_of};
ghost use Rattle.c_section.specs.Flat.{flat_header_read, flat_adjusted};
ghost use Rattle.c_section.specs.FlatCommand.{flat_command_read, flat_insert_components};
ghost use Rattle.c_section.specs.FlatSection.{flat_section_read};
ghost use Rattle.c_items.specs.FlatItem.{flat_step, flat_beside};
ghost use Rattle.c_items.specs.FlatUpid.{flat_upid};
ghost use Rattle.header.specs.Header.{header_of};
ghost use Rattle.splice_time.specs.Time.{adjusted_of};
ghost use Rattle.descriptor_loop.specs.Items.{step_of, reading_of};
ghost use Rattle.section.specs.Section.{section_of};
ghost use Rattle.upid.specs.Upid.{upid_of};
ghost use Rattle.scte35.specs.FlatNumber.{time_handed};

use c_items::beside::FlatBeside;
use c_items::steps::FlatStep;
use c_items::upids::FlatUpid;
use c_section::commands::FlatCommand;
use c_section::components::FlatInsertComponents;
use c_section::headers::{FlatAdjusted, FlatHeader};
use c_section::sections::FlatSection;

pub mod abi;
pub mod adjusting;
pub mod canonical;
pub mod numbers;
pub mod packet;
pub mod playlist;
pub mod relabelling;
pub mod shared_board;
pub mod writing;

#[unsafe(no_mangle)]
pub extern "C" fn scte35_read_header(s: &[u8], at: usize) -> FlatHeader
    ensures { result ≡ flat_header_read (header_of (drop at s.now)) }
{
    scte35::scte35_read_header(s, at)
}

// Its header is read as numbers, its command as `read_section` reads it.
#[unsafe(no_mangle)]
pub extern "C" fn scte35_read_section(section: &[u8], at: usize) -> FlatSection
    ensures { result ≡ flat_section_read (section_of (drop at section.now)) }
{
    scte35::scte35_read_section(section, at)
}

// The command of a type, in its payload.
#[unsafe(no_mangle)]
pub extern "C" fn scte35_read_command(command_type: u8, payload: &[u8], at: usize) -> FlatCommand
    ensures { result ≡ flat_command_read (command_of command_type (drop at payload.now)) }
{
    scte35::scte35_read_command(command_type, payload, at)
}

// The components of an insert, in its payload.
#[unsafe(no_mangle)]
pub extern "C" fn scte35_read_insert_components(payload: &[u8], at: usize) -> FlatInsertComponents
    ensures { result ≡ flat_insert_components (command_of 0x05 (drop at payload.now)) (components_of (drop at payload.now)) }
{
    scte35::scte35_read_insert_components(payload, at)
}

// The item at an offset of a loop.
#[unsafe(no_mangle)]
pub extern "C" fn scte35_read_item(descriptors: &[u8], offset: usize) -> FlatStep
    ensures { result ≡ flat_step (step_of descriptors.now offset) }
{
    scte35::scte35_read_item(descriptors, offset)
}

// What stands beside that item.
#[unsafe(no_mangle)]
pub extern "C" fn scte35_read_segmentation_components(
    descriptors: &[u8],
    offset: usize,
) -> FlatBeside
    ensures { result ≡ flat_beside (reading_of descriptors.now offset) }
{
    scte35::scte35_read_segmentation_components(descriptors, offset)
}

// The UPID of a type, in all bytes from the offset on.
#[unsafe(no_mangle)]
pub extern "C" fn scte35_read_upid(upid_type: u8, upid: &[u8], at: usize) -> FlatUpid
    ensures { result ≡ flat_upid (upid_of upid_type (drop at upid.now)) }
{
    scte35::scte35_read_upid(upid_type, upid, at)
}

#[unsafe(no_mangle)]
pub extern "C" fn scte35_crc(s: &[u8], at: usize) -> u32
    ensures { result ≡ crc_of (drop at s.now) }
{
    scte35::scte35_crc(s, at)
}

// A time of kind 3 with its adjustment; any other kind is no time.
#[unsafe(no_mangle)]
pub extern "C" fn scte35_adjust_time(kind: u64, ticks: u64, pts_adjustment: u64) -> FlatAdjusted
    ensures { result ≡ flat_adjusted (adjusted_of (time_handed kind ticks) pts_adjustment) }
{
    scte35::scte35_adjust_time(kind, ticks, pts_adjustment)
}
