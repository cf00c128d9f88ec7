// A section: header, command, and where its descriptor loop and its command's payload lie.
ghost use Rattle.std.specs.Prelude.{◌≡◌, Err};
ghost use Rattle.c_section.specs.FlatSection.{flat_section_read, flat_parts};

use crate::commands::{FlatCommand, flat_command, no_command};
use crate::headers::{FlatHeader, no_header};
use crate::{FlatView, flat_view};
use command::SpliceCommand;
use section::{Frame, Refusal};

#[repr(C)]
#[derive(Clone, Copy)]
pub struct FlatSection {
    pub refusal: u64,
    pub header: FlatHeader,
    pub command: FlatCommand,
    pub descriptors: FlatView,
    pub payload: FlatView,
}

// A refused section: its number alone.
pub fn no_section(r: Refusal) -> FlatSection
    ensures { result ≡ flat_section_read (Err r) }
{
    FlatSection {
        refusal: r.number() as u64,
        header: no_header(0),
        command: no_command(0, 0),
        descriptors: FlatView { at: 0, len: 0 },
        payload: FlatView { at: 0, len: 0 },
    }
}

// One that is read: its header, its command, and where its parts lie.
pub fn flat_parts(header: FlatHeader, command: SpliceCommand, frame: Frame) -> FlatSection
    ensures { result ≡ flat_parts header command frame }
{
    let descriptors = frame.descriptors;
    let payload = frame.command;
    FlatSection {
        refusal: 0,
        header,
        command: flat_command(command),
        descriptors: flat_view(descriptors),
        payload: flat_view(payload),
    }
}
