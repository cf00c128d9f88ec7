// The components of a splice_insert(): skimmed on the way to what follows them, and read on demand.
ghost use Rattle.std.specs.Prelude.{◌≡◌, [], ◌*◌, ◌≤◌};
ghost use Rattle.command.specs.Insert.{blank, component};
ghost use Rattle.command.specs.Command.{array, components_of, listed_of};
ghost use Rattle.command.specs.Private.{component_read, skimmed_of, list_in, count_read};
ghost use Rattle.table.specs.Bits.{bits_of};
ghost use Rattle.table.specs.Table.{list, parse};

use crate::insert::{SpliceDetail, SpliceMode, read_time_unless};
use crate::{CommandRefusal, SpliceCommand, read_command, read_other};
use splice_time::SpliceTime;
use table::cursor::{Field, Short};
use table::numbers::bits;

// An insert has at most so many components.
pub const MAX_COMPONENTS: usize = 255;

#[derive(Clone, Copy)]
pub struct InsertComponent {
    pub component_tag: u8,
    pub splice_time: SpliceTime,
}

// A command as it was read, or its refusal, and its components: blank past their count.
#[derive(Clone, Copy)]
pub struct ListedCommand {
    pub read: Result<SpliceCommand, CommandRefusal>,
    pub components: [InsertComponent; MAX_COMPONENTS],
}

// A component and the place of the byte after it.
pub(crate) fn read_component(
    s: &[u8],
    at: usize,
    immediate: bool,
) -> Result<Field<InsertComponent, usize>, Short>
    ensures { result ≡ component_read (parse (component immediate) (bits_of s.now) (at * 8)) }
{
    if s.len() <= at {
        return Err(Short {
            expected: 1,
            actual: 0,
        });
    }
    let component_tag = s[at];
    let timed = read_time_unless(s, at + 1, immediate)?;
    Ok(Field {
        value: InsertComponent {
            component_tag,
            splice_time: timed.value,
        },
        next: timed.next.byte,
    })
}

// Past `count` components, each of which is there.
pub(crate) fn skim(s: &[u8], first: usize, count: usize, immediate: bool) -> Result<usize, Short>
    ensures { result ≡ skimmed_of (parse (list count blank (component immediate)) (bits_of s.now) (first * 8)) }
{
    let mut at = first;
    for _ in 0..count {
        let component = read_component(s, at, immediate)?;
        at = component.next;
    }
    Ok(at)
}

// No components: every place blank.
pub fn blanks() -> [InsertComponent; MAX_COMPONENTS]
    ensures { result ≡ array [] }
{
    [InsertComponent {
        component_tag: 0,
        splice_time: SpliceTime::Unspecified,
    }; MAX_COMPONENTS]
}

// `count` components in their array, blank past them.
fn fill(s: &[u8], first: usize, count: usize, immediate: bool) -> [InsertComponent; MAX_COMPONENTS]
    requires { count ≤ 255 }
    ensures { result ≡ array (list_in (parse (list count blank (component immediate)) (bits_of s.now) (first * 8))) }
{
    let mut out = blanks();
    let mut at = first;
    for i in 0..count {
        let read = match read_component(s, at, immediate) {
            Ok(read) => read,
            Err(_) => return blanks(),
        };
        out[i] = read.value;
        at = read.next;
    }
    out
}

// How many components a command says that it has.
fn count_of(read: Result<SpliceCommand, CommandRefusal>) -> u8
    ensures { result ≡ count_read read }
{
    let command = match read {
        Ok(c) => c,
        Err(CommandRefusal::UnknownType) => return 0,
        Err(CommandRefusal::Malformed) => return 0,
    };
    let insertion = match command {
        SpliceCommand::SpliceNull => return 0,
        SpliceCommand::SpliceInsert(i) => i,
        SpliceCommand::TimeSignal(_) => return 0,
        SpliceCommand::BandwidthReservation => return 0,
        SpliceCommand::PrivateCommand(_) => return 0,
    };
    let detail = insertion.splice_detail;
    let insert = match detail {
        SpliceDetail::Insert(i) => i,
        SpliceDetail::Cancel => return 0,
    };
    let mode = insert.splice_mode;
    match mode {
        SpliceMode::Components(n) => return n,
        SpliceMode::Program(_) => return 0,
    }
}

// The components of an insert's payload, blank past their count; none where the payload is malformed.
fn list_components(payload: &[u8]) -> [InsertComponent; MAX_COMPONENTS]
    ensures { result ≡ components_of payload.now }
{
    let count = count_of(read_other(5, payload));
    fill(payload, 7, count as usize, bits(payload, 5, 3, 1) == 1)
}

// An insert's payload read, with its components beside the reading: where it is refused (11), they are blank.
pub fn read_components(payload: &[u8]) -> ListedCommand
    ensures { result ≡ listed_of payload.now }
{
    ListedCommand {
        read: read_command(0x05, payload),
        components: list_components(payload),
    }
}
