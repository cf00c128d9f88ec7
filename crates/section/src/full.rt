// The full reading of a section, for those who ask: the components of an insert beside what the section says.
ghost use Rattle.std.specs.Prelude.{◌≡◌};
ghost use Rattle.section.specs.Full.{beside_command, full_section_of};

use crate::{Refusal, Section, read_section};
use command::SpliceCommand;
use command::components::{InsertComponent, MAX_COMPONENTS, blanks, read_components};
use table::lent::view;

// The components are blank past their count, and all of them where the command is no insert by components.
#[derive(Clone, Copy)]
pub struct FullSection {
    pub read: Result<Section, Refusal>,
    pub components: [InsertComponent; MAX_COMPONENTS],
}

// What stands beside a command with this payload.
fn beside_command(c: SpliceCommand, payload: &[u8]) -> [InsertComponent; MAX_COMPONENTS]
    ensures { result ≡ beside_command c payload.now }
{
    match c {
        SpliceCommand::SpliceNull => blanks(),
        SpliceCommand::SpliceInsert(_) => {
            let listed = read_components(payload);
            listed.components
        }
        SpliceCommand::TimeSignal(_) => blanks(),
        SpliceCommand::BandwidthReservation => blanks(),
        SpliceCommand::PrivateCommand(_) => blanks(),
    }
}

// The section in these bytes, with its insert's components.
pub fn read_full_section(section: &[u8]) -> FullSection
    ensures { result ≡ full_section_of section.now }
{
    let read = read_section(section);
    match read {
        Err(_) => FullSection {
            read,
            components: blanks(),
        },
        Ok(x) => {
            let command = x.command;
            let payload = x.payload;
            FullSection {
                read,
                components: beside_command(command, view(section, payload)),
            }
        }
    }
}
