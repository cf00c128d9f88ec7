// A cue as an EXT-X-DATERANGE line (Q-1): the section is read, and its command chooses the name.
#![tactic(auto)]

ghost use Rattle.std.specs.Prelude.{◌≡◌};
ghost use Rattle.daterange.specs.Choice.{leaving, inserted, cue_for, daterange_made};
ghost use Rattle.bit_stores.specs.Written.{answer_of, later_of};

use command::SpliceCommand;
use command::insert::SpliceDetail;
use daterange_line::Cue;
use daterange_writer::write_line;
use names::flags::NetworkIndicator;
use section::read_section;

fn leaving(n: NetworkIndicator) -> Cue
    ensures { result ≡ leaving n }
{
    match n {
        NetworkIndicator::Out => Cue::Out,
        NetworkIndicator::In => Cue::In,
    }
}

fn inserted(d: SpliceDetail) -> Cue
    ensures { result ≡ inserted d }
{
    match d {
        SpliceDetail::Cancel => Cue::Cmd,
        SpliceDetail::Insert(i) => {
            let network = i.network_indicator;
            leaving(network)
        }
    }
}

// OUT for an insert, not cancelled, that leaves the network, IN for one that returns, CMD for all else.
fn cue_for(c: SpliceCommand) -> Cue
    ensures { result ≡ cue_for c }
{
    match c {
        SpliceCommand::SpliceInsert(i) => {
            let detail = i.splice_detail;
            inserted(detail)
        }
        SpliceCommand::SpliceNull => Cue::Cmd,
        SpliceCommand::TimeSignal(_) => Cue::Cmd,
        SpliceCommand::BandwidthReservation => Cue::Cmd,
        SpliceCommand::PrivateCommand(_) => Cue::Cmd,
    }
}

// The line of a section, without a line end, from the target's first byte on; or a refusal: 1 to 11 for the section, 53, 36. A refused write changes no byte.
pub fn write_daterange(
    section: &[u8],
    id: &[u8],
    date: &[u8],
    target: &mut [u8],
) -> Result<usize, u8>
    ensures answer { result ≡ answer_of (daterange_made section.now id.now date.now) target.old }
    ensures bytes { target.new ≡ later_of (daterange_made section.now id.now date.now) target.old }
{
    match read_section(section) {
        Ok(s) => {
            let command = s.command;
            return write_line(section, cue_for(command), id, date, target);
        }
        Err(r) => return Err(r.number()),
    }
}
