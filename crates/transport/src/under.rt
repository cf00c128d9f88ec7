// The section under way: its first bytes stand in the buffer, and the packet brings those behind them.
ghost use Rattle.std.specs.Prelude.{◌≡◌, ◌++◌, ◌<◌, ◌≤◌, length, take, drop, get_or};
ghost use Rattle.transport.specs.Step.{goes_on, before};

use table::numbers::byte;
use transport_packet::sections::{Next, length_of, next_by};

// Byte i of the section under way: of its first bytes, which the buffer holds, or of those behind them.
#[tactic(auto, using(crate::proofs::Gathered::byte_behind))]
fn byte_on(buffer: &[u8], held: usize, packet: &[u8], at: usize, i: usize) -> u8
    requires { (held ≤ length buffer.now) × (i < 4096) × (at < 4096) }
    ensures { result ≡ get_or (take held buffer.now ++ drop at packet.now) i 0 }
{
    if i < held {
        return byte(buffer, i);
    }
    byte(packet, at + (i - held))
}

// The section under way, if there is one, and the packet's bytes from `at` to `first` behind it.
#[tactic(auto, using(crate::proofs::Gathered::on_none, crate::proofs::Gathered::on_few, crate::proofs::Gathered::on_held, crate::proofs::Gathered::on_many))]
pub(crate) fn next_on(buffer: &[u8], held: usize, packet: &[u8], at: usize, first: usize) -> Next
    requires { (held ≤ length buffer.now) × (at ≤ first) × (first ≤ length packet.now) × (first < 4096) }
    ensures { result ≡ goes_on (take held buffer.now) (before packet.now at first) }
{
    if held == 0 {
        return Next::Nothing;
    }
    let count = held + (first - at);
    // as nearly every time
    if 3 <= held {
        return next_by(count, buffer[0], length_of(buffer[1], buffer[2]));
    }
    let lead = byte(buffer, 0);
    if count < 3 {
        return next_by(count, lead, 0);
    }
    next_by(
        count,
        lead,
        length_of(
            byte_on(buffer, held, packet, at, 1),
            byte_on(buffer, held, packet, at, 2),
        ),
    )
}
