// A transport packet's head, and refusals 71 to 74.
ghost use Rattle.std.specs.Prelude.{◌≡◌, ◌<◌, ◌≤◌, length};
ghost use Rattle.transport_packet.specs.Packet.{head_of, number_of, payload_at};

use table::numbers::size;

// Refusals 71 to 75.
#[derive(Clone, Copy, Debug, PartialEq, Eq)]
pub enum Refusal {
    NotAPacket,
    OtherPid,
    Scrambled,
    PayloadOutside,
    SectionLengthTooLarge,
}

impl Refusal {
    // Its number in docs/REFUSALS.md.
    #[tactic(auto, unfolding(crate::specs::Packet::number_of))]
    pub fn number(self) -> u8
        ensures { result ≡ number_of self }
    {
        match self {
            Refusal::NotAPacket => 71,
            Refusal::OtherPid => 72,
            Refusal::Scrambled => 73,
            Refusal::PayloadOutside => 74,
            Refusal::SectionLengthTooLarge => 75,
        }
    }
}

// A packet's payload: its bytes stand from `at` on, and from `first` on those of the sections that begin in it (188 where none does).
#[derive(Clone, Copy)]
pub struct Payload {
    pub counter: usize,
    pub at: usize,
    pub first: usize,
}

// Where the payload's bytes would begin.
#[tactic(auto, unfolding(crate::specs::Packet::payload_at))]
fn payload_at(packet: &[u8]) -> usize
    requires { 5 ≤ length packet.now }
    ensures { (result ≡ payload_at packet.now) × (result < 261) }
{
    if packet[3] / 32 % 2 == 1 {
        return 5 + size(packet[4]);
    }
    4
}

// What a packet of this PID brings, a payload or none; or the first refusal of 71 to 74 that applies.
#[tactic(auto, unfolding(crate::specs::Packet::head_of))]
pub fn read_head(pid: usize, packet: &[u8]) -> Result<Option<Payload>, Refusal>
    ensures { result ≡ head_of pid packet.now }
{
    if packet.len() != 188 {
        return Err(Refusal::NotAPacket);
    }
    if packet[0] != 0x47 {
        return Err(Refusal::NotAPacket);
    }
    if size(packet[1]) % 32 * 256 + size(packet[2]) != pid {
        return Err(Refusal::OtherPid);
    }
    let control = size(packet[3]);
    if control / 64 != 0 {
        return Err(Refusal::Scrambled);
    }
    let payload = control / 16 % 2;
    let at = payload_at(packet);
    if 188 < at + payload {
        return Err(Refusal::PayloadOutside);
    }
    if payload == 0 {
        return Ok(None);
    }
    let counter = control % 16;
    if packet[1] / 64 % 2 == 0 {
        return Ok(Some(Payload {
            counter,
            at,
            first: 188,
        }));
    }
    let first = at + 1 + size(packet[at]);
    if 188 <= first {
        return Err(Refusal::PayloadOutside);
    }
    Ok(Some(Payload {
        counter,
        at: at + 1,
        first,
    }))
}
