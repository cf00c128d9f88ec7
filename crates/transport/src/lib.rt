// Sections of ISO/IEC 13818-1 from the transport packets of one PID (Q-9). No word of SCTE 35.
//
// For each packet: `feed`, and then `take` while it gives a section. The caller lends the packet and a buffer of 4,096 bytes, and keeps
// the assembler, a small value. A section that was taken stands at the buffer's start until the next call.
#![tactic(auto)]

ghost use Rattle.std.specs.Prelude.{◌≡◌, ◌≤◌, length, take, drop};
ghost use Rattle.transport.specs.Step.{follows, before};
ghost use Rattle.transport.specs.Assembler.{fresh_assembler, under_for, fed_by, fed_of, fed_answer, fed_state, left_as, complete_in, taken_of};

use table::store::put_bytes;
use transport_packet::packet::{Payload, Refusal, read_head};
use transport_packet::sections::{Next, any_long, next_at};
use under::next_on;

pub mod under;

// The counter of the last packet with payload (16 and more: there was none yet), how many bytes of a section stand in the buffer, and the
// place in the packet from which sections are still to be taken. The buffer is lent and has a length of its own: over C it is the caller's memory.
#[derive(Clone, Copy)]
pub struct Assembler {
    pub pid: usize,
    pub counter: usize,
    pub held: usize,
    pub at: usize,
}

impl Assembler {
    // Before the first packet of a PID.
    pub fn new(pid: usize) -> Assembler
        ensures { result ≡ fresh_assembler pid }
    {
        Assembler {
            pid,
            counter: 16,
            held: 0,
            at: 188,
        }
    }

    // How many bytes are under way for this counter: none after a gap.
    fn held_for(&self, counter: usize, buffer: &[u8]) -> usize
        ensures { (result ≤ length buffer.now) × (take result buffer.now ≡ under_for self.now counter buffer.now) }
    {
        if is_next(self.counter, counter) {
            return held_in(buffer, self.held);
        }
        0
    }

    // Takes a packet in: 71 to 75 are tested, and the section under way goes on in the buffer. A refused packet changes nothing.
    #[tactic(auto, using(crate::proofs::Answers::fed_refused, crate::proofs::Answers::fed_none, crate::proofs::Answers::fed_repeat, crate::proofs::Answers::fed_goes, transport_packet::proofs::Heads::payload_placed))]
    pub fn feed(&mut self, packet: &[u8], buffer: &mut [u8]) -> Result<(), Refusal>
        ensures answer { result ≡ fed_answer (fed_of self.old packet.now buffer.old).answer }
        ensures state { self.new ≡ fed_state self.old (fed_of self.old packet.now buffer.old).answer }
        ensures bytes { buffer.new ≡ (fed_of self.old packet.now buffer.old).buffer }
    {
        let Some(payload) = read_head(self.pid, packet)? else {
            self.at = 188;
            return Ok(());
        };
        if payload.counter == self.counter {
            self.at = 188;
            return Ok(());
        }
        let held = go_on(*self, packet, buffer, payload)?;
        self.counter = payload.counter;
        self.held = held;
        self.at = payload.first;
        Ok(())
    }

    // The next section that the packet finishes, so many bytes at the buffer's start: the one under way, if it is complete, and then those that begin in the
    // packet. None: nothing is left of this packet.
    #[tactic(auto, using(crate::proofs::Answers::at_part, crate::proofs::Answers::at_complete, crate::proofs::Answers::taken_held, crate::proofs::Answers::taken_next, transport_packet::proofs::Cuts::complete_ends, transport_packet::proofs::Cuts::part_begins))]
    pub fn take(&mut self, packet: &[u8], buffer: &mut [u8]) -> Option<usize>
        ensures { record { answer = (result, self.new); buffer = buffer.new } ≡ taken_of self.old packet.now buffer.old }
    {
        if let Some(whole) = complete_in(buffer, self.held) {
            self.held = 0;
            return Some(whole);
        }
        let at = self.at;
        match next_at(packet, at) {
            Next::Complete(size) => {
                let end = at + size;
                put_bytes(buffer, 0, &packet[at..end]);
                self.held = 0;
                self.at = end;
                Some(size)
            }
            Next::Part => {
                put_bytes(buffer, 0, &packet[at..]);
                self.held = packet.len() - at;
                self.at = 188;
                None
            }
            Next::Nothing | Next::Long => {
                self.at = 188;
                None
            }
        }
    }
}

// How many of these bytes the buffer has.
fn held_in(buffer: &[u8], held: usize) -> usize
    ensures { (result ≤ length buffer.now) × (take result buffer.now ≡ take held buffer.now) }
{
    held.min(buffer.len())
}

// Whether this counter is the one behind the last, or the first.
fn is_next(last: usize, counter: usize) -> bool
    ensures { result ≡ follows last counter }
{
    if 16 <= last {
        return true;
    }
    counter == (last + 1) % 16
}

// A payload that is no repeat: how many bytes of a section the buffer has behind it.
#[tactic(auto, using(crate::proofs::Answers::by_long_behind, crate::proofs::Answers::by_long, crate::proofs::Answers::by_nothing, crate::proofs::Answers::by_cut, crate::proofs::Answers::goes_on_lem, crate::proofs::Answers::on_ends, crate::proofs::Answers::ends_before, crate::proofs::Answers::ends_here))]
fn go_on(a: Assembler, packet: &[u8], buffer: &mut [u8], payload: Payload) -> Result<usize, Refusal>
    requires { (length packet.now ≡ 188) × (payload.at ≤ payload.first) × (payload.first ≤ 188) }
    ensures { record { answer = left_as a payload.counter payload.first result; buffer = buffer.new } ≡ fed_by a payload.counter payload.first (under_for a payload.counter buffer.old) (before packet.now payload.at payload.first) (drop payload.first packet.now) buffer.old }
{
    let Payload { counter, at, first } = payload;
    if any_long(packet, first) {
        return Err(Refusal::SectionLengthTooLarge);
    }
    let held = a.held_for(counter, buffer);
    match next_on(buffer, held, packet, at, first) {
        Next::Nothing => Ok(0),
        Next::Long => Err(Refusal::SectionLengthTooLarge),
        Next::Part => {
            if first < 188 {
                return Ok(0);
            }
            put_bytes(buffer, held, &packet[at..first]);
            Ok(held + (first - at))
        }
        Next::Complete(size) => {
            if size <= held {
                return Ok(size);
            }
            let end = at + (size - held);
            put_bytes(buffer, held, &packet[at..end]);
            Ok(size)
        }
    }
}

// How many bytes the section has that is complete in these at the buffer's start, if one is.
fn complete_in(buffer: &[u8], held: usize) -> Option<usize>
    ensures { result ≡ complete_in (take held buffer.now) }
{
    let count = held_in(buffer, held);
    match next_at(&buffer[..count], 0) {
        Next::Complete(size) => Some(size),
        _ => None,
    }
}
