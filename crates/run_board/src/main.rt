// Breaks of two channels opened and closed, one channel through the wrap: its next id is 4,294,967,290 at the start. The file `stdout` is what two plain
// lists say (host/board-expected).
#![tactic(auto)]

use board::Refusal;
use channels::{ChannelRefusal, SharedBoard};
use std::{fmt, io};

// What a call is told: an event id or a provider id, or the number of the refusal.
#[derive(Clone, Copy)]
struct Told(Result<u32, ChannelRefusal>);

impl fmt::Display for Told {
    fn fmt<W: fmt::Write>(&self, f: &mut fmt::Formatter<W>) -> fmt::Result {
        match self.0 {
            Ok(id) => write!(f, "{id}"),
            Err(ChannelRefusal::Board(Refusal::BoardFull)) => write!(f, "refused 61"),
            Err(ChannelRefusal::Board(Refusal::NotOpen)) => write!(f, "refused 62"),
            Err(ChannelRefusal::NoSuchChannel) => write!(f, "refused 63"),
        }
    }
}

fn open(rt: &impl Print, b: &mut SharedBoard, channel: u8, provider: u32) -> io::Result<()> {
    let told = Told(b.open_break(channel, provider));
    println!(rt; "open {channel} {provider}: {told}")
}

fn close(rt: &impl Print, b: &mut SharedBoard, channel: u8, event: u32) -> io::Result<()> {
    let told = Told(b.close_break(channel, event));
    println!(rt; "close {channel} {event}: {told}")
}

// Sixteen breaks of a channel, of this provider and the fifteen after it.
fn open_sixteen(
    rt: &impl Print,
    b: &mut SharedBoard,
    channel: u8,
    provider: u32,
) -> io::Result<()> {
    for i in 0..16 {
        open(rt, b, channel, provider.wrapping_add(i))?;
    }
    Ok(())
}

// The breaks as they are, with the next id of channel 0 before the wrap again: those still open are passed over.
fn turn_back(rt: &impl Print, b: &mut SharedBoard) -> io::Result<()> {
    println!(rt; "next 0 4294967290")?;
    b.next[0] = 4294967290;
    Ok(())
}

fn main(rt: HostRuntime) -> io::Result<()> {
    let mut b = SharedBoard::empty();
    turn_back(&rt, &mut b)?;
    open_sixteen(&rt, &mut b, 0, 1000)?;
    open(&rt, &mut b, 0, 2000)?;
    open(&rt, &mut b, 2, 2000)?;
    open_sixteen(&rt, &mut b, 1, 5000)?;
    open(&rt, &mut b, 1, 2000)?;
    close(&rt, &mut b, 0, 4294967295)?;
    close(&rt, &mut b, 0, 4294967295)?;
    open(&rt, &mut b, 0, 2000)?;
    turn_back(&rt, &mut b)?;
    close(&rt, &mut b, 0, 3)?;
    open(&rt, &mut b, 0, 3000)?;
    close(&rt, &mut b, 0, 7)?;
    turn_back(&rt, &mut b)?;
    open(&rt, &mut b, 0, 3001)?;
    open(&rt, &mut b, 0, 3002)?;
    close(&rt, &mut b, 1, 3)?;
    close(&rt, &mut b, 0, 3)?;
    close(&rt, &mut b, 1, 3)?;
    close(&rt, &mut b, 0, 12)?;
    close(&rt, &mut b, 255, 12)
}
