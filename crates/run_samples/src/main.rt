// What the section reader says of the sections of standard input, one to a line in hexadecimal. The file `stdout` holds the values
// that are stated of the samples (host/samples-expected).
#![tactic(auto)]

ghost use Rattle.std.specs.Prelude.{◌<◌};

use command::SpliceCommand;
use command::insert::{InsertDetail, SpliceDetail, SpliceInsert, SpliceMode};
use read_input::read_full;
use section::{Section, read_section};
use splice_time::SpliceTime;
use std::io;

fn word(command: SpliceCommand) -> &'static str {
    match command {
        SpliceCommand::SpliceNull => "null",
        SpliceCommand::SpliceInsert(_) => "insert",
        SpliceCommand::TimeSignal(_) => "time_signal",
        SpliceCommand::BandwidthReservation => "bandwidth_reservation",
        SpliceCommand::PrivateCommand(_) => "private",
    }
}

// A time if one is specified.
fn time(rt: &impl Print, t: SpliceTime) -> io::Result<()> {
    if let SpliceTime::At(ticks) = t {
        print!(rt; ";time={ticks}")?;
    }
    Ok(())
}

// What is not cancelled.
fn active(rt: &impl Print, event: u32, x: InsertDetail) -> io::Result<()> {
    match x.splice_mode {
        SpliceMode::Program(t) => time(rt, t)?,
        SpliceMode::Components(n) => print!(rt; ";components={n}")?,
    }
    print!(rt; ";event={event};out={}", u8::from(x.network_indicator))?;
    if let Some(d) = x.duration {
        print!(rt; ";duration={}", d.duration)?;
    }
    Ok(())
}

fn insert(rt: &impl Print, i: SpliceInsert) -> io::Result<()> {
    let event = i.splice_event_id;
    match i.splice_detail {
        SpliceDetail::Cancel => print!(rt; ";cancelled={event}"),
        SpliceDetail::Insert(x) => active(rt, event, x),
    }
}

fn accepted(rt: &impl Print, s: Section) -> io::Result<()> {
    let word = word(s.command);
    print!(rt; "command={word};adjustment={}", s.header.pts_adjustment)?;
    print!(rt; ";tier={}", s.header.tier)?;
    match s.command {
        SpliceCommand::TimeSignal(t) => time(rt, t)?,
        SpliceCommand::SpliceInsert(i) => insert(rt, i)?,
        _ => {}
    }
    print!(rt; ";loop={}:{}", s.descriptors.at, s.descriptors.len)
}

fn report(rt: &impl Print, bytes: &[u8]) -> io::Result<()> {
    match read_section(bytes) {
        Ok(s) => accepted(rt, s)?,
        Err(r) => print!(rt; "refused {}", r.number())?,
    }
    println!(rt)
}

// What is no digit counts as 0, a small letter too, which `to_digit` takes for one.
// `run_crc` and `run_vectors` have the same: one of all three would be a library's, whose definition, theorem and edits are longer than they are.
fn digit(c: u8) -> u8
    ensures { result < 16 }
{
    match c {
        b'0'..=b'9' => c - b'0',
        b'A'..=b'F' => c - b'A' + 10,
        _ => 0,
    }
}

// Reports the section of each line that has an end.
fn lines(rt: &impl Print, text: &[u8]) -> io::Result<()> {
    let mut section = [0u8; 4096];
    for line in text.split_inclusive(|c| *c == b'\n') {
        if let Some((b'\n', digits)) = line.split_last() {
            let bytes = (digits.len() / 2).min(section.len());
            for (byte, pair) in section.iter_mut().zip(digits.chunks_exact(2)) {
                *byte = digit(pair[0]) * 16 + digit(pair[1]);
            }
            report(rt, &section[..bytes])?;
        }
    }
    Ok(())
}

fn main(rt: HostRuntime) -> io::Result<()> {
    let mut text = [0u8; 8192];
    let n = read_full(&mut rt.reader(), &mut text)?;
    lines(&rt, &text[..n])
}
