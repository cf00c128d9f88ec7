// The lines of standard input, numbered from 1 on, and what each says, or its refusal; then the line that is written of the section, ID and date that it has,
// or that refusal. A line that begins with + or - is none of a playlist: the section that was read last is written with the rest of the line as its ID, or
// as its date. The file `stdout` is what the host's own reader and writer say (host/daterange gate).
#![tactic(auto)]

use daterange::write_daterange;
use daterange_line::{Cue, Reading, read_line};
use read_input::read_full;
use std::io;
use table::lent::view;

// A line's number and a word.
fn start(rt: &impl Print, n: u64, word: &str) -> io::Result<()> {
    print!(rt; "{n}{word}")
}

fn refused(rt: &impl Print, n: u64, word: &str, refusal: u8) -> io::Result<()> {
    start(rt, n, word)?;
    println!(rt; "{refusal}")
}

fn print_name(rt: &impl Print, n: u64, cue: Cue) -> io::Result<()> {
    match cue {
        Cue::Cmd => start(rt, n, " SCTE35-CMD"),
        Cue::Out => start(rt, n, " SCTE35-OUT"),
        Cue::In => start(rt, n, " SCTE35-IN"),
    }
}

fn print_digits(rt: &impl Print, bytes: &[u8], size: usize) -> io::Result<()> {
    for byte in bytes.iter().take(size) {
        print!(rt; "{byte:02x}")?;
    }
    Ok(())
}

fn print_first(rt: &impl Print, bytes: &[u8], size: usize) -> io::Result<()> {
    if size <= bytes.len() {
        rt.write_all(&bytes[..size])?;
    }
    println!(rt)
}

fn write_one(
    rt: &impl Print,
    n: u64,
    section: &[u8],
    id: &[u8],
    date: &[u8],
    out: &mut [u8],
) -> io::Result<()> {
    match write_daterange(section, id, date, out) {
        Err(r) => refused(rt, n, " not written ", r),
        Ok(size) => {
            start(rt, n, " line ")?;
            print_first(rt, out, size)
        }
    }
}

// The section that stands at the buffer's start.
fn write_held(
    rt: &impl Print,
    n: u64,
    buffer: &[u8],
    size: usize,
    id: &[u8],
    date: &[u8],
    out: &mut [u8],
) -> io::Result<()> {
    if size <= buffer.len() {
        write_one(rt, n, &buffer[..size], id, date, out)?;
    }
    Ok(())
}

fn print_reading(
    rt: &impl Print,
    n: u64,
    line: &[u8],
    x: Reading,
    buffer: &[u8],
) -> io::Result<()> {
    print_name(rt, n, x.cue)?;
    print!(rt; " id ")?;
    rt.write_all(view(line, x.id))?;
    print!(rt; " date ")?;
    rt.write_all(view(line, x.date))?;
    print!(rt; " section ")?;
    print_digits(rt, buffer, x.len)?;
    println!(rt)
}

// The section that was read last stands at the buffer's start; its length is told.
fn read_one(
    rt: &impl Print,
    n: u64,
    line: &[u8],
    held: usize,
    buffer: &mut [u8],
    out: &mut [u8],
) -> io::Result<usize> {
    match read_line(line, buffer) {
        Err(r) => {
            refused(rt, n, " refused ", r.number())?;
            Ok(held)
        }
        Ok(x) => {
            print_reading(rt, n, line, x, buffer)?;
            write_held(
                rt,
                n,
                buffer,
                x.len,
                view(line, x.id),
                view(line, x.date),
                out,
            )?;
            Ok(x.len)
        }
    }
}

fn one(
    rt: &impl Print,
    n: u64,
    line: &[u8],
    held: usize,
    buffer: &mut [u8],
    out: &mut [u8],
) -> io::Result<usize> {
    match line {
        [] => Ok(held),
        [b'+', id @ ..] => {
            write_held(rt, n, buffer, held, id, b"2026-01-01T00:00:00Z", out)?;
            Ok(held)
        }
        [b'-', date @ ..] => {
            write_held(rt, n, buffer, held, b"1", date, out)?;
            Ok(held)
        }
        _ => read_one(rt, n, line, held, buffer, out),
    }
}

fn lines(rt: &impl Print, text: &[u8], buffer: &mut [u8], out: &mut [u8]) -> io::Result<()> {
    let mut held: usize = 0;
    for (i, line) in text.split_inclusive(|c| *c == b'\n').enumerate() {
        let line = line.strip_suffix(b"\n").unwrap_or(line);
        held = one(rt, i as u64 + 1, line, held, buffer, out)?;
    }
    Ok(())
}

fn main(rt: HostRuntime) -> io::Result<()> {
    let mut text = [0u8; 65536];
    let mut buffer = [0u8; 4200];
    let mut out = [0u8; 8300];
    let n = read_full(&mut rt.reader(), &mut text)?;
    lines(&rt, &text[..n], &mut buffer, &mut out)
}
