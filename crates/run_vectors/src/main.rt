// What the readers say of the inputs of standard input, one to a line in hexadecimal: its first byte is 1 for a section, 2 for a loop,
// 3 for a UPID (its type follows). The file `stdout` is what scte35-reader 0.16.0 says of them, every field of every answer, so that running this
// program compares the two. `host/vectors` makes both files; every refusal of a reader and every kind of item is among the inputs, and
// those are left out whose answers differ as docs/DIFFERENCES.md says in 1 to 3. Refusals 1 and 2, which the crate does not have, are as the rules say.
#![tactic(auto)]

ghost use Rattle.std.specs.Prelude.{◌<◌};

use read_input::read_full;
use section::{loop_of, read_section};
use std::io;

mod commands;
mod descriptors;
mod say;
mod upids;

// Header and command in one line, then a line for each item of the loop.
fn section(rt: &impl Print, s: &[u8]) -> io::Result<()> {
    match read_section(s) {
        Err(r) => println!(rt; "refused {}", r.number()),
        Ok(x) => {
            let header = x.header;
            let command = x.command;
            commands::header(rt, header)?;
            commands::command(rt, s, header, command)?;
            println!(rt)?;
            descriptors::items(rt, loop_of(s, x))
        }
    }
}

fn report(rt: &impl Print, input: &[u8]) -> io::Result<()> {
    match input {
        [1, rest @ ..] => section(rt, rest),
        [2, rest @ ..] => descriptors::items(rt, rest),
        [_, upid_type, rest @ ..] => upids::upid(rt, *upid_type, rest),
        _ => upids::upid(rt, 0, &[]),
    }
}

// What is no digit counts as 0, a small letter too, which `to_digit` takes for one.
// `run_crc` and `run_samples` have the same: one of all three would be a library's, whose definition, theorem and edits are longer than they are.
fn digit(c: u8) -> u8
    ensures { result < 16 }
{
    match c {
        b'0'..=b'9' => c - b'0',
        b'A'..=b'F' => c - b'A' + 10,
        _ => 0,
    }
}

// Reports the input of each line that has an end: of a section, a byte more than it may have.
fn lines(rt: &impl Print, text: &[u8]) -> io::Result<()> {
    let mut input = [0u8; 4098];
    for line in text.split_inclusive(|c| *c == b'\n') {
        if let Some((b'\n', digits)) = line.split_last() {
            let bytes = (digits.len() / 2).min(input.len());
            for (byte, pair) in input.iter_mut().zip(digits.chunks_exact(2)) {
                *byte = digit(pair[0]) * 16 + digit(pair[1]);
            }
            report(rt, &input[..bytes])?;
        }
    }
    Ok(())
}

fn main(rt: HostRuntime) -> io::Result<()> {
    let mut text = [0u8; 400_000];
    let n = read_full(&mut rt.reader(), &mut text)?;
    lines(&rt, &text[..n])
}
