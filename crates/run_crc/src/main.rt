// Both forms of the CRC on the messages of standard input, one to a line in hexadecimal, and on generated ones. The file `stdout` is
// what another program says of them (host/crc-expected).
#![tactic(auto)]

ghost use Rattle.std.specs.Prelude.{◌≡◌, ◌<◌, length};

use crc::{crc32, crc32_plain};
use read_input::read_full;
use std::io;

// A message's length and its CRC, by `crc32` and by `crc32_plain`.
fn report(rt: &impl Print, message: &[u8]) -> io::Result<()> {
    let size = message.len();
    let fast = crc32(message);
    let plain = crc32_plain(message);
    println!(rt; "{size} {fast:08x} {plain:08x}")
}

// What is no digit counts as 0, a small letter too, which `to_digit` takes for one.
// `run_samples` and `run_vectors` have the same: one of all three would be a library's, whose definition, theorem and edits are longer than they are.
fn digit(c: u8) -> u8
    ensures { result < 16 }
{
    match c {
        b'0'..=b'9' => c - b'0',
        b'A'..=b'F' => c - b'A' + 10,
        _ => 0,
    }
}

// Reports the message of each line that has an end.
fn lines(rt: &impl Print, text: &[u8]) -> io::Result<()> {
    let mut message = [0u8; 4096];
    for line in text.split_inclusive(|c| *c == b'\n') {
        if let Some((b'\n', digits)) = line.split_last() {
            let bytes = (digits.len() / 2).min(message.len());
            for (byte, pair) in message.iter_mut().zip(digits.chunks_exact(2)) {
                *byte = digit(pair[0]) * 16 + digit(pair[1]);
            }
            report(rt, &message[..bytes])?;
        }
    }
    Ok(())
}

// Fills a message with numbers that look random.
fn fill(message: &mut [u8])
    ensures { length message.new ≡ length message.old }
{
    let mut x: u64 = 1;
    for byte in message {
        x = (x * 1_103_515_245 + 12_345) % 0x8000_0000;
        *byte = (x / 0x1_0000 % 256) as u8;
    }
}

// The part of a message that starts at n and has n / 2 bytes; nothing where it would reach past the end.
fn part(message: &[u8], n: usize) -> &[u8] {
    message
        .get(n..)
        .and_then(|rest| rest.get(..n / 2))
        .unwrap_or_default()
}

// Of the parts for n from 0 to 401: how many the two forms differ on, and the sum of the CRCs.
// (By two chains the goal `sum-sum-requires-clause-fits` stayed open.)
fn parts(rt: &impl Print, message: &[u8]) -> io::Result<()> {
    let mut differ = 0u64;
    let mut sum = 0u64;
    for n in 0..402 {
        let part = part(message, n);
        let fast = crc32(part);
        differ += u64::from(fast != crc32_plain(part));
        sum += u64::from(fast);
    }
    println!(rt; "{differ} differ, sum {sum:08x}")
}

// The program takes no heap: of a longer input the first 8,192 bytes are read.
fn main(rt: HostRuntime) -> io::Result<()> {
    let mut text = [0u8; 8192];
    let n = read_full(&mut rt.reader(), &mut text)?;
    lines(&rt, &text[..n])?;
    let mut message = [0u8; 4096];
    fill(&mut message);
    parts(&rt, &message)?;
    report(&rt, &message)
}
