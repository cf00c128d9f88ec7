// The sections of the packets of standard input, of PID 500. For each packet its number from 0 on and what it is answered: a line for each section
// that it finishes, in hexadecimal, and then how many bytes of a section are under way; or its refusal. The file `stdout` is what the host's own
// assembler says (host/packets gate).
#![tactic(auto)]

use read_input::read_full;
use std::io;
use transport::Assembler;

fn print_section(rt: &impl Print, packet: usize, section: &[u8]) -> io::Result<()> {
    print!(rt; "{packet} section ")?;
    for byte in section {
        print!(rt; "{byte:02x}")?;
    }
    println!(rt)
}

// Every section that the packet finishes. It has fewer than 200.
fn take_all(
    rt: &impl Print,
    a: &mut Assembler,
    n: usize,
    packet: &[u8],
    buffer: &mut [u8],
) -> io::Result<()> {
    for _ in 0..200 {
        let Some(size) = a.take(packet, buffer) else {
            break;
        };
        print_section(rt, n, &buffer[..size.min(buffer.len())])?;
    }
    Ok(())
}

fn one(
    rt: &impl Print,
    a: &mut Assembler,
    n: usize,
    packet: &[u8],
    buffer: &mut [u8],
) -> io::Result<()> {
    if let Err(r) = a.feed(packet, buffer) {
        return println!(rt; "{n} refused {}", r.number());
    }
    take_all(rt, a, n, packet, buffer)?;
    println!(rt; "{n} held {}", a.held)
}

fn main(rt: HostRuntime) -> io::Result<()> {
    let mut stream = [0u8; 8192];
    let mut buffer = [0u8; 4096];
    let n = read_full(&mut rt.reader(), &mut stream)?;
    let mut a = Assembler::new(500);
    // The last packet may be shorter.
    for (i, packet) in stream[..n].chunks(188).enumerate() {
        one(&rt, &mut a, i, packet, &mut buffer)?;
    }
    Ok(())
}
