// Bytes as hexadecimal digits, in capitals.
ghost use Rattle.std.specs.Prelude.{◌≡◌, ◌+◌, ◌*◌, ◌≤◌, ◌<◌, length};
ghost use Rattle.table.specs.Lent.{stored};
ghost use Rattle.daterange_writer.specs.Writing.{hex_digit, hex_of};

fn capital(n: u8) -> u8
    requires { n < 16 }
    ensures { result ≡ hex_digit n }
{
    if n < 10 { 0x30 + n } else { 0x37 + n }
}

// A byte as two digits, from a place of the target on.
pub(crate) fn encode(target: &mut [u8], at: usize, section: &[u8])
    requires { at + length section.now * 2 ≤ length target.old }
    ensures { target.new ≡ stored target.old at (hex_of section.now) }
{
    for (i, b) in section.iter().enumerate() {
        let to = at + i * 2;
        target[to] = capital(b / 16);
        target[to + 1] = capital(b % 16);
    }
}
