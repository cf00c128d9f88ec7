// The CRC of a section (ISO/IEC 13818-1, Annex A) in two forms: bit by bit, to be read, and four bytes at a time, to be used.
#![tactic(auto)]

ghost use Rattle.std.specs.Prelude.{◌≡◌};
ghost use Rattle.crc_table.specs.Turns.{turns, reversed};
ghost use Rattle.crc.specs.Crc.{crc_bit, crc_bits, crc_of};
ghost use Rattle.table.specs.Bits.{bits_of_num};

use crc_table::{reverse, turned};

// ---- a bit at a time: the definition as code

const POLYNOMIAL: u32 = 0x04C1_1DB7;

const ALL_ONES: u32 = 0xFFFF_FFFF;

fn take_bit(z: u32, bit: u32) -> u32
    ensures { result ≡ crc_bit z bit }
{
    if (z >> 31) ^ bit == 0 {
        z << 1
    } else {
        (z << 1) ^ POLYNOMIAL
    }
}

fn take_byte(z: u32, byte: u8) -> u32
    ensures { result ≡ crc_bits z (bits_of_num 8 byte) }
{
    let mut r = z;
    for left in (0..8u32).rev() {
        r = take_bit(r, (byte as u32 >> left) % 2);
    }
    r
}

// The CRC of a message, bit by bit.
pub fn crc32_plain(s: &[u8]) -> u32
    ensures { result ≡ crc_of s.now }
{
    let mut z = ALL_ONES;
    for byte in s {
        z = take_byte(z, *byte);
    }
    z
}

// ---- four bytes at a time, by tables. The register is held with its bytes in the other order, in which a load has the message's.

// 32 steps: the sum of what each byte of the register leaves.
fn take_word(y: u32) -> u32
    ensures { result ≡ reversed (turns 32 (reversed y)) }
{
    let high = turned(3, y) ^ turned(2, y >> 8);
    let low = turned(1, y >> 16) ^ turned(0, y >> 24);
    high ^ low
}

// The CRC of a message: words of four bytes, and then the bytes that are left. Never in place of its call: so the functions around it, of which reading a
// section's frame is one, stay small enough to be (docs/DESIGN-PASS.md, "Speed").
#[inline(never)]
pub fn crc32(s: &[u8]) -> u32
    ensures { result ≡ crc_of s.now }
{
    let (words, rest) = s.as_chunks::<4>();
    let mut y = ALL_ONES;
    for word in words {
        y = take_word(y ^ u32::from_le_bytes(*word));
    }
    for byte in rest {
        y = (y >> 8) ^ turned(0, y ^ *byte as u32);
    }
    reverse(y)
}
