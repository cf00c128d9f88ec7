// What a byte of the CRC's register leaves after 32 steps, by its place there: a table for each of the four places.
#![tactic(auto)]

mod tables;

ghost use Rattle.std.specs.Prelude.{◌≡◌, ◌+◌, ◌*◌, ◌%◌};
ghost use Rattle.crc_table.specs.Turns.{turns, reversed};

use crate::tables::LEFT;

// The four bytes of a number in the other order.
#[tactic(auto, using(crate::proofs::Order::reversed_sum))]
pub fn reverse(z: u32) -> u32
    ensures { result ≡ reversed z }
{
    z.swap_bytes()
}

// What the byte `row % 256` of the register leaves, in the other order of bytes: after 32 steps, and eight more for each byte of zeros
// behind it, of which there are up to three.
pub fn turned(zeros: usize, row: u32) -> u32
    ensures { result ≡ reversed (turns (32 + 8 * (zeros % 4)) (row % 256)) }
{
    LEFT[zeros % 4][row as usize % 256]
}
