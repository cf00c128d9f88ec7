// Stores into a lent target. What does not fit is not stored: no byte changes.
ghost use Rattle.std.specs.Prelude.{◌≡◌, [], ◌∷◌};
ghost use Rattle.table.specs.Bits.{big_endian};
ghost use Rattle.table.specs.Lent.{stored};

// One byte.
pub fn put_byte(out: &mut [u8], at: usize, b: u8)
    ensures { out.new ≡ stored out.old at (b ∷ []) }
{
    if at < out.len() {
        out[at] = b;
    }
}

// The low n bytes of a number, the high one first.
pub fn put_number(out: &mut [u8], at: usize, n: usize, v: u64)
    ensures { out.new ≡ stored out.old at (big_endian n v) }
{
    if out.len() < at {
        return;
    }
    if out.len() - at < n {
        return;
    }
    let mut high = v;
    for i in (0..n).rev() {
        out[at + i] = (high % 256) as u8;
        high /= 256;
    }
}

// Lent bytes. (Byte by byte, which the compiler makes a copy of two slices that can't overlap: with `copy_from_slice` the archive would ask for `memmove`.)
pub fn put_bytes(out: &mut [u8], at: usize, src: &[u8])
    ensures { out.new ≡ stored out.old at src.now }
{
    if out.len() < at {
        return;
    }
    if out.len() - at < src.len() {
        return;
    }
    for i in 0..src.len() {
        out[at + i] = src[i];
    }
}
