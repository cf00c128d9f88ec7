// The writer's pen: fields stored at any bit of a lent target. What a writer answers is how many bytes it wrote, or the number of its refusal: a number and no
// enum, since the definitions count a refusal's conditions (`first` of section, `refusal_in` and `answer_of` of bit_stores) and theorems speak of 31 to 36.
#![tactic(auto)]

ghost use Rattle.std.specs.Prelude.{◌≡◌, ◌+◌, ◌-◌, ◌*◌, ◌/◌, ◌%◌, ◌^◌, ◌<◌, ◌≤◌};
ghost use Rattle.bit_stores.specs.Private.{Fits, with_bits};
ghost use Rattle.table.specs.Bits.{bits_of_num, bits_of, AllBytes};
ghost use Rattle.table.proofs.Steppings.{Settled};
ghost use Rattle.bit_stores.specs.Pen.{Pens};

use table::cursor::Cursor;
use table::numbers::wide;
use table::store::{put_bytes, put_number};

// n bits of a number that has k more behind them.
fn digits(v: u64, k: usize, n: usize) -> u64
    requires { n ≤ 8 }
    ensures { result ≡ v / 2 ^ k % 2 ^ n }
{
    if 64 <= k {
        return 0;
    }
    (v >> k) % (1u64 << n)
}

// A byte with the number x in n of its bits, of which j stand before them.
fn with_bits(b: u8, j: usize, n: usize, x: u64) -> u8
    requires { (j + n ≤ 8) × (x < 2 ^ n) }
    ensures { result ≡ with_bits b j n x }
{
    let byte = wide(b);
    let k = 8 - j - n;
    let high = (byte >> (8 - j)) << (8 - j);
    let low = byte % (1u64 << k);
    (high + ((x << k) + low)) as u8
}

// A field at any bit, byte by byte.
fn put_across(out: &mut [u8], c: Cursor, w: usize, v: u64) -> Cursor
    ensures { Pens out.old c (bits_of_num w v) out.new result }
{
    let byte = c.byte;
    let bit = c.bit;
    if out.len() < byte {
        return c;
    }
    if out.len() - byte < bit / 8 {
        return c;
    }
    // The byte that is next, its bits that are behind, and those of the field that are ahead: a turn goes on by as many as it stores, so it counts no index.
    let mut at = byte + bit / 8;
    let mut behind = bit % 8;
    let mut ahead = w;
    if out.len() - at < w / 8 + (w % 8 + behind + 7) / 8 {
        return c;
    }
    while 0 < ahead {
        let n = ahead.min(8 - behind);
        out[at] = with_bits(out[at], behind, n, digits(v, ahead - n, n));
        ahead -= n;
        at += (behind + n) / 8;
        behind = (behind + n) % 8;
    }
    Cursor {
        byte: at,
        bit: behind,
    }
}

// A field of n bytes, where a byte begins.
fn put_aligned(out: &mut [u8], at: usize, n: usize, v: u64) -> Cursor
    ensures { Pens out.old (record { byte = at; bit = 0 }) (bits_of_num (n * 8) v) out.new result }
{
    if out.len() < at {
        return Cursor { byte: at, bit: 0 };
    }
    if out.len() - at < n {
        return Cursor { byte: at, bit: 0 };
    }
    put_number(out, at, n, v);
    Cursor {
        byte: at + n,
        bit: 0,
    }
}

// The low w bits of a number, from a cursor on. What does not fit is not stored, and the cursor stays.
pub fn put_bits(out: &mut [u8], c: Cursor, w: usize, v: u64) -> Cursor
    ensures { Pens out.old c (bits_of_num w v) out.new result }
{
    if c.bit == 0 {
        if w % 8 == 0 {
            return put_aligned(out, c.byte, w / 8, v);
        }
    }
    put_across(out, c, w, v)
}

// Lent bytes from a cursor on at which no byte begins.
fn put_shifted(out: &mut [u8], c: Cursor, src: &[u8]) -> Cursor
    requires { AllBytes out.old × Settled c × Fits out.old c (bits_of src.now) }
    ensures { Pens out.old c (bits_of src.now) out.new result }
{
    let mut next = c;
    for &b in src {
        next = put_bits(out, next, 8, wide(b));
    }
    next
}

// Lent bytes from a cursor on. What does not fit is not stored, and the cursor stays.
pub fn put_run(out: &mut [u8], c: Cursor, src: &[u8]) -> Cursor
    ensures { Pens out.old c (bits_of src.now) out.new result }
{
    let byte = c.byte;
    let bit = c.bit;
    if out.len() < byte {
        return c;
    }
    let room = out.len() - byte;
    if room < src.len() {
        return c;
    }
    if room - src.len() < bit / 8 + (bit % 8 + 7) / 8 {
        return c;
    }
    let at = byte + bit / 8;
    let behind = bit % 8;
    if 0 < behind {
        return put_shifted(
            out,
            Cursor {
                byte: at,
                bit: behind,
            },
            src,
        );
    }
    put_bytes(out, at, src);
    Cursor {
        byte: at + src.len(),
        bit: 0,
    }
}
