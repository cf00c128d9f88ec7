// UTF-8 (RFC 3629).
ghost use Rattle.std.specs.Prelude.{◌≡◌, ◌≤◌, length, drop};
ghost use mathlib.Core.List.{[], foldl};
ghost use Rattle.upid.specs.Text.{wants, characters, begin, step, text_of};
ghost use Rattle.upid.specs.Private.{meaning};

// Where a reading stands after some bytes.
#[derive(Clone, Copy)]
enum Stand {
    // Between two characters.
    Between,
    // Inside one: so many bytes are to come, the next of them from the second number to the third.
    Want(u8, u8, u8),
    // Past a byte that no character has there.
    Broken,
}

// After the first byte of a character: the rows of RFC 3629.
fn first(b: u8) -> Stand
    ensures { meaning result ≡ begin characters b }
{
    match b {
        0x00..=0x7F => Stand::Between,
        0xC2..=0xDF => Stand::Want(1, 0x80, 0xBF),
        0xE0 => Stand::Want(2, 0xA0, 0xBF),
        0xE1..=0xEC => Stand::Want(2, 0x80, 0xBF),
        0xED => Stand::Want(2, 0x80, 0x9F),
        0xEE..=0xEF => Stand::Want(2, 0x80, 0xBF),
        0xF0 => Stand::Want(3, 0x90, 0xBF),
        0xF1..=0xF3 => Stand::Want(3, 0x80, 0xBF),
        0xF4 => Stand::Want(3, 0x80, 0x8F),
        _ => Stand::Broken,
    }
}

// After one byte more.
fn next(t: Stand, b: u8) -> Stand
    ensures { meaning result ≡ step (meaning t) b }
{
    match t {
        Stand::Between => first(b),
        Stand::Want(more, low, high) => {
            if b < low {
                return Stand::Broken;
            }
            if high < b {
                return Stand::Broken;
            }
            if more <= 1 {
                Stand::Between
            } else {
                Stand::Want(more - 1, 0x80, 0xBF)
            }
        }
        Stand::Broken => Stand::Broken,
    }
}

// How many bytes of ASCII come first: each is a character, and most text is nothing else. (By `position` `check_payload`, in which this lands, would keep
// two words more at each of a MID's levels, and scte35_read_segmentation_components more stack than the C header says.)
fn ascii(s: &[u8]) -> usize
    ensures { (result ≤ length s.now) × (foldl step (wants []) s.now ≡ foldl step (wants []) (drop result s.now)) }
{
    for i in 0..s.len() {
        if 0x7F < s[i] {
            return i;
        }
    }
    s.len()
}

// Whether the bytes are UTF-8.
pub fn is_text(s: &[u8]) -> bool
    ensures { result ≡ text_of s.now }
{
    let mut t = Stand::Between;
    for &b in &s[ascii(s)..] {
        t = next(t, b);
    }
    match t {
        Stand::Between => true,
        Stand::Want(_, _, _) => false,
        Stand::Broken => false,
    }
}
