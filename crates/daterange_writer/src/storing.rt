// The stores of a line: all tests first.
ghost use Rattle.std.specs.Prelude.{◌≡◌, ◌+◌, ◌-◌, ◌*◌, ◌≤◌, SomeIff, leb, length};
ghost use Rattle.table.specs.Lent.{stored};
ghost use Rattle.table.specs.Writing.{made};
ghost use Rattle.bit_stores.specs.Written.{answer_of, later_of};
ghost use Rattle.daterange_writer.specs.Writing.{hex_of};
ghost use Rattle.daterange_writer.specs.Pieces.{pieces};

use crate::encoding::encode;
use table::store::put_bytes;

// How much room is left behind a line's parts of these lengths but for the section; nothing where they don't fit.
fn room_behind(room: usize, id: usize, date: usize, word: usize) -> Option<usize>
    ensures { SomeIff result (35 + id + date + word ≤ room) (room - 35 - id - date - word) }
{
    room.checked_sub(35)?
        .checked_sub(id)?
        .checked_sub(date)?
        .checked_sub(word)
}

// Whether a line of parts of these lengths fits. No sum is made that could wrap.
fn has_room(room: usize, id: usize, date: usize, word: usize, section: usize) -> bool
    ensures { result ≡ leb (35 + id + date + word + section * 2) room }
{
    match room_behind(room, id, date, word) {
        None => false,
        Some(left) => section <= left / 2,
    }
}

fn put_line(section: &[u8], word: &[u8], id: &[u8], date: &[u8], target: &mut [u8])
    requires { 35 + length id.now + length date.now + length word.now + length section.now * 2 ≤ length target.old }
    ensures { target.new ≡ stored target.old 0 (pieces id.now date.now word.now (hex_of section.now)) }
{
    let middle = 21 + id.len();
    let from = middle + 14;
    let end = from + date.len();
    put_bytes(target, 0, b"#EXT-X-DATERANGE:ID=\"");
    put_bytes(target, 21, id);
    put_bytes(target, middle, b"\",START-DATE=\"");
    put_bytes(target, from, date);
    put_bytes(target, end, word);
    encode(target, end + word.len(), section);
}

// `word` stands between the date and the digits.
pub(crate) fn store_line(
    section: &[u8],
    word: &[u8],
    id: &[u8],
    date: &[u8],
    target: &mut [u8],
) -> Result<usize, u8>
    ensures { (result ≡ answer_of (made (pieces id.now date.now word.now (hex_of section.now))) target.old) × (target.new ≡ later_of (made (pieces id.now date.now word.now (hex_of section.now))) target.old) }
{
    if !has_room(
        target.len(),
        id.len(),
        date.len(),
        word.len(),
        section.len(),
    ) {
        return Err(36);
    }
    let size = 35 + id.len() + date.len() + word.len() + section.len() * 2;
    put_line(section, word, id, date, target);
    Ok(size)
}
