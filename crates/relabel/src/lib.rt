// One identifier of a section replaced, and every length around it and the CRC mended. All tests come first, in the order of the refusals, and then the stores,
// so that a refused write changes no byte.
#![tactic(auto)]

ghost use Rattle.std.specs.Prelude.{◌≡◌, [], ◌∷◌, ◌+◌, ◌-◌, ◌<◌, ◌≤◌, length, get_or};
ghost use Rattle.bit_stores.specs.Written.{answer_of, later_of};
ghost use Rattle.relabel_joined.specs.Relabel.{type_then};
ghost use Rattle.table.specs.Bits.{big_endian};
ghost use Rattle.table.specs.Lent.{stored};
ghost use Rattle.relabel.specs.Relabel.{loop_made, relabel_made};
ghost use Rattle.section.specs.Section.{command_length, loop_length};
ghost use Rattle.relabel.specs.Private.{Spotted, place_in, Lies, Takes, Limit, old_size, up_to_upid, sealed, placed_made};

use command::{CommandRefusal, number, read_command};
use crc::crc32;
use descriptor_loop::MAX_DESCRIPTOR;
use relabel_found::{spots_active, upid_head};
use relabel_upid::relabel_upid;
use section::{COMMAND_AT, COMMAND_TYPE_AT, MAX_SECTION, read_frame};
use table::numbers::size;
use table::store::{put_bytes, put_number};

// Where the identifier lies in the section: its loop with the loop's length, the item, the head of the item's UPID, and what stands after the UPID.
#[derive(Clone, Copy)]
struct Place {
    list: usize,
    len: usize,
    item: usize,
    head: usize,
    end: usize,
}

fn lesser(a: usize, b: usize) -> usize
    ensures { (result ≤ a) × (result ≤ b) × (a ≤ b → result ≡ a) × (b ≤ a → result ≡ b) }
{
    if a < b {
        return a;
    }
    b
}

// a less b, and nothing where b is more.
fn beyond(a: usize, b: usize) -> usize
    ensures { result ≡ a - b }
{
    if a < b {
        return 0;
    }
    a - b
}

// The type of the UPID then: with part 0 the new one, with a part of a MID the MID's own.
fn type_then(part: usize, upid_type: u8, new_type: u8) -> u8
    ensures { result ≡ type_then part upid_type new_type }
{
    if part == 0 {
        return new_type;
    }
    upid_type
}

// A byte at a place that the target has; `put_byte` would look whether it has it.
fn store_one(target: &mut [u8], at: usize, b: u8)
    requires { at < length target.old }
    ensures { target.new ≡ stored target.old at (b ∷ []) }
{
    target[at] = b;
}

// The number in the two bytes at such a place, the high one first.
fn store_two(target: &mut [u8], at: usize, v: usize)
    requires { (at + 2 ≤ length target.old) × (v < 65536) }
    ensures { target.new ≡ stored target.old at (big_endian 2 v) }
{
    store_one(target, at, (v / 256) as u8);
    store_one(target, at + 1, (v % 256) as u8);
}

// All up to the UPID's bytes, of which there are n: copied as it stands, and then section_length, the loop's length, the item's and the UPID's head are mended.
fn store_front(section: &[u8], p: Place, upid_type: u8, n: usize, target: &mut [u8])
    requires { Lies section.now p × Takes section.now p n × (p.head + 2 ≤ length target.old) }
    ensures { target.new ≡ stored target.old 0 (up_to_upid section.now p upid_type n) }
{
    let head = p.head;
    let start = head + 2;
    let own = p.item + 1;
    let old = p.end - start;
    let follows = section.len() - old + n - 3;
    put_bytes(target, 0, &section[0..start]);
    store_two(target, 1, size(section[1]) / 16 * 4096 + follows);
    store_two(target, p.list - 2, p.len - old + n);
    store_one(target, own, (size(section[own]) - old + n) as u8);
    store_two(target, head, size(upid_type) * 256 + n);
}

// All behind the UPID's n bytes, and the CRC.
fn store_back(section: &[u8], p: Place, n: usize, target: &mut [u8])
    requires { Lies section.now p × Takes section.now p n × (length section.now - old_size p + n ≤ length target.old) }
    ensures { target.new ≡ sealed section.now p n target.old }
{
    let end = p.end;
    let last = section.len() - 4;
    let at = p.head + 2 + n;
    put_bytes(target, at, &section[end..last]);
    let body = at + (last - end);
    let crc = crc32(&target[0..body]);
    put_number(target, body, 4, crc as u64);
}

// All around the UPID's n bytes, in the order in which it stands.
fn store_around(section: &[u8], p: Place, upid_type: u8, n: usize, target: &mut [u8])
    requires { Lies section.now p × Takes section.now p n × (length section.now - old_size p + n ≤ length target.old) }
    ensures { target.new ≡ sealed section.now p n (stored target.old 0 (up_to_upid section.now p upid_type n)) }
{
    store_front(section, p, upid_type, n, target);
    store_back(section, p, n, target);
}

// The identifier at a place: first its UPID, which is tested and stored where it goes, and then all around it.
fn relabel_at(
    section: &[u8],
    p: Place,
    limit: usize,
    part: usize,
    new_type: u8,
    new: &[u8],
    target: &mut [u8],
) -> Result<usize, u8>
    requires { Lies section.now p × Limit section.now p limit }
    ensures answer { result ≡ answer_of (placed_made section.now p limit part new_type new.now) target.old }
    ensures bytes { target.new ≡ later_of (placed_made section.now p limit part new_type new.now) target.old }
{
    let head = p.head;
    let start = head + 2;
    let end = p.end;
    let others = section.len() - (end - start);
    let room = beyond(target.len(), others);
    let from = lesser(start, target.len() - room);
    let to = from + room;
    let upid_type = section[head];
    let made = relabel_upid(
        upid_type,
        &section[start..end],
        part,
        new_type,
        new,
        limit,
        &mut target[from..to],
    );
    let n = made?;
    store_around(section, p, type_then(part, upid_type, new_type), n, target);
    Ok(others + n)
}

// How many bytes the UPID at a place may have: the item's length is at most 254, and the section's 4,096.
fn limit_of(section: &[u8], p: Place) -> usize
    requires { Lies section.now p }
    ensures { Limit section.now p result }
{
    let own = p.item + 1;
    let old = p.end - (p.head + 2);
    let item = size(section[own]) - old;
    let others = section.len() - old;
    lesser(MAX_DESCRIPTOR - item, MAX_SECTION - others)
}

// The place of the item at an offset of the loop, where one is found.
fn place_of(section: &[u8], list: usize, len: usize, offset: usize) -> Place
    requires { Spotted section.now offset × (list ≡ 16 + command_length section.now) × (len ≡ loop_length section.now) }
    ensures { result ≡ place_in section.now offset }
{
    let item = list + offset;
    let own = item + 1;
    let start = item + 6;
    let stop = item + 2 + size(section[own]);
    let head = start + upid_head(&section[start..stop]);
    let counts = head + 1;
    let end = head + 2 + size(section[counts]);
    Place {
        list,
        len,
        item,
        head,
        end,
    }
}

// The identifier in a section that is accepted.
fn relabel_in(
    section: &[u8],
    list: usize,
    len: usize,
    offset: usize,
    part: usize,
    upid_type: u8,
    new: &[u8],
    target: &mut [u8],
) -> Result<usize, u8>
    requires { (list ≡ 16 + command_length section.now) × (len ≡ loop_length section.now) × (20 + command_length section.now + loop_length section.now ≤ length section.now) × (length section.now ≤ 4096) }
    ensures answer { result ≡ answer_of (loop_made section.now offset part upid_type new.now) target.old }
    ensures bytes { target.new ≡ later_of (loop_made section.now offset part upid_type new.now) target.old }
{
    let end = list + len;
    if !spots_active(&section[list..end], offset) {
        return Err(41);
    }
    let p = place_of(section, list, len, offset);
    let limit = limit_of(section, p);
    relabel_at(section, p, limit, part, upid_type, new, target)
}

// The section in which part number `part` of the item at `offset` of its loop becomes an identifier of type `upid_type` with the bytes `new`, from the
// target's first byte on; or a refusal: 1 to 11 for the section, 41, 32, 33, 34, 36. Part 0 is the UPID itself, part n the n-th of its MID's parts as
// `read_upid` lists them.
pub fn relabel(
    section: &[u8],
    offset: usize,
    part: usize,
    upid_type: u8,
    new: &[u8],
    target: &mut [u8],
) -> Result<usize, u8>
    ensures answer { result ≡ answer_of (relabel_made section.now offset part upid_type new.now) target.old }
    ensures bytes { target.new ≡ later_of (relabel_made section.now offset part upid_type new.now) target.old }
{
    let frame = match read_frame(section) {
        Ok(f) => f,
        Err(r) => return Err(r.number()),
    };
    let payload = frame.command;
    let end = COMMAND_AT + payload.len;
    match read_command(section[COMMAND_TYPE_AT], &section[COMMAND_AT..end]) {
        Ok(_) => {}
        Err(CommandRefusal::UnknownType) => return Err(number(Err(CommandRefusal::UnknownType))),
        Err(CommandRefusal::Malformed) => return Err(number(Err(CommandRefusal::Malformed))),
    }
    let place = frame.descriptors;
    relabel_in(
        section, place.at, place.len, offset, part, upid_type, new, target,
    )
}
