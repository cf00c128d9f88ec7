// Where an identifier stands that is to be replaced: the item at an offset of a loop, and the UPID's head in its payload.
#![tactic(auto)]

ghost use Rattle.std.specs.Prelude.{◌≡◌, ◌+◌, ◌*◌, ◌/◌, ◌%◌, ◌<◌, ◌≤◌, eqb, length};
ghost use Rattle.table.specs.Bits.{pick};
ghost use Rattle.descriptor_loop.specs.Items.{step_of, items_of};
ghost use Rattle.relabel_found.specs.Found.{begins, titled, complete, spots};
ghost use Rattle.relabel_payload.specs.Payload.{upid_head};

use descriptor::is_cuei;
use descriptor_loop::{MAX_DESCRIPTOR, MAX_LOOP};
use table::numbers::{byte, size};

// Where the item after the one at an offset starts: `step` says it too, but reads the item.
fn skip_item(items: &[u8], at: usize) -> usize
    requires { (at < length items.now) × (length items.now ≤ 4076) }
    ensures { result ≡ (step_of items.now at).next }
{
    let end = items.len();
    let left = end - at;
    if left < 6 {
        return end;
    }
    let len = size(items[at + 1]);
    if left < len + 2 {
        return end;
    }
    if MAX_DESCRIPTOR < len {
        return end;
    }
    at + (len + 2)
}

// Whether an item of the loop begins at an offset: a place inside an item may look like one.
fn begins_item(items: &[u8], offset: usize) -> bool
    requires { length items.now ≤ 4076 }
    ensures { result ≡ begins (items_of items.now) offset }
{
    let mut at: usize = 0;
    // Each item says where the next one starts, so this counts no index.
    while at < items.len() {
        if offset <= at {
            return at == offset;
        }
        at = skip_item(items, at);
    }
    false
}

// Whether a segmentation descriptor stands at an offset, by its length, its tag and its identifier.
fn is_titled(items: &[u8], offset: usize) -> bool
    ensures { result ≡ titled items.now offset }
{
    if items.len() <= offset {
        return false;
    }
    let left = items.len() - offset;
    if left < 17 {
        return false;
    }
    let len = size(items[offset + 1]);
    if len < 15 {
        return false;
    }
    if left < len + 2 {
        return false;
    }
    if MAX_DESCRIPTOR < len {
        return false;
    }
    if items[offset] != 2 {
        return false;
    }
    let identifier = [
        items[offset + 2],
        items[offset + 3],
        items[offset + 4],
        items[offset + 5],
    ];
    is_cuei(identifier)
}

// How many bytes the components take, by the byte of flags and their count: none where the program flag is set.
fn components_size(flags: u8, count: u8) -> usize
    ensures { (result ≡ pick (eqb (flags / 128 % 2) 1) 0 (1 + count * 6)) × (result < 1532) }
{
    if flags / 128 % 2 == 1 {
        return 0;
    }
    1 + size(count) * 6
}

// How many bytes the duration takes.
fn duration_size(flags: u8) -> usize
    ensures { (result ≡ pick (eqb (flags / 64 % 2) 1) 5 0) × (result < 6) }
{
    if flags / 64 % 2 == 1 {
        return 5;
    }
    0
}

// The place of the UPID's head in the payload of a segmentation descriptor that is not cancelled.
pub fn upid_head(payload: &[u8]) -> usize
    ensures { result ≡ upid_head payload.now }
{
    let flags = byte(payload, 5);
    6 + (components_size(flags, byte(payload, 6)) + duration_size(flags))
}

// Whether all of a segmentation payload is there, and it is not cancelled: its reader asks no more of it but of the UPID's own bytes.
fn is_complete(payload: &[u8]) -> bool
    ensures { result ≡ complete payload.now }
{
    if payload.len() < 11 {
        return false;
    }
    let head = upid_head(payload);
    if payload.len() < head + 5 {
        return false;
    }
    let left = payload.len() - (head + 5);
    let len = size(payload[head + 1]);
    if left < len {
        return false;
    }
    if left == len + 1 {
        return false;
    }
    payload[4] < 128
}

// Whether the item at an offset of a loop is one whose UPID can be replaced, but for the UPID's own rules: who replaces it tests them, once.
pub fn spots_active(items: &[u8], offset: usize) -> bool
    ensures { result ≡ spots items.now offset }
{
    if MAX_LOOP < items.len() {
        return false;
    }
    if !begins_item(items, offset) {
        return false;
    }
    if !is_titled(items, offset) {
        return false;
    }
    let start = offset + 6;
    let stop = offset + 2 + size(items[offset + 1]);
    is_complete(&items[start..stop])
}
