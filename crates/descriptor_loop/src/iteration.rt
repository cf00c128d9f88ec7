// The step over a loop, and how many items a loop has.
ghost use Rattle.std.specs.Prelude.{◌≡◌, ◌+◌, ◌≤◌, ◌<◌, length};
ghost use Rattle.descriptor_loop.specs.Items.{without_identifier, short, complete_at, step_of, count_of};

use crate::place::{move_descriptor, move_refusal};
use crate::{ItemRefusal, MAX_DESCRIPTOR, MAX_LOOP, Step};
use descriptor::{Descriptor, read_descriptor};
use table::numbers::size;
use upid::Refusal;

// An item without an identifier.
fn plain(item: Option<Result<Descriptor, ItemRefusal>>, next: usize) -> Step
    ensures { result ≡ without_identifier item next }
{
    Step {
        item,
        identifier: [0; 4],
        next,
    }
}

// Refusal 21.
fn lacks(expected: usize, actual: usize) -> Option<Result<Descriptor, ItemRefusal>>
    ensures { result ≡ short expected actual }
{
    Some(Err(ItemRefusal::Other(Refusal::NotEnoughData { expected, actual })))
}

// An item of `len` bytes after its head, of which four are the identifier.
fn read_complete(descriptors: &[u8], offset: usize, len: usize) -> Step
    requires { (4 ≤ len) × (offset + (len + 2) ≤ length descriptors.now) × (length descriptors.now ≤ 4076) }
    ensures { result ≡ complete_at descriptors.now offset len }
{
    let tag = descriptors[offset];
    let id = [
        descriptors[offset + 2],
        descriptors[offset + 3],
        descriptors[offset + 4],
        descriptors[offset + 5],
    ];
    let start = offset + 6;
    let next = offset + (len + 2);
    match read_descriptor(tag, id, &descriptors[start..next]) {
        Err(r) => {
            let refusal = ItemRefusal::Other(move_refusal(r, start));
            return plain(Some(Err(refusal)), next);
        }
        Ok(d) => match d {
            Descriptor::Avail(_) => return plain(Some(Ok(d)), next),
            Descriptor::Dtmf(_) => return plain(Some(Ok(move_descriptor(d, start))), next),
            Descriptor::Segmentation(_) => return plain(Some(Ok(move_descriptor(d, start))), next),
            Descriptor::Time(_) => return plain(Some(Ok(d)), next),
            Descriptor::Reserved {
                tag: _,
                private_bytes: _,
            } => {
                return Step {
                    item: Some(Ok(move_descriptor(d, start))),
                    identifier: id,
                    next,
                };
            }
        },
    }
}

// An item of which at least six bytes are there, by its length.
fn by_length(descriptors: &[u8], offset: usize) -> Step
    requires { (offset + 6 ≤ length descriptors.now) × (length descriptors.now ≤ 4076) }
    ensures { result ≡ step_of descriptors.now offset }
{
    let end = descriptors.len();
    let left = end - offset;
    let len = size(descriptors[offset + 1]);
    if left < len + 2 {
        return plain(lacks(len + 2, 0), end);
    }
    if MAX_DESCRIPTOR < len {
        return plain(Some(Err(ItemRefusal::InvalidDescriptorLength)), end);
    }
    if len < 4 {
        return plain(lacks(6, len + 2), offset + (len + 2));
    }
    read_complete(descriptors, offset, len)
}

// The item at an offset of a loop, and where the next one starts.
pub fn step(descriptors: &[u8], offset: usize) -> Step
    ensures { result ≡ step_of descriptors.now offset }
{
    let end = descriptors.len();
    if MAX_LOOP < end {
        return plain(Some(Err(ItemRefusal::Other(Refusal::InputTooLong))), end);
    }
    if end <= offset {
        return plain(None, end);
    }
    if end - offset < 6 {
        return plain(lacks(2, 0), end);
    }
    by_length(descriptors, offset)
}

// The items of a loop, counted step by step.
pub fn count_items(descriptors: &[u8]) -> Result<usize, ItemRefusal>
    ensures { result ≡ count_of descriptors.now }
{
    if MAX_LOOP < descriptors.len() {
        return Err(ItemRefusal::Other(Refusal::InputTooLong));
    }
    let mut count: usize = 0;
    let mut offset: usize = 0;
    // Each step says where the next item starts, so this counts no index.
    while offset < descriptors.len() {
        let s = step(descriptors, offset);
        offset = s.next;
        count += 1;
    }
    Ok(count)
}
