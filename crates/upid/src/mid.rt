// MIDs: UPIDs inside a UPID, to any depth that 255 bytes have room for.
ghost use Rattle.std.specs.Prelude.{◌≡◌, [], ◌+◌, ◌≤◌, ◌<◌, length};
ghost use Rattle.upid.specs.Upid.{read_of, list_of, listed};
ghost use Rattle.upid.specs.Private.{Listable};

use crate::plain::{check_plain, reported};
use crate::{MAX_PARTS, Part, PartList, Refusal, UPID_MID};
use table::numbers::size;

// A payload, and where it is a MID each of its parts in byte order: the first refusal ends the walk. `start` is where it lies in the top UPID.
pub(crate) fn check_payload(upid_type: u8, s: &[u8], start: usize) -> Result<u8, Refusal>
    requires { start + length s.now ≤ 255 }
    ensures { result ≡ read_of upid_type start s.now }
{
    if upid_type != UPID_MID {
        return check_plain(upid_type, s, start);
    }
    let mut at: usize = 0;
    // Each part says where the next one starts, so this counts no index.
    'walk: while at < s.len() {
        let left = s.len() - at;
        if left < 2 {
            return Err(Refusal::NotEnoughData {
                expected: 1,
                actual: 0,
            });
        }
        let k = s[at];
        let n = size(s[at + 1]);
        let body = at + 2;
        let present = s.len() - body;
        if present < n {
            return Err(Refusal::NotEnoughData {
                expected: n,
                actual: present,
            });
        }
        let end = body + n;
        check_payload(k, &s[body..end], start + body)?;
        at = end;
    }
    Ok(UPID_MID)
}

// No parts.
pub(crate) fn blank() -> PartList
    ensures { result ≡ listed [] }
{
    let none = Part {
        upid_type: 0,
        level: 0,
        start: 0,
        len: 0,
    };
    PartList {
        parts: [none; MAX_PARTS],
        count: 0,
    }
}

// The parts of a UPID that was accepted; there are none where it is no MID. It goes by byte order and not by calling itself, so that its need of stack is the
// same at every depth: `ends` has the place where each open MID ends, the top one's first, and the `level` of them that are open give the level of the next part.
pub(crate) fn list_parts(upid_type: u8, s: &[u8]) -> PartList
    requires { Listable upid_type s.now }
    ensures { result ≡ listed (list_of upid_type 1 0 s.now) }
{
    let mut out = blank();
    if upid_type != UPID_MID {
        return out;
    }
    let mut ends = [0u8; 128];
    ends[0] = s.len() as u8;
    let mut level: usize = 1;
    let mut at: usize = 0;
    'walk: while 0 < level {
        let open = level - 1;
        let end = size(ends[open]);
        if at == end {
            level = open;
            continue 'walk;
        }
        let k = s[at];
        let l = s[at + 1];
        let from = at + 2;
        let to = from + size(l);
        let count = out.count;
        out.parts[count] = Part {
            upid_type: reported(k),
            level: level as u8,
            start: from as u8,
            len: l,
        };
        out.count = count + 1;
        if k != UPID_MID {
            at = to;
            continue 'walk;
        }
        ends[level] = to as u8;
        level += 1;
        at = from;
    }
    out
}
