// The payload of a segmentation descriptor.
ghost use Rattle.std.specs.Prelude.{◌≡◌, ◌+◌, ◌*◌, ◌≤◌, length};
ghost use Rattle.canonical_form.specs.Descriptor.{canonical_segmentation};
ghost use Rattle.descriptor_measure.specs.Writing.{accepts};
ghost use Rattle.upid.specs.Upid.{check_of};
ghost use Rattle.descriptor_canonical.specs.Private.{flags_ones, lasting_bytes, components_ones, ends_at, upid_at, components_at, active_fits};

use table::numbers::size;
use upid::check_upid;

// The three flags of a byte: where delivery is not restricted, its other five bits are reserved.
fn flags_ones(b: u8) -> bool
    ensures { result ≡ flags_ones b }
{
    if b / 32 % 2 == 1 {
        return b % 32 == 31;
    }
    true
}

// The bytes of the duration.
fn lasting_bytes(b: u8) -> usize
    ensures { (result ≡ lasting_bytes b) × (result ≤ 5) }
{
    if b / 64 % 2 == 1 {
        return 5;
    }
    0
}

// The seven reserved bits of each of n components, six bytes each, from byte 7 on.
fn components_ones(s: &[u8], n: usize) -> bool
    requires { (n ≤ 255) × (7 + n * 6 ≤ length s.now) }
    ensures { result ≡ components_ones n s.now 7 }
{
    for i in 0..n {
        if s[7 + i * 6 + 1] / 2 != 127 {
            return false;
        }
    }
    true
}

// Whether three bytes end the payload, or five with the sub-segments.
fn ends_at(len: usize, at: usize) -> bool
    requires { at ≤ 4096 }
    ensures { result ≡ ends_at len at }
{
    if len == at + 3 {
        return true;
    }
    len == at + 5
}

// Whether its reader takes a UPID.
fn is_accepted(upid_type: u8, bytes: &[u8]) -> bool
    ensures { result ≡ accepts (check_of upid_type bytes.now) }
{
    match check_upid(upid_type, bytes) {
        Ok(_) => true,
        Err(_) => false,
    }
}

// From the UPID at a byte to the payload's end. An empty one has type 0.
fn is_canonical_upid(s: &[u8], at: usize) -> bool
    requires { at ≤ 2048 }
    ensures { result ≡ upid_at s.now at }
{
    let end = s.len();
    if end < at + 5 {
        return false;
    }
    let upid_type = s[at];
    let n = size(s[at + 1]);
    let start = at + 2;
    let next = start + n;
    if !ends_at(end, next) {
        return false;
    }
    if n == 0 {
        return upid_type == 0;
    }
    is_accepted(upid_type, &s[start..next])
}

// From the count of components at byte 6 to the payload's end, where the duration takes some bytes.
fn is_canonical_by_components(s: &[u8], lasting: usize) -> bool
    requires { lasting ≤ 5 }
    ensures { result ≡ components_at s.now lasting }
{
    if s.len() < 7 {
        return false;
    }
    let n = size(s[6]);
    let next = 7 + n * 6;
    if s.len() < next {
        return false;
    }
    if !components_ones(s, n) {
        return false;
    }
    is_canonical_upid(s, next + lasting)
}

// From the three flags at byte 5 to the payload's end.
fn is_canonical_active(s: &[u8]) -> bool
    ensures { result ≡ active_fits s.now }
{
    if s.len() < 6 {
        return false;
    }
    let b = s[5];
    if !flags_ones(b) {
        return false;
    }
    let lasting = lasting_bytes(b);
    if b / 128 == 1 {
        return is_canonical_upid(s, 6 + lasting);
    }
    is_canonical_by_components(s, lasting)
}

// A cancelled one ends after its first five bytes.
pub(crate) fn is_canonical_segmentation(s: &[u8]) -> bool
    ensures { result ≡ canonical_segmentation s.now }
{
    if s.len() < 5 {
        return false;
    }
    let b = s[4];
    if b % 128 != 127 {
        return false;
    }
    if b / 128 == 1 {
        return s.len() == 5;
    }
    is_canonical_active(s)
}
