// A UPID that is written.
ghost use Rattle.std.specs.Prelude.{◌≡◌};
ghost use Rattle.descriptor_measure.specs.Writing.{written_type, written_upid, writable_upid};

use crate::is_zero;
use descriptor::segmentation::SegmentationUpid;
use table::lent::view;
use upid::{UPID_EIDR, check_upid};

// The type as it is written: 5 of an eight-byte ISAN.
pub fn written_type(u: SegmentationUpid) -> u8
    ensures { result ≡ written_type u }
{
    let bytes = u.bytes;
    if u.upid_type == 6 {
        if bytes.len == 8 {
            return 5;
        }
    }
    u.upid_type
}

// Refusal 33: whether a canonical reading may have this UPID, with this EIDR beside it.
pub(crate) fn is_writable_upid(u: SegmentationUpid, eidr: [u8; 12], lent: &[u8]) -> bool
    ensures { result ≡ writable_upid u eidr lent.now }
{
    let bytes = u.bytes;
    if u.upid_type == UPID_EIDR {
        return bytes.len == 0;
    }
    if !is_zero(&eidr[..]) {
        return false;
    }
    if u.upid_type == 0 {
        return bytes.len == 0;
    }
    if bytes.len == 0 {
        return false;
    }
    if u.upid_type == 5 {
        return false;
    }
    let part = view(lent, bytes);
    match check_upid(written_type(u), part) {
        Ok(_) => true,
        Err(_) => false,
    }
}

// How many bytes of it are written: twelve of an EIDR.
pub fn upid_size(u: SegmentationUpid) -> usize
    ensures { result ≡ (written_upid u).bytes.len }
{
    let bytes = u.bytes;
    if u.upid_type == UPID_EIDR {
        return 12;
    }
    bytes.len
}
