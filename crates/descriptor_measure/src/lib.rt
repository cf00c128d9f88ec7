// What the descriptor writer makes of an item: the values that it refuses, and the bytes that it takes (document 01, "Canonical form and writer").
#![tactic(auto)]

ghost use Rattle.std.specs.Prelude.{◌≡◌};
ghost use Rattle.descriptor_measure.specs.Writing.{all_zero, alone, writable_reserved};

use descriptor::is_cuei;

pub mod segment;
pub mod upids;

// Whether an identifier or an EIDR is the blank that readers leave.
pub fn is_zero(bytes: &[u8]) -> bool
    ensures { result ≡ all_zero bytes.now }
{
    bytes.iter().all(|&b| b == 0)
}

// Whether nothing stands beside a descriptor.
pub fn is_alone(identifier: [u8; 4], eidr: [u8; 12]) -> bool
    ensures { result ≡ alone identifier eidr }
{
    if is_zero(&identifier[..]) {
        return is_zero(&eidr[..]);
    }
    false
}

// Whether a reserved descriptor may have this tag, with this identifier and EIDR beside it.
pub fn is_writable_reserved(tag: u8, identifier: [u8; 4], eidr: [u8; 12]) -> bool
    ensures { result ≡ writable_reserved tag identifier eidr }
{
    if !is_zero(&eidr[..]) {
        return false;
    }
    if is_cuei(identifier) {
        return 3 < tag;
    }
    true
}
