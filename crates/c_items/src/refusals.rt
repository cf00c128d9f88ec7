// The refusals of items and UPIDs: document 01's number, and its values in 01's order, 0 where there is none.
ghost use Rattle.std.specs.Prelude.{◌≡◌};
ghost use Rattle.upid.specs.Upid as upid;
ghost use Rattle.descriptor_loop.specs.Items.{number_of, values_of};
ghost use Rattle.c_items.specs.FlatUpid.{three};

use descriptor_loop::ItemRefusal;
use upid::Refusal;

pub(crate) fn number(r: Refusal) -> u64
    ensures { result ≡ upid.number_of r }
{
    match r {
        Refusal::InputTooLong => 2,
        Refusal::NotEnoughData {
            expected: _,
            actual: _,
        } => 21,
        Refusal::UpidLengthTypeMismatch => 23,
        Refusal::InvalidUpidContent {
            upid_type: _,
            bytes: _,
        } => 24,
        Refusal::InvalidUpidLength {
            upid_type: _,
            expected: _,
            actual: _,
        } => 25,
    }
}

pub(crate) fn values(r: Refusal) -> [u64; 3]
    ensures { result ≡ three (upid.values_of r) }
{
    match r {
        Refusal::InputTooLong => [0, 0, 0],
        Refusal::NotEnoughData { expected, actual } => [expected as u64, actual as u64, 0],
        Refusal::UpidLengthTypeMismatch => [0, 0, 0],
        Refusal::InvalidUpidContent { upid_type, bytes } => [
            upid_type as u64,
            bytes.at as u64,
            bytes.len as u64,
        ],
        Refusal::InvalidUpidLength {
            upid_type,
            expected,
            actual,
        } => [upid_type as u64, expected as u64, actual as u64],
    }
}

pub(crate) fn item_number(r: ItemRefusal) -> u64
    ensures { result ≡ number_of r }
{
    match r {
        ItemRefusal::InvalidDescriptorLength => 22,
        ItemRefusal::Other(r) => number(r),
    }
}

pub(crate) fn item_values(r: ItemRefusal) -> [u64; 3]
    ensures { result ≡ three (values_of r) }
{
    match r {
        ItemRefusal::InvalidDescriptorLength => [0, 0, 0],
        ItemRefusal::Other(r) => values(r),
    }
}
