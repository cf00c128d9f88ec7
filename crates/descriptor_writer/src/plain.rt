// Avail, DTMF, time and reserved descriptors.
ghost use Rattle.std.specs.Prelude.{◌≡◌, []};
ghost use Rattle.descriptor.specs.Plain.{avail, dtmf, time, private_table};
ghost use Rattle.descriptor_measure.specs.Writing.{cuei, enveloped_made, alone, writable_reserved};
ghost use Rattle.table.specs.Writing.{make};
ghost use Rattle.descriptor_writer.specs.Stores.{Writes};

use crate::envelope::{MAX_PAYLOAD, cuei, store_envelope};
use bit_stores::{put_bits, put_run};
use descriptor::plain::{AvailDescriptor, DTMFDescriptor, TimeDescriptor};
use descriptor_measure::{is_alone, is_writable_reserved};
use table::View;
use table::lent::{lies_in, view};
use table::numbers::wide;

pub(crate) fn write_avail(
    x: AvailDescriptor,
    identifier: [u8; 4],
    eidr: [u8; 12],
    target: &mut [u8],
) -> Result<usize, u8>
    ensures { Writes (enveloped_made 0 cuei (make avail (alone identifier eidr) [] x)) target.old target.new result }
{
    if !is_alone(identifier, eidr) {
        return Err(33);
    }
    if target.len() < 10 {
        return Err(36);
    }
    let id = cuei();
    let c = store_envelope(target, 0, 8, &id[..]);
    let _last = put_bits(target, c, 32, x.provider_avail_id as u64);
    Ok(10)
}

pub(crate) fn write_time(
    x: TimeDescriptor,
    identifier: [u8; 4],
    eidr: [u8; 12],
    target: &mut [u8],
) -> Result<usize, u8>
    ensures { Writes (enveloped_made 3 cuei (make time (alone identifier eidr) [] x)) target.old target.new result }
{
    if 0xffff_ffff_ffff < x.tai_seconds {
        return Err(32);
    }
    if !is_alone(identifier, eidr) {
        return Err(33);
    }
    if target.len() < 18 {
        return Err(36);
    }
    let id = cuei();
    let c = store_envelope(target, 3, 16, &id[..]);
    let second = put_bits(target, c, 48, x.tai_seconds);
    let third = put_bits(target, second, 32, x.tai_nanoseconds as u64);
    let _last = put_bits(target, third, 16, x.utc_offset as u64);
    Ok(18)
}

pub(crate) fn write_dtmf(
    x: DTMFDescriptor,
    identifier: [u8; 4],
    eidr: [u8; 12],
    lent: &[u8],
    target: &mut [u8],
) -> Result<usize, u8>
    ensures { Writes (enveloped_made 1 cuei (make dtmf (alone identifier eidr) lent.now x)) target.old target.new result }
{
    let chars = x.dtmf_chars;
    if !lies_in(lent, chars) {
        return Err(31);
    }
    if 7 < chars.len {
        return Err(32);
    }
    if !is_alone(identifier, eidr) {
        return Err(33);
    }
    if target.len() < 8 + chars.len {
        return Err(36);
    }
    let id = cuei();
    let c = store_envelope(target, 1, 6 + chars.len, &id[..]);
    let second = put_bits(target, c, 8, wide(x.preroll));
    let third = put_bits(target, second, 3, chars.len as u64);
    let fourth = put_bits(target, third, 5, 31);
    let part = view(lent, chars);
    let _last = put_run(target, fourth, part);
    Ok(8 + chars.len)
}

pub(crate) fn write_reserved(
    tag: u8,
    private_bytes: View,
    identifier: [u8; 4],
    eidr: [u8; 12],
    lent: &[u8],
    target: &mut [u8],
) -> Result<usize, u8>
    ensures { Writes (enveloped_made tag identifier (make private_table (writable_reserved tag identifier eidr) lent.now private_bytes)) target.old target.new result }
{
    if !lies_in(lent, private_bytes) {
        return Err(31);
    }
    if !is_writable_reserved(tag, identifier, eidr) {
        return Err(33);
    }
    if MAX_PAYLOAD < private_bytes.len {
        return Err(34);
    }
    if target.len() < 6 + private_bytes.len {
        return Err(36);
    }
    let c = store_envelope(target, tag, 4 + private_bytes.len, &identifier[..]);
    let part = view(lent, private_bytes);
    let _last = put_run(target, c, part);
    Ok(6 + private_bytes.len)
}
