// The payloads of avail, DTMF, time and reserved descriptors.
ghost use Rattle.std.specs.Prelude.{◌≡◌};
ghost use Rattle.descriptor.specs.Descriptor.{avail_of, dtmf_of, time_of, reserved_of};

use crate::Descriptor;
use crate::octet::take_octet;
use table::View;
use table::cursor::Cursor;
use table::numbers::{big_endian, size};
use upid::Refusal;

#[derive(Clone, Copy)]
pub struct AvailDescriptor {
    pub provider_avail_id: u32,
}

#[derive(Clone, Copy)]
pub struct DTMFDescriptor {
    pub preroll: u8,
    pub dtmf_chars: View,
}

#[derive(Clone, Copy)]
pub struct TimeDescriptor {
    pub tai_seconds: u64,
    pub tai_nanoseconds: u32,
    pub utc_offset: u16,
}

// Tag 0: the payload is tested whole.
pub fn read_avail(payload: &[u8]) -> Result<Descriptor, Refusal>
    ensures { result ≡ avail_of payload.now }
{
    if payload.len() < 4 {
        return Err(Refusal::NotEnoughData {
            expected: 4,
            actual: payload.len(),
        });
    }
    Ok(Descriptor::Avail(AvailDescriptor {
        provider_avail_id: big_endian(payload, 0, 4) as u32,
    }))
}

// Tag 1: field by field.
pub fn read_dtmf(payload: &[u8]) -> Result<Descriptor, Refusal>
    ensures { result ≡ dtmf_of payload.now }
{
    let start = Cursor { byte: 0, bit: 0 };
    let preroll = take_octet(payload, start, 8)?;
    let count = take_octet(payload, preroll.next, 3)?;
    let next = count.next.skip(payload, 5)?;
    let chars = next.pass(payload, size(count.value))?;
    let dtmf_chars = chars.value;
    Ok(Descriptor::Dtmf(DTMFDescriptor {
        preroll: preroll.value,
        dtmf_chars,
    }))
}

// Tag 3: the payload is tested whole.
pub fn read_time(payload: &[u8]) -> Result<Descriptor, Refusal>
    ensures { result ≡ time_of payload.now }
{
    if payload.len() < 12 {
        return Err(Refusal::NotEnoughData {
            expected: 12,
            actual: payload.len(),
        });
    }
    Ok(Descriptor::Time(TimeDescriptor {
        tai_seconds: big_endian(payload, 0, 6),
        tai_nanoseconds: big_endian(payload, 6, 4) as u32,
        utc_offset: big_endian(payload, 10, 2) as u16,
    }))
}

// Any other tag or identifier: all of the payload.
pub fn read_reserved(tag: u8, payload: &[u8]) -> Result<Descriptor, Refusal>
    ensures { result ≡ reserved_of tag payload.now }
{
    Ok(Descriptor::Reserved {
        tag,
        private_bytes: View {
            at: 0,
            len: payload.len(),
        },
    })
}
