// A splice header, and an adjusted time.
ghost use Rattle.std.specs.Prelude.{◌≡◌};
ghost use Rattle.c_section.specs.Flat.{no_header, flat_header, flat_header_read, flat_adjusted};
ghost use Rattle.header.specs.Header.{header_of};

use crate::flat_flag;
use header::header::SpliceInfoHeader;
use header_numbers::read_header_numbers;
use splice_time::TooLarge;

// Document 01's numbers of a header that is not there, and of a number that exceeds its field.
const NO_HEADER: u64 = 5;

pub const TOO_LARGE: u64 = 32;

#[repr(C)]
#[derive(Clone, Copy)]
pub struct FlatHeader {
    pub refusal: u64,
    pub protocol_version: u64,
    pub encrypted_packet: u64,
    pub encryption_algorithm: u64,
    pub pts_adjustment: u64,
    pub cw_index: u64,
    pub tier: u64,
    pub splice_command_length: u64,
    pub splice_command_type: u64,
}

pub(crate) fn no_header(refusal: u64) -> FlatHeader
    ensures { result ≡ no_header refusal }
{
    FlatHeader {
        refusal,
        protocol_version: 0,
        encrypted_packet: 0,
        encryption_algorithm: 0,
        pts_adjustment: 0,
        cw_index: 0,
        tier: 0,
        splice_command_length: 0,
        splice_command_type: 0,
    }
}

// The flat form of the header in the first eleven bytes: numbers cross as they stand, and none is named on the way.
pub fn read_flat_header(s: &[u8]) -> FlatHeader
    ensures { result ≡ flat_header_read (header_of s.now) }
{
    let n = match read_header_numbers(s) {
        Some(n) => n,
        None => return no_header(NO_HEADER),
    };
    FlatHeader {
        refusal: 0,
        protocol_version: n.protocol_version as u64,
        encrypted_packet: flat_flag(n.encrypted_packet),
        encryption_algorithm: n.encryption_algorithm as u64,
        pts_adjustment: n.pts_adjustment,
        cw_index: n.cw_index as u64,
        tier: n.tier as u64,
        splice_command_length: n.splice_command_length as u64,
        splice_command_type: n.splice_command_type as u64,
    }
}

fn flat_header(h: SpliceInfoHeader) -> FlatHeader
    ensures { result ≡ flat_header h }
{
    let algorithm = h.encryption_algorithm;
    let command_type = h.splice_command_type;
    FlatHeader {
        refusal: 0,
        protocol_version: h.protocol_version as u64,
        encrypted_packet: flat_flag(h.encrypted_packet),
        encryption_algorithm: u8::from(algorithm) as u64,
        pts_adjustment: h.pts_adjustment,
        cw_index: h.cw_index as u64,
        tier: h.tier as u64,
        splice_command_length: h.splice_command_length as u64,
        splice_command_type: u8::from(command_type) as u64,
    }
}

pub fn flat_header_read(read: Option<SpliceInfoHeader>) -> FlatHeader
    ensures { result ≡ flat_header_read read }
{
    match read {
        Some(h) => flat_header(h),
        None => no_header(NO_HEADER),
    }
}

// An adjusted time: kind 0 where there is none, 3 at so many ticks.
#[repr(C)]
#[derive(Clone, Copy)]
pub struct FlatAdjusted {
    pub refusal: u64,
    pub kind: u64,
    pub ticks: u64,
}

pub fn flat_adjusted(t: Result<Option<u64>, TooLarge>) -> FlatAdjusted
    ensures { result ≡ flat_adjusted t }
{
    match t {
        Ok(Some(ticks)) => FlatAdjusted {
            refusal: 0,
            kind: 3,
            ticks,
        },
        Ok(None) => FlatAdjusted {
            refusal: 0,
            kind: 0,
            ticks: 0,
        },
        Err(TooLarge) => FlatAdjusted {
            refusal: TOO_LARGE,
            kind: 0,
            ticks: 0,
        },
    }
}
