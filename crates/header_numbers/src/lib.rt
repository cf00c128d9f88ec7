// The numbers of a splice header, as they stand in its eleven bytes: none of them is named here. `header` names algorithm and type, the C boundary takes them
// as they are, and neither takes the bytes apart again.
#![tactic(auto)]

ghost use Rattle.std.specs.Prelude.{◌≡◌};
ghost use Rattle.header_numbers.specs.Numbers.{numbers_read};

use table::numbers::{big_endian, time33, wide};

#[derive(Clone, Copy)]
pub struct HeaderNumbers {
    pub protocol_version: u8,
    pub encrypted_packet: bool,
    pub encryption_algorithm: u8,
    pub pts_adjustment: u64,
    pub cw_index: u8,
    pub tier: u16,
    pub splice_command_length: u16,
    pub splice_command_type: u8,
}

// The numbers in the first eleven bytes.
pub fn read_header_numbers(s: &[u8]) -> Option<HeaderNumbers>
    ensures { result ≡ numbers_read s.now }
{
    if s.len() < 11 {
        return None;
    }
    let flags = wide(s[1]);
    Some(HeaderNumbers {
        protocol_version: s[0],
        encrypted_packet: flags / 128 == 1,
        encryption_algorithm: (flags / 2 % 64) as u8,
        pts_adjustment: time33(s, 1),
        cw_index: s[6],
        tier: (big_endian(s, 7, 2) / 16) as u16,
        splice_command_length: (big_endian(s, 8, 2) % 4096) as u16,
        splice_command_type: s[10],
    })
}
