// The splice header: eleven bytes after a section's first three.
ghost use Rattle.std.specs.Prelude.{◌≡◌};
ghost use Rattle.header.specs.Header.{header_of};

use header_numbers::read_header_numbers;
use names::algorithm::EncryptionAlgorithm;
use names::command::SpliceCommandType;

#[derive(Clone, Copy)]
pub struct SpliceInfoHeader {
    pub protocol_version: u8,
    pub encrypted_packet: bool,
    pub encryption_algorithm: EncryptionAlgorithm,
    pub pts_adjustment: u64,
    pub cw_index: u8,
    pub tier: u16,
    pub splice_command_length: u16,
    pub splice_command_type: SpliceCommandType,
}

// The header in the first eleven bytes: its numbers, of which algorithm and type are named.
pub fn read_header(s: &[u8]) -> Option<SpliceInfoHeader>
    ensures { result ≡ header_of s.now }
{
    let n = read_header_numbers(s)?;
    Some(SpliceInfoHeader {
        protocol_version: n.protocol_version,
        encrypted_packet: n.encrypted_packet,
        encryption_algorithm: EncryptionAlgorithm::from(n.encryption_algorithm),
        pts_adjustment: n.pts_adjustment,
        cw_index: n.cw_index,
        tier: n.tier,
        splice_command_length: n.splice_command_length,
        splice_command_type: SpliceCommandType::from(n.splice_command_type),
    })
}
