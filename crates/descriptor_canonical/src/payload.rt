// The payload of a DTMF descriptor.
ghost use Rattle.std.specs.Prelude.{◌≡◌};
ghost use Rattle.descriptor.specs.Plain.{dtmf};
ghost use Rattle.table.specs.Table.{canonical_by};

use table::numbers::size;

// Preroll, count and five reserved bits, and as many bytes as the count says.
pub(crate) fn is_canonical_dtmf(s: &[u8]) -> bool
    ensures { result ≡ canonical_by dtmf s.now }
{
    if s.len() < 2 {
        return false;
    }
    let b = s[1];
    if b % 32 != 31 {
        return false;
    }
    size(b / 32) + 2 == s.len()
}
