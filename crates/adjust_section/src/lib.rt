// The single box: a section whose pts_adjustment is moved, its CRC mended, and no other byte changed.
#![tactic(auto)]

ghost use Rattle.std.specs.Prelude.{◌≡◌, ◌+◌, ◌^◌, ◌≤◌, ◌<◌, length};
ghost use Rattle.adjust_section.specs.Adjusted.{section_with, adjusted_section};
ghost use Rattle.bit_stores.specs.Written.{answer_of, later_of};
ghost use Rattle.table.specs.Lent.{stored};

use crc::crc32;
use section::read_section;
use table::numbers::{time33, wide};
use table::store::{put_bytes, put_number};

// The section with p as its pts_adjustment, from the target's first byte on.
fn put_section(target: &mut [u8], section: &[u8], p: u64)
    requires { (p < 2 ^ 33) × (18 ≤ length section.now) × (length section.now ≤ 4096) × (length section.now ≤ length target.old) }
    ensures { target.new ≡ stored target.old 0 (section_with p section.now) }
{
    let end = section.len() - 4;
    put_bytes(target, 0, &section[0..4]);
    put_number(target, 4, 5, wide(section[4]) / 2 * 0x2_0000_0000 + p);
    put_bytes(target, 9, &section[9..end]);
    let crc = crc32(&target[0..end]);
    put_number(target, end, 4, crc as u64);
}

// The section with its pts_adjustment moved by `adjustment`, from the target's first byte on; or a refusal: 1 to 11 for the section, 32, 36.
pub fn adjust_section(section: &[u8], adjustment: u64, target: &mut [u8]) -> Result<usize, u8>
    ensures answer { result ≡ answer_of (adjusted_section section.now adjustment) target.old }
    ensures bytes { target.new ≡ later_of (adjusted_section section.now adjustment) target.old }
{
    match read_section(section) {
        Ok(_) => {}
        Err(r) => return Err(r.number()),
    }
    if 0x1_FFFF_FFFF < adjustment {
        return Err(32);
    }
    if target.len() < section.len() {
        return Err(36);
    }
    put_section(
        target,
        section,
        (time33(section, 4) + adjustment) % 0x2_0000_0000,
    );
    Ok(section.len())
}
