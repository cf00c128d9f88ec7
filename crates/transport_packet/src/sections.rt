// Where a section ends.
ghost use Rattle.std.specs.Prelude.{◌≡◌, ◌+◌, ◌*◌, ◌%◌, ◌<◌, drop};
ghost use Rattle.transport_packet.specs.Sections.{next_by, next_of, cut};

// What stands where a section would begin: no byte or stuffing; a section_length over 4,093; a section that goes on behind the bytes; or a
// complete one, of so many bytes. An enum of its own: only `feed` refuses what is too long, so it is no Err, and of a section that goes on no size is known.
#[derive(Clone, Copy)]
pub enum Next {
    Nothing,
    Long,
    Part,
    Complete(usize),
}

// So many bytes, of which this is the first, and this their section_length if three are there.
#[tactic(auto, unfolding(crate::specs::Sections::next_by))]
pub fn next_by(count: usize, first: u8, len: usize) -> Next
    ensures { result ≡ next_by count first len }
{
    if count == 0 {
        return Next::Nothing;
    }
    if first == 255 {
        return Next::Nothing;
    }
    if count < 3 {
        return Next::Part;
    }
    if 4093 < len {
        return Next::Long;
    }
    if 3 + len <= count {
        return Next::Complete(3 + len);
    }
    Next::Part
}

// section_length by its two bytes.
pub fn length_of(high: u8, low: u8) -> usize
    ensures { (result ≡ high % 16 * 256 + low) × (result < 4096) }
{
    (high as usize) % 16 * 256 + (low as usize)
}

// What stands at a place of these bytes.
#[tactic(auto, using(crate::proofs::Bytes::next_out, crate::proofs::Bytes::next_few, crate::proofs::Bytes::next_many))]
pub fn next_at(s: &[u8], at: usize) -> Next
    ensures { result ≡ next_of (drop at s.now) }
{
    if s.len() <= at {
        return Next::Nothing;
    }
    let count = s.len() - at;
    let first = s[at];
    if count < 3 {
        return next_by(count, first, 0);
    }
    next_by(count, first, length_of(s[at + 1], s[at + 2]))
}

// Whether a section that begins from this place on is too long.
#[tactic(auto, using(crate::proofs::Cuts::long_nothing, crate::proofs::Cuts::long_long, crate::proofs::Cuts::long_part, crate::proofs::Cuts::long_complete, crate::proofs::Cuts::complete_ends))]
pub fn any_long(s: &[u8], at: usize) -> bool
    ensures { result ≡ (cut (drop at s.now)).long }
{
    let mut i = at;
    // A `loop`: each step is as long as the section that stands there, so no `for` counts it.
    loop {
        match next_at(s, i) {
            Next::Nothing => return false,
            Next::Long => return true,
            Next::Part => return false,
            Next::Complete(size) => i += size,
        }
    }
}
