// A segmentation descriptor's fields from its three flags to its UPID. Each part starts and ends with a byte: `at` is the place of its first byte, and `next`
// that of the byte after it.
ghost use Rattle.std.specs.Prelude.{◌≡◌, ◌+◌, ◌*◌, ◌≤◌, ◌<◌, length};
ghost use Rattle.descriptor.specs.Segmentation.{device_of, blank_component, component, mode, duration, written_upid, front};
ghost use Rattle.descriptor.specs.Private.{restrictions_in, lacked_of, component_read, components_passed, mode_read, duration_read, upid_read, mode_and_upid_read, front_read};
ghost use Rattle.table.specs.Bits.{bits_of};
ghost use Rattle.table.specs.Table.{list, parse};

use crate::octet::number40;
use crate::segmentation::{
    DeliveryRestrictions, SegmentationComponent, SegmentationMode, SegmentationUpid,
};
use names::flags::DeviceRestrictions;
use table::View;
use table::cursor::{Field, Short};
use table::numbers::{size, time33};

// The UPID as it is written.
#[derive(Clone, Copy)]
pub(crate) struct Front {
    pub program_segmentation_flag: bool,
    pub segmentation_duration_flag: bool,
    pub delivery_not_restricted_flag: bool,
    pub delivery_restrictions: Option<DeliveryRestrictions>,
    pub segmentation_mode: SegmentationMode,
    pub segmentation_duration: Option<u64>,
    pub segmentation_upid: SegmentationUpid,
}

// What stands beside a descriptor goes by these: two values before one place, so no `Field`.
#[derive(Clone, Copy)]
pub(crate) struct ModeAndUpid {
    pub mode: SegmentationMode,
    pub upid: SegmentationUpid,
    pub next: usize,
}

// The value that two bits stand for: each of their numbers has a name.
#[tactic(auto, unfolding(crate::specs::Segmentation::device_of))]
fn device(bits: u8) -> DeviceRestrictions
    ensures { result ≡ device_of bits }
{
    DeviceRestrictions::try_from(bits).unwrap_or(DeviceRestrictions::None)
}

// The restrictions in the last five bits of the byte of flags, which say something unless the third does not restrict.
fn restrictions(flags: u8) -> Option<DeliveryRestrictions>
    ensures { result ≡ restrictions_in flags }
{
    if flags / 32 % 2 == 1 {
        return None;
    }
    Some(DeliveryRestrictions {
        web_delivery_allowed_flag: flags / 16 % 2 == 1,
        no_regional_blackout_flag: flags / 8 % 2 == 1,
        archive_allowed_flag: flags / 4 % 2 == 1,
        device_restrictions: device(flags % 4),
    })
}

// What a component of which `left` bytes are there lacks first: its tag, its reserved bits or its offset.
fn lacked(left: usize) -> Short
    requires { left < 6 }
    ensures { result ≡ lacked_of left }
{
    if left == 0 {
        return Short {
            expected: 1,
            actual: 0,
        };
    }
    if left == 1 {
        return Short {
            expected: 0,
            actual: 0,
        };
    }
    Short {
        expected: 4,
        actual: left - 2,
    }
}

pub(crate) fn read_component(
    s: &[u8],
    at: usize,
) -> Result<Field<SegmentationComponent, usize>, Short>
    requires { at ≤ length s.now }
    ensures { component_read result (parse component (bits_of s.now) (at * 8)) }
{
    let left = s.len() - at;
    if left < 6 {
        return Err(lacked(left));
    }
    Ok(Field {
        value: SegmentationComponent {
            component_tag: s[at],
            pts_offset: time33(s, at + 1),
        },
        next: at + 6,
    })
}

// Past n components, of six bytes each; where they are not all there, the first of them that is not complete lacks something.
fn pass_components(s: &[u8], at: usize, n: u8) -> Result<usize, Short>
    requires { at ≤ length s.now }
    ensures { components_passed result (parse (list n blank_component component) (bits_of s.now) (at * 8)) }
{
    let left = s.len() - at;
    let bytes = size(n) * 6;
    if left < bytes {
        return Err(lacked(left % 6));
    }
    Ok(at + bytes)
}

fn read_mode(s: &[u8], at: usize, program: bool) -> Result<Field<SegmentationMode, usize>, Short>
    requires { at ≤ length s.now }
    ensures { mode_read result (parse (mode program) (bits_of s.now) (at * 8)) }
{
    if program {
        return Ok(Field {
            value: SegmentationMode::Program,
            next: at,
        });
    }
    if s.len() <= at {
        return Err(Short {
            expected: 1,
            actual: 0,
        });
    }
    let count = s[at];
    let next = pass_components(s, at + 1, count)?;
    Ok(Field {
        value: SegmentationMode::Component(count),
        next,
    })
}

fn read_duration(s: &[u8], at: usize, flagged: bool) -> Result<Field<Option<u64>, usize>, Short>
    requires { at ≤ length s.now }
    ensures { duration_read result (parse (duration flagged) (bits_of s.now) (at * 8)) }
{
    if flagged {
        let left = s.len() - at;
        if left < 5 {
            return Err(Short {
                expected: 5,
                actual: left,
            });
        }
        return Ok(Field {
            value: Some(number40(s, at)),
            next: at + 5,
        });
    }
    Ok(Field {
        value: None,
        next: at,
    })
}

fn read_written_upid(s: &[u8], at: usize) -> Result<Field<SegmentationUpid, usize>, Short>
    requires { at ≤ length s.now }
    ensures { upid_read result (parse written_upid (bits_of s.now) (at * 8)) }
{
    let left = s.len() - at;
    if left < 2 {
        return Err(Short {
            expected: 1,
            actual: 0,
        });
    }
    let len = size(s[at + 1]);
    let start = at + 2;
    if left - 2 < len {
        return Err(Short {
            expected: 1,
            actual: 0,
        });
    }
    Ok(Field {
        value: SegmentationUpid {
            upid_type: s[at],
            bytes: View { at: start, len },
        },
        next: start + len,
    })
}

// Of these fields the mode and the UPID as it is written, for those who ask for no more.
pub(crate) fn read_mode_and_upid(s: &[u8], at: usize) -> Option<ModeAndUpid>
    ensures { mode_and_upid_read result (parse front (bits_of s.now) (at * 8)) }
{
    if s.len() <= at {
        return None;
    }
    let flags = s[at];
    let moded = match read_mode(s, at + 1, flags / 128 % 2 == 1) {
        Ok(m) => m,
        Err(_) => return None,
    };
    let lasting = match read_duration(s, moded.next, flags / 64 % 2 == 1) {
        Ok(d) => d,
        Err(_) => return None,
    };
    let written = match read_written_upid(s, lasting.next) {
        Ok(u) => u,
        Err(_) => return None,
    };
    let mode = moded.value;
    let upid = written.value;
    Some(ModeAndUpid {
        mode,
        upid,
        next: written.next,
    })
}

// The byte of flags, and what the first two say of the rest.
pub(crate) fn read_front(s: &[u8], at: usize) -> Result<Field<Front, usize>, Short>
    ensures { front_read result (parse front (bits_of s.now) (at * 8)) }
{
    if s.len() <= at {
        return Err(Short {
            expected: 0,
            actual: 0,
        });
    }
    let flags = s[at];
    let program = flags / 128 % 2 == 1;
    let lasts = flags / 64 % 2 == 1;
    let moded = read_mode(s, at + 1, program)?;
    let lasting = read_duration(s, moded.next, lasts)?;
    let written = read_written_upid(s, lasting.next)?;
    let segmentation_mode = moded.value;
    let segmentation_duration = lasting.value;
    let segmentation_upid = written.value;
    let front = Front {
        program_segmentation_flag: program,
        segmentation_duration_flag: lasts,
        delivery_not_restricted_flag: flags / 32 % 2 == 1,
        delivery_restrictions: restrictions(flags),
        segmentation_mode,
        segmentation_duration,
        segmentation_upid,
    };
    Ok(Field {
        value: front,
        next: written.next,
    })
}
