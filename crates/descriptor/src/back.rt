// A segmentation descriptor's fields after its UPID.
ghost use Rattle.std.specs.Prelude.{◌≡◌, ◌+◌, ◌*◌, ◌≤◌, length};
ghost use Rattle.descriptor.specs.Segmentation.{sub_segments, back};
ghost use Rattle.descriptor.specs.Private.{sub_segments_read, back_read};
ghost use Rattle.table.specs.Bits.{bits_of};
ghost use Rattle.table.specs.Table.{parse};

use crate::segmentation::SubSegment;
use names::segmentation::SegmentationTypeId;
use table::cursor::Short;

#[derive(Clone, Copy)]
pub(crate) struct Back {
    pub segmentation_type_id: SegmentationTypeId,
    pub segment_num: u8,
    pub segments_expected: u8,
    pub sub_segments: Option<SubSegment>,
}

fn read_sub_segments(s: &[u8], at: usize) -> Result<Option<SubSegment>, Short>
    requires { at ≤ length s.now }
    ensures { sub_segments_read result (parse sub_segments (bits_of s.now) (at * 8)) }
{
    let left = s.len() - at;
    if left == 0 {
        return Ok(None);
    }
    if left == 1 {
        return Err(Short {
            expected: 1,
            actual: 0,
        });
    }
    Ok(Some(SubSegment {
        sub_segment_num: s[at],
        sub_segments_expected: s[at + 1],
    }))
}

pub(crate) fn read_back(s: &[u8], at: usize) -> Result<Back, Short>
    requires { at ≤ length s.now }
    ensures { back_read result (parse back (bits_of s.now) (at * 8)) }
{
    if s.len() - at < 3 {
        return Err(Short {
            expected: 1,
            actual: 0,
        });
    }
    let sub_segments = read_sub_segments(s, at + 3)?;
    Ok(Back {
        segmentation_type_id: SegmentationTypeId::from(s[at]),
        segment_num: s[at + 1],
        segments_expected: s[at + 2],
        sub_segments,
    })
}
