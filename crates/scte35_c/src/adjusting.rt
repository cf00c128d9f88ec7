// Adjustments in a chain: a time moved, two adjustments as one, one taken back, and a section with its own pts_adjustment moved.
ghost use Rattle.std.specs.Prelude.{◌≡◌, drop};
ghost use Rattle.adjust.specs.Adjust.{adjust_of, chain_of, undo_of};
ghost use Rattle.adjust_section.specs.Adjusted.{adjusted_section};
ghost use Rattle.c_adjust.specs.FlatAdjust.{flat_moved, flat_adjustment};
ghost use Rattle.c_command_writer.specs.Words.{flat_written};
ghost use Rattle.bit_stores.specs.Written.{answer_of, later_of};
ghost use Rattle.scte35.specs.FlatNumber.{time_handed};

use c_adjust::FlatAdjustment;
use c_command_writer::FlatWritten;
use c_section::headers::FlatAdjusted;

// A time of kind 3 moved; any other kind stays as it is.
#[unsafe(no_mangle)]
pub extern "C" fn scte35_move_time(kind: u64, ticks: u64, adjustment: u64) -> FlatAdjusted
    ensures { result ≡ flat_moved kind (adjust_of (time_handed kind ticks) adjustment) }
{
    scte35::adjusting::scte35_move_time(kind, ticks, adjustment)
}

// The one adjustment that does what a and then b do.
#[unsafe(no_mangle)]
pub extern "C" fn scte35_chain_adjustments(a: u64, b: u64) -> FlatAdjustment
    ensures { result ≡ flat_adjustment (chain_of a b) }
{
    scte35::adjusting::scte35_chain_adjustments(a, b)
}

// The adjustment that takes a back.
#[unsafe(no_mangle)]
pub extern "C" fn scte35_undo_adjustment(a: u64) -> FlatAdjustment
    ensures { result ≡ flat_adjustment (undo_of a) }
{
    scte35::adjusting::scte35_undo_adjustment(a)
}

// The section in all bytes from the offset on, with its pts_adjustment moved.
#[unsafe(no_mangle)]
pub extern "C" fn scte35_adjust_section(
    section: &[u8],
    at: usize,
    adjustment: u64,
    target: &mut [u8],
) -> FlatWritten
    ensures answer { result ≡ flat_written (answer_of (adjusted_section (drop at section.now) adjustment) target.old) }
    ensures bytes { target.new ≡ later_of (adjusted_section (drop at section.now) adjustment) target.old }
{
    scte35::adjusting::scte35_adjust_section(section, at, adjustment, target)
}
