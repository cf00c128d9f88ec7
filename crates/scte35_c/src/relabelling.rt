// One identifier of a section replaced, and every other one kept.
ghost use Rattle.std.specs.Prelude.{◌≡◌};
ghost use Rattle.c_command_writer.specs.Words.{flat_written};
ghost use Rattle.bit_stores.specs.Written.{answer_of, later_of};
ghost use Rattle.relabel.specs.Relabel.{relabel_made};

use c_command_writer::FlatWritten;

// The section in which part number `part` of the item at `offset` of its loop becomes an identifier of type `upid_type` with these bytes. Part 0 is the UPID
// itself, part n the n-th of its MID's parts as `scte35_read_upid` lists them.
#[unsafe(no_mangle)]
pub extern "C" fn scte35_relabel(
    section: &[u8],
    offset: usize,
    part: usize,
    upid_type: u8,
    bytes: &[u8],
    target: &mut [u8],
) -> FlatWritten
    ensures answer { result ≡ flat_written (answer_of (relabel_made section.now offset part upid_type bytes.now) target.old) }
    ensures bytes { target.new ≡ later_of (relabel_made section.now offset part upid_type bytes.now) target.old }
{
    scte35::relabelling::scte35_relabel(section, offset, part, upid_type, bytes, target)
}
