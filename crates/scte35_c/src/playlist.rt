// Cues in streaming playlists: an EXT-X-DATERANGE line written of a section, and read.
ghost use Rattle.std.specs.Prelude.{◌≡◌, drop};
ghost use Rattle.daterange.specs.Choice.{daterange_made};
ghost use Rattle.daterange_line.specs.Reading.{read_of, read_later};
ghost use Rattle.c_daterange.specs.FlatDaterange.{flat_line};
ghost use Rattle.c_command_writer.specs.Words.{flat_written};
ghost use Rattle.bit_stores.specs.Written.{answer_of, later_of};

use c_command_writer::FlatWritten;
use c_daterange::FlatDaterange;

// The line of the section in all bytes from the offset on.
#[unsafe(no_mangle)]
pub extern "C" fn scte35_write_daterange(
    section: &[u8],
    at: usize,
    id: &[u8],
    date: &[u8],
    target: &mut [u8],
) -> FlatWritten
    ensures answer { result ≡ flat_written (answer_of (daterange_made (drop at section.now) id.now date.now) target.old) }
    ensures bytes { target.new ≡ later_of (daterange_made (drop at section.now) id.now date.now) target.old }
{
    scte35::playlist::scte35_write_daterange(section, at, id, date, target)
}

// What the line says that is all bytes from the offset on; the section's bytes go into the target.
#[unsafe(no_mangle)]
pub extern "C" fn scte35_read_daterange(line: &[u8], at: usize, target: &mut [u8]) -> FlatDaterange
    ensures answer { result ≡ flat_line (read_of (drop at line.now) target.old) }
    ensures bytes { target.new ≡ read_later (drop at line.now) target.old }
{
    scte35::playlist::scte35_read_daterange(line, at, target)
}
