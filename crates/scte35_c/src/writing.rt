// The writers. They take words, those of the C structs in their order: a word past the end counts as 0, and words past the struct's end are not looked at.
ghost use Rattle.std.specs.Prelude.{◌≡◌};
ghost use Rattle.c_descriptor_writer.specs.ItemGiven.{descriptor_words_made};
ghost use Rattle.c_section_writer.specs.SectionGiven.{section_words_made};
ghost use Rattle.c_command_writer.specs.CommandGiven.{command_words_made};
ghost use Rattle.c_command_writer.specs.Words.{flat_written};
ghost use Rattle.bit_stores.specs.Written.{answer_of, later_of};

use c_command_writer::FlatWritten;

// A command's payload: the words of a command and of its components, and the bytes that its view names.
#[unsafe(no_mangle)]
pub extern "C" fn scte35_write_command_words(
    command: &[u64],
    components: &[u64],
    lent: &[u8],
    target: &mut [u8],
) -> FlatWritten
    ensures answer { result ≡ flat_written (answer_of (command_words_made command.now components.now lent.now) target.old) }
    ensures bytes { target.new ≡ later_of (command_words_made command.now components.now lent.now) target.old }
{
    scte35::writing::scte35_write_command_words(command, components, lent, target)
}

// A descriptor: the words of a step and of what stands beside its item, and the bytes that its view names.
#[unsafe(no_mangle)]
pub extern "C" fn scte35_write_descriptor_words(
    step: &[u64],
    beside: &[u64],
    lent: &[u8],
    target: &mut [u8],
) -> FlatWritten
    ensures answer { result ≡ flat_written (answer_of (descriptor_words_made step.now beside.now lent.now) target.old) }
    ensures bytes { target.new ≡ later_of (descriptor_words_made step.now beside.now lent.now) target.old }
{
    scte35::writing::scte35_write_descriptor_words(step, beside, lent, target)
}

// A section: the words of a header, of a command and of its components, the bytes that the command's view names, and the loop's bytes.
#[unsafe(no_mangle)]
pub extern "C" fn scte35_write_section_words(
    header: &[u64],
    command: &[u64],
    components: &[u64],
    lent: &[u8],
    descriptors: &[u8],
    target: &mut [u8],
) -> FlatWritten
    ensures answer { result ≡ flat_written (answer_of (section_words_made header.now command.now components.now lent.now descriptors.now) target.old) }
    ensures bytes { target.new ≡ later_of (section_words_made header.now command.now components.now lent.now descriptors.now) target.old }
{
    scte35::writing::scte35_write_section_words(
        header,
        command,
        components,
        lent,
        descriptors,
        target,
    )
}
