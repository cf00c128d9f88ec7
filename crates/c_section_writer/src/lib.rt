// The section writer over the C boundary: a section from the words of a header, of a command and of its components.
#![tactic(auto)]

ghost use Rattle.std.specs.Prelude.{[], ◌≡◌, ◌≤◌};
ghost use Rattle.command.specs.Command.{array, count_in};
ghost use Rattle.command_measure.specs.Made.{command_made};
ghost use Rattle.c_section_writer.specs.SectionGiven.{header_from, header_refusal, either, section_words_made};
ghost use Rattle.c_section_writer.specs.SectionWords.{header_words};
ghost use Rattle.c_command_writer.specs.CommandGiven.{components_from};
ghost use Rattle.c_command_writer.specs.Words.{flat_written, no_less};
ghost use Rattle.bit_stores.specs.Written.{answer_of, later_of};
ghost use Rattle.section_writer.specs.Writing.{section_made, type_of};

use c_command_writer::commands::{
    command_given, command_refusal, components_given, count_in_command,
};
use c_command_writer::{FlatWritten, are_same, are_within, flat_written, lower_refusal, word_at};
use c_section::headers::{FlatHeader, flat_header_read};
use command::SpliceCommand;
use header::header::SpliceInfoHeader;
use names::algorithm::EncryptionAlgorithm;
use names::command::SpliceCommandType;
use section_writer::{write_section, write_section_without_components};

// The header that words make. Its command length and type are the writer's to work out.
fn header_from(words: &[u64]) -> SpliceInfoHeader
    ensures { result ≡ header_from words.now }
{
    SpliceInfoHeader {
        protocol_version: (word_at(words, 1) % 256) as u8,
        encrypted_packet: word_at(words, 2) == 1,
        encryption_algorithm: EncryptionAlgorithm::from((word_at(words, 3) % 256) as u8),
        pts_adjustment: word_at(words, 4),
        cw_index: (word_at(words, 5) % 256) as u8,
        tier: (word_at(words, 6) % 65536) as u16,
        splice_command_length: 0,
        splice_command_type: SpliceCommandType::SpliceNull,
    }
}

fn header_words(h: FlatHeader) -> [u64; 7]
    ensures { result ≡ header_words h }
{
    [
        h.refusal,
        h.protocol_version,
        h.encrypted_packet,
        h.encryption_algorithm,
        h.pts_adjustment,
        h.cw_index,
        h.tier,
    ]
}

// Refusals 32 and 33 of the words of a header; 0 for none.
fn header_refusal(words: &[u64]) -> u64
    ensures { result ≡ header_refusal words.now }
{
    let widths: [u64; 7] = [64, 8, 1, 6, 33, 8, 12];
    if !are_within(&widths, words) {
        return 32;
    }
    let own = header_words(flat_header_read(Some(header_from(words))));
    if !are_same(&own, words) {
        return 33;
    }
    0
}

fn either_refusal(m: u64, n: u64) -> u64
    ensures { result ≡ either m n }
{
    if m == 0 {
        return n;
    }
    if n == 0 {
        return m;
    }
    if n < m { n } else { m }
}

// A section whose command has no components; its words have a refusal of their own, or 0.
fn write_words_without_components(
    refusal: u64,
    header: SpliceInfoHeader,
    command: SpliceCommand,
    lent: &[u8],
    descriptors: &[u8],
    target: &mut [u8],
) -> FlatWritten
    requires { refusal ≤ 36 }
    ensures answer { result ≡ flat_written (answer_of (no_less refusal (section_made header (command_made command (array []) lent.now) (type_of command) descriptors.now)) target.old) }
    ensures bytes { target.new ≡ later_of (no_less refusal (section_made header (command_made command (array []) lent.now) (type_of command) descriptors.now)) target.old }
{
    if refusal == 0 {
        return flat_written(write_section_without_components(
            header,
            command,
            lent,
            descriptors,
            target,
        ));
    }
    lower_refusal(
        refusal,
        write_section_without_components(header, command, lent, descriptors, &mut target[0..0]),
    )
}

// What is written, or refused, of a section whose command has components.
fn write_listed_words(
    refusal: u64,
    header: SpliceInfoHeader,
    command: SpliceCommand,
    components: &[u64],
    lent: &[u8],
    descriptors: &[u8],
    target: &mut [u8],
) -> FlatWritten
    requires { refusal ≤ 36 }
    ensures answer { result ≡ flat_written (answer_of (no_less refusal (section_made header (command_made command (components_from (count_in command) components.now) lent.now) (type_of command) descriptors.now)) target.old) }
    ensures bytes { target.new ≡ later_of (no_less refusal (section_made header (command_made command (components_from (count_in command) components.now) lent.now) (type_of command) descriptors.now)) target.old }
{
    let places = components_given(command, components);
    if 0 < refusal {
        return lower_refusal(
            refusal,
            write_section(
                header,
                command,
                places,
                lent,
                descriptors,
                &mut target[0..0],
            ),
        );
    }
    flat_written(write_section(header, command, places, lent, descriptors, target))
}

// A section from the target's first byte on, or a refusal: 31 to 36.
pub fn write_section_words(
    header: &[u64],
    command: &[u64],
    components: &[u64],
    lent: &[u8],
    descriptors: &[u8],
    target: &mut [u8],
) -> FlatWritten
    ensures answer { result ≡ flat_written (answer_of (section_words_made header.now command.now components.now lent.now descriptors.now) target.old) }
    ensures bytes { target.new ≡ later_of (section_words_made header.now command.now components.now lent.now descriptors.now) target.old }
{
    let h = header_from(header);
    let c = command_given(command);
    let refusal = either_refusal(
        header_refusal(header),
        command_refusal(c, command, components, lent),
    );
    if count_in_command(c) == 0 {
        return write_words_without_components(refusal, h, c, lent, descriptors, target);
    }
    write_listed_words(refusal, h, c, components, lent, descriptors, target)
}
