// The command that words make, and refusals 32 and 33 of its words.
ghost use Rattle.std.specs.Prelude.{[], ◌≡◌, ◌≤◌, drop};
ghost use Rattle.command.specs.Command.{array, count_in};
ghost use Rattle.command_measure.specs.Made.{command_made};
ghost use Rattle.c_command_writer.specs.CommandGiven.{mode_in, break_in, insert_in, command_in, mode_from, break_from, insert_from, insertion_from, command_from};
ghost use Rattle.c_command_writer.specs.CommandWords.{command_words, command_widths, command_seen};
ghost use Rattle.c_command_writer.specs.CommandGiven.{components_from, command_given, words_refusal, command_refusal, command_words_made};
ghost use Rattle.c_command_writer.specs.Words.{within, same, flat_written, no_less};
ghost use Rattle.bit_stores.specs.Written.{answer_of, later_of};

use crate::insert_components::{
    components_from, insert_components_within, own_insert_components, time_from,
};
use crate::{
    FlatWritten, are_four_same, are_four_within, flat_written, is_within, lower_refusal, word_at,
    words_from,
};
use c_section::commands::{FlatBreak, FlatCommand, FlatInsert, FlatMode, flat_command_read};
use c_section::{FlatTime, FlatView};
use command::components::{InsertComponent, MAX_COMPONENTS};
use command::insert::{InsertDetail, SpliceDetail, SpliceInsert, SpliceMode};
use command::{Private, SpliceCommand};
use command_writer::{write_command, write_command_without_components};
use names::flags::{NetworkIndicator, ReturnMode};
use splice_time::break_duration::SpliceDuration;
use table::View;
use table::lent::lies_in;

// ---- the struct that words are

// The words that more than one function looks at, by their fields: each that begins four which are tested together, and the view.
const RESERVED: usize = 4;

const PROGRAM_TICKS: usize = 8;

const DURATION: usize = 12;

const TIME_KIND: usize = 16;

const PRIVATE_AT: usize = 19;

const PRIVATE_LEN: usize = 20;

fn mode_in(words: &[u64]) -> FlatMode
    ensures { result ≡ mode_in words.now }
{
    FlatMode {
        program_splice_flag: word_at(words, 6),
        splice_time: FlatTime {
            kind: word_at(words, 7),
            ticks: word_at(words, PROGRAM_TICKS),
        },
        component_count: word_at(words, 9),
    }
}

fn break_in(words: &[u64]) -> FlatBreak
    ensures { result ≡ break_in words.now }
{
    FlatBreak {
        duration_flag: word_at(words, 10),
        auto_return: word_at(words, 11),
        duration: word_at(words, DURATION),
    }
}

fn insert_in(words: &[u64]) -> FlatInsert
    ensures { result ≡ insert_in words.now }
{
    FlatInsert {
        splice_event_id: word_at(words, 2),
        splice_event_cancel_indicator: word_at(words, 3),
        reserved: word_at(words, RESERVED),
        out_of_network_indicator: word_at(words, 5),
        mode: mode_in(words),
        break_duration: break_in(words),
        unique_program_id: word_at(words, 13),
        avail_num: word_at(words, 14),
        avails_expected: word_at(words, 15),
    }
}

fn command_in(words: &[u64]) -> FlatCommand
    ensures { result ≡ command_in words.now }
{
    FlatCommand {
        refusal: word_at(words, 0),
        splice_command_type: word_at(words, 1),
        insert: insert_in(words),
        splice_time: FlatTime {
            kind: word_at(words, TIME_KIND),
            ticks: word_at(words, 17),
        },
        identifier: word_at(words, 18),
        private_bytes: FlatView {
            at: word_at(words, PRIVATE_AT),
            len: word_at(words, PRIVATE_LEN),
        },
    }
}

// ---- the value that it makes

fn mode_from(m: FlatMode) -> SpliceMode
    ensures { result ≡ mode_from m }
{
    if m.program_splice_flag == 1 {
        let time = m.splice_time;
        return SpliceMode::Program(time_from(time.kind, time.ticks));
    }
    SpliceMode::Components((m.component_count % 256) as u8)
}

fn break_from(b: FlatBreak) -> Option<SpliceDuration>
    ensures { result ≡ break_from b }
{
    if b.duration_flag == 1 {
        let return_mode = if b.auto_return == 1 {
            ReturnMode::Automatic
        } else {
            ReturnMode::Manual
        };
        return Some(SpliceDuration {
            return_mode,
            duration: b.duration,
        });
    }
    None
}

fn insert_from(i: FlatInsert) -> InsertDetail
    ensures { result ≡ insert_from i }
{
    let mode = i.mode;
    let lasts = i.break_duration;
    let network_indicator = if i.out_of_network_indicator == 1 {
        NetworkIndicator::Out
    } else {
        NetworkIndicator::In
    };
    InsertDetail {
        network_indicator,
        splice_mode: mode_from(mode),
        duration: break_from(lasts),
        unique_program_id: (i.unique_program_id % 65536) as u16,
        avail_num: (i.avail_num % 256) as u8,
        avails_expected: (i.avails_expected % 256) as u8,
    }
}

fn insertion_from(i: FlatInsert) -> SpliceInsert
    ensures { result ≡ insertion_from i }
{
    let splice_detail = if i.splice_event_cancel_indicator == 1 {
        SpliceDetail::Cancel
    } else {
        SpliceDetail::Insert(insert_from(i))
    };
    SpliceInsert {
        splice_event_id: (i.splice_event_id % 0x1_0000_0000) as u32,
        reserved: (i.reserved % 256) as u8,
        splice_detail,
    }
}

pub(crate) fn command_from(c: FlatCommand) -> SpliceCommand
    ensures { result ≡ command_from c }
{
    let command_type = c.splice_command_type;
    match command_type {
        0x05 => {
            let insert = c.insert;
            SpliceCommand::SpliceInsert(insertion_from(insert))
        }
        0x06 => {
            let time = c.splice_time;
            SpliceCommand::TimeSignal(time_from(time.kind, time.ticks))
        }
        0x07 => SpliceCommand::BandwidthReservation,
        0xFF => {
            let bytes = c.private_bytes;
            SpliceCommand::PrivateCommand(Private {
                identifier: (c.identifier % 0x1_0000_0000) as u32,
                private_bytes: View {
                    at: bytes.at as usize,
                    len: bytes.len as usize,
                },
            })
        }
        _ => SpliceCommand::SpliceNull,
    }
}

// How many components it has.
pub fn count_in_command(c: SpliceCommand) -> u8
    ensures { result ≡ count_in c }
{
    let insertion = match c {
        SpliceCommand::SpliceNull => return 0,
        SpliceCommand::SpliceInsert(i) => i,
        SpliceCommand::TimeSignal(_) => return 0,
        SpliceCommand::BandwidthReservation => return 0,
        SpliceCommand::PrivateCommand(_) => return 0,
    };
    let detail = insertion.splice_detail;
    let insert = match detail {
        SpliceDetail::Insert(i) => i,
        SpliceDetail::Cancel => return 0,
    };
    let mode = insert.splice_mode;
    match mode {
        SpliceMode::Components(n) => n,
        SpliceMode::Program(_) => 0,
    }
}

// ---- the writer

// The command that words make.
pub fn command_given(words: &[u64]) -> SpliceCommand
    ensures { result ≡ command_given words.now }
{
    command_from(command_in(words))
}

// Its components, as many as it has.
pub fn components_given(c: SpliceCommand, words: &[u64]) -> [InsertComponent; MAX_COMPONENTS]
    ensures { result ≡ components_from (count_in c) words.now }
{
    components_from(count_in_command(c) as usize, words)
}

// Refusal 32 of the words of a command, in their order: is each within its width?
fn is_command_within(words: &[u64]) -> bool
    ensures { result ≡ within command_widths words.now }
{
    // refusal, splice_command_type; splice_event_id, splice_event_cancel_indicator
    if !are_four_within(64, 8, 32, 1, words) {
        return false;
    }
    // reserved, out_of_network_indicator; program_splice_flag, splice_time.kind
    if !are_four_within(7, 1, 1, 2, words_from(words, RESERVED)) {
        return false;
    }
    // splice_time.ticks, component_count; duration_flag, auto_return
    if !are_four_within(33, 8, 1, 1, words_from(words, PROGRAM_TICKS)) {
        return false;
    }
    // duration; unique_program_id, avail_num, avails_expected
    if !are_four_within(33, 16, 8, 8, words_from(words, DURATION)) {
        return false;
    }
    // splice_time; identifier, private_bytes.at
    if !are_four_within(2, 33, 32, 64, words_from(words, TIME_KIND)) {
        return false;
    }
    // private_bytes.len
    is_within(64, word_at(words, PRIVATE_LEN))
}

// Refusal 33 of the words of a command from its ninth on: are they those of a flat form?
fn is_flat_behind(c: FlatCommand, words: &[u64]) -> bool
    ensures { result ≡ same (drop 8 (command_words c)) (drop 8 words.now) }
{
    let i = c.insert;
    let mode = i.mode;
    let program_time = mode.splice_time;
    let lasts = i.break_duration;
    let time = c.splice_time;
    let bytes = c.private_bytes;
    if !are_four_same(
        program_time.ticks,
        mode.component_count,
        lasts.duration_flag,
        lasts.auto_return,
        words_from(words, PROGRAM_TICKS),
    ) {
        return false;
    }
    if !are_four_same(
        lasts.duration,
        i.unique_program_id,
        i.avail_num,
        i.avails_expected,
        words_from(words, DURATION),
    ) {
        return false;
    }
    if !are_four_same(
        time.kind,
        time.ticks,
        c.identifier,
        bytes.at,
        words_from(words, TIME_KIND),
    ) {
        return false;
    }
    word_at(words, PRIVATE_LEN) == bytes.len
}

// Are the words those of this flat command?
fn is_flat_command(c: FlatCommand, words: &[u64]) -> bool
    ensures { result ≡ same (command_words c) words.now }
{
    let i = c.insert;
    let mode = i.mode;
    let program_time = mode.splice_time;
    if !are_four_same(
        c.refusal,
        c.splice_command_type,
        i.splice_event_id,
        i.splice_event_cancel_indicator,
        words,
    ) {
        return false;
    }
    if !are_four_same(
        i.reserved,
        i.out_of_network_indicator,
        mode.program_splice_flag,
        program_time.kind,
        words_from(words, RESERVED),
    ) {
        return false;
    }
    is_flat_behind(c, words)
}

// Refusals 32 and 33 of the words themselves; 0 for none.
fn words_refusal(c: SpliceCommand, words: &[u64], components: &[u64]) -> u64
    ensures { result ≡ words_refusal c words.now components.now }
{
    let count = count_in_command(c) as usize;
    if !is_command_within(words) {
        return 32;
    }
    if !insert_components_within(count, components) {
        return 32;
    }
    if !is_flat_command(flat_command_read(Ok(c)), words) {
        return 33;
    }
    if !own_insert_components(count, components) {
        return 33;
    }
    0
}

// Refusal 31 of the words of a command: does their view, whatever the command's type, lie in the lent bytes?
fn is_command_seen(words: &[u64], lent: &[u8]) -> bool
    ensures { result ≡ command_seen words.now lent.now }
{
    lies_in(
        lent,
        View {
            at: word_at(words, PRIVATE_AT) as usize,
            len: word_at(words, PRIVATE_LEN) as usize,
        },
    )
}

// Refusals 31 to 33 of the words themselves, in their order; 0 for none.
pub fn command_refusal(c: SpliceCommand, words: &[u64], components: &[u64], lent: &[u8]) -> u64
    ensures { result ≡ command_refusal c words.now components.now lent.now }
{
    if !is_command_seen(words, lent) {
        return 31;
    }
    words_refusal(c, words, components)
}

// The payload of a command without components, whose words have a refusal of their own, or 0.
fn write_words_without_components(
    refusal: u64,
    command: SpliceCommand,
    lent: &[u8],
    target: &mut [u8],
) -> FlatWritten
    requires { refusal ≤ 36 }
    ensures answer { result ≡ flat_written (answer_of (no_less refusal (command_made command (array []) lent.now)) target.old) }
    ensures bytes { target.new ≡ later_of (no_less refusal (command_made command (array []) lent.now)) target.old }
{
    if refusal == 0 {
        return flat_written(write_command_without_components(command, lent, target));
    }
    lower_refusal(
        refusal,
        write_command_without_components(command, lent, &mut target[0..0]),
    )
}

// What is written, or refused, of a command with components.
fn write_listed_words(
    refusal: u64,
    command: SpliceCommand,
    components: &[u64],
    lent: &[u8],
    target: &mut [u8],
) -> FlatWritten
    requires { refusal ≤ 36 }
    ensures answer { result ≡ flat_written (answer_of (no_less refusal (command_made command (components_from (count_in command) components.now) lent.now)) target.old) }
    ensures bytes { target.new ≡ later_of (no_less refusal (command_made command (components_from (count_in command) components.now) lent.now)) target.old }
{
    let places = components_given(command, components);
    if 0 < refusal {
        return lower_refusal(
            refusal,
            write_command(command, places, lent, &mut target[0..0]),
        );
    }
    flat_written(write_command(command, places, lent, target))
}

// A command's payload from the target's first byte on, or a refusal: 31, 32, 33 or 36.
pub fn write_command_words(
    words: &[u64],
    components: &[u64],
    lent: &[u8],
    target: &mut [u8],
) -> FlatWritten
    ensures answer { result ≡ flat_written (answer_of (command_words_made words.now components.now lent.now) target.old) }
    ensures bytes { target.new ≡ later_of (command_words_made words.now components.now lent.now) target.old }
{
    let command = command_given(words);
    let refusal = command_refusal(command, words, components, lent);
    if count_in_command(command) == 0 {
        return write_words_without_components(refusal, command, lent, target);
    }
    write_listed_words(refusal, command, components, lent, target)
}
