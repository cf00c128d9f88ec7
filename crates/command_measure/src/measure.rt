// What a splice_insert() and a splice_time() are refused for, and how many bytes they have.
ghost use Rattle.std.specs.Prelude.{◌≡◌, not, ◌&&◌, [], ◌^◌, ◌<◌, ◌≤◌, ltb, take, get_or};
ghost use Rattle.command.specs.Command.{array, Tags};
ghost use Rattle.command.specs.Insert as insert;
ghost use Rattle.splice_time.specs.Break.{break_ticks};
ghost use Rattle.command.specs.Insert.{immediate, program_time, blank};
ghost use Rattle.command_measure.specs.Made.{counted, insert_made, measured_of};
ghost use Rattle.command_measure.specs.Survey.{time_bytes, adding, surveyed, blanks_of, mode_bytes, break_bytes, measured, cancel_measured, active_measured};
ghost use Rattle.splice_time.specs.Time.{splice_time, ticks, not_immediate};
ghost use Rattle.table.specs.Bits.{pick};
ghost use Rattle.table.specs.Writing.{make};

use crate::Measured;
use command::components::{InsertComponent, MAX_COMPONENTS};
use command::insert::{InsertDetail, SpliceDetail, SpliceInsert, SpliceMode};
use splice_time::SpliceTime;
use splice_time::break_duration::SpliceDuration;

fn both(a: bool, b: bool) -> bool
    ensures { result ≡ a && b }
{
    if a {
        return b;
    }
    false
}

// By what 32 and 33 ask.
fn verdict(fits: bool, writable: bool, size: usize) -> Measured
    ensures { result ≡ measured fits writable size }
{
    if fits {
        if writable {
            return Measured { refusal: 0, size };
        }
        return Measured {
            refusal: 33,
            size: 0,
        };
    }
    Measured {
        refusal: 32,
        size: 0,
    }
}

pub fn is_immediate(time: SpliceTime) -> bool
    ensures { result ≡ immediate time }
{
    match time {
        SpliceTime::Immediate => true,
        SpliceTime::Unspecified => false,
        SpliceTime::At(_) => false,
    }
}

fn time_fits(time: SpliceTime) -> bool
    ensures { result ≡ ltb (ticks time) (2 ^ 33) }
{
    match time {
        SpliceTime::Immediate => true,
        SpliceTime::Unspecified => true,
        SpliceTime::At(ticks) => ticks < 0x2_0000_0000,
    }
}

// The bytes of a time, none where the insert is immediate. (An immediate time among timed ones is refused.)
fn time_size(time: SpliceTime, at_once: bool) -> usize
    ensures { (result ≡ time_bytes at_once time) × (result ≤ 5) }
{
    if at_once {
        return 0;
    }
    match time {
        SpliceTime::Immediate => 1,
        SpliceTime::Unspecified => 1,
        SpliceTime::At(_) => 5,
    }
}

// A time signal's payload.
pub(crate) fn measure_time(time: SpliceTime) -> Measured
    ensures { result ≡ measured_of (make splice_time (not_immediate time) [] time) }
{
    let fits = time_fits(time);
    let at_once = is_immediate(time);
    let size = time_size(time, false);
    verdict(fits, !at_once, size)
}

// Of components: do their times fit their fields, are all immediate or all timed, and how many bytes do they take?
#[derive(Clone, Copy)]
struct Survey {
    pub fits: bool,
    pub alike: bool,
    pub bytes: usize,
}

// Is a time immediate where all are to be, and timed where none is to be?
fn agrees(time: SpliceTime, at_once: bool) -> bool
    ensures { result ≡ pick at_once (immediate time) (not (immediate time)) }
{
    if at_once {
        return is_immediate(time);
    }
    !is_immediate(time)
}

// With one component more before them.
fn add_component(s: Survey, at_once: bool, component: InsertComponent) -> Survey
    requires { s.bytes ≤ 1530 }
    ensures { (result ≡ adding at_once component.splice_time s) × (component.component_tag < 256) }
{
    let time = component.splice_time;
    let this_fits = time_fits(time);
    let agreeing = agrees(time, at_once);
    let size = time_size(time, at_once);
    let fits = both(this_fits, s.fits);
    let alike = both(agreeing, s.alike);
    let bytes = s.bytes;
    Survey {
        fits,
        alike,
        bytes: 1 + size + bytes,
    }
}

// The first `count` components, from the last of them on.
fn look(components: [InsertComponent; MAX_COMPONENTS], count: usize, at_once: bool) -> Survey
    requires { count ≤ 255 }
    ensures { (result ≡ surveyed at_once (take count components)) × Tags (take count components) }
{
    let mut s = Survey {
        fits: true,
        alike: true,
        bytes: 0,
    };
    for i in (0..count).rev() {
        s = add_component(s, at_once, components[i]);
    }
    s
}

// Is an insert by n components immediate as a whole? Its first component says so.
pub fn are_immediate(n: u8, components: [InsertComponent; MAX_COMPONENTS]) -> bool
    ensures { result ≡ ltb 0 n && immediate (get_or components 0 blank).splice_time }
{
    if n == 0 {
        return false;
    }
    let place = components[0];
    let time = place.splice_time;
    is_immediate(time)
}

// Of components that are all blank: two bytes for each, and no array.
fn blanks_of(mode: SpliceMode) -> Survey
    ensures { (result ≡ blanks_of mode) × (insert.count mode ≤ 255) }
{
    match mode {
        SpliceMode::Program(_) => Survey {
            fits: true,
            alike: true,
            bytes: 0,
        },
        SpliceMode::Components(n) => Survey {
            fits: true,
            alike: true,
            bytes: n as usize * 2,
        },
    }
}

// Does a time by program fit its field?
fn mode_fits(mode: SpliceMode) -> bool
    ensures { result ≡ ltb (ticks (program_time mode)) (2 ^ 33) }
{
    match mode {
        SpliceMode::Program(t) => time_fits(t),
        SpliceMode::Components(_) => true,
    }
}

fn break_fits(duration: Option<SpliceDuration>) -> bool
    ensures { result ≡ ltb (break_ticks duration) (2 ^ 33) }
{
    match duration {
        None => true,
        Some(d) => d.duration < 0x2_0000_0000,
    }
}

// The bytes of a time by program, or of the components and their count.
fn mode_size(mode: SpliceMode, bytes: usize) -> usize
    requires { bytes ≤ 1530 }
    ensures { (result ≡ mode_bytes mode bytes) × (result ≤ 1531) }
{
    match mode {
        SpliceMode::Program(t) => {
            let at_once = is_immediate(t);
            time_size(t, at_once)
        }
        SpliceMode::Components(_) => 1 + bytes,
    }
}

fn break_size(duration: Option<SpliceDuration>) -> usize
    ensures { (result ≡ break_bytes duration) × (result ≤ 5) }
{
    match duration {
        None => 0,
        Some(_) => 5,
    }
}

// What is not cancelled, of whose components s is said.
fn measure_active(reserved: u8, insert: InsertDetail, s: Survey) -> Measured
    requires { s.bytes ≤ 1530 }
    ensures { (result ≡ active_measured reserved insert.splice_mode insert.duration s) × (insert.unique_program_id < 2 ^ 16) × (insert.avail_num < 256) × (insert.avails_expected < 256) }
{
    let mode = insert.splice_mode;
    let duration = insert.duration;
    let times = both(mode_fits(mode), break_fits(duration));
    let numbers = both(reserved < 128, times);
    let fits = both(s.fits, numbers);
    let writable = both(reserved == 127, s.alike);
    let first = mode_size(mode, s.bytes);
    let second = break_size(duration);
    verdict(fits, writable, 10 + first + second)
}

// An insert whose components are all blank, if it has any.
pub(crate) fn measure_insert_without_components(i: SpliceInsert) -> Measured
    ensures { (result ≡ measured_of (insert_made (counted i (array [])))) × (insert.count (insert.insert_of i.splice_detail).splice_mode ≤ 255) }
{
    let reserved = i.reserved;
    let detail = i.splice_detail;
    let insert = match detail {
        SpliceDetail::Insert(x) => x,
        SpliceDetail::Cancel => return verdict(reserved < 128, reserved == 127, 5),
    };
    let mode = insert.splice_mode;
    let s = blanks_of(mode);
    measure_active(reserved, insert, s)
}

// An insert with its components: only one by components looks at them.
pub fn measure_insert(i: SpliceInsert, components: [InsertComponent; MAX_COMPONENTS]) -> Measured
    ensures { (result ≡ measured_of (insert_made (counted i components))) × (insert.count (insert.insert_of i.splice_detail).splice_mode ≤ 255) }
{
    let reserved = i.reserved;
    let detail = i.splice_detail;
    let insert = match detail {
        SpliceDetail::Insert(x) => x,
        SpliceDetail::Cancel => return measure_insert_without_components(i),
    };
    let mode = insert.splice_mode;
    let n = match mode {
        SpliceMode::Components(k) => k,
        SpliceMode::Program(_) => return measure_insert_without_components(i),
    };
    let at_once = are_immediate(n, components);
    let s = look(components, n as usize, at_once);
    measure_active(reserved, insert, s)
}
