// Writing a splice_insert(), field by field as its table stands.
ghost use Rattle.std.specs.Prelude.{◌+◌, ◌*◌, ◌%◌, ◌^◌, ◌<◌, ◌≤◌, take, [], ◌≡◌, Some};
ghost use Rattle.command.specs.Insert.{by_program};
ghost use Rattle.splice_time.specs.Break.{lasting};
ghost use Rattle.command.specs.Command.{array};
ghost use Rattle.command.specs.declared.insert.SpliceMode.{SpliceMode};
ghost use Rattle.command_measure.specs.Fields.{ink, component_fields, list_fields, insert_flags, break_fields, tail_fields, end_fields, places_of, active_fields, insert_fields};
ghost use Rattle.command_measure.specs.Made.{counted};
ghost use Rattle.bit_stores.specs.Pen.{Pens};
ghost use Rattle.bit_stores.specs.Private.{Fits};
ghost use Rattle.table.specs.Bits.{AllBytes};
ghost use Rattle.table.proofs.Steppings.{Settled};

use crate::time::store_time;
use bit_stores::put_bits;
use command::components::{InsertComponent, MAX_COMPONENTS, blanks};
use command::insert::{InsertDetail, SpliceDetail, SpliceInsert, SpliceMode};
use command_measure::measure::{are_immediate, is_immediate};
use splice_time::SpliceTime;
use splice_time::break_duration::SpliceDuration;
use table::cursor::Cursor;
use table::numbers::{flag_number, wide};

fn store_component(out: &mut [u8], c: Cursor, component: InsertComponent, at_once: bool) -> Cursor
    requires { Fits out.old c (ink (component_fields at_once component)) }
    ensures { Pens out.old c (ink (component_fields at_once component)) out.new result }
{
    let tag = component.component_tag;
    let time = component.splice_time;
    let c = put_bits(out, c, 8, wide(tag));
    if at_once {
        return c;
    }
    store_time(out, c, time)
}

// The first `count` components.
fn store_components(
    out: &mut [u8],
    c: Cursor,
    components: [InsertComponent; MAX_COMPONENTS],
    count: usize,
    at_once: bool,
) -> Cursor
    requires { (count ≤ 255) × AllBytes out.old × Settled c × Fits out.old c (ink (list_fields at_once (take count components))) }
    ensures { Pens out.old c (ink (list_fields at_once (take count components))) out.new result }
{
    let mut next = c;
    for &component in &components[..count] {
        next = store_component(out, next, component, at_once);
    }
    next
}

fn is_program(mode: SpliceMode) -> bool
    ensures { result ≡ by_program mode }
{
    match mode {
        SpliceMode::Program(_) => true,
        SpliceMode::Components(_) => false,
    }
}

fn lasts(duration: Option<SpliceDuration>) -> bool
    ensures { result ≡ lasting duration }
{
    match duration {
        None => false,
        Some(_) => true,
    }
}

// Four flags and four reserved bits.
fn store_flags(out: &mut [u8], c: Cursor, insert: InsertDetail, at_once: bool) -> Cursor
    requires { Fits out.old c (ink (insert_flags insert at_once)) }
    ensures { Pens out.old c (ink (insert_flags insert at_once)) out.new result }
{
    let indicator = insert.network_indicator;
    let mode = insert.splice_mode;
    let duration = insert.duration;
    let first = wide(indicator.into());
    let second = flag_number(is_program(mode));
    let third = flag_number(lasts(duration));
    let fourth = flag_number(at_once);
    put_bits(
        out,
        c,
        8,
        first * 128 + second * 64 + third * 32 + fourth * 16 + 15,
    )
}

// A break_duration().
fn store_break(out: &mut [u8], c: Cursor, d: SpliceDuration) -> Cursor
    requires { Fits out.old c (ink (break_fields (Some d))) }
    ensures { Pens out.old c (ink (break_fields (Some d))) out.new result }
{
    let mode = d.return_mode;
    let duration = d.duration;
    let returns = wide(mode.into());
    put_bits(
        out,
        c,
        40,
        returns * 0x80_0000_0000 + 0x7E_0000_0000 + duration % 0x2_0000_0000,
    )
}

fn store_tail(out: &mut [u8], c: Cursor, program_id: u16, avail: u8, expected: u8) -> Cursor
    requires { Fits out.old c (ink (tail_fields program_id avail expected)) }
    ensures { Pens out.old c (ink (tail_fields program_id avail expected)) out.new result }
{
    put_bits(
        out,
        c,
        32,
        program_id as u64 * 0x1_0000 + wide(avail) * 0x100 + wide(expected),
    )
}

// From the duration on.
fn store_end(out: &mut [u8], c: Cursor, insert: InsertDetail) -> Cursor
    requires { Fits out.old c (ink (end_fields insert)) }
    ensures { Pens out.old c (ink (end_fields insert)) out.new result }
{
    let duration = insert.duration;
    match duration {
        None => store_tail(
            out,
            c,
            insert.unique_program_id,
            insert.avail_num,
            insert.avails_expected,
        ),
        Some(d) => {
            let c = store_break(out, c, d);
            store_tail(
                out,
                c,
                insert.unique_program_id,
                insert.avail_num,
                insert.avails_expected,
            )
        }
    }
}

// What is not cancelled, by n components.
fn store_listed(
    out: &mut [u8],
    c: Cursor,
    insert: InsertDetail,
    n: u8,
    components: [InsertComponent; MAX_COMPONENTS],
) -> Cursor
    requires { (insert.splice_mode ≡ SpliceMode.Components n) × Fits out.old c (ink (active_fields insert (places_of insert components))) }
    ensures { Pens out.old c (ink (active_fields insert (places_of insert components))) out.new result }
{
    let at_once = are_immediate(n, components);
    let c = store_flags(out, c, insert, at_once);
    let c = put_bits(out, c, 8, wide(n));
    let c = store_components(out, c, components, n as usize, at_once);
    store_end(out, c, insert)
}

// By program.
fn store_by_program(out: &mut [u8], c: Cursor, insert: InsertDetail, time: SpliceTime) -> Cursor
    requires { (insert.splice_mode ≡ SpliceMode.Program time) × Fits out.old c (ink (active_fields insert [])) }
    ensures { Pens out.old c (ink (active_fields insert [])) out.new result }
{
    let at_once = is_immediate(time);
    let c = store_flags(out, c, insert, at_once);
    if at_once {
        return store_end(out, c, insert);
    }
    let c = store_time(out, c, time);
    store_end(out, c, insert)
}

// By no component: their count alone.
fn store_by_none(out: &mut [u8], c: Cursor, insert: InsertDetail) -> Cursor
    requires { (insert.splice_mode ≡ SpliceMode.Components 0) × Fits out.old c (ink (active_fields insert [])) }
    ensures { Pens out.old c (ink (active_fields insert [])) out.new result }
{
    let c = store_flags(out, c, insert, false);
    let c = put_bits(out, c, 8, 0);
    store_end(out, c, insert)
}

// With blank components, if it has any: only then is there an array.
fn store_active(out: &mut [u8], c: Cursor, insert: InsertDetail) -> Cursor
    requires { Fits out.old c (ink (active_fields insert (places_of insert (array [])))) }
    ensures { Pens out.old c (ink (active_fields insert (places_of insert (array [])))) out.new result }
{
    let mode = insert.splice_mode;
    match mode {
        SpliceMode::Program(time) => store_by_program(out, c, insert, time),
        SpliceMode::Components(n) => {
            if n == 0 {
                return store_by_none(out, c, insert);
            }
            store_listed(out, c, insert, n, blanks())
        }
    }
}

// The event, a cancel bit that is clear and the reserved bits, as one number.
fn event_number(i: SpliceInsert) -> u64
    ensures { (result ≡ i.splice_event_id * 256 + i.reserved % 128) × (result < 2 ^ 40) }
{
    i.splice_event_id as u64 * 256 + wide(i.reserved) % 128
}

// An insert whose components are all blank, if it has any.
pub(crate) fn store_insert_without_components(out: &mut [u8], c: Cursor, i: SpliceInsert) -> Cursor
    requires { Fits out.old c (ink (insert_fields (counted i (array [])))) }
    ensures { Pens out.old c (ink (insert_fields (counted i (array [])))) out.new result }
{
    let detail = i.splice_detail;
    let event = event_number(i);
    match detail {
        SpliceDetail::Cancel => put_bits(out, c, 40, event + 128),
        SpliceDetail::Insert(insert) => {
            let c = put_bits(out, c, 40, event);
            store_active(out, c, insert)
        }
    }
}

// An insert with its components: only one by components looks at them.
pub(crate) fn store_insert(
    out: &mut [u8],
    c: Cursor,
    i: SpliceInsert,
    components: [InsertComponent; MAX_COMPONENTS],
) -> Cursor
    requires { Fits out.old c (ink (insert_fields (counted i components))) }
    ensures { Pens out.old c (ink (insert_fields (counted i components))) out.new result }
{
    let detail = i.splice_detail;
    let insert = match detail {
        SpliceDetail::Insert(x) => x,
        SpliceDetail::Cancel => return store_insert_without_components(out, c, i),
    };
    let mode = insert.splice_mode;
    let n = match mode {
        SpliceMode::Components(k) => k,
        SpliceMode::Program(_) => return store_insert_without_components(out, c, i),
    };
    let event = event_number(i);
    let c = put_bits(out, c, 40, event);
    store_listed(out, c, insert, n, components)
}
