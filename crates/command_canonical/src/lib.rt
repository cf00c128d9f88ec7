// Whether a command's payload is canonical: by byte positions, as the tables have their fields.
#![tactic(auto)]

ghost use Rattle.std.specs.Prelude.{◌≡◌, length};
ghost use Rattle.canonical_form.specs.Command.{canonical_command};
ghost use Rattle.command_canonical.specs.Private.{Told, exact};
ghost use Rattle.command.specs.Insert.{time_unless, component, blank, moded, active, insert};
ghost use Rattle.splice_time.specs.Break.{break_duration};
ghost use Rattle.splice_time.specs.Time.{splice_time};
ghost use Rattle.table.specs.Table.{list, canonical_by};

// Are the fields all of the payload, with no spare byte behind them?
fn is_exact(s: &[u8], form: Option<usize>) -> bool
    ensures { result ≡ exact form (length s.now) }
{
    match form {
        Some(end) => s.len() == end,
        None => false,
    }
}

// ---- splice_time()

// Its flag and reserved bits are one byte: 0x7F where no time follows, 0xFE or 0xFF where one does.
fn pass_time(s: &[u8], at: usize) -> Option<usize>
    ensures { Told splice_time s.now at result }
{
    if s.len() <= at {
        return None;
    }
    if s[at] == 0x7F {
        return Some(at + 1);
    }
    if s[at] < 0xFE {
        return None;
    }
    if s.len() - at < 5 {
        return None;
    }
    Some(at + 5)
}

fn is_canonical_time(s: &[u8]) -> bool
    ensures { result ≡ canonical_by splice_time s.now }
{
    is_exact(s, pass_time(s, 0))
}

// ---- splice_insert()

// A splice_time() unless the splice is immediate.
fn pass_time_unless(s: &[u8], at: usize, immediate: bool) -> Option<usize>
    ensures { Told (time_unless immediate) s.now at result }
{
    if immediate {
        return Some(at);
    }
    pass_time(s, at)
}

// `count` components: each a tag and a time.
fn pass_components(s: &[u8], at: usize, count: usize, immediate: bool) -> Option<usize>
    ensures { Told (list count blank (component immediate)) s.now at result }
{
    let mut next = at;
    for _ in 0..count {
        if s.len() <= next {
            return None;
        }
        next = pass_time_unless(s, next + 1, immediate)?;
    }
    Some(next)
}

// By program, or by components; with none of these, immediate has to be 0.
fn pass_mode(s: &[u8], at: usize, program: bool, immediate: bool) -> Option<usize>
    ensures { Told (moded program immediate) s.now at result }
{
    if program {
        return pass_time_unless(s, at, immediate);
    }
    if s.len() <= at {
        return None;
    }
    if s[at] == 0 {
        if immediate {
            return None;
        }
        return Some(at + 1);
    }
    pass_components(s, at + 1, s[at] as usize, immediate)
}

// A break_duration() if it is flagged: auto return, six reserved bits, and 33 more.
fn pass_break(s: &[u8], at: usize, flagged: bool) -> Option<usize>
    ensures { Told (break_duration flagged) s.now at result }
{
    if !flagged {
        return Some(at);
    }
    if s.len() <= at {
        return None;
    }
    if s[at] / 2 % 64 != 63 {
        return None;
    }
    if s.len() - at < 5 {
        return None;
    }
    Some(at + 5)
}

// What is not cancelled, from byte 5 on. The four flags and the four reserved bits are one byte.
fn pass_active(s: &[u8]) -> Option<usize>
    ensures { Told active s.now 5 result }
{
    if s.len() <= 5 {
        return None;
    }
    let flags = s[5];
    if flags % 16 != 15 {
        return None;
    }
    let moded = pass_mode(s, 6, flags / 64 % 2 == 1, flags / 16 % 2 == 1)?;
    let broken = pass_break(s, moded, flags / 32 % 2 == 1)?;
    if s.len() < broken {
        return None;
    }
    if s.len() - broken < 4 {
        return None;
    }
    Some(broken + 4)
}

// The cancel flag and the seven reserved bits are byte 4.
fn is_canonical_insert(s: &[u8]) -> bool
    ensures { result ≡ canonical_by insert s.now }
{
    if s.len() < 5 {
        return false;
    }
    if s[4] == 0xFF {
        return s.len() == 5;
    }
    if s[4] != 0x7F {
        return false;
    }
    is_exact(s, pass_active(s))
}

// ---- a command, by its type

// Is the payload of a command of this type canonical?
pub fn is_canonical_command(command_type: u8, payload: &[u8]) -> bool
    ensures { result ≡ canonical_command command_type payload.now }
{
    match command_type {
        0x00 => payload.len() == 0,
        0x05 => is_canonical_insert(payload),
        0x06 => is_canonical_time(payload),
        0x07 => payload.len() == 0,
        0xFF => 4 <= payload.len(),
        _ => false,
    }
}
