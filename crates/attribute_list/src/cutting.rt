// The attribute at a place of a line. Each test has its `return`: of tests that are joined the compiler makes all, of each attribute.
ghost use Rattle.std.specs.Prelude.{◌≡◌, ◌+◌, ◌<◌, ◌≤◌, IfSome, drop, eqb, get_or, length};
ghost use Rattle.attribute_list.specs.Cutting.{closed, quoted_of, plain_of, cut_of, end_of};

use crate::bytes::{Name, Plain, Quoted, past};

// The lengths of an attribute's name and value, and whether the value is quoted.
#[derive(Clone, Copy)]
pub struct Cut {
    pub name: usize,
    pub quoted: bool,
    pub value: usize,
}

// Whether this byte stands at a place.
fn stands_at(line: &[u8], at: usize, byte: u8) -> bool
    requires { 0 < byte }
    ensures { result ≡ eqb (get_or line.now at 0) byte }
{
    matches!(line.get(at), Some(b) if *b == byte)
}

// Whether nothing or a comma stands at a place.
fn is_closed(line: &[u8], at: usize) -> bool
    ensures { result ≡ closed (drop at line.now) }
{
    matches!(line.get(at), None | Some(b','))
}

// A value behind its opening quote.
fn quoted(line: &[u8], at: usize, name: usize) -> Option<Cut>
    ensures { result ≡ quoted_of name (drop at line.now) }
{
    let end = past::<Quoted>(line, at);
    if !stands_at(line, end, b'"') {
        return None;
    }
    if !is_closed(line, end + 1) {
        return None;
    }
    Some(Cut {
        name,
        quoted: true,
        value: end - at,
    })
}

fn plain(line: &[u8], at: usize, name: usize) -> Option<Cut>
    ensures { result ≡ plain_of name (drop at line.now) }
{
    let end = past::<Plain>(line, at);
    if end <= at {
        return None;
    }
    if !is_closed(line, end) {
        return None;
    }
    Some(Cut {
        name,
        quoted: false,
        value: end - at,
    })
}

// The attribute at a place; nothing where none stands there, or something else than a comma behind it.
#[tactic(auto, unfolding(crate::specs::Cutting::cut_of))]
pub fn cut_at(line: &[u8], at: usize) -> Option<Cut>
    ensures cut { result ≡ cut_of (drop at line.now) }
    ensures within { IfSome result (λ c. at + end_of c.name c.quoted c.value ≤ length line.now) }
{
    let equals = past::<Name>(line, at);
    if equals <= at {
        return None;
    }
    if !stands_at(line, equals, b'=') {
        return None;
    }
    let name = equals - at;
    let value = equals + 1;
    if stands_at(line, value, b'"') {
        return quoted(line, value + 1, name);
    }
    plain(line, value, name)
}
