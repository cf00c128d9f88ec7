// Bytes by the grammar's sets, and runs of them.
ghost use Rattle.std.specs.Prelude.{◌≡◌, ◌+◌, ℕ, Bool, drop};
ghost use Rattle.std.specs.List.{prefix_len};
ghost use Rattle.attribute_list.specs.Grammar.{name_byte, quoted_byte, plain_byte};
ghost use Rattle.attribute_list.specs.Cutting.{same};

// A set of bytes.
pub trait Class {
    ghost test: { ℕ → Bool };

    fn has(b: u8) -> bool
        ensures { result ≡ test b };
}

// The bytes of a name, between quotes, and of an unquoted value.
#[derive(Clone, Copy)]
pub struct Name;

#[derive(Clone, Copy)]
pub struct Quoted;

#[derive(Clone, Copy)]
pub struct Plain;

impl Class for Name {
    ghost test = { name_byte };

    #[tactic(auto, unfolding(crate::specs::Grammar::name_byte))]
    fn has(b: u8) -> bool {
        // Letters by two tests, figures by three: one `matches!` makes all five of each byte.
        if b'A' <= b {
            return b <= b'Z';
        }
        if b'0' <= b {
            return b <= b'9';
        }
        b == b'-'
    }
}

impl Class for Quoted {
    ghost test = { quoted_byte };

    #[tactic(auto, unfolding(crate::specs::Grammar::quoted_byte))]
    fn has(b: u8) -> bool {
        !matches!(b, b'"' | b'\r' | b'\n')
    }
}

impl Class for Plain {
    ghost test = { plain_byte };

    #[tactic(auto, unfolding(crate::specs::Grammar::plain_byte))]
    fn has(b: u8) -> bool {
        // Most bytes by one test.
        if 0x2D <= b {
            return true;
        }
        !matches!(b, b'"' | b',' | b' ' | 0x09..=0x0D)
    }
}

// How many such bytes stand first.
pub fn run<C: Class>(bytes: &[u8]) -> usize
    ensures { result ≡ prefix_len C.test bytes.now }
{
    bytes.iter().take_while(|b| C::has(**b)).count()
}

// Where the run of such bytes ends that begins at a place. By the line's places: where `run` counts from the place on, the compiler makes more of it (a
// line's attributes are cut anew for each of them; docs/DESIGN-PASS.md, "Speed").
pub fn past<C: Class>(line: &[u8], at: usize) -> usize
    ensures { result ≡ at + prefix_len C.test (drop at line.now) }
{
    for i in at..line.len() {
        if !C::has(line[i]) {
            return i;
        }
    }
    at.max(line.len())
}

// Whether two runs are the same bytes.
pub fn same_bytes(a: &[u8], b: &[u8]) -> bool
    ensures { result ≡ same a.now b.now }
{
    a == b
}
