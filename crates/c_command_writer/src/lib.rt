// The writers over the C boundary. They take words, those of the C structs in their order: a word past the end of the slice counts as 0, and words past the
// struct's end are not looked at. Words of which one exceeds its field (32), or that are not those of a value's flat form (33), are not written.
#![tactic(auto)]

ghost use Rattle.std.specs.Prelude.{[], ◌∷◌, ◌≡◌, ◌^◌, ltb, length, drop};
ghost use Rattle.c_command_writer.specs.Words.{word, within, same, each_place, flat_written};
ghost use Rattle.c_command_writer.specs.Private.{lower};

pub mod commands;
pub mod insert_components;

// What a writer answers: how many bytes it wrote, or the number of its refusal.
#[repr(C)]
#[derive(Clone, Copy)]
pub struct FlatWritten {
    pub refusal: u64,
    pub length: u64,
}

pub fn flat_written(w: Result<usize, u8>) -> FlatWritten
    ensures { result ≡ flat_written w }
{
    match w {
        Ok(n) => FlatWritten {
            refusal: 0,
            length: n as u64,
        },
        Err(n) => FlatWritten {
            refusal: n as u64,
            length: 0,
        },
    }
}

// The lower of the words' own refusal and of the value's, which was tried on a target without bytes.
pub fn lower_refusal(refusal: u64, tried: Result<usize, u8>) -> FlatWritten
    ensures { result ≡ record { refusal = lower refusal tried; length = 0 } }
{
    match tried {
        Ok(_) => FlatWritten { refusal, length: 0 },
        Err(n) => {
            if (n as u64) < refusal {
                return FlatWritten {
                    refusal: n as u64,
                    length: 0,
                };
            }
            FlatWritten { refusal, length: 0 }
        }
    }
}

// The word at a place, 0 past the end.
pub fn word_at(words: &[u64], at: usize) -> u64
    ensures { result ≡ word words.now at }
{
    if at < words.len() { words[at] } else { 0 }
}

// The words from a place on.
pub fn words_from(words: &[u64], at: usize) -> &[u64]
    ensures { result.now ≡ drop at words.now }
{
    let end = words.len();
    if end < at {
        return &words[end..];
    }
    &words[at..]
}

pub(crate) fn is_within(width: u64, word: u64) -> bool
    ensures { result ≡ ltb word (2 ^ width) }
{
    if 64 <= width {
        return true;
    }
    word >> width == 0
}

// Refusal 32: is each word within its width?
pub fn are_within(widths: &[u64], words: &[u64]) -> bool
    ensures { result ≡ within widths.now words.now }
{
    widths
        .iter()
        .enumerate()
        .all(|(i, width)| is_within(*width, word_at(words, i)))
}

// Refusal 32 of an array: is each word of its first `count` places, one behind the other, within its width?
pub fn are_places_within(widths: &[u64], count: usize, words: &[u64]) -> bool
    ensures { result ≡ each_place (within widths.now) (length widths.now) count words.now }
{
    let mut rest = words;
    for _ in 0..count {
        if !are_within(widths, rest) {
            return false;
        }
        rest = words_from(rest, widths.len());
    }
    true
}

// Refusal 32 of four words, without a loop: their places are tested once. (No twin of `are_within`: docs/DECISIONS.md has what a loop costs here.)
pub fn are_four_within(a: u64, b: u64, c: u64, d: u64, words: &[u64]) -> bool
    ensures { result ≡ within (a ∷ b ∷ c ∷ d ∷ []) words.now }
{
    if words.len() < 4 {
        let widths = [a, b, c, d];
        return are_within(&widths, words);
    }
    if !is_within(a, words[0]) {
        return false;
    }
    if !is_within(b, words[1]) {
        return false;
    }
    if !is_within(c, words[2]) {
        return false;
    }
    is_within(d, words[3])
}

// Refusal 33: are a value's own words those that were handed in?
pub fn are_same(own: &[u64], words: &[u64]) -> bool
    ensures { result ≡ same own.now words.now }
{
    own.iter()
        .enumerate()
        .all(|(i, word)| word_at(words, i) == *word)
}

// Refusal 33 of four words.
pub fn are_four_same(a: u64, b: u64, c: u64, d: u64, words: &[u64]) -> bool
    ensures { result ≡ same (a ∷ b ∷ c ∷ d ∷ []) words.now }
{
    if words.len() < 4 {
        let own = [a, b, c, d];
        return are_same(&own, words);
    }
    if words[0] != a {
        return false;
    }
    if words[1] != b {
        return false;
    }
    if words[2] != c {
        return false;
    }
    words[3] == d
}
