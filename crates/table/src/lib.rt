// Tables of bits: what every structure of a section is read and written by.
#![tactic(auto)]

pub mod cursor;
pub mod lent;
pub mod numbers;
pub mod store;

// A run of the lent bytes: `len` of them, from `at` on.
#[derive(Clone, Copy, Debug, PartialEq, Eq)]
pub struct View {
    pub at: usize,
    pub len: usize,
}
