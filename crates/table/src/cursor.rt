// A cursor in lent bytes, by value: a bit position, and a step for each kind of field that answers the next position.
ghost use Rattle.std.specs.Prelude.{◌≡◌, ◌*◌, ◌-◌, ◌/◌, length};
ghost use Rattle.table.specs.Bits.{bits_of};
ghost use Rattle.table.specs.Cursor.{place, taken_of, flagged_of, skipped_of, passed_of};
ghost use Rattle.table.specs.Table.{number, bit, reserved, part, parse};

use crate::View;
use crate::numbers::bits;

// Bit `bit` of byte `byte`.
#[derive(Clone, Copy)]
pub struct Cursor {
    pub byte: usize,
    pub bit: usize,
}

// Refusal 21: not enough data.
#[derive(Clone, Copy, Debug, PartialEq, Eq)]
pub struct Short {
    pub expected: usize,
    pub actual: usize,
}

// What was read, and where the next field begins.
#[derive(Clone, Copy)]
pub struct Field<T, P> {
    pub value: T,
    pub next: P,
}

impl Cursor {
    // The whole bytes that are left.
    pub fn left(self, s: &[u8]) -> usize
        ensures { result ≡ (length s.now * 8 - place self) / 8 }
    {
        let byte = self.byte;
        let bit = self.bit;
        if s.len() < byte {
            return 0;
        }
        let broken = bit / 8 + (bit % 8 + 7) / 8;
        if s.len() - byte < broken {
            return 0;
        }
        s.len() - byte - broken
    }

    // The number in the next w bits.
    pub fn take(self, s: &[u8], w: usize) -> Result<Field<u64, Cursor>, Short>
        ensures { result ≡ taken_of (parse (number w) (bits_of s.now) (place self)) }
    {
        let byte = self.byte;
        let bit = self.bit;
        if s.len() < byte {
            return Err(Short {
                expected: w / 8,
                actual: 0,
            });
        }
        if s.len() - byte < bit / 8 {
            return Err(Short {
                expected: w / 8,
                actual: 0,
            });
        }
        let i = byte + bit / 8;
        let j = bit % 8;
        if s.len() - i < w / 8 + (w % 8 + j + 7) / 8 {
            let actual = self.left(s);
            return Err(Short {
                expected: w / 8,
                actual,
            });
        }
        let value = bits(s, i, j, w);
        let over = w % 8 + j;
        Ok(Field {
            value,
            next: Cursor {
                byte: i + w / 8 + over / 8,
                bit: over % 8,
            },
        })
    }

    // The flag in the next bit.
    pub fn flag(self, s: &[u8]) -> Result<Field<bool, Cursor>, Short>
        ensures { result ≡ flagged_of (parse bit (bits_of s.now) (place self)) }
    {
        let n = self.take(s, 1)?;
        Ok(Field {
            value: n.value == 1,
            next: n.next,
        })
    }

    // Past w reserved bits.
    pub fn skip(self, s: &[u8], w: usize) -> Result<Cursor, Short>
        ensures { result ≡ skipped_of (parse (reserved w) (bits_of s.now) (place self)) }
    {
        let n = self.take(s, w)?;
        Ok(n.next)
    }

    // The next n bytes, as they lie from a byte's first bit on.
    pub fn pass(self, s: &[u8], n: usize) -> Result<Field<View, Cursor>, Short>
        ensures { result ≡ passed_of (parse (part n) (bits_of s.now) (place self)) }
    {
        let byte = self.byte;
        let bit = self.bit;
        if s.len() < byte {
            return Err(Short {
                expected: 1,
                actual: 0,
            });
        }
        let present = s.len() - byte;
        if present < n {
            return Err(Short {
                expected: 1,
                actual: 0,
            });
        }
        if present - n < bit / 8 + (bit % 8 + 7) / 8 {
            return Err(Short {
                expected: 1,
                actual: 0,
            });
        }
        let i = byte + bit / 8;
        Ok(Field {
            value: View { at: i, len: n },
            next: Cursor {
                byte: i + n,
                bit: bit % 8,
            },
        })
    }
}
