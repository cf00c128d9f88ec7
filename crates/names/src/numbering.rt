// Named numbers: every number stands for a value, which is a name or carries the number as it is.
ghost use Rattle.std.specs.Prelude.{◌≡◌, ℕ};
ghost use Rattle.names.specs.Numbering.{Numbering, number_in, class_in, class_number, value_of, writable};

#[derive(Clone, Copy, Debug, PartialEq, Eq)]
pub enum NumberClass {
    Named,
    Reserved,
    Private,
}

// A type of such values.
pub trait Numbered: Copy + From<u8> + Into<u8> {
    // The number and the class of each value, and the value of each number.
    ghost table: { Numbering Self };

    fn class(self) -> NumberClass
        ensures { class_number result ≡ class_in table self };

    // Is it the value that its own number stands for? A name is. (By classes and not by `==`: the definition `writable` compares them.)
    fn writable(self) -> bool
        ensures { result ≡ writable table self }
    {
        let number: u8 = self.into();
        Self::from(number).class() == self.class()
    }

    // What `from` and `into` give is the table's.
    ghost from_is: { (n : ℕ) (x : Self) → Self.from_gives n x → x ≡ value_of table n };

    ghost into_is: { (x : Self) (n : ℕ) → Self.converts x n → n ≡ number_in table x };
}
