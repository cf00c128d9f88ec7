// Hexadecimal sequences: tested in one pass and decoded in another, since a line that is refused changes no byte.
ghost use Rattle.std.specs.Prelude.{true, ◌&&◌, ◌||◌, ◌≡◌, ◌+◌, ◌*◌, ◌/◌, ◌%◌, ◌≤◌, ◌<◌, eqb, length};
ghost use Rattle.attribute_list.specs.Grammar.{all, hex_byte};
ghost use Rattle.table.specs.Lent.{stored};
ghost use Rattle.daterange_line.specs.Reading.{hexadecimal, digit_of, octets};

#[tactic(auto, unfolding(attribute_list::specs::Grammar::hex_byte))]
fn in_hex(b: u8) -> bool
    ensures { result ≡ hex_byte b }
{
    matches!(b, b'A'..=b'F' | b'0'..=b'9')
}

// Whether all are digits. The loop goes on behind one that is not: so it takes many bytes a turn when it is compiled.
fn are_digits(s: &[u8]) -> bool
    ensures { result ≡ all hex_byte s.now }
{
    let mut good = true;
    for b in s {
        good &= in_hex(*b);
    }
    good
}

// 0x or 0X, and an even number of digits, at least two.
#[tactic(auto, unfolding(crate::specs::Reading::hexadecimal))]
pub(crate) fn is_hexadecimal(value: &[u8]) -> bool
    ensures { result ≡ hexadecimal value.now }
{
    value.len() > 2
        && value.len() % 2 == 0
        && value[0] == b'0'
        && matches!(value[1], b'x' | b'X')
        && are_digits(&value[2..])
}

// Without a branch: the low half of a capital is 1 to 6, and its high half tells it from a figure.
fn digit(d: u8) -> u8
    requires { hex_byte d ≡ true }
    ensures { (result ≡ digit_of d) × (result < 16) }
{
    d % 16 + d / 64 * 9
}

fn pair(x: u8, y: u8) -> u8
    requires { (hex_byte x ≡ true) × (hex_byte y ≡ true) }
    ensures { result ≡ digit_of x * 16 + digit_of y }
{
    digit(x) * 16 + digit(y)
}

// Two digits a byte, from the target's first byte on.
pub(crate) fn decode(target: &mut [u8], digits: &[u8])
    requires { (all hex_byte digits.now ≡ true) × (length digits.now % 2 ≡ 0) × (length digits.now / 2 ≤ length target.old) }
    ensures { target.new ≡ stored target.old 0 (octets digits.now) }
{
    for i in 0..digits.len() / 2 {
        target[i] = pair(digits[i * 2], digits[i * 2 + 1]);
    }
}
