// Numbers in bytes. Each function answers on any slice and any place: what lies past the end is not there.
ghost use Rattle.std.specs.Prelude.{◌≡◌, ◌+◌, ◌*◌, ◌%◌, ◌^◌, ◌<◌, ◌≤◌, get_or};
ghost use Rattle.table.specs.Bits.{bits_of, field};
ghost use Rattle.table.specs.Table.{flag_number};

// A byte as a number that has room for more.
pub fn wide(b: u8) -> u64
    ensures { (result ≡ b) × (result < 256) }
{
    u64::from(b)
}

// A byte as a size, or as a place.
pub fn size(b: u8) -> usize
    ensures { (result ≡ b) × (result < 256) }
{
    usize::from(b)
}

// A flag as a number of one bit.
pub fn flag_number(set: bool) -> u64
    ensures { (result ≡ flag_number set) × (result ≤ 1) }
{
    u64::from(set)
}

// The byte at a place, 0 past the end.
pub fn byte(s: &[u8], at: usize) -> u8
    ensures { result ≡ get_or s.now at 0 }
{
    if at < s.len() { s[at] } else { 0 }
}

// The number in w bits from bit j of byte i on; of more than 64 bits, the last 64.
pub fn bits(s: &[u8], i: usize, j: usize, w: usize) -> u64
    ensures { result ≡ field (bits_of s.now) (i * 8 + j) w % 2 ^ 64 }
{
    if s.len() <= i {
        return 0;
    }
    if s.len() - i <= j / 8 {
        return 0;
    }
    let mut v: u64 = 0;
    let mut at = i + j / 8;
    // The bits of the byte that are behind, and those of the field that are ahead: a turn goes on by as many as it read, so it counts no index.
    let mut behind = j % 8;
    let mut ahead = w;
    while 0 < ahead {
        if s.len() <= at {
            return v;
        }
        let n = ahead.min(8 - behind);
        v = (v << n) + (wide(s[at]) >> (8 - behind - n)) % (1u64 << n);
        ahead -= n;
        at += (behind + n) / 8;
        behind = (behind + n) % 8;
    }
    v
}

// The number in n bytes, the high one first; of more than 8 bytes, the last 8.
pub fn big_endian(s: &[u8], at: usize, n: usize) -> u64
    ensures { result ≡ field (bits_of s.now) (at * 8) (n * 8) % 2 ^ 64 }
{
    // An index loop: a for, over 0..n or over the bytes that are there, takes more instructions for the few bytes of a field, since the compiler unrolls it for
    // longer ones: 18 for 11 at 2 bytes, 32 for 17 at 4, 38 for 28 at 8.
    let mut v: u64 = 0;
    let mut i = at;
    let mut ahead = n;
    while 0 < ahead {
        if s.len() <= i {
            return v;
        }
        v = (v << 8) + wide(s[i]);
        i += 1;
        ahead -= 1;
    }
    v
}

// The 33 bits that start in the last bit of a byte, as the standard's times do: that bit and the four bytes behind it, each by its power of 256.
pub fn time33(s: &[u8], at: usize) -> u64
    ensures { result ≡ field (bits_of s.now) (at * 8 + 7) 33 }
{
    if s.len() <= at {
        return 0;
    }
    if s.len() - at < 5 {
        return bits(s, at, 7, 33);
    }
    wide(s[at]) % 2 * 4_294_967_296
        + wide(s[at + 1]) * 16_777_216
        + wide(s[at + 2]) * 65_536
        + wide(s[at + 3]) * 256
        + wide(s[at + 4])
}
