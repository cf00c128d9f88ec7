// The number of this boundary: include/scte35.h has it as SCTE35_ABI. It grows with every change that a program built with another header would not survive:
// an argument, the order or the number of a struct's words.
ghost use Rattle.std.specs.Prelude.{◌≡◌};

#[unsafe(no_mangle)]
pub extern "C" fn scte35_abi() -> u32
    ensures { result ≡ 1 }
{
    scte35::abi::scte35_abi()
}
