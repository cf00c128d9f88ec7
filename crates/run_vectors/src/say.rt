// Bytes and times.
use splice_time::SpliceTime;
use std::io;

// An equals sign and bytes in hexadecimal.
pub fn bytes(rt: &impl Print, s: &[u8]) -> io::Result<()> {
    print!(rt; " =")?;
    for byte in s {
        print!(rt; "{byte:02x}")?;
    }
    Ok(())
}

pub fn time(rt: &impl Print, t: SpliceTime) -> io::Result<()> {
    match t {
        SpliceTime::Immediate => print!(rt; " immediate"),
        SpliceTime::Unspecified => print!(rt; " unspecified"),
        SpliceTime::At(ticks) => print!(rt; " {ticks}"),
    }
}
