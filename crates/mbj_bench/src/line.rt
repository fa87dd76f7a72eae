//! The parts of the lines that are printed.
use std::io::{self, Print};

/// Prints a line of a label and bytes.
pub fn print_bytes(rt: &impl Print, label: &str, bytes: &[u8]) -> io::Result<()> {
    print!(rt; "{label}")?;
    for byte in bytes {
        print!(rt; "{byte:02x}")?;
    }
    println!(rt)
}

/// Ends a line with words of `digits` hexadecimal digits.
pub fn print_words(rt: &impl Print, words: &[u64], digits: usize) -> io::Result<()> {
    for word in words {
        print!(rt; "{word:0digits$x}")?;
    }
    println!(rt)
}

/// Prints a name in a column of `width` characters.
pub fn print_name(rt: &impl Print, name: &str, width: usize) -> io::Result<()> {
    print!(rt; "{name:<width$}")
}

/// Prints a name in a column of `width` characters, and a length.
pub fn print_length(rt: &impl Print, name: &str, width: usize, len: usize) -> io::Result<()> {
    print!(rt; "{name:<width$}{len:>6} bytes")
}

/// How many hundredths of a time another one goes into it.
pub fn hundredths(time: u128, other: u128) -> u128 {
    time.saturating_mul(100).checked_div(other).unwrap_or(0)
}

/// MB/s of this many bytes in this many nanoseconds.
pub fn megabytes(bytes: u128, nanos: u128) -> u128 {
    bytes.saturating_mul(1000).checked_div(nanos).unwrap_or(0)
}

/// Prints hundredths with a point, their whole part in a column of `width` characters.
pub fn print_ratio(rt: &impl Print, hundredths: u128, width: usize) -> io::Result<()> {
    print!(rt; "{:>width$}.{:02}", hundredths / 100, hundredths % 100)
}

/// Ends a line with MB/s, and in how many times less time than the plain one that is.
pub fn print_rate(rt: &impl Print, bytes: u128, nanos: u128, plain_nanos: u128) -> io::Result<()> {
    let rate = megabytes(bytes, nanos);
    print!(rt; " {rate:>6} MB/s ")?;
    print_ratio(rt, hundredths(plain_nanos, nanos), 4)?;
    println!(rt)
}
