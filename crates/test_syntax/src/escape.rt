//! Lines that stand for texts of any bytes.
use std::alloc::{AllocError, Global};

/// What has been read behind a `%`.
#[derive(Clone, Copy)]
enum Read {
    /// There is none.
    Nothing,
    /// The `%` alone.
    Percent,
    /// The first of two hexadecimal digits.
    Digit(u8),
    /// A bracket, and digits in it.
    Count(u32),
    /// A count in brackets.
    Counted(u32),
}

/// The value of a hexadecimal digit.
fn digit(byte: u8) -> u8 {
    match byte {
        b'0'..=b'9' => byte - b'0',
        b'a'..=b'f' => byte - b'a' + 10,
        _ => 0,
    }
}

/// Adds a byte many times.
fn push_repeated(count: u32, byte: u8, text: &mut Vec<u8>) -> Result<(), AllocError> {
    for _ in 0..count {
        text.push(byte)?;
    }
    Ok(())
}

/// Adds what a byte stands for, and tells what has been read then.
fn push(read: Read, byte: u8, text: &mut Vec<u8>) -> Result<Read, AllocError> {
    match read {
        Read::Nothing if byte == b'%' => Ok(Read::Percent),
        Read::Nothing => push_repeated(1, byte, text).map(|_| Read::Nothing),
        Read::Percent if byte == b'(' => Ok(Read::Count(0)),
        Read::Percent => Ok(Read::Digit(digit(byte))),
        Read::Digit(high) => {
            let value = high.wrapping_mul(16).wrapping_add(digit(byte));
            push_repeated(1, value, text).map(|_| Read::Nothing)
        }
        Read::Count(count) if byte == b')' => Ok(Read::Counted(count)),
        Read::Count(count) => {
            let count = count.saturating_mul(10);
            Ok(Read::Count(count.saturating_add(digit(byte) as u32)))
        }
        Read::Counted(count) => push_repeated(count, byte, text).map(|_| Read::Nothing),
    }
}

/// The text that a line stands for: `%` and two hexadecimal digits are a byte, `%`, a number in brackets and a byte are that byte
/// so many times, and each other byte is itself.
pub fn text_of_line(alloc: Global, line: &[u8]) -> Result<Vec<u8>, AllocError> {
    let mut text = Vec::new(alloc);
    let mut read = Read::Nothing;
    for byte in line {
        read = push(read, *byte, &mut text)?;
    }
    Ok(text)
}
