//! What is told is made of words and numbers.
use itoa::Buffer;
use std::alloc::AllocError;

/// Adds a word.
pub fn say(out: &mut Vec<u8>, word: &str) -> Result<(), AllocError> {
    say_bytes(out, word.as_bytes())
}

/// Adds bytes as they are.
pub fn say_bytes(out: &mut Vec<u8>, bytes: &[u8]) -> Result<(), AllocError> {
    out.extend_from_slice(bytes)
}

/// Adds a number.
pub fn say_number(out: &mut Vec<u8>, number: i128) -> Result<(), AllocError> {
    say(out, Buffer::new().format(number))
}

/// Adds a word, and a number behind a blank.
pub fn say_numbered(out: &mut Vec<u8>, word: &str, number: u32) -> Result<(), AllocError> {
    say(out, word)?;
    say(out, " ")?;
    say_number(out, number as i128)
}

/// Adds words, and a number behind a sign for its place.
pub fn say_placed(out: &mut Vec<u8>, open: &str, word: &str, at: u32) -> Result<(), AllocError> {
    say(out, open)?;
    say(out, word)?;
    say(out, "@")?;
    say_number(out, at as i128)
}
