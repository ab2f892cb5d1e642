//! Answers as plain text.
use itoa::Buffer;
use opl_domain::{OutOfMemory, View};

/// What is told where there is nothing to ask: the core is no ground core, or the word is no question.
pub const NOT_ASKED: &str = "not asked";

/// Adds a number.
pub fn push_number(text: &mut Vec<u8>, number: i128) -> Result<(), OutOfMemory> {
    text.extend_from_slice(Buffer::new().format(number).as_bytes())?;
    Ok(())
}

/// Adds words.
pub fn push_words(text: &mut Vec<u8>, words: &str) -> Result<(), OutOfMemory> {
    text.extend_from_slice(words.as_bytes())?;
    Ok(())
}

/// Adds `low..high`.
pub fn push_ends(text: &mut Vec<u8>, low: i128, high: i128) -> Result<(), OutOfMemory> {
    push_number(text, low)?;
    push_words(text, "..")?;
    push_number(text, high)
}

/// Adds for each variable the ends of its set and the number of its values, as ` 1..4/3`.
pub fn push_sets<V: View>(text: &mut Vec<u8>, view: &V) -> Result<(), OutOfMemory> {
    for x in 0..view.vars() {
        push_words(text, " ")?;
        push_ends(text, view.min(x) as i128, view.max(x) as i128)?;
        push_words(text, "/")?;
        push_number(text, view.size(x) as i128)?;
    }
    Ok(())
}
