//! Calls of a shelf, and how they end.
use opl_outside::{Found, OutsideError, Shelf};
use std::alloc::{AllocError, Global};

/// A call of a shelf.
#[derive(Clone, Copy)]
pub enum Call {
    Read,
    Begin,
    Append(&'static str),
}

/// How a call ended.
pub fn ended(outcome: &Result<(), OutsideError>) -> &'static str {
    match outcome {
        Ok(()) => "done",
        Err(OutsideError::Failed) => "failed",
        Err(OutsideError::OutOfMemory) => "no memory",
    }
}

/// Makes one call, and says in a word how it ended.
fn made<S: Shelf>(shelf: &mut S, alloc: Global, call: Call, name: &str) -> &'static str {
    let outcome = match call {
        Call::Read => match shelf.read(alloc, name) {
            Ok(Found::Bytes(_)) => return "bytes",
            Ok(Found::Absent) => return "absent",
            Ok(Found::TooLong) => return "too long",
            Err(e) => Err(e),
        },
        Call::Begin => shelf.begin(alloc, name),
        Call::Append(piece) => shelf.append(alloc, name, piece.as_bytes()),
    };
    ended(&outcome)
}

/// Adds a piece of text.
pub fn say(out: &mut String, text: &str) -> Result<(), AllocError> {
    out.push_str(text)?;
    Ok(())
}

/// Adds bytes, which are shown as text if they are ASCII.
pub fn say_bytes(out: &mut String, bytes: &[u8]) -> Result<(), AllocError> {
    for byte in bytes {
        out.push(char::from(*byte))?;
    }
    Ok(())
}

/// Adds what a call does.
fn say_call(out: &mut String, call: Call, name: &str) -> Result<(), AllocError> {
    match call {
        Call::Read => say(out, "read")?,
        Call::Begin => say(out, "begin")?,
        Call::Append(piece) => {
            say(out, "append ")?;
            say(out, piece)?;
            say(out, " to")?;
        }
    }
    say(out, " ")?;
    say(out, name)
}

/// Makes a call, and adds a line's front on how it ended.
pub fn tell_call<S: Shelf>(
    shelf: &mut S,
    alloc: Global,
    call: Call,
    name: &str,
    out: &mut String,
) -> Result<(), AllocError> {
    say_call(out, call, name)?;
    say(out, ": ")?;
    say(out, made(shelf, alloc, call, name))
}
