//! What is told of a file.
use crate::cases::{question_of, tell_cases, tell_sameness};
use crate::reading::{Language, Measures, measured};
use crate::stop::{Stop, tell_stop};
use crate::word::{say, say_numbered};
use opl_outside::{Found, OutsideError, Shelf};
use std::alloc::{AllocError, Global};

/// Adds a depth, and whether the tree reads the same.
fn tell_found(found: Measures, out: &mut Vec<u8>) -> Result<(), AllocError> {
    say_numbered(out, "depth", found.depth)?;
    tell_sameness(found, out)
}

/// Adds how deep a model nests. Behind one that does not read the same once it is spelt anew stands ` otherwise`.
fn tell_depth(alloc: Global, text: &[u8], out: &mut Vec<u8>) -> Result<(), Stop> {
    let found = measured(alloc, Language::Model, text)?;
    tell_found(found, out).map_err(Stop::from)
}

/// Adds what is told of a file that holds one model.
fn tell_model(alloc: Global, name: &str, text: &[u8], out: &mut Vec<u8>) -> Result<(), AllocError> {
    say(out, name)?;
    say(out, " ")?;
    tell_stop(tell_depth(alloc, text, out), out)?;
    say(out, "\n")
}

/// Adds what is told of a file with these bytes.
fn tell_file(alloc: Global, name: &str, bytes: &[u8], out: &mut Vec<u8>) -> Result<(), AllocError> {
    match question_of(name) {
        Some(question) => tell_cases(alloc, question, bytes, out),
        None => tell_model(alloc, name, bytes, out),
    }
}

/// What is told of a file. Of a model it is a line, `FILE depth N`, or `FILE KIND AT` where it does not read as one.
pub fn told_of_file<F: Shelf>(
    alloc: Global,
    shelf: &mut F,
    name: &str,
) -> Result<Vec<u8>, AllocError> {
    let mut out = Vec::new(alloc);
    match shelf.read(alloc, name) {
        Ok(Found::Bytes(bytes)) => tell_file(alloc, name, bytes.as_slice(), &mut out)?,
        Ok(Found::Absent) | Ok(Found::TooLong) | Err(OutsideError::Failed) => {
            say(&mut out, name)?;
            say(&mut out, " cannot be read\n")?;
        }
        Err(OutsideError::OutOfMemory) => return Err(AllocError),
    }
    Ok(out)
}
