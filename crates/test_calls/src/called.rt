//! The call of a case, over files in memory.
use crate::case::{Case, File};
use crate::text::{push_answer, push_written};
use opl_outside::{MemoryShelf, MemorySink};
use opl_tool::run;
use std::alloc::{AllocError, Global};

/// A shelf with these files, on which the calls with these numbers fail.
fn shelf_of(alloc: Global, files: &[File], failing: &[u64]) -> Result<MemoryShelf, AllocError> {
    let mut shelf = MemoryShelf::new(alloc, failing)?;
    for file in files {
        shelf.add(alloc, file.name.as_str(), file.bytes.as_slice())?;
    }
    Ok(shelf)
}

/// `solve` and the names of these files.
fn solve_of(alloc: Global, files: &[File]) -> Result<Vec<String>, AllocError> {
    let mut words = Vec::new(alloc);
    words.push(String::from_str(alloc, "solve")?)?;
    for file in files {
        words.push(String::from_str(alloc, file.name.as_str())?)?;
    }
    Ok(words)
}

/// Adds the answer of a call with these words, and what it puts on its sinks.
fn push_call(
    alloc: Global,
    text: &mut Vec<u8>,
    case: &Case,
    words: &[String],
) -> Result<(), AllocError> {
    let mut shelf = shelf_of(alloc, case.files.as_slice(), case.shelf.as_slice())?;
    let mut out = MemorySink::new(alloc, case.out.as_slice())?;
    let mut err = MemorySink::new(alloc, case.err.as_slice())?;
    let answer = run(alloc, words, &mut shelf, &mut out, &mut err);
    push_answer(text, answer)?;
    push_written(text, b"  out", out.bytes())?;
    push_written(text, b"  err", err.bytes())
}

/// Adds what the call of a case comes to.
pub fn push_called(alloc: Global, text: &mut Vec<u8>, case: &Case) -> Result<(), AllocError> {
    match &case.words {
        Some(words) => push_call(alloc, text, case, words.as_slice()),
        None => {
            let words = solve_of(alloc, case.files.as_slice())?;
            push_call(alloc, text, case, words.as_slice())
        }
    }
}
