//! Cases, each a ground model with questions, and the answers. A blank line stands between cases.
#![tactic(auto)]

mod answers;
mod noted;
mod shown;

use answers::push_answers;
use opl_expr::{Core, OutOfMemory};
use std::alloc::Global;
use std::rc::Rc;
use test_cores::Parts;

/// Reads the model of a case.
fn read_all(parts: &mut Parts, written: &str) -> Result<(), OutOfMemory> {
    for line in written.split("\n") {
        parts.read(line)?;
    }
    Ok(())
}

/// Adds the lines of a case on a model.
fn push_lines(
    alloc: Global,
    text: &mut Vec<u8>,
    core: Core,
    written: &str,
) -> Result<(), OutOfMemory> {
    let core = Rc::new(alloc, core)?;
    push_answers(alloc, text, &core, written)
}

/// Adds the lines of a case, each question with its answer.
fn push_case(alloc: Global, text: &mut Vec<u8>, written: &str) -> Result<(), OutOfMemory> {
    let mut parts = Parts::new(alloc);
    match read_all(&mut parts, written) {
        Ok(()) => push_lines(alloc, text, parts.into_core(), written),
        Err(e) => Err(e),
    }
}

/// The cases, each question with its answer.
pub fn told_of_cores(alloc: Global, cases: &str) -> Result<Vec<u8>, OutOfMemory> {
    let mut text = Vec::new(alloc);
    for written in cases.split("\n\n") {
        push_case(alloc, &mut text, written.trim_ascii())?;
        text.extend_from_slice(b"\n")?;
    }
    Ok(text)
}
