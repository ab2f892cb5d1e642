//! Cases, each the words of a call with files in memory and the calls on them that fail, and what the call answers and puts on its
//! sinks. A case is some lines, and a blank line ends it.
#![tactic(auto)]

mod called;
mod case;
mod text;

use called::push_called;
use case::Case;
use std::alloc::{AllocError, Global};

/// Takes a line of a case, and adds it to the text; before a blank line what the case comes to.
fn push_line(
    alloc: Global,
    text: &mut Vec<u8>,
    case: &mut Case,
    line: &str,
) -> Result<(), AllocError> {
    if line.is_empty() {
        push_called(alloc, text, case)?;
        *case = Case::new(alloc);
    } else {
        case.read(alloc, line)?;
    }
    text.extend_from_slice(line.as_bytes())?;
    text.extend_from_slice(b"\n")
}

/// The lines of cases, each case with what its call comes to behind it.
pub fn told_of_calls(alloc: Global, cases: &str) -> Result<Vec<u8>, AllocError> {
    let mut text = Vec::new(alloc);
    let mut case = Case::new(alloc);
    for line in cases.strip_suffix("\n").unwrap_or(cases).split("\n") {
        push_line(alloc, &mut text, &mut case, line)?;
    }
    Ok(text)
}
