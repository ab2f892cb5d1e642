//! Lines `NUMBER CONDITION`, each with what the condition comes to where the decision variable `x` has that number. A line that begins
//! with `#`, and a blank one, stands alone.
#![tactic(auto)]

mod condition;
mod site;
mod text;

use std::alloc::{AllocError, Global};
use text::push_outcome;

/// Adds a line, and what its condition comes to.
fn push_line(alloc: Global, text: &mut Vec<u8>, line: &str) -> Result<(), AllocError> {
    text.extend_from_slice(line.as_bytes())?;
    text.extend_from_slice(b"\n")?;
    if line.is_empty() || line.starts_with("#") {
        return Ok(());
    }
    let (number, condition) = line.split_once(" ").unwrap_or((line, ""));
    push_outcome(
        alloc,
        text,
        number.parse::<i64>().unwrap_or(0),
        condition.as_bytes(),
    )
}

/// The lines, each with what its condition comes to behind it.
pub fn told_of_conditions(alloc: Global, lines: &str) -> Result<Vec<u8>, AllocError> {
    let mut text = Vec::new(alloc);
    for line in lines.strip_suffix("\n").unwrap_or(lines).split("\n") {
        push_line(alloc, &mut text, line)?;
    }
    Ok(text)
}
