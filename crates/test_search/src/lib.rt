//! Questions on the searches of ground cores, one a line, each with its answer.
#![tactic(auto)]

mod answers;
mod cores;

use answers::push_answer;
use opl_domain::OutOfMemory;
use std::alloc::Global;
use test_machine::push_words;

/// Adds a line with its answer. A blank line has none.
fn push_line(alloc: Global, text: &mut Vec<u8>, line: &str) -> Result<(), OutOfMemory> {
    push_words(text, line)?;
    if !line.is_empty() {
        push_words(text, " -> ")?;
        push_answer(alloc, text, line)?;
    }
    push_words(text, "\n")
}

/// The questions, each with its answer behind it.
pub fn told_of_searches(alloc: Global, questions: &str) -> Result<Vec<u8>, OutOfMemory> {
    let mut text = Vec::new(alloc);
    for line in questions
        .strip_suffix("\n")
        .unwrap_or(questions)
        .split("\n")
    {
        push_line(alloc, &mut text, line)?;
    }
    Ok(text)
}
