//! The closing lines, and the lines of the objective's values.
ghost use Rattle.std.specs.Prelude.{◌≡◌, ◌++◌, IfOk, OnOk};
ghost use Rattle.opl_show.specs.Texts.{best_line, closing, end_line, number_line, objective_line};

use itoa::Buffer;
use std::alloc::{AllocError, Global};

/// How a search ended.
#[derive(Clone, Copy)]
pub enum Last {
    /// There is no other solution.
    End,
    /// As many solutions were found as were asked for; there may be others.
    Limit,
    /// A choice was due and the budget was spent; there may be others.
    Spent,
}

/// Adds a line with a number behind this label, where there is one.
fn push_number_line(
    text: &mut Vec<u8>,
    label: &[u8],
    number: Option<i128>,
) -> Result<(), AllocError>
    ensures { OnOk result (text.new.items ≡ text.old.items ++ number_line label.now number) }
{
    if let Some(number) = number {
        text.extend_from_slice(label)?;
        text.extend_from_slice(Buffer::new().format(number).as_bytes())?;
        text.extend_from_slice(b"\n")?;
    }
    Ok(())
}

/// Adds the line of the value that the objective has under a solution, where there is one.
pub(crate) fn push_objective(text: &mut Vec<u8>, value: Option<i128>) -> Result<(), AllocError>
    ensures { OnOk result (text.new.items ≡ text.old.items ++ objective_line value) }
{
    push_number_line(text, b"Objective: ", value)
}

/// Adds the line of the best value, where there is one.
fn push_best(text: &mut Vec<u8>, best: Option<i128>) -> Result<(), AllocError>
    ensures { OnOk result (text.new.items ≡ text.old.items ++ best_line best) }
{
    push_number_line(text, b"Best: ", best)
}

/// The last of the closing lines.
fn end_line(last: Last) -> &'static [u8]
    ensures { result.now ≡ end_line last }
{
    match last {
        Last::End => b"End\n",
        Last::Limit => b"Limit\n",
        Last::Spent => b"Spent\n",
    }
}

/// The closing lines, where so many solutions are shown and so many choices made: the two numbers, the best value, if there is one,
/// and how the search ended.
pub fn closing(
    alloc: Global,
    shown: u64,
    choices: u64,
    best: Option<i128>,
    last: Last,
) -> Result<Vec<u8>, AllocError>
    ensures { IfOk result (λ text. text.items ≡ closing shown choices best last) }
{
    let mut text = Vec::from_slice(alloc, b"Solutions: ")?;
    text.extend_from_slice(Buffer::new().format(shown).as_bytes())?;
    text.extend_from_slice(b"\nChoices: ")?;
    text.extend_from_slice(Buffer::new().format(choices).as_bytes())?;
    text.extend_from_slice(b"\n")?;
    push_best(&mut text, best)?;
    text.extend_from_slice(end_line(last))?;
    Ok(text)
}
