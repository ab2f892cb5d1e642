//! Answers as plain text.
use opl_domain::Interval;
use opl_expr::OutOfMemory;
use opl_reference_labelling::Mark;
use test_machine::{push_ends, push_number, push_words};

/// Adds `yes` or `no`.
pub fn push_truth(text: &mut Vec<u8>, is_so: bool) -> Result<(), OutOfMemory> {
    push_words(text, if is_so { "yes" } else { "no" })
}

/// Adds an interval, or `none`.
pub fn push_interval(text: &mut Vec<u8>, interval: Option<Interval>) -> Result<(), OutOfMemory> {
    match interval {
        None => push_words(text, "none"),
        Some(a) => push_ends(text, a.lo(), a.hi()),
    }
}

/// Adds a solution, as `(2 4 1 3) `.
fn push_solution(text: &mut Vec<u8>, values: &[i64]) -> Result<(), OutOfMemory> {
    push_words(text, "(")?;
    for (place, value) in values.iter().enumerate() {
        if place > 0 {
            push_words(text, " ")?;
        }
        push_number(text, *value as i128)?;
    }
    push_words(text, ") ")
}

/// Adds all solutions, and whether the search was cut.
pub fn push_solutions(text: &mut Vec<u8>, marks: &[Mark]) -> Result<(), OutOfMemory> {
    for mark in marks {
        match mark {
            Mark::Solution(values) => push_solution(text, values.as_slice())?,
            Mark::Cut => push_words(text, "cut ")?,
            _ => {}
        }
    }
    Ok(())
}

/// Adds how many choices were made.
pub fn push_choices(text: &mut Vec<u8>, marks: &[Mark]) -> Result<(), OutOfMemory> {
    let mut choices = 0u32;
    for mark in marks {
        if matches!(mark, Mark::Choice(_)) {
            choices = choices.saturating_add(1);
        }
    }
    push_words(text, "choices ")?;
    push_number(text, choices as i128)
}

/// Adds a choice, as `0=3 ` where variable 0 gets the value 3, or `- `.
fn push_choice(text: &mut Vec<u8>, label: Option<(u32, i64)>) -> Result<(), OutOfMemory> {
    match label {
        None => push_words(text, "- "),
        Some((x, v)) => {
            push_number(text, x as i128)?;
            push_words(text, "=")?;
            push_number(text, v as i128)?;
            push_words(text, " ")
        }
    }
}

/// Adds all marks in their order.
pub fn push_marks(text: &mut Vec<u8>, marks: &[Mark]) -> Result<(), OutOfMemory> {
    for mark in marks {
        match mark {
            Mark::Choice(label) => push_choice(text, *label)?,
            Mark::Leaf(_) => push_words(text, "leaf ")?,
            Mark::Solution(values) => push_solution(text, values.as_slice())?,
            Mark::Cut => push_words(text, "cut ")?,
        }
    }
    push_words(text, "in all")
}
