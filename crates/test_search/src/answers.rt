//! The answers to questions on a core of a kind.
//!
//! A question is `WORD NUMBER KIND SIZE`. `find?`, `first?`, `again?`, `turns?` and `count?` ask the machine with a budget of so
//! many choices; `plain?` counts as `count?` does, by the plain program that computes the sets of each moment anew, and
//! `refuted?` asks so many times whether the declared sets refute the last constraint.
use crate::cores::core_of;
use opl_domain::OutOfMemory;
use opl_expr::{Cons, Core};
use opl_range::refuted;
use opl_reference_labelling::{CoreRanges, Mark, default_marks};
use opl_search::has_empty_set;
use opl_solver::Pair;
use opl_sound::{is_ground, is_sound, is_sound_constraint, is_within};
use std::alloc::Global;
use std::rc::Rc;
use test_machine::{NOT_ASKED, push_asked, push_number, push_words};

/// Adds how many solutions and choices marks have.
fn push_counts(text: &mut Vec<u8>, marks: &[Mark]) -> Result<(), OutOfMemory> {
    let mut solutions: u64 = 0;
    let mut choices: u64 = 0;
    for mark in marks {
        match mark {
            Mark::Solution(_) => solutions = solutions.saturating_add(1),
            Mark::Choice(_) => choices = choices.saturating_add(1),
            _ => {}
        }
    }
    push_number(text, solutions as i128)?;
    push_words(text, " solutions, ")?;
    push_number(text, choices as i128)?;
    push_words(text, " choices")
}

/// Adds how many solutions and choices the plain program makes.
fn push_plain(
    alloc: Global,
    text: &mut Vec<u8>,
    core: &Core,
    budget: u64,
) -> Result<(), OutOfMemory> {
    if !is_sound(core) {
        return push_words(text, NOT_ASKED);
    }
    let marks = default_marks(alloc, &CoreRanges, core, budget)?;
    push_counts(text, marks.as_slice())
}

/// How often the sets of a view refute a constraint that is asked so many times; none where it can't be asked.
fn times_refuted(core: &Core, c: &Cons, sets: &Pair, times: u64) -> Option<u64> {
    if !is_sound_constraint(core, c) || !is_within(core, sets) {
        return None;
    }
    let mut count: u64 = 0;
    for _ in 0..times {
        if refuted(core, c, sets) {
            count = count.saturating_add(1);
        }
    }
    Some(count)
}

/// Adds how often the declared sets refute the last constraint of a core.
fn push_refuted(
    alloc: Global,
    text: &mut Vec<u8>,
    core: &Rc<Core>,
    times: u64,
) -> Result<(), OutOfMemory> {
    if !is_ground(core.as_ref()) || has_empty_set(core.as_ref()) {
        return push_words(text, NOT_ASKED);
    }
    let sets = Pair::new(alloc, core.clone()?)?;
    let Some(c) = core.as_ref().cons.as_slice().last() else {
        return push_words(text, NOT_ASKED);
    };
    match times_refuted(core.as_ref(), c, &sets, times) {
        None => push_words(text, NOT_ASKED),
        Some(count) => push_number(text, count as i128),
    }
}

/// A number that is written, or 0.
fn number(text: &str) -> u64 {
    text.parse::<u64>().unwrap_or(0)
}

/// Adds the answer to a question.
pub fn push_answer(alloc: Global, text: &mut Vec<u8>, line: &str) -> Result<(), OutOfMemory> {
    let (word, rest) = line.split_once(" ").unwrap_or((line, ""));
    let (count, rest) = rest.split_once(" ").unwrap_or((rest, ""));
    let (kind, size) = rest.split_once(" ").unwrap_or((rest, ""));
    let size = u32::try_from(number(size)).unwrap_or(0);
    let core = core_of(alloc, kind, size)?;
    match word {
        "plain?" => push_plain(alloc, text, core.as_ref(), number(count)),
        "refuted?" => push_refuted(alloc, text, &core, number(count)),
        _ => push_asked(alloc, text, &core, word, number(count)),
    }
}
