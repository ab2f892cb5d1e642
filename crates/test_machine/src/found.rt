//! What machines find.
ghost use Rattle.std.specs.Prelude.{◌≡◌, Ok};
ghost use Rattle.opl_search.specs.declared.machine.Last.TheVariants as last;
ghost use Rattle.opl_search.specs.declared.search.Step1.TheVariants as step;

use crate::shown::{push_number, push_words};
use opl_domain::{OutOfMemory, Steps};
use opl_search::{Machine, Step1};
use opl_solver::Pair;
use std::alloc::Global;

/// The most variables that a ground core has.
const MOST_VARIABLES: usize = 65536;

/// Adds the last answer, a solution, as `(2 4 1 3)`.
fn push_solution(text: &mut Vec<u8>, machine: &Machine<Pair>) -> Result<(), OutOfMemory>
    requires { machine.now.last ≡ last.Solution }
{
    let count = machine.core().sets.len();
    if count > MOST_VARIABLES {
        return Ok(());
    }
    push_words(text, "(")?;
    for x in 0..count as u32 {
        if x > 0 {
            push_words(text, " ")?;
        }
        push_number(text, machine.value(x) as i128)?;
    }
    push_words(text, ")")
}

/// Goes to the next answer.
fn next(machine: &mut Machine<Pair>, alloc: Global, steps: &mut Steps) -> Result<Step1, OutOfMemory>
    ensures { result ≡ Ok step.Solution → machine.new.last ≡ last.Solution }
{
    machine.next(alloc, steps)
}

/// Adds the best value, if there is one.
fn push_best(text: &mut Vec<u8>, machine: &Machine<Pair>) -> Result<(), OutOfMemory> {
    match machine.best() {
        None => Ok(()),
        Some(best) => {
            push_words(text, "=")?;
            push_number(text, best)
        }
    }
}

/// Adds that there is no next solution, and the best value, if there is one.
fn push_stop(text: &mut Vec<u8>, word: &str, machine: &Machine<Pair>) -> Result<bool, OutOfMemory> {
    push_words(text, word)?;
    push_best(text, machine)?;
    Ok(false)
}

/// Adds the next answer of a machine behind the number of choices that led to it, as `4(2 4 1 3) ` or `8 end`. Whether it was
/// a solution.
pub fn push_next(
    alloc: Global,
    text: &mut Vec<u8>,
    machine: &mut Machine<Pair>,
    steps: &mut Steps,
) -> Result<bool, OutOfMemory> {
    let found = next(machine, alloc, steps)?;
    push_number(text, machine.choices() as i128)?;
    match found {
        Step1::Solution => {
            push_solution(text, &*machine)?;
            push_best(text, &*machine)?;
            push_words(text, " ")?;
            Ok(true)
        }
        Step1::End => push_stop(text, " end", &*machine),
        Step1::Spent => push_stop(text, " spent", &*machine),
    }
}

/// Adds answers of a machine, at most so many, and behind the last how often sets were closed.
pub fn push_found(
    alloc: Global,
    text: &mut Vec<u8>,
    machine: &mut Machine<Pair>,
    count: u64,
) -> Result<(), OutOfMemory> {
    let mut steps = Steps::new();
    for _ in 0..count {
        if !push_next(alloc, text, machine, &mut steps)? {
            break;
        }
    }
    push_words(text, ", closed ")?;
    push_number(text, steps.count() as i128)
}

/// Adds how many solutions a machine finds up to its end, and with how many choices.
pub fn push_count(
    alloc: Global,
    text: &mut Vec<u8>,
    machine: &mut Machine<Pair>,
) -> Result<(), OutOfMemory> {
    let mut steps = Steps::new();
    let mut solutions: u64 = 0;
    for _ in 0..u64::MAX {
        match machine.next(alloc, &mut steps)? {
            Step1::Solution => solutions = solutions.saturating_add(1),
            Step1::End => break,
            Step1::Spent => break,
        }
    }
    push_number(text, solutions as i128)?;
    push_words(text, " solutions, ")?;
    push_number(text, machine.choices() as i128)?;
    push_words(text, " choices")
}

/// Adds so many answers, also those behind the last.
pub fn push_again(
    alloc: Global,
    text: &mut Vec<u8>,
    machine: &mut Machine<Pair>,
    count: u64,
) -> Result<(), OutOfMemory> {
    let mut steps = Steps::new();
    for _ in 0..count {
        push_next(alloc, text, machine, &mut steps)?;
        push_words(text, ";")?;
    }
    Ok(())
}

/// Adds answers of two machines that are asked in turns, those of each on their own, until neither finds a solution.
pub fn push_turns(
    alloc: Global,
    text: &mut Vec<u8>,
    one: &mut Machine<Pair>,
    other: &mut Machine<Pair>,
    count: u64,
) -> Result<(), OutOfMemory> {
    let mut first = Vec::new(alloc);
    let mut second = Vec::new(alloc);
    let mut steps = Steps::new();
    let mut goes_on = true;
    let mut other_goes_on = true;
    for _ in 0..count {
        if goes_on {
            goes_on = push_next(alloc, &mut first, one, &mut steps)?;
        }
        if other_goes_on {
            other_goes_on = push_next(alloc, &mut second, other, &mut steps)?;
        }
    }
    text.extend_from_slice(first.as_slice())?;
    push_words(text, " | ")?;
    text.extend_from_slice(second.as_slice())?;
    Ok(())
}
