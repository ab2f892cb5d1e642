//! The sets at the moments of a search, in an order of choices that is given.
//!
//! `X=V` opens a level, posts that the variable `X` has the value `V` and closes the sets; `back` gives the level opened last
//! back.
use crate::shown::{NOT_ASKED, push_sets, push_words};
use opl_domain::{OutOfMemory, Steps, View};
use opl_expr::Core;
use opl_search::{Closed, Solver, has_empty_set};
use opl_solver::Pair;
use opl_sound::is_ground;
use std::alloc::Global;
use std::rc::Rc;

/// Opens a level and gives it back.
fn open_and_give_back<S: Solver>(alloc: Global, solver: &mut S) -> Result<(), OutOfMemory> {
    let level = solver.count_levels();
    solver.open_level(alloc)?;
    solver.go_back(level);
    Ok(())
}

/// Adds what closing leaves. Where it is asked a level is opened and given back before.
fn push_closed<S: Solver>(
    alloc: Global,
    text: &mut Vec<u8>,
    solver: &mut S,
    with_level: bool,
) -> Result<(), OutOfMemory> {
    if with_level {
        open_and_give_back(alloc, solver)?;
    }
    let mut steps = Steps::new();
    match solver.close(&mut steps) {
        Closed::Failed => push_words(text, "failed"),
        Closed::Stable => {
            push_words(text, "left")?;
            push_sets(text, &*solver)
        }
    }
}

/// Opens a level, with a value for a variable. Whether it is one of its values.
fn choose<S: Solver>(alloc: Global, solver: &mut S, x: u32, v: i64) -> Result<bool, OutOfMemory> {
    if x >= solver.vars() || !solver.has(x, v) {
        return Ok(false);
    }
    solver.open_level(alloc)?;
    solver.post_value(alloc, x, v)?;
    Ok(true)
}

/// Adds what a choice leaves.
fn push_chosen<S: Solver>(
    alloc: Global,
    text: &mut Vec<u8>,
    solver: &mut S,
    choice: &str,
    with_level: bool,
) -> Result<(), OutOfMemory> {
    let (variable, value) = choice.split_once("=").unwrap_or((choice, ""));
    let x = variable.parse::<u32>().unwrap_or(u32::MAX);
    let v = value.parse::<i64>().unwrap_or(0);
    if choose(alloc, solver, x, v)? {
        push_closed(alloc, text, solver, with_level)
    } else {
        push_words(text, NOT_ASKED)
    }
}

/// Gives the level opened last back, if there is one.
fn go_back<S: Solver>(solver: &mut S) {
    let levels = solver.count_levels();
    if levels > 0 {
        solver.go_back(levels - 1);
    }
}

/// Adds what each choice leaves.
fn push_path<S: Solver>(
    alloc: Global,
    text: &mut Vec<u8>,
    solver: &mut S,
    path: &str,
    with_level: bool,
) -> Result<(), OutOfMemory> {
    push_closed(alloc, text, solver, with_level)?;
    for word in path.split_whitespace() {
        if word == "back" {
            go_back(solver);
        } else {
            push_words(text, "; ")?;
            push_words(text, word)?;
            push_words(text, " ")?;
            push_chosen(alloc, text, solver, word, with_level)?;
        }
    }
    Ok(())
}

/// Adds the sets at the beginning of a search and behind each choice. Where it is asked a level is opened and given back before
/// each closing.
pub fn push_followed(
    alloc: Global,
    text: &mut Vec<u8>,
    core: &Rc<Core>,
    path: &str,
    with_level: bool,
) -> Result<(), OutOfMemory> {
    if !is_ground(core.as_ref()) || has_empty_set(core.as_ref()) {
        return push_words(text, NOT_ASKED);
    }
    match Pair::new(alloc, core.clone()?) {
        Ok(mut pair) => push_path(alloc, text, &mut pair, path, with_level),
        Err(e) => Err(e),
    }
}
