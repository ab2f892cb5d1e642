//! Questions on the search of a core in its default order.
//!
//! A question has a word and a budget of choices. `find?` goes to the end of the search, `first?` to three answers, `again?` asks
//! six times, whatever the answers are, `turns?` asks one machine and another one, which has no budget, in turns, and `count?`
//! only counts solutions and choices.
use crate::found::{push_again, push_count, push_found, push_turns};
use crate::shown::{NOT_ASKED, push_words};
use opl_domain::OutOfMemory;
use opl_expr::Core;
use opl_search::{Machine, Way};
use opl_solver::{Pair, search};
use opl_sound::is_ground;
use std::alloc::Global;
use std::rc::Rc;

/// The search of a ground core in its default order.
fn machine(
    alloc: Global,
    core: &Rc<Core>,
    budget: u64,
) -> Result<Option<Machine<Pair>>, OutOfMemory> {
    if !is_ground(core.as_ref()) {
        return Ok(None);
    }
    let way = Way {
        default_search: true,
    };
    match search(alloc, core.clone()?, way, budget) {
        Ok(machine) => Ok(Some(machine)),
        Err(e) => Err(e),
    }
}

/// Adds what a machine and another one, which has no budget, find in turns.
fn push_both(
    alloc: Global,
    text: &mut Vec<u8>,
    core: &Rc<Core>,
    one: &mut Machine<Pair>,
) -> Result<(), OutOfMemory> {
    match machine(alloc, core, u64::MAX) {
        Ok(None) => push_words(text, NOT_ASKED),
        Ok(Some(mut other)) => push_turns(alloc, text, one, &mut other, 1000),
        Err(e) => Err(e),
    }
}

/// Adds what a machine finds.
fn push_from(
    alloc: Global,
    text: &mut Vec<u8>,
    core: &Rc<Core>,
    word: &str,
    machine: &mut Machine<Pair>,
) -> Result<(), OutOfMemory> {
    match word {
        "find?" => push_found(alloc, text, machine, u64::MAX),
        "first?" => push_found(alloc, text, machine, 3),
        "again?" => push_again(alloc, text, machine, 6),
        "turns?" => push_both(alloc, text, core, machine),
        "count?" => push_count(alloc, text, machine),
        _ => push_words(text, NOT_ASKED),
    }
}

/// Adds the answer to a question on a core.
pub fn push_asked(
    alloc: Global,
    text: &mut Vec<u8>,
    core: &Rc<Core>,
    word: &str,
    budget: u64,
) -> Result<(), OutOfMemory> {
    match machine(alloc, core, budget) {
        Ok(None) => push_words(text, NOT_ASKED),
        Ok(Some(mut machine)) => push_from(alloc, text, core, word, &mut machine),
        Err(e) => Err(e),
    }
}
