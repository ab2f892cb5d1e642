//! The answers to questions on a model.
//!
//! A question is a line of a case whose first word ends in `?`. With `copy ` before it, it is asked of a copy of the model.
//! `find?`, `first?`, `again?`, `turns?` and `count?` ask the machine, `follow?` and `levels?` what it stands on, and all others
//! definitions and plain programs.
use crate::noted::Noted;
use crate::shown::{push_choices, push_interval, push_marks, push_solutions, push_truth};
use opl_domain::{Domain, Steps, View};
use opl_expr::{Cons, Core, Expr, OutOfMemory, holds};
use opl_filter::{Filter, GenericFilter, Outcome, sweep, variables_of};
use opl_list::Seq;
use opl_range::{cons_range, range, refuted};
use opl_reference_labelling::{CoreRanges, closure_of, default_marks};
use opl_reference_search::marks;
use opl_sound::{
    are_sound, can_be_best, is_assignment, is_ground, is_sound, is_sound_constraint,
    is_sound_expression, is_within, magnitude,
};
use opl_trace::Sets;
use std::alloc::Global;
use std::rc::Rc;
use test_cores::{constraint, expression, number};
use test_machine::{
    NOT_ASKED, push_asked, push_ends, push_followed, push_number, push_sets, push_words,
};

/// The sets that the constraints of a sound model leave.
fn left(alloc: Global, core: &Core) -> Result<Option<Sets>, OutOfMemory> {
    if !is_sound(core) || !are_sound(core, core.cons.as_slice()) {
        return Ok(None);
    }
    closure_of(alloc, &CoreRanges, core, core.cons.as_slice(), None)
}

/// Adds the range of an expression over sets.
fn push_range(text: &mut Vec<u8>, core: &Core, sets: &Sets, e: &Expr) -> Result<(), OutOfMemory> {
    if !is_sound_expression(core, e) || !is_within(core, sets) {
        return push_words(text, NOT_ASKED);
    }
    push_interval(text, range(core, e, sets))
}

/// Adds the range of a constraint over sets, and whether they refute it.
fn push_cons_range(
    text: &mut Vec<u8>,
    core: &Core,
    sets: &Sets,
    c: &Cons,
) -> Result<(), OutOfMemory> {
    if !is_sound_constraint(core, c) || !is_within(core, sets) {
        return push_words(text, NOT_ASKED);
    }
    push_interval(text, cons_range(core, c, sets))?;
    if refuted(core, c, sets) {
        push_words(text, ", refuted")?;
    }
    Ok(())
}

/// Adds the values of a variable.
fn push_values(text: &mut Vec<u8>, sets: &Sets, x: u32) -> Result<(), OutOfMemory> {
    if x >= sets.vars() {
        return push_words(text, NOT_ASKED);
    }
    for v in sets.min(x)..=sets.max(x) {
        if sets.has(x, v) {
            push_number(text, v as i128)?;
            push_words(text, " ")?;
        }
    }
    push_words(text, "in all")
}

/// Adds the range of the expression of a text.
fn push_read_range(
    alloc: Global,
    text: &mut Vec<u8>,
    core: &Core,
    sets: &Sets,
    written: &str,
) -> Result<(), OutOfMemory> {
    match expression(alloc, written)? {
        None => push_words(text, NOT_ASKED),
        Some(e) => push_range(text, core, sets, e.get()),
    }
}

/// Adds the range of the constraint of a text.
fn push_read_cons_range(
    alloc: Global,
    text: &mut Vec<u8>,
    core: &Core,
    sets: &Sets,
    written: &str,
) -> Result<(), OutOfMemory> {
    match constraint(alloc, written)? {
        None => push_words(text, NOT_ASKED),
        Some(c) => push_cons_range(text, core, sets, c.get()),
    }
}

/// Adds the answer to a question on the sets that the constraints leave.
fn push_over(
    alloc: Global,
    text: &mut Vec<u8>,
    core: &Core,
    word: &str,
    written: &str,
) -> Result<(), OutOfMemory> {
    let Some(sets) = left(alloc, core)? else {
        return push_words(text, NOT_ASKED);
    };
    match word {
        "range?" => push_read_range(alloc, text, core, &sets, written),
        "cons_range?" => push_read_cons_range(alloc, text, core, &sets, written),
        _ => push_values(text, &sets, written.parse::<u32>().unwrap_or(0)),
    }
}

/// Adds the closure under a best value.
fn push_closure(
    alloc: Global,
    text: &mut Vec<u8>,
    core: &Core,
    best: Option<i128>,
) -> Result<(), OutOfMemory> {
    if !is_sound(core) {
        return push_words(text, NOT_ASKED);
    }
    if !are_sound(core, core.cons.as_slice()) || !can_be_best(core, best) {
        return push_words(text, NOT_ASKED);
    }
    match closure_of(alloc, &CoreRanges, core, core.cons.as_slice(), best)? {
        None => push_words(text, "failed"),
        Some(sets) => {
            push_words(text, "left")?;
            push_sets(text, &sets)
        }
    }
}

/// Adds a magnitude of up to a million.
fn push_size(text: &mut Vec<u8>, size: u128) -> Result<(), OutOfMemory> {
    if size > 1000000 {
        return push_words(text, "large");
    }
    push_number(text, size as i128)
}

/// Adds the magnitude of an expression.
fn push_magnitude(
    alloc: Global,
    text: &mut Vec<u8>,
    core: &Core,
    written: &str,
) -> Result<(), OutOfMemory> {
    let Some(e) = expression(alloc, written)? else {
        return push_words(text, NOT_ASKED);
    };
    match magnitude(core, e.get()) {
        None => push_words(text, "none"),
        Some(size) => push_size(text, size),
    }
}

/// The values of a text.
fn values(alloc: Global, text: &str) -> Result<Seq<i64>, OutOfMemory> {
    let mut values = Seq::new(alloc);
    for word in text.split_whitespace() {
        values.push(number(word))?;
    }
    Ok(values)
}

/// Adds whether a constraint holds on values.
fn push_truth_of(
    text: &mut Vec<u8>,
    core: &Core,
    c: &Cons,
    values: &[i64],
) -> Result<(), OutOfMemory> {
    if !is_sound_constraint(core, c) || !is_assignment(core, values) {
        return push_words(text, NOT_ASKED);
    }
    match holds(core, c, values) {
        None => push_words(text, "undefined"),
        Some(is_so) => push_truth(text, is_so),
    }
}

/// Adds whether a constraint holds on values: `VALUES : TEXT`.
fn push_holds(
    alloc: Global,
    text: &mut Vec<u8>,
    core: &Core,
    written: &str,
) -> Result<(), OutOfMemory> {
    let (assigned, c) = written.split_once(" : ").unwrap_or((written, ""));
    let values = values(alloc, assigned)?;
    match constraint(alloc, c)? {
        None => push_words(text, NOT_ASKED),
        Some(c) => push_truth_of(text, core, c.get(), values.as_slice()),
    }
}

/// Adds how filtering ended, and what it leaves.
fn push_left<V: View>(text: &mut Vec<u8>, outcome: Outcome, sets: &V) -> Result<(), OutOfMemory> {
    match outcome {
        Outcome::Stable => push_words(text, "stable")?,
        Outcome::Failed => push_words(text, "failed")?,
    }
    push_sets(text, sets)
}

/// Adds how filtering ended, what it leaves, and what it removed.
fn push_noted(text: &mut Vec<u8>, outcome: Outcome, noted: &Noted) -> Result<(), OutOfMemory> {
    push_left(text, outcome, noted)?;
    push_words(text, ", removed ")?;
    push_number(text, noted.cuts as i128)?;
    push_words(text, " times, last of ")?;
    push_number(text, noted.last as i128)
}

/// Adds how the sweep of a constraint ends, what it leaves, and what it removed.
fn push_swept(
    alloc: Global,
    text: &mut Vec<u8>,
    core: &Core,
    c: &Cons,
    sets: Sets,
) -> Result<(), OutOfMemory> {
    if !is_sound_constraint(core, c) || !is_within(core, &sets) {
        return push_words(text, NOT_ASKED);
    }
    let variables = variables_of(alloc, core, c)?;
    let mut noted = Noted {
        sets,
        cuts: 0,
        last: 0,
    };
    let outcome = sweep(core, c, variables.as_slice(), &mut noted);
    push_noted(text, outcome, &noted)
}

/// Adds how the filter of a constraint ends, and what it leaves.
fn push_filtered(
    alloc: Global,
    text: &mut Vec<u8>,
    core: &Core,
    c: &Cons,
    sets: Sets,
) -> Result<(), OutOfMemory> {
    if !is_sound_constraint(core, c) || !is_within(core, &sets) {
        return push_words(text, NOT_ASKED);
    }
    let mut filter = GenericFilter::new(alloc, core, c)?;
    filter.wake(0);
    let mut sets = sets;
    let outcome = filter.filter(core, &mut sets);
    push_left(text, outcome, &sets)
}

/// Adds what this constraint leaves of the sets that the constraints of a model leave.
fn push_narrowed_by(
    alloc: Global,
    text: &mut Vec<u8>,
    core: &Core,
    word: &str,
    c: &Cons,
) -> Result<(), OutOfMemory> {
    match left(alloc, core) {
        Ok(None) => push_words(text, NOT_ASKED),
        Ok(Some(sets)) if word == "sweep?" => push_swept(alloc, text, core, c, sets),
        Ok(Some(sets)) => push_filtered(alloc, text, core, c, sets),
        Err(e) => Err(e),
    }
}

/// Adds what a constraint leaves of the sets that the constraints of a model leave.
fn push_narrowed(
    alloc: Global,
    text: &mut Vec<u8>,
    core: &Core,
    word: &str,
    written: &str,
) -> Result<(), OutOfMemory> {
    match constraint(alloc, written)? {
        None => push_words(text, NOT_ASKED),
        Some(c) => push_narrowed_by(alloc, text, core, word, c.get()),
    }
}

/// Adds what default labelling finds.
fn push_labelled(
    alloc: Global,
    text: &mut Vec<u8>,
    core: &Core,
    word: &str,
    budget: u64,
) -> Result<(), OutOfMemory> {
    if !is_sound(core) {
        return push_words(text, NOT_ASKED);
    }
    let marks = default_marks(alloc, &CoreRanges, core, budget)?;
    push_solutions(text, marks.as_slice())?;
    if word == "solutions?" {
        return push_words(text, "in all");
    }
    push_choices(text, marks.as_slice())
}

/// Adds what a search finds, with the section or without.
fn push_searched(
    alloc: Global,
    text: &mut Vec<u8>,
    core: &Core,
    default: bool,
    budget: u64,
) -> Result<(), OutOfMemory> {
    if !is_sound(core) {
        return push_words(text, NOT_ASKED);
    }
    let marks = marks(alloc, &CoreRanges, core, default, budget)?;
    push_solutions(text, marks.as_slice())?;
    push_choices(text, marks.as_slice())
}

/// Adds all that a search makes, with its section.
fn push_path(
    alloc: Global,
    text: &mut Vec<u8>,
    core: &Core,
    budget: u64,
) -> Result<(), OutOfMemory> {
    if !is_sound(core) {
        return push_words(text, NOT_ASKED);
    }
    let marks = marks(alloc, &CoreRanges, core, false, budget)?;
    push_marks(text, marks.as_slice())
}

/// Adds a set of values, from which some are removed, and a count of two.
fn push_domain(alloc: Global, text: &mut Vec<u8>) -> Result<(), OutOfMemory> {
    let mut d = Domain::new(alloc, -1, 3)?;
    d.cut(1, 2);
    push_ends(text, d.min() as i128, d.max() as i128)?;
    push_words(text, " ")?;
    push_number(text, d.size() as i128)?;
    push_words(text, " ")?;
    push_truth(
        text,
        d.copy(alloc)?.has(0) && !d.has(1) && d.next(0) == Some(3) && d.next(3) == None,
    )?;
    let mut steps = Steps::new();
    steps.tick();
    steps.tick();
    push_words(text, " ")?;
    push_number(text, steps.count() as i128)
}

/// Adds the answer to a question that definitions and plain programs answer.
fn push_plain(
    alloc: Global,
    text: &mut Vec<u8>,
    core: &Core,
    word: &str,
    written: &str,
) -> Result<(), OutOfMemory> {
    let budget = number(written).unsigned_abs();
    match word {
        "sound?" => push_truth(text, is_sound(core)),
        "ground?" => push_truth(text, is_ground(core)),
        "range?" | "cons_range?" | "values?" => push_over(alloc, text, core, word, written),
        "closure?" => push_closure(alloc, text, core, None),
        "better?" => push_closure(alloc, text, core, Some(number(written) as i128)),
        "magnitude?" => push_magnitude(alloc, text, core, written),
        "assignment?" => {
            let values = values(alloc, written)?;
            push_truth(text, is_assignment(core, values.as_slice()))
        }
        "holds?" => push_holds(alloc, text, core, written),
        "sweep?" | "filter?" => push_narrowed(alloc, text, core, word, written),
        "labelling?" | "solutions?" => push_labelled(alloc, text, core, word, budget),
        "search?" => push_searched(alloc, text, core, false, budget),
        "default?" => push_searched(alloc, text, core, true, budget),
        "marks?" => push_path(alloc, text, core, budget),
        "domain?" => push_domain(alloc, text),
        _ => push_words(text, NOT_ASKED),
    }
}

/// Adds the answer to a question.
fn push_answer(
    alloc: Global,
    text: &mut Vec<u8>,
    core: &Rc<Core>,
    line: &str,
) -> Result<(), OutOfMemory> {
    let (word, written) = line.split_once(" ").unwrap_or((line, ""));
    match word {
        "find?" | "first?" | "again?" | "turns?" | "count?" => {
            push_asked(alloc, text, core, word, number(written).unsigned_abs())
        }
        "follow?" => push_followed(alloc, text, core, written, false),
        "levels?" => push_followed(alloc, text, core, written, true),
        _ => push_plain(alloc, text, core.as_ref(), word, written),
    }
}

/// Adds the answer to a question on a copy of the model.
fn push_copied(
    alloc: Global,
    text: &mut Vec<u8>,
    core: &Core,
    line: &str,
) -> Result<(), OutOfMemory> {
    let copy = Rc::new(alloc, core.copy(alloc)?)?;
    push_answer(alloc, text, &copy, line)
}

/// Adds a line, and its answer where it is a question.
fn push_line(
    alloc: Global,
    text: &mut Vec<u8>,
    core: &Rc<Core>,
    line: &str,
) -> Result<(), OutOfMemory> {
    text.extend_from_slice(line.as_bytes())?;
    let (word, rest) = line.split_once(" ").unwrap_or((line, ""));
    if word == "copy" {
        push_words(text, " -> ")?;
        push_copied(alloc, text, core.as_ref(), rest)?;
    } else if word.as_bytes().ends_with(b"?") {
        push_words(text, " -> ")?;
        push_answer(alloc, text, core, line)?;
    }
    push_words(text, "\n")
}

/// Adds the lines of a case, each question with its answer.
pub fn push_answers(
    alloc: Global,
    text: &mut Vec<u8>,
    core: &Rc<Core>,
    written: &str,
) -> Result<(), OutOfMemory> {
    for line in written.split("\n") {
        push_line(alloc, text, core, line)?;
    }
    Ok(())
}
