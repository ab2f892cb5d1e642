//! The choices of elements for groups of parameters, one after another. What is chosen stands in a list, so that groups and names
//! in any number are gone through without recursion.
ghost use Rattle.std.specs.Prelude.{◌≡◌, ◌++◌, ℕ, [], IfNone, IfOk, IfSome, cond};
ghost use Rattle.opl_eval.specs.Evaluation.{Environment};
ghost use Rattle.opl_eval.specs.Turns.{left, under};
ghost use Rattle.opl_groups.specs.Courses.{GoesOn, Inner, ahead_in, left_of, still};

use opl_eval::{Course, Elements, Turn, Turns};
use opl_term::Pattern;
use std::alloc::{AllocError, Global};

/// Patterns that are to be given elements.
#[derive(Drop)]
pub(crate) struct Names<'t> {
    pub(crate) is_ordered: bool,
    pub(crate) patterns: &'t [Pattern],
    pub(crate) elements: Elements,
    /// The place of the next group.
    pub(crate) later: usize,
}

/// What is visited next.
#[derive(Drop)]
pub(crate) enum Ahead<'t> {
    /// The groups from a place on.
    Groups(usize),
    Patterns(Names<'t>),
    /// What is left for the latest turn.
    Back,
}

/// Chooses the next element for a pattern, if there is one.
fn take_turn<'t>(
    alloc: Global,
    turns: &mut Turns<'t>,
    course: Course<'t>,
) -> Result<Ahead<'t>, AllocError>
    ensures { IfOk result (λ next. (inner : Inner) (env : Environment) → left_of inner course.entry (under env turns.old.chosen.items) ++ still inner env [] turns.old.chosen.items ≡ ahead_in inner next (under env turns.new.chosen.items) ++ still inner env [] turns.new.chosen.items) }
{
    let Course {
        is_ordered,
        pattern,
        others,
        all,
        rest,
        later,
    } = course;
    match rest.split_first(alloc)? {
        None => Ok(Ahead::Back),
        Some((element, behind)) => {
            let elements = next_of(is_ordered, &behind, &all)?;
            let course = Course {
                is_ordered,
                pattern,
                others,
                all,
                rest: behind,
                later,
            };
            turns.push(alloc, Turn { element, course })?;
            Ok(Ahead::Patterns(Names {
                is_ordered,
                patterns: others,
                elements,
                later,
            }))
        }
    }
}

/// The elements for the next pattern: those behind, or all.
fn next_of(is_ordered: bool, behind: &Elements, all: &Elements) -> Result<Elements, AllocError>
    ensures { IfOk result (λ r. left r ≡ cond is_ordered (left behind.now) (left all.now)) }
{
    if is_ordered {
        behind.share()
    } else {
        all.share()
    }
}

/// Goes on with the first of patterns, or behind them where there are none.
pub(crate) fn enter<'t>(
    alloc: Global,
    turns: &mut Turns<'t>,
    names: Names<'t>,
) -> Result<Ahead<'t>, AllocError>
    ensures { IfOk result (λ next. GoesOn (Ahead.Patterns names.entry) turns.old.chosen.items next turns.new.chosen.items) }
{
    let Names {
        is_ordered,
        patterns,
        elements,
        later,
    } = names;
    match patterns.split_first() {
        None => Ok(Ahead::Groups(later)),
        Some((pattern, others)) => {
            let rest = elements.share()?;
            let course = Course {
                is_ordered,
                pattern,
                others,
                all: elements,
                rest,
                later,
            };
            take_turn(alloc, turns, course)
        }
    }
}

/// Goes back to the latest turn; None where there is none.
pub(crate) fn go_back<'t>(
    alloc: Global,
    turns: &mut Turns<'t>,
) -> Result<Option<Ahead<'t>>, AllocError>
    ensures none { IfOk result (λ r. IfNone r (turns.old.chosen.items ≡ [])) }
    ensures some { IfOk result (λ r. IfSome r (λ next. GoesOn Ahead.Back turns.old.chosen.items next turns.new.chosen.items)) }
{
    match turns.pop() {
        None => Ok(None),
        Some(turn) => Ok(Some(take_turn(alloc, turns, course_of(turn))?)),
    }
}

/// What is left for a turn.
fn course_of<'t>(turn: Turn<'t>) -> Course<'t>
    ensures { result ≡ turn.entry.course }
{
    let Turn { element: _, course } = turn;
    course
}
