//! The first Leaf among marks.
ghost use Rattle.std.specs.Prelude.{◌≡◌, IfOk};
ghost use Rattle.opl_expr.specs.Options.{lift1};
ghost use Rattle.opl_trace.specs.Run.{behind, choices};
ghost use Rattle.opl_trace.specs.SoundCores.{facts_in};
ghost use Rattle.opl_reference_labelling.specs.Outcomes.{mark_of, marks_in, outcome};
ghost use Rattle.opl_reference_search.specs.Leaves.{leaf_of, is_choice, IsFirstLeaf};

use opl_expr::{Cons, Core, OutOfMemory};
use opl_list::Seq;
use opl_reference_labelling::{Mark, Outcome, copies, joined};
use std::alloc::Global;

/// The constraints of a mark that is a Leaf.
fn leaf_of<'m>(core: &Core, mark: &'m Mark) -> Option<&'m [Cons]>
    ensures { lift1 (λ cs. facts_in core.now cs.now) result ≡ leaf_of (mark_of core.now mark.now) }
{
    match mark {
        Mark::Choice(_label) => None,
        Mark::Leaf(posted) => Some(posted.as_slice()),
        Mark::Solution(_values) => None,
        Mark::Cut => None,
    }
}

/// The place of the first Leaf, and its constraints.
pub fn first_leaf<'m>(core: &Core, marks: &'m [Mark]) -> Option<(usize, &'m [Cons])>
    ensures { IsFirstLeaf core.now marks.now (lift1 (λ p. (p.0, p.1.now)) result) }
{
    for at in 0..marks.len() {
        match leaf_of(core, &marks[at]) {
            None => continue,
            Some(posted) => return Some((at, posted)),
        }
    }
    None
}

/// Whether a mark is a choice.
fn is_choice(mark: &Mark) -> bool
    ensures { result ≡ is_choice mark.now }
{
    match mark {
        Mark::Choice(_label) => true,
        Mark::Leaf(_posted) => false,
        Mark::Solution(_values) => false,
        Mark::Cut => false,
    }
}

/// How many of the marks are choices.
pub fn choices(core: &Core, marks: &[Mark]) -> u64
    ensures { result ≡ choices (marks_in core.now marks.now) }
{
    let mut count = 0;
    for mark in marks {
        if is_choice(mark) {
            count += 1;
        }
    }
    count
}

/// An equal mark.
fn copy(alloc: Global, mark: &Mark) -> Result<Mark, OutOfMemory>
    ensures { IfOk result (λ m. m ≡ mark.now) }
{
    match mark {
        Mark::Choice(label) => Ok(Mark::Choice(*label)),
        Mark::Leaf(posted) => Ok(Mark::Leaf(copies(alloc, posted.as_slice())?)),
        Mark::Solution(values) => Ok(Mark::Solution(Seq::from_slice(alloc, values.as_slice())?)),
        Mark::Cut => Ok(Mark::Cut),
    }
}

/// Equal marks.
fn copied(alloc: Global, marks: &[Mark]) -> Result<Seq<Mark>, OutOfMemory>
    ensures { IfOk result (λ ms. ms ≡ marks.now) }
{
    let mut copied = Seq::new(alloc);
    for mark in marks {
        copied.push(copy(alloc, mark)?)?;
    }
    Ok(copied)
}

/// Marks, and then what follows them.
fn followed_by(core: &Core, first: Seq<Mark>, next: Outcome) -> Result<Outcome, OutOfMemory>
    ensures { IfOk result (λ o. outcome core.now o ≡ behind (marks_in core.now first) (outcome core.now next)) }
{
    let Outcome {
        marks,
        best,
        left,
        is_cut,
    } = next;
    Ok(Outcome {
        marks: joined(first, marks)?,
        best,
        left,
        is_cut,
    })
}

/// Copies of marks, and then what follows them.
pub fn behind(
    alloc: Global,
    core: &Core,
    before: &[Mark],
    next: Outcome,
) -> Result<Outcome, OutOfMemory>
    ensures { IfOk result (λ o. outcome core.now o ≡ behind (marks_in core.now before.now) (outcome core.now next)) }
{
    let first = copied(alloc, before)?;
    followed_by(core, first, next)
}
