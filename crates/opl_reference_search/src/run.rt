//! Tasks one after another, one moment after another.
ghost use Rattle.std.specs.Prelude.{◌≡◌, [], Some, IfOk};
ghost use Rattle.opl_expr.specs.Solutions.{goal_term};
ghost use Rattle.opl_trace.specs.Run.{alternatives};
ghost use Rattle.opl_trace.specs.Moments.{core_sets};
ghost use Rattle.opl_trace.specs.SoundCores.{IsSoundCore, IsSoundStatement};
ghost use Rattle.opl_trace.specs.SoundCores.{facts_in, AreSound, IsBest};
ghost use Rattle.opl_choices.specs.Branches.{statement_in};
ghost use Rattle.opl_reference_search.specs.Tasks.{doing, tasks_in};
ghost use Rattle.opl_reference_search.specs.Steps.{ways_in};
ghost use Rattle.opl_reference_search.specs.Sound.{AreSoundTasks, AreSoundWays};
ghost use Rattle.opl_reference_search.specs.Made.{rests, once_then, IsRun};

use crate::leaf::{behind, choices, first_leaf};
use crate::next::{Next, Way};
use crate::step::next_step;
use crate::task::{End, Task, one_before};
use opl_domain::View;
use opl_expr::{Cons, OutOfMemory, Step};
use opl_reference_labelling::{Mark, Outcome, Ranges, Search, copies};
use opl_trace::Sets;
use std::alloc::Global;

/// What the end makes at a moment.
fn finished<R: Ranges>(
    alloc: Global,
    search: &Search<'_, R>,
    sets: &Sets,
    end: End,
    posted: &[Cons],
    best: Option<i128>,
    left: u64,
) -> Result<Outcome, OutOfMemory>
    requires core { IsSoundCore search.now.core.now }
    requires posted { AreSound search.now.core.now (facts_in search.now.core.now posted.now) }
    requires best { IsBest search.now.core.now.sets (goal_term search.now.core.now) best }
    requires moment { core_sets search.now.core.now (facts_in search.now.core.now posted.now) best ≡ Some sets.now }
    ensures { IfOk result (λ o. IsRun search.now.core.now o (doing search.now.core.now end [] (facts_in search.now.core.now posted.now) best left) left) }
{
    match end {
        End::Whole => {
            let outcome = search.leaf(alloc, sets, posted, best, left)?;
            Ok(outcome)
        }
        End::Inner => {
            let leaf = Mark::Leaf(copies(alloc, posted)?);
            let outcome = Outcome::one(alloc, leaf, best, left)?;
            Ok(outcome)
        }
    }
}

/// What alternatives make one after another.
#[cycle(running)]
fn choose<R: Ranges>(
    alloc: Global,
    search: &Search<'_, R>,
    ways: &[Way<'_>],
    end: End,
    best: Option<i128>,
    left: u64,
) -> Result<Outcome, OutOfMemory>
    requires core { IsSoundCore search.now.core.now }
    requires ways { AreSoundWays search.now.core.now (ways_in search.now.core.now ways.now) }
    requires best { IsBest search.now.core.now.sets (goal_term search.now.core.now) best }
    ensures { IfOk result (λ o. IsRun search.now.core.now o (alternatives (rests search.now.core.now end (ways_in search.now.core.now ways.now)) [] best left) left) }
{
    let mut made = Outcome::nothing(alloc, search.core, best, left);
    for way in ways {
        if made.left == 0 {
            return Ok(made.with_cut());
        }
        let outcome = run(
            alloc,
            search,
            way.tasks.as_slice(),
            end,
            way.posted.as_slice(),
            made.best,
            made.left - 1,
        )?;
        made = made.followed(search.core, Mark::Choice(way.label), outcome)?;
        if made.is_cut {
            return Ok(made);
        }
    }
    Ok(made)
}

/// What a statement under `once` makes, and then the other tasks.
#[cycle(running)]
fn commit<R: Ranges>(
    alloc: Global,
    search: &Search<'_, R>,
    step: &Step,
    others: &[Task<'_>],
    end: End,
    posted: &[Cons],
    best: Option<i128>,
    left: u64,
) -> Result<Outcome, OutOfMemory>
    requires core { IsSoundCore search.now.core.now }
    requires inner { IsSoundStatement search.now.core.now.sets (statement_in search.now.core.now step.now) }
    requires others { AreSoundTasks search.now.core.now.sets (tasks_in search.now.core.now others.now) }
    requires posted { AreSound search.now.core.now (facts_in search.now.core.now posted.now) }
    requires best { IsBest search.now.core.now.sets (goal_term search.now.core.now) best }
    ensures { IfOk result (λ o. IsRun search.now.core.now o (once_then search.now.core.now end (statement_in search.now.core.now step.now) (tasks_in search.now.core.now others.now) (facts_in search.now.core.now posted.now) best left) left) }
{
    let inner = one_before(alloc, Task::Perform(step), &[])?;
    let outcome = run(
        alloc,
        search,
        inner.as_slice(),
        End::Inner,
        posted,
        best,
        left,
    )?;
    match first_leaf(search.core, outcome.marks.as_slice()) {
        None => Ok(outcome),
        Some((at, entered)) => {
            let before = &outcome.marks.as_slice()[..at];
            let more = left.saturating_sub(choices(search.core, before));
            let next = run(alloc, search, others, end, entered, best, more)?;
            behind(alloc, search.core, before, next)
        }
    }
}

/// What tasks make, with these constraints, this best value and so many choices left.
#[cycle(running)]
pub fn run<R: Ranges>(
    alloc: Global,
    search: &Search<'_, R>,
    tasks: &[Task<'_>],
    end: End,
    posted: &[Cons],
    best: Option<i128>,
    left: u64,
) -> Result<Outcome, OutOfMemory>
    requires core { IsSoundCore search.now.core.now }
    requires tasks { AreSoundTasks search.now.core.now.sets (tasks_in search.now.core.now tasks.now) }
    requires posted { AreSound search.now.core.now (facts_in search.now.core.now posted.now) }
    requires best { IsBest search.now.core.now.sets (goal_term search.now.core.now) best }
    ensures { IfOk result (λ o. IsRun search.now.core.now o (doing search.now.core.now end (tasks_in search.now.core.now tasks.now) (facts_in search.now.core.now posted.now) best left) left) }
{
    let sets = match search.sets(alloc, posted, best)? {
        None => return Ok(Outcome::nothing(alloc, search.core, best, left)),
        Some(sets) => sets,
    };
    let _ = sets.vars();
    match next_step(alloc, search, &sets, tasks, posted, left)? {
        Next::Finished => finished(alloc, search, &sets, end, posted, best, left),
        Next::Nothing => Ok(Outcome::nothing(alloc, search.core, best, left)),
        Next::Spent => Ok(Outcome::nothing(alloc, search.core, best, 0).with_cut()),
        Next::Go(way) => run(
            alloc,
            search,
            way.tasks.as_slice(),
            end,
            way.posted.as_slice(),
            best,
            left,
        ),
        Next::Choose(ways) => choose(alloc, search, ways.as_slice(), end, best, left),
        Next::Commit(step, others) => commit(
            alloc,
            search,
            step,
            others.as_slice(),
            end,
            posted,
            best,
            left,
        ),
    }
}
