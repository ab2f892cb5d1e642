//! The marks of default search, and the sets of a moment.
ghost use Rattle.std.specs.Prelude.{◌≡◌, true, IfOk};
ghost use Rattle.opl_expr.specs.Solutions.{base, goal_term};
ghost use Rattle.opl_trace.specs.Marks.{core_marks, numbers_from};
ghost use Rattle.opl_trace.specs.SoundCores.{IsSoundCore};
ghost use Rattle.opl_trace.specs.Moments.{core_sets};
ghost use Rattle.opl_trace.specs.SoundCores.{facts_in, AreSound, IsBest};
ghost use Rattle.opl_reference_labelling.specs.Outcomes.{marks_in};

use crate::constraints;
use crate::mark::Mark;
use crate::moment::Search;
use crate::ranges::Ranges;
use opl_expr::{Cons, Core, OutOfMemory};
use opl_list::Seq;
use opl_trace::Sets;
use std::alloc::Global;

/// The numbers of the variables, in their order.
pub fn variables(alloc: Global, count: u32) -> Result<Seq<u32>, OutOfMemory>
    ensures { IfOk result (λ xs. xs ≡ numbers_from 0 count) }
{
    let mut variables = Seq::new(alloc);
    for x in 0..count {
        variables.push(x)?;
    }
    Ok(variables)
}

/// The constraints of a core, and the one that asks for a defined objective.
pub fn base(alloc: Global, core: &Core) -> Result<Seq<Cons>, OutOfMemory>
    ensures { IfOk result (λ cs. facts_in core.now cs ≡ base core.now) }
{
    let mut base = constraints::copies(alloc, core.cons.as_slice())?;
    match &core.goal {
        None => Ok(base),
        Some(goal) => {
            base.push(constraints::defined(alloc, core, goal)?)?;
            Ok(base)
        }
    }
}

/// The sets of a moment, by its constraints and its best value; none where the closure has failed.
pub fn closure_of<R: Ranges>(
    alloc: Global,
    ranges: &R,
    core: &Core,
    posted: &[Cons],
    best: Option<i128>,
) -> Result<Option<Sets>, OutOfMemory>
    requires core { IsSoundCore core.now }
    requires posted { AreSound core.now (facts_in core.now posted.now) }
    requires best { IsBest core.now.sets (goal_term core.now) best }
    ensures { IfOk result (λ o. o ≡ core_sets core.now (facts_in core.now posted.now) best) }
{
    let search = Search { ranges, core };
    let sets = search.sets(alloc, posted, best)?;
    Ok(sets)
}

/// The marks of default search with `budget` choices.
pub fn default_marks<R: Ranges>(
    alloc: Global,
    ranges: &R,
    core: &Core,
    budget: u64,
) -> Result<Seq<Mark>, OutOfMemory>
    requires { IsSoundCore core.now }
    ensures { IfOk result (λ ms. marks_in core.now ms ≡ core_marks true core.now budget) }
{
    let search = Search { ranges, core };
    let variables = variables(alloc, core.sets.len() as u32)?;
    let base = base(alloc, core)?;
    let outcome = search.label(alloc, variables.as_slice(), base.as_slice(), None, budget)?;
    let marks = outcome.into_marks(core)?;
    Ok(marks)
}
