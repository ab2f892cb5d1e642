//! Default labelling: a value for each variable in order, one moment after another.
ghost use Rattle.std.specs.Prelude.{◌≡◌, ◌<◌, ◌∷◌, [], true, Some, length, IfOk};
ghost use Rattle.opl_domain.specs.Family.{Below, set_of};
ghost use Rattle.opl_expr.specs.Solutions.{declared, is_among, goal_term};
ghost use Rattle.opl_trace.specs.Marks.{objective};
ghost use Rattle.opl_trace.specs.Objective.{best_after};
ghost use Rattle.opl_trace.specs.Run.{values_of, alternatives};
ghost use Rattle.opl_trace.specs.SoundCores.{IsSoundCore, AreThere};
ghost use Rattle.opl_trace.specs.Moments.{core_sets};
ghost use Rattle.opl_reference_labelling.specs.Labelling.{labelling, values_then};
ghost use Rattle.opl_trace.specs.SoundCores.{facts_in, AreSound, IsBest};
ghost use Rattle.opl_reference_labelling.specs.Outcomes.{IsMade};

use crate::constraints;
use crate::mark::Mark;
use crate::moment::Search;
use crate::outcome::Outcome;
use crate::ranges::Ranges;
use opl_choices::is_single;
use opl_domain::View;
use opl_expr::{Cons, OutOfMemory, value};
use opl_list::Seq;
use opl_trace::Sets;
use std::alloc::Global;

/// The least value of each variable.
fn values_of(alloc: Global, sets: &Sets) -> Result<Seq<i64>, OutOfMemory>
    ensures { IfOk result (λ a. a ≡ values_of sets.now) }
{
    let mut values = Seq::new(alloc);
    for x in 0..sets.vars() {
        values.push(sets.min(x))?;
    }
    Ok(values)
}

impl<'a, R: Ranges> Search<'a, R> {
    /// The best value after a solution.
    fn best_after(&self, values: &[i64], best: Option<i128>) -> Option<i128>
        requires core { IsSoundCore self.now.core.now }
        requires among { is_among values.now (declared self.now.core.now) ≡ true }
        ensures { result ≡ best_after (objective self.now.core.now) values.now best }
    {
        match &self.core.goal {
            None => best,
            Some(goal) => value(self.core, &goal.value, values),
        }
    }

    /// The solution at the end.
    pub fn leaf(
        &self,
        alloc: Global,
        sets: &Sets,
        posted: &[Cons],
        best: Option<i128>,
        left: u64,
    ) -> Result<Outcome, OutOfMemory>
        requires core { IsSoundCore self.now.core.now }
        requires best { IsBest self.now.core.now.sets (goal_term self.now.core.now) best }
        requires moment { core_sets self.now.core.now (facts_in self.now.core.now posted.now) best ≡ Some sets.now }
        ensures { IfOk result (λ o. IsMade self.now.core.now o (labelling self.now.core.now [] (facts_in self.now.core.now posted.now) best left)) }
    {
        let values = values_of(alloc, sets)?;
        let best = self.best_after(values.as_slice(), best);
        let outcome = Outcome::one(alloc, Mark::Solution(values), best, left)?;
        Ok(outcome)
    }

    /// What the values of variable `x`, each followed by the other variables, make.
    #[cycle(labelling)]
    fn values(
        &self,
        alloc: Global,
        sets: &Sets,
        x: u32,
        others: &[u32],
        posted: &[Cons],
        best: Option<i128>,
        left: u64,
    ) -> Result<Outcome, OutOfMemory>
        requires core { IsSoundCore self.now.core.now }
        requires variable { x < length self.now.core.now.sets }
        requires others { AreThere self.now.core.now.sets others.now }
        requires within { Below sets.now (declared self.now.core.now) }
        requires posted { AreSound self.now.core.now (facts_in self.now.core.now posted.now) }
        requires best { IsBest self.now.core.now.sets (goal_term self.now.core.now) best }
        ensures { IfOk result (λ o. IsMade self.now.core.now o (alternatives (values_then self.now.core.now x others.now (set_of sets.now x)) (facts_in self.now.core.now posted.now) best left)) }
    {
        let _ = sets.vars();
        let mut made = Outcome::nothing(alloc, self.core, best, left);
        let mut next = Some(sets.min(x));
        while let Some(v) = next {
            if made.left == 0 {
                return Ok(made.with_cut());
            }
            let more = constraints::with_value(alloc, self.core, posted, x, v)?;
            let outcome = self.label(alloc, others, more.as_slice(), made.best, made.left - 1)?;
            made = made.followed(self.core, Mark::Choice(Some((x, v))), outcome)?;
            if made.is_cut {
                return Ok(made);
            }
            next = sets.next(x, v);
        }
        Ok(made)
    }

    /// What labelling makes, with these constraints, this best value and so many choices left.
    #[cycle(labelling)]
    pub fn label(
        &self,
        alloc: Global,
        variables: &[u32],
        posted: &[Cons],
        best: Option<i128>,
        left: u64,
    ) -> Result<Outcome, OutOfMemory>
        requires core { IsSoundCore self.now.core.now }
        requires variables { AreThere self.now.core.now.sets variables.now }
        requires posted { AreSound self.now.core.now (facts_in self.now.core.now posted.now) }
        requires best { IsBest self.now.core.now.sets (goal_term self.now.core.now) best }
        ensures { IfOk result (λ o. IsMade self.now.core.now o (labelling self.now.core.now variables.now (facts_in self.now.core.now posted.now) best left)) }
    {
        match self.sets(alloc, posted, best)? {
            None => Ok(Outcome::nothing(alloc, self.core, best, left)),
            Some(sets) => match variables.split_first() {
                None => {
                    let outcome = self.leaf(alloc, &sets, posted, best, left)?;
                    Ok(outcome)
                }
                Some((x, others)) => {
                    if is_single(&sets, *x) {
                        let outcome = self.label(alloc, others, posted, best, left)?;
                        Ok(outcome)
                    } else {
                        let outcome = self.values(alloc, &sets, *x, others, posted, best, left)?;
                        Ok(outcome)
                    }
                }
            },
        }
    }
}
