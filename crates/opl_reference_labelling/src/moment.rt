//! What a search asks at one of its moments.
ghost use Rattle.std.specs.Prelude.{◌≡◌, ◌++◌, ℤ, List, int_lt, IfOk};
ghost use Rattle.std.specs.List.{list_any};
ghost use Rattle.opl_domain.specs.Family.{Below};
ghost use Rattle.opl_expr.specs.Range.{is_refuted};
ghost use Rattle.opl_expr.specs.Solutions.{declared, goal_term};
ghost use Rattle.opl_trace.specs.Marks.{objective};
ghost use Rattle.opl_trace.specs.Objective.{bound};
ghost use Rattle.opl_trace.specs.SoundCores.{IsSoundCore};
ghost use Rattle.opl_trace.specs.Moments.{core_sets};
ghost use Rattle.opl_trace.specs.SoundCores.{facts_in, AreSound, IsBest};

use crate::constraints;
use crate::ranges::Ranges;
use opl_domain::View;
use opl_expr::{Cons, Core, OutOfMemory};
use opl_list::Seq;
use opl_trace::{Sets, Test, closed};
use std::alloc::Global;

/// A search of a core.
#[derive(Drop)]
pub struct Search<'a, R> {
    pub ranges: &'a R,
    pub core: &'a Core,
}

/// Whether sets refute a constraint of a list.
#[derive(Drop)]
struct Refuting<'a, R> {
    ranges: &'a R,
    core: &'a Core,
    members: &'a [Cons],
}

impl<'a, R: Ranges> Test for Refuting<'a, R> {
    ghost use Rattle.std.specs.List.{list_any};
    ghost use Rattle.opl_domain.specs.Family.{Below};
    ghost use Rattle.opl_expr.specs.Range.{is_refuted};
    ghost use Rattle.opl_expr.specs.Solutions.{declared};
    ghost use Rattle.opl_trace.specs.SoundCores.{facts_in, AreSound};

    ghost can_test = { λ s F. AreSound s.core.now (facts_in s.core.now s.members.now) × Below F (declared s.core.now) };

    ghost dead = { λ s F. list_any (is_refuted F) (facts_in s.core.now s.members.now) };

    fn is_dead<V: View>(&self, view: &V) -> bool {
        for c in self.members {
            if self.ranges.refuted(self.core, c, view) {
                return true;
            }
        }
        false
    }
}

/// Whether one of some declared sets is empty.
fn has_empty(ends: &[(i64, i64)]) -> bool
    ensures { result ≡ list_any (λ p. int_lt p.1 p.0) ends.now }
{
    for (lo, hi) in ends {
        if *hi < *lo {
            return true;
        }
    }
    false
}

/// The constraints, and the one that asks for a better value than `best`.
fn members(
    alloc: Global,
    core: &Core,
    posted: &[Cons],
    best: Option<i128>,
) -> Result<Seq<Cons>, OutOfMemory>
    ensures { IfOk result (λ r. facts_in core.now r ≡ facts_in core.now posted.now ++ bound (objective core.now) best) }
{
    let mut members = constraints::copies(alloc, posted)?;
    match &core.goal {
        None => Ok(members),
        Some(goal) => match best {
            None => Ok(members),
            Some(best) => {
                members.push(constraints::better_than(alloc, core, goal, best)?)?;
                Ok(members)
            }
        },
    }
}

impl<'a, R: Ranges> Search<'a, R> {
    /// The sets of a moment, by its constraints and its best value; none where there are none.
    pub fn sets(
        &self,
        alloc: Global,
        posted: &[Cons],
        best: Option<i128>,
    ) -> Result<Option<Sets>, OutOfMemory>
        requires core { IsSoundCore self.now.core.now }
        requires posted { AreSound self.now.core.now (facts_in self.now.core.now posted.now) }
        requires best { IsBest self.now.core.now.sets (goal_term self.now.core.now) best }
        ensures { IfOk result (λ o. o ≡ core_sets self.now.core.now (facts_in self.now.core.now posted.now) best) }
    {
        if has_empty(self.core.sets.as_slice()) {
            return Ok(None);
        }
        let members = members(alloc, self.core, posted, best)?;
        let sets = Sets::new(alloc, self.core.sets.as_slice())?;
        let test = Refuting {
            ranges: self.ranges,
            core: self.core,
            members: members.as_slice(),
        };
        Ok(closed(&test, sets))
    }
}
