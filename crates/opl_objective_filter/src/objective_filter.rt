//! The filter of the bound on a linear objective.
ghost use Rattle.std.specs.Prelude.{◌≡◌, ◌+◌, ◌^◌, ◌≤◌, ◌+ℤ◌, neg_ℤ, true, false, length, unsigned_abs, Some, IfOk};
ghost use Rattle.opl_domain.specs.Family.{Below};
ghost use Rattle.opl_expr.specs.Solutions.{declared};
ghost use Rattle.opl_expr.specs.Sound.{IsSmall};
ghost use Rattle.opl_filter.specs.Filtering.{refutes, IsBetween, Filters};
ghost use Rattle.opl_range.specs.Between.{between};
ghost use Rattle.opl_trace.specs.Objective.{better_than};
ghost use Rattle.opl_trace.specs.SoundCores.{IsSoundGoal};
ghost use Rattle.opl_linear_filter.specs.Parts.{ArePartsBoth};
ghost use Rattle.opl_objective_filter.specs.ObjectiveFilters.{goal_in, zero, lesser, greater, constant_at, IsNear, IsFilterOf, IsThereFor};

use opl_domain::{Narrow, OutOfMemory};
use opl_expr::{Core, Expr, Goal};
use opl_filter::Outcome;
use opl_linear::{Kind, filter_form};
use opl_linear_filter::{constant_part, parts_between};
use opl_list::Seq;
use opl_range::is_linear;
use std::alloc::Global;

/// The linear form that a linear objective has to bring below 0 to be better than a best value: the objective less that value, or,
/// where the greatest value is the best, the best value less the objective.
#[derive(Drop)]
pub struct ObjectiveFilter {
    /// Whether the greatest value is the best.
    maximize: bool,
    parts: Seq<(u32, i128)>,
    /// The same variables with the opposite factors.
    opposites: Seq<(u32, i128)>,
    /// The number that stands beside the variables of the objective.
    constant: i128,
}

/// Twice a best value below it fits.
const HALF: u128 = 1 << 126;

/// Whether a best value is below 2^126 in absolute value, as each value of the objective of a sound core is.
pub fn is_near(best: i128) -> bool
    ensures near { result ≡ true → IsNear best }
    ensures far { result ≡ false → 2 ^ 126 ≤ unsigned_abs best }
{
    best.unsigned_abs() < HALF
}

/// The variables of the form, and the same with the opposite factors.
fn parts_below(
    alloc: Global,
    core: &Core,
    goal: &Goal,
) -> Result<(Seq<(u32, i128)>, Seq<(u32, i128)>), OutOfMemory>
    requires { IsSoundGoal core.now.sets (Some (goal_in core.now goal.now).term) }
    ensures { IfOk result (ArePartsBoth (between core.now (lesser goal.now zero) (greater goal.now zero)) (length core.now.sets)) }
{
    let zero = Expr::Const(0);
    if goal.maximize {
        parts_between(alloc, core, &zero, &goal.value)
    } else {
        parts_between(alloc, core, &goal.value, &zero)
    }
}

/// The first number less the second.
fn less(x: i128, y: i128) -> i128
    requires { IsSmall (unsigned_abs x + unsigned_abs y) }
    ensures { result ≡ x +ℤ neg_ℤ y }
{
    x - y
}

impl ObjectiveFilter {
    /// The filter of an objective, exactly where that is linear.
    pub fn new(
        alloc: Global,
        core: &Core,
        goal: &Goal,
    ) -> Result<Option<ObjectiveFilter>, OutOfMemory>
        requires { IsSoundGoal core.now.sets (Some (goal_in core.now goal.now).term) }
        ensures { IfOk result (IsThereFor core.now (goal_in core.now goal.now)) }
    {
        if !is_linear(core, &goal.value) {
            return Ok(None);
        }
        let (parts, opposites) = parts_below(alloc, core, goal)?;
        Ok(Some(ObjectiveFilter {
            maximize: goal.maximize,
            parts,
            opposites,
            constant: constant_part(core, &goal.value),
        }))
    }

    /// The constant of the form.
    fn constant_at(&self, best: i128) -> i128
        requires { IsSmall (unsigned_abs self.now.constant + unsigned_abs best) }
        ensures { result ≡ constant_at self.now best }
    {
        if self.maximize {
            less(best, self.constant)
        } else {
            less(self.constant, best)
        }
    }

    /// Removes values with which alone the objective can't be better than `best`, until the family is stable, or until none within
    /// is. All values must be declared. It takes no memory.
    pub fn filter<N: Narrow>(&self, core: &Core, goal: &Goal, best: i128, n: &mut N) -> Outcome
        requires near { IsNear best }
        requires objective { IsFilterOf core.now (goal_in core.now goal.now) self.now }
        requires declared { Below (N.family n.old) (declared core.now) }
        ensures between { IsBetween (refutes (better_than (goal_in core.now goal.now) best)) (N.family n.old) (N.family n.new) }
        ensures outcome { Filters (refutes (better_than (goal_in core.now goal.now) best)) (N.family n.old) (N.family n.new) result }
        ensures leads_to { N.leads_to n.old n.new }
    {
        // No set is empty: a view says so with its number of variables.
        let _vars = n.vars();
        filter_form(
            Kind::Below,
            self.parts.as_slice(),
            self.opposites.as_slice(),
            self.constant_at(best),
            n,
        )
    }
}
