//! The filter of the bound on the objective.
ghost use Rattle.std.specs.Prelude.{◌≡◌, ℕ};
ghost use Rattle.opl_domain.specs.Family.{Below};
ghost use Rattle.opl_expr.specs.Sound.{IsSoundTerm};
ghost use Rattle.opl_expr.specs.Solutions.{declared};
ghost use Rattle.opl_filter.specs.Filtering.{refutes, IsBetween, Filters};
ghost use Rattle.opl_trace.specs.Objective.{better_than};
ghost use Rattle.opl_objective_filter.specs.ObjectiveFilters.{goal_in};
ghost use Rattle.opl_engine.specs.Members.{AreThere, AreVariablesOf, IsObjectiveFilterIfAny};

use opl_domain::{Narrow, View};
use opl_expr::{Core, Goal};
use opl_filter::{Outcome, remove_dead};
use opl_objective_filter::{ObjectiveFilter, is_near};
use opl_range::range;
use opl_trace::Test;

/// Whether a family has no assignment whose objective is better than a best value.
#[derive(Drop)]
struct Unbeaten<'a> {
    core: &'a Core,
    goal: &'a Goal,
    best: i128,
}

impl<'a> Test for Unbeaten<'a> {
    ghost use Rattle.opl_domain.specs.Family.{Below};
    ghost use Rattle.opl_expr.specs.Sound.{IsSoundTerm};
    ghost use Rattle.opl_expr.specs.Solutions.{declared};
    ghost use Rattle.opl_filter.specs.Filtering.{refutes};
    ghost use Rattle.opl_trace.specs.Objective.{better_than};
    ghost use Rattle.opl_objective_filter.specs.ObjectiveFilters.{goal_in};

    ghost can_test = { λ s F. IsSoundTerm s.core.now.sets (goal_in s.core.now s.goal.now).term × Below F (declared s.core.now) };

    ghost dead = { λ s. refutes (better_than (goal_in s.core.now s.goal.now) s.best) };

    fn is_dead<V: View>(&self, view: &V) -> bool {
        match range(self.core, &self.goal.value, view) {
            None => true,
            Some(values) => {
                if self.goal.maximize {
                    values.hi() <= self.best
                } else {
                    self.best <= values.lo()
                }
            }
        }
    }
}

/// Removes, of the variables of the objective, each value with which alone no value is better than `best`, until none is left
/// or there is no better one at all, value by value. It takes no memory.
fn sweep_better<N: Narrow>(
    core: &Core,
    goal: &Goal,
    best: i128,
    variables: &[u32],
    n: &mut N,
) -> Outcome
    requires sound { IsSoundTerm core.now.sets (goal_in core.now goal.now).term }
    requires declared { Below (N.family n.old) (declared core.now) }
    requires there { AreThere core.now variables.now }
    requires named { AreVariablesOf variables.now (goal_in core.now goal.now).term }
    ensures between { IsBetween (refutes (better_than (goal_in core.now goal.now) best)) (N.family n.old) (N.family n.new) }
    ensures outcome { Filters (refutes (better_than (goal_in core.now goal.now) best)) (N.family n.old) (N.family n.new) result }
    ensures leads_to { N.leads_to n.old n.new }
{
    let test = Unbeaten { core, goal, best };
    remove_dead(&test, variables, n)
}

/// Does so by the linear form of the objective, where that has one and `best` is small enough for it.
pub fn keep_better<N: Narrow>(
    core: &Core,
    goal: &Goal,
    best: i128,
    variables: &[u32],
    form: &Option<ObjectiveFilter>,
    n: &mut N,
) -> Outcome
    requires sound { IsSoundTerm core.now.sets (goal_in core.now goal.now).term }
    requires declared { Below (N.family n.old) (declared core.now) }
    requires there { AreThere core.now variables.now }
    requires named { AreVariablesOf variables.now (goal_in core.now goal.now).term }
    requires form { IsObjectiveFilterIfAny core.now (goal_in core.now goal.now) form.now }
    ensures between { IsBetween (refutes (better_than (goal_in core.now goal.now) best)) (N.family n.old) (N.family n.new) }
    ensures outcome { Filters (refutes (better_than (goal_in core.now goal.now) best)) (N.family n.old) (N.family n.new) result }
    ensures leads_to { N.leads_to n.old n.new }
{
    match form {
        None => sweep_better(core, goal, best, variables, n),
        Some(filter) => {
            if is_near(best) {
                filter.filter(core, goal, best, n)
            } else {
                sweep_better(core, goal, best, variables, n)
            }
        }
    }
}
