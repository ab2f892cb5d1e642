//! The constraints of a condition under the choices of a `forall`.
ghost use Rattle.std.specs.Prelude.{map};
ghost use Rattle.opl_draft.specs.Instances.{constraint as constraint_at, for_all as instances_for};
ghost use Rattle.opl_eval.specs.Evaluation.{group_meaning};
ghost use Rattle.opl_groups.specs.Visits.{latest, sees};
ghost use Rattle.opl_meaning.specs.Uses.{place_of};
ghost use Rattle.opl_term.specs.Terms as terms;
ghost use Rattle.opl_posting.specs.Walks as spec;

use crate::condition::term_constraint;
use crate::place::place;
use crate::plan::Plan;
use crate::posted::Posted;
use opl_groups::{Choices, Scope};
use opl_list::Boxed;
use opl_nodes::FormFault;
use opl_term::{GroupTerm, Term, expr_term};
use opl_tree::ExprTree;
use std::alloc::Global;

/// The constraints, and those of a condition under one choice for groups after another behind them. The condition is read off its tree
/// once.
pub(crate) fn constraints(
    alloc: Global,
    plan: Plan<'_>,
    scope: Scope<'_>,
    t: &ExprTree,
    groups: &[GroupTerm],
    condition: &Option<Boxed<Term>>,
    posted: Posted,
) -> Result<Posted, FormFault>
    requires { spec.IsPlan plan scope.environment.now }
    ensures { spec.PostsBehind (spec.behind plan.entry scope.entry.environment.now posted (instances_for (map group_meaning groups.now) condition.now (constraint_at (place_of (terms.expr_term t.now)) (terms.expr_term t.now)) (sees scope.entry))) result }
{
    let term = expr_term(alloc, t)?;
    let at = place(term.get());
    term_constraints(
        alloc,
        plan,
        scope,
        at,
        term.get(),
        groups,
        condition,
        posted,
    )
}

/// The same of a condition whose item stands at a place. More than 2^64 - 1 choices count as want of memory.
fn term_constraints(
    alloc: Global,
    plan: Plan<'_>,
    scope: Scope<'_>,
    at: u32,
    term: &Term,
    groups: &[GroupTerm],
    condition: &Option<Boxed<Term>>,
    posted: Posted,
) -> Result<Posted, FormFault>
    requires { spec.IsPlan plan scope.environment.now }
    ensures { spec.PostsBehind (spec.behind plan.entry scope.entry.environment.now posted (instances_for (map group_meaning groups.now) condition.now (constraint_at at term.now) (sees scope.entry))) result }
{
    opl_unfolding::laws::for_all_by_choice();
    opl_unfolding::laws::posted_by_choice();
    opl_unfolding::laws::posted_stop();
    let mut choices = Choices::new(alloc, groups, condition);
    let mut posted = posted;
    for _ in 0..u64::MAX {
        let is_met = choices.advance(alloc, scope)?;
        if !is_met {
            return Ok(posted);
        }
        match constraint_under(alloc, plan, scope, at, term, &choices, posted) {
            Ok(next) => posted = next,
            Err(fault) => return Err(fault),
        }
    }
    Err(FormFault::OutOfMemory)
}

/// The constraints, and that of a condition under the latest choice behind them.
fn constraint_under(
    alloc: Global,
    plan: Plan<'_>,
    scope: Scope<'_>,
    at: u32,
    term: &Term,
    choices: &Choices<'_>,
    posted: Posted,
) -> Result<Posted, FormFault>
    requires { spec.IsPlan plan scope.environment.now }
    ensures { spec.PostsBehind (spec.behind plan.entry scope.entry.environment.now posted (constraint_at at term.now (latest choices.now (sees scope.entry)))) result }
{
    let parameters = (&*choices).parameters(alloc, scope)?;
    let inner = Scope {
        environment: scope.environment,
        parameters: parameters.as_slice(),
    };
    term_constraint(alloc, plan, inner, at, term, posted)
}
