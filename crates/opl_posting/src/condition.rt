//! The constraint of a condition, and the conditions of `if`.
ghost use Rattle.opl_draft.specs.Instances.{constraint as constraint_at};
ghost use Rattle.opl_eval.specs.Evaluation as evaluation;
ghost use Rattle.opl_eval.specs.Evaluation.{found};
ghost use Rattle.opl_eval.specs.Visible.{Gives};
ghost use Rattle.opl_groups.specs.Visits.{sees};
ghost use Rattle.opl_meaning.specs.Uses.{place_of};
ghost use Rattle.opl_term.specs.Terms as terms;
ghost use Rattle.opl_posting.specs.Walks as spec;

use crate::place::place;
use crate::plan::Plan;
use crate::posted::{Posted, pushed};
use opl_eval::{EvalFault, eval};
use opl_groups::Scope;
use opl_maker::make_truth;
use opl_making::Site;
use opl_nodes::{Context, FormFault, is_true};
use opl_term::{Term, expr_term};
use opl_tree::ExprTree;
use std::alloc::Global;

/// The constraints, and that of a condition as an item behind them.
pub(crate) fn constraint(
    alloc: Global,
    plan: Plan<'_>,
    scope: Scope<'_>,
    t: &ExprTree,
    posted: Posted,
) -> Result<Posted, FormFault>
    requires { spec.IsPlan plan scope.environment.now }
    ensures { spec.PostsBehind (spec.behind plan.entry scope.entry.environment.now posted (constraint_at (place_of (terms.expr_term t.now)) (terms.expr_term t.now) (sees scope.entry))) result }
{
    let term = expr_term(alloc, t)?;
    term_constraint(alloc, plan, scope, place(term.get()), term.get(), posted)
}

/// The same of a condition whose item stands at a place.
pub(crate) fn term_constraint(
    alloc: Global,
    plan: Plan<'_>,
    scope: Scope<'_>,
    at: u32,
    term: &Term,
    posted: Posted,
) -> Result<Posted, FormFault>
    requires { spec.IsPlan plan scope.environment.now }
    ensures { spec.PostsBehind (spec.behind plan.entry scope.entry.environment.now posted (constraint_at at term.now (sees scope.entry))) result }
{
    let context = Context {
        sets: plan.sets,
        arrays: plan.arrays,
        item: at,
    };
    let site = Site {
        context: &context,
        declared: plan.declared,
    };
    let made = make_truth(alloc, site, scope, term, posted.nodes);
    let Context {
        sets: _sets,
        arrays: _arrays,
        item: _item,
    } = context;
    match made {
        Ok(part) => pushed(alloc, posted, part),
        Err(fault) => Err(fault),
    }
}

/// Whether the condition of an `if` holds.
pub(crate) fn holds(
    alloc: Global,
    scope: Scope<'_>,
    condition: &ExprTree,
) -> Result<bool, EvalFault>
    ensures { Gives (λ b. b) (found evaluation.is_true (evaluation.eval (terms.expr_term condition.now) (sees scope.entry))) result }
{
    let term = expr_term(alloc, condition)?;
    let value = eval(alloc, scope.environment, scope.parameters, term.get())?;
    Ok(is_true(&value))
}
