//! A walk over items.
ghost use Rattle.std.specs.Prelude.{map};
ghost use Rattle.std.specs.Option.{option_map};
ghost use Rattle.opl_draft.specs.Instances as drafting;
ghost use Rattle.opl_draft.specs.Instances.{block_instances};
ghost use Rattle.opl_eval.specs.Evaluation.{group_meaning};
ghost use Rattle.opl_groups.specs.Visits.{latest, sees};
ghost use Rattle.opl_term.specs.Terms as terms;
ghost use Rattle.opl_posting.specs.Items.{item_instances, items_instances};
ghost use Rattle.opl_posting.specs.Walks as spec;

use crate::condition::{constraint, holds};
use crate::constraints::constraints;
use crate::plan::Plan;
use crate::posted::Posted;
use opl_groups::{Choices, Scope};
use opl_list::Boxed;
use opl_nodes::FormFault;
use opl_term::{GroupTerm, Term, params_term};
use opl_tree::{BlockTree, ItemTree, ItemsTree, ParamsTree};
use std::alloc::Global;

/// The constraints, and those of an item behind them. What is said of scheduling gives none yet.
#[cycle(walk)]
fn item(
    alloc: Global,
    plan: Plan<'_>,
    scope: Scope<'_>,
    t: &ItemTree,
    posted: Posted,
) -> Result<Posted, FormFault>
    requires { spec.IsPlan plan scope.environment.now }
    ensures { spec.PostsBehind (spec.behind plan.entry scope.entry.environment.now posted (item_instances t.now (sees scope.entry))) result }
{
    match t {
        ItemTree::Block(inner) => block(alloc, plan, scope, inner, posted),
        ItemTree::ForAll(_, params, body) => {
            for_all(alloc, plan, scope, body.get(), params, posted)
        }
        ItemTree::If(_, condition, positive, negative) => match holds(alloc, scope, condition) {
            Ok(true) => items(alloc, plan, scope, positive, posted),
            Ok(false) => written(alloc, plan, scope, negative, posted),
            Err(fault) => Err(FormFault::from(fault)),
        },
        ItemTree::Precedes(_, _, _) => Ok(posted),
        ItemTree::Requires(_) => Ok(posted),
        ItemTree::Constraint(t) => constraint(alloc, plan, scope, t, posted),
    }
}

/// `forall (PARAMS) item`. A condition is read off its tree once for all choices.
#[cycle(walk)]
fn for_all(
    alloc: Global,
    plan: Plan<'_>,
    scope: Scope<'_>,
    body: &ItemTree,
    params: &ParamsTree,
    posted: Posted,
) -> Result<Posted, FormFault>
    requires { spec.IsPlan plan scope.environment.now }
    ensures { spec.PostsBehind (spec.behind plan.entry scope.entry.environment.now posted (drafting.for_all_params (terms.params_term params.now) (item_instances body.now) (sees scope.entry))) result }
{
    let params = params_term(alloc, params)?;
    let groups = params.groups.as_slice();
    let condition = &params.condition;
    match body {
        ItemTree::Constraint(t) => { constraints(alloc, plan, scope, t, groups, condition, posted) }
        _ => under_groups(alloc, plan, scope, body, groups, condition, posted),
    }
}

/// The constraints, and those of an item under one choice for groups after another behind them. More than 2^64 - 1 choices count as want
/// of memory.
#[cycle(walk)]
fn under_groups(
    alloc: Global,
    plan: Plan<'_>,
    scope: Scope<'_>,
    body: &ItemTree,
    groups: &[GroupTerm],
    condition: &Option<Boxed<Term>>,
    posted: Posted,
) -> Result<Posted, FormFault>
    requires { spec.IsPlan plan scope.environment.now }
    ensures { spec.PostsBehind (spec.behind plan.entry scope.entry.environment.now posted (drafting.for_all (map group_meaning groups.now) condition.now (item_instances body.now) (sees scope.entry))) result }
{
    opl_unfolding::laws::for_all_by_choice();
    opl_unfolding::laws::posted_by_choice();
    opl_unfolding::laws::posted_stop();
    let mut choices = Choices::new(alloc, groups, condition);
    let mut posted = posted;
    for _ in 0..u64::MAX {
        let is_met = choices.advance(alloc, scope)?;
        if !is_met {
            return Ok(posted);
        }
        match under_choice(alloc, plan, scope, body, &choices, posted) {
            Ok(next) => posted = next,
            Err(fault) => return Err(fault),
        }
    }
    Err(FormFault::OutOfMemory)
}

/// The constraints, and those of an item under the latest choice behind them.
#[cycle(walk)]
fn under_choice(
    alloc: Global,
    plan: Plan<'_>,
    scope: Scope<'_>,
    body: &ItemTree,
    choices: &Choices<'_>,
    posted: Posted,
) -> Result<Posted, FormFault>
    requires { spec.IsPlan plan scope.environment.now }
    ensures { spec.PostsBehind (spec.behind plan.entry scope.entry.environment.now posted (item_instances body.now (latest choices.now (sees scope.entry)))) result }
{
    let parameters = (&*choices).parameters(alloc, scope)?;
    let inner = Scope {
        environment: scope.environment,
        parameters: parameters.as_slice(),
    };
    item(alloc, plan, inner, body, posted)
}

/// The constraints, and those of items behind them, if some are written.
#[cycle(walk)]
fn written(
    alloc: Global,
    plan: Plan<'_>,
    scope: Scope<'_>,
    t: &Option<ItemsTree>,
    posted: Posted,
) -> Result<Posted, FormFault>
    requires { spec.IsPlan plan scope.environment.now }
    ensures { spec.PostsBehind (spec.behind plan.entry scope.entry.environment.now posted (drafting.or_nothing (option_map items_instances t.now) (sees scope.entry))) result }
{
    match t {
        None => Ok(posted),
        Some(t) => items(alloc, plan, scope, t, posted),
    }
}

/// The constraints, and those of a list of items behind them.
#[cycle(walk)]
fn items(
    alloc: Global,
    plan: Plan<'_>,
    scope: Scope<'_>,
    t: &ItemsTree,
    posted: Posted,
) -> Result<Posted, FormFault>
    requires { spec.IsPlan plan scope.environment.now }
    ensures { spec.PostsBehind (spec.behind plan.entry scope.entry.environment.now posted (items_instances t.now (sees scope.entry))) result }
{
    opl_unfolding::laws::posted_in_turn();
    match t {
        ItemsTree::Empty(_) => Ok(posted),
        ItemsTree::Several(_, first, rest, _) => {
            match item(alloc, plan, scope, first.get(), posted) {
                Ok(posted) => each(alloc, plan, scope, rest.as_slice(), posted),
                Err(fault) => Err(fault),
            }
        }
    }
}

/// The constraints, and those of items behind them, one after another.
#[cycle(walk)]
fn each(
    alloc: Global,
    plan: Plan<'_>,
    scope: Scope<'_>,
    parts: &[ItemTree],
    posted: Posted,
) -> Result<Posted, FormFault>
    requires { spec.IsPlan plan scope.environment.now }
    ensures { spec.PostsBehind (spec.behind plan.entry scope.entry.environment.now posted (drafting.in_turn (map item_instances parts.now) (sees scope.entry))) result }
{
    opl_unfolding::laws::posted_in_turn();
    let mut posted = posted;
    for part in parts {
        match item(alloc, plan, scope, part, posted) {
            Ok(next) => posted = next,
            Err(fault) => return Err(fault),
        }
    }
    Ok(posted)
}

/// The constraints, and those of a block behind them. The nesting of items is the depth of the recursion.
#[cycle(walk)]
pub(crate) fn block(
    alloc: Global,
    plan: Plan<'_>,
    scope: Scope<'_>,
    t: &BlockTree,
    posted: Posted,
) -> Result<Posted, FormFault>
    requires { spec.IsPlan plan scope.environment.now }
    ensures { spec.PostsBehind (spec.behind plan.entry scope.entry.environment.now posted (block_instances t.now (sees scope.entry))) result }
{
    items(alloc, plan, scope, &t.items, posted)
}
