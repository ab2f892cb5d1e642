//! The objective of an instruction.
ghost use Rattle.std.specs.Prelude.{◌≡◌, IfOk, Some, map};
ghost use Rattle.opl_term.specs.declared.term.Term.{Term as terms};
ghost use Rattle.opl_declared.specs.Kept.{IsDeclared, names_in};
ghost use Rattle.opl_draft.specs.Numbers.{arrays_of, entries};
ghost use Rattle.opl_eval.specs.Visible.{seen};
ghost use Rattle.opl_form.specs.Laws.{declared_ends};
ghost use Rattle.opl_groups.specs.Visits.{sees};
ghost use Rattle.opl_making.specs.Places.{place_or};
ghost use Rattle.opl_making.specs.Sites as sites;
ghost use Rattle.opl_nodes.specs.declared.context.Context.{Context as contexts};
ghost use Rattle.opl_nodes.specs.Contexts as contents;
ghost use Rattle.opl_nodes.specs.Contexts.{cells};
ghost use Rattle.opl_nodes.specs.Pieces.{IsPart, Makes, form};
ghost use Rattle.opl_optimum.specs.Goals as goals;
ghost use Rattle.opl_optimum.specs.Optima as optima;
ghost use Rattle.opl_posting.specs.Aims as aims;
ghost use Rattle.opl_posting.specs.Walks as spec;

use crate::aim::Aim;
use crate::number::into_number;
use crate::place::place;
use crate::plan::Plan;
use opl_declared::Declared;
use opl_eval::Environment;
use opl_expr::Goal;
use opl_groups::Scope;
use opl_list::Boxed;
use opl_maker::make;
use opl_making::{Site, draft_place};
use opl_nodes::{Array, Context, FormFault, Part, operand};
use opl_numbers::number_part;
use opl_term::{Term, expr_term};
use opl_tree::{InstrTree, Optimum};
use std::alloc::{AllocError, Global};

/// Twice a magnitude is below 2^127 exactly where the magnitude is below this number.
const HALF: u128 = 1 << 126;

/// The form of an expression in an arithmetic place, made before all others. What it is unrolled to stands at this place.
fn operand_form(
    alloc: Global,
    site: Site<'_>,
    scope: Scope<'_>,
    at: u32,
    term: &Term,
) -> Result<Part, FormFault>
    requires site { sites.IsSite site scope.environment.now }
    requires at { place_or at (sites.draft site scope term.now) ≡ at }
    ensures { Makes site.entry.context.now (sites.operand_maker site.entry 0 (sites.draft site.entry scope.entry term.now)) result }
{
    match make(alloc, site, scope, term, 0) {
        Ok(part) => operand(site.context, at, 0, part),
        Err(fault) => Err(fault),
    }
}

/// The same as a number.
fn number_form(
    alloc: Global,
    site: Site<'_>,
    scope: Scope<'_>,
    at: u32,
    term: &Term,
) -> Result<Part, FormFault>
    requires site { sites.IsSite site scope.environment.now }
    requires at { place_or at (sites.draft site scope term.now) ≡ at }
    ensures { Makes site.entry.context.now (goals.number_of (contents.sets site.entry.context.now) (contents.arrays site.entry.context.now) site.entry.context.now.item (sites.draft site.entry scope.entry term.now)) result }
{
    match operand_form(alloc, site, scope, at, term) {
        Ok(part) => number_part(alloc, site.context, at, 0, part),
        Err(fault) => Err(fault),
    }
}

/// A number whose magnitude is small twice over.
fn doubled(at: u32, part: Part) -> Result<Part, FormFault>
    ensures { (c : contexts) → IsPart c part → aims.IsNumber (form part) → Makes c (goals.doubled (contents.sets c) (contents.arrays c) c.item at (form part)) result }
{
    if part.size >= HALF {
        return Err(FormFault::TooLarge(at));
    }
    Ok(part)
}

/// The form of an objective.
fn goal_part(
    alloc: Global,
    site: Site<'_>,
    scope: Scope<'_>,
    term: &Term,
) -> Result<Part, FormFault>
    requires { sites.IsSite site scope.environment.now }
    ensures { Makes site.entry.context.now (goals.goal_form (contents.sets site.entry.context.now) (contents.arrays site.entry.context.now) site.entry.context.now.item (sites.draft site.entry scope.entry term.now)) result }
{
    let at = draft_place(site.declared, term);
    match number_form(alloc, site, scope, at, term) {
        Ok(part) => doubled(at, part),
        Err(fault) => Err(fault),
    }
}

/// Whether the greatest value is the best.
fn is_greatest(optimum: Optimum) -> bool
    ensures { result ≡ optima.is_greatest optimum }
{
    match optimum {
        Optimum::Least => false,
        Optimum::Greatest => true,
    }
}

/// The objective of a form.
fn aimed(alloc: Global, optimum: Optimum, part: Part) -> Result<Aim, AllocError>
    ensures goal { IfOk result (λ a. (t : terms) → a.goal ≡ Some (aims.goal_as (optima.is_greatest optimum) t (form part))) }
    ensures nodes { IfOk result (λ a. a.nodes ≡ part.nodes) }
{
    let nodes = u64::from(part.nodes);
    let value = into_number(alloc, part)?;
    let goal = Goal {
        maximize: is_greatest(optimum),
        value: value.into_inner(),
    };
    Ok(Aim {
        goal: Some(Boxed::new(alloc, goal)?),
        nodes,
    })
}

/// The objective of a term.
fn term_objective(
    alloc: Global,
    plan: Plan<'_>,
    scope: Scope<'_>,
    optimum: Optimum,
    term: &Term,
) -> Result<Aim, FormFault>
    requires { spec.IsPlan plan scope.environment.now }
    ensures { aims.Aims (aims.goal_made plan.entry (sees scope.entry) (optima.is_greatest optimum) term.now) result }
{
    let context = Context {
        sets: plan.sets,
        arrays: plan.arrays,
        item: place(term),
    };
    let site = Site {
        context: &context,
        declared: plan.declared,
    };
    let made = goal_part(alloc, site, scope, term);
    let Context {
        sets: _sets,
        arrays: _arrays,
        item: _item,
    } = context;
    match made {
        Ok(part) => {
            let aim = aimed(alloc, optimum, part)?;
            Ok(aim)
        }
        Err(fault) => Err(fault),
    }
}

/// The objective of a model, if it has one, or the first fault of its form. It is made before the constraints.
pub fn objective(
    alloc: Global,
    sets: &[(i64, i64)],
    arrays: &[Array<'_>],
    declared: &Declared<'_>,
    environment: &Environment<'_>,
    instruction: &InstrTree,
) -> Result<Aim, FormFault>
    requires sets { sets.now ≡ declared_ends declared.now.items.now }
    requires declared { IsDeclared declared.now (seen environment.now).items }
    requires numbered { map cells arrays.now ≡ arrays_of (entries (seen environment.now).items declared.now.items.now) }
    ensures { aims.Aims (goals.goal_by (seen environment.now) declared.now.items.now (names_in declared.now) (optima.objective_of instruction.now)) result }
{
    match instruction {
        InstrTree::Solve(..) => Ok(Aim {
            goal: None,
            nodes: 0,
        }),
        InstrTree::Optimize(_, optimum, expression, _) => {
            let plan = Plan {
                sets,
                arrays,
                declared,
            };
            let scope = Scope {
                environment,
                parameters: &[],
            };
            let term = expr_term(alloc, expression)?;
            term_objective(alloc, plan, scope, *optimum, term.get())
        }
    }
}
