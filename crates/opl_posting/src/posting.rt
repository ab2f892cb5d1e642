//! The constraints of an instruction.
ghost use Rattle.std.specs.Prelude.{◌≡◌, map};
ghost use Rattle.opl_declared.specs.Kept.{IsDeclared, names_in};
ghost use Rattle.opl_draft.specs.Instances.{condition_of, instances};
ghost use Rattle.opl_draft.specs.Numbers.{arrays_of, entries};
ghost use Rattle.opl_eval.specs.Visible.{seen};
ghost use Rattle.opl_form.specs.Forms.{forms};
ghost use Rattle.opl_groups.specs.Visits.{sees};
ghost use Rattle.opl_nodes.specs.Contexts.{cells};
ghost use Rattle.opl_posting.specs.Posts.{Posts};
ghost use Rattle.opl_posting.specs.Walks as spec;

use crate::plan::Plan;
use crate::posted::Posted;
use crate::walk::block;
use opl_declared::Declared;
use opl_eval::Environment;
use opl_expr::Cons;
use opl_groups::Scope;
use opl_list::Seq;
use opl_nodes::{Array, FormFault};
use opl_tree::InstrTree;
use std::alloc::Global;

/// The constraints that the items of a model give, one after another, where so many nodes were made before them, or the first fault.
pub fn post(
    alloc: Global,
    sets: &[(i64, i64)],
    arrays: &[Array<'_>],
    declared: &Declared<'_>,
    environment: &Environment<'_>,
    instruction: &InstrTree,
    before: u64,
) -> Result<Seq<Cons>, FormFault>
    requires declared { IsDeclared declared.now (seen environment.now).items }
    requires numbered { map cells arrays.now ≡ arrays_of (entries (seen environment.now).items declared.now.items.now) }
    ensures { Posts (forms sets.now (map cells arrays.now) before (map (condition_of declared.now.items.now (names_in declared.now) (seen environment.now)) (instances instruction.now (seen environment.now)))) result }
{
    let plan = Plan {
        sets,
        arrays,
        declared,
    };
    let scope = Scope {
        environment,
        parameters: &[],
    };
    let none = Posted {
        constraints: Seq::new(alloc),
        nodes: before,
    };
    match post_behind(alloc, plan, scope, instruction, none) {
        Ok(posted) => Ok(posted.constraints),
        Err(fault) => Err(fault),
    }
}

/// The constraints, and those of an instruction behind them.
fn post_behind(
    alloc: Global,
    plan: Plan<'_>,
    scope: Scope<'_>,
    instruction: &InstrTree,
    posted: Posted,
) -> Result<Posted, FormFault>
    requires { spec.IsPlan plan scope.environment.now }
    ensures { spec.PostsBehind (spec.behind plan.entry scope.entry.environment.now posted (instances instruction.now (sees scope.entry))) result }
{
    match instruction {
        InstrTree::Solve(_, inner) => block(alloc, plan, scope, inner, posted),
        InstrTree::Optimize(_, _, _, inner) => block(alloc, plan, scope, inner, posted),
    }
}
