//! The objective and the constraints of a model.
ghost use Rattle.std.specs.Prelude.{◌≡◌, [], Ok, map};
ghost use Rattle.opl_eval.specs.Visible.{seen};
ghost use Rattle.opl_meaning.specs.Runs.{names_of, no_names};
ghost use Rattle.opl_meaning.specs.Variables.{variables_in};
ghost use Rattle.opl_declared.specs.Kept.{IsDeclared, names_in};
ghost use Rattle.opl_draft.specs.Laws as draft;
ghost use Rattle.opl_draft.specs.Numbers.{arrays_of, entries};
ghost use Rattle.opl_form.specs.Laws.{declared_ends};
ghost use Rattle.opl_nodes.specs.Contexts.{cells};
ghost use Rattle.opl_ground.specs.Ground.{goal_of};
ghost use Rattle.opl_posting.specs.Aims.{IsAim};
ghost use Rattle.opl_grounding.specs.Grounds.{MakesForms};

use crate::naming::declared_with;
use opl_declared::Declared;
use opl_eval::Environment;
use opl_expr::{Cons, Goal};
use opl_list::{Boxed, Seq};
use opl_meaning::VariableItem;
use opl_nodes::{Array, FormFault};
use opl_posting::{Aim, objective, post};
use opl_tree::ModelTree;
use std::alloc::Global;

/// The objective of a model, if it has one, and its constraints.
#[derive(Drop)]
pub(crate) struct Forms {
    pub(crate) goal: Option<Boxed<Goal>>,
    pub(crate) cons: Seq<Cons>,
}

/// The objective of a model with its constraints behind it.
fn forms_behind(
    alloc: Global,
    sets: &[(i64, i64)],
    arrays: &[Array<'_>],
    declared: &Declared<'_>,
    environment: &Environment<'_>,
    tree: &ModelTree,
    aim: Aim,
) -> Result<Forms, FormFault>
    requires sets { sets.now ≡ declared_ends declared.now.items.now }
    requires declared { IsDeclared declared.now (seen environment.now).items }
    requires numbered { map cells arrays.now ≡ arrays_of (entries (seen environment.now).items declared.now.items.now) }
    requires names { names_of no_names tree.now.decls ≡ names_in declared.now }
    requires aim { IsAim (goal_of tree.now (seen environment.now) declared.now.items.now) aim }
    ensures { MakesForms tree.now (seen environment.now) declared.now.items.now result }
{
    let Aim { goal, nodes } = aim;
    match post(
        alloc,
        sets,
        arrays,
        declared,
        environment,
        &tree.instr,
        nodes,
    ) {
        Ok(cons) => Ok(Forms { goal, cons }),
        Err(fault) => Err(fault),
    }
}

/// The objective and the constraints of a model whose names are declared.
fn declared_forms(
    alloc: Global,
    sets: &[(i64, i64)],
    arrays: &[Array<'_>],
    declared: &Declared<'_>,
    environment: &Environment<'_>,
    tree: &ModelTree,
) -> Result<Forms, FormFault>
    requires sets { sets.now ≡ declared_ends declared.now.items.now }
    requires declared { IsDeclared declared.now (seen environment.now).items }
    requires numbered { map cells arrays.now ≡ arrays_of (entries (seen environment.now).items declared.now.items.now) }
    requires names { names_of no_names tree.now.decls ≡ names_in declared.now }
    ensures { MakesForms tree.now (seen environment.now) declared.now.items.now result }
{
    match objective(alloc, sets, arrays, declared, environment, &tree.instr) {
        Ok(aim) => { forms_behind(alloc, sets, arrays, declared, environment, tree, aim) }
        Err(fault) => Err(fault),
    }
}

/// The objective and the constraints of a model over these declared sets and arrays, which are those of its data and its variables.
pub(crate) fn all_forms(
    alloc: Global,
    sets: &[(i64, i64)],
    arrays: &[Array<'_>],
    environment: &Environment<'_>,
    variables: &[VariableItem],
    tree: &ModelTree,
) -> Result<Forms, FormFault>
    requires sets { sets.now ≡ declared_ends variables.now }
    requires arrays { map cells arrays.now ≡ draft.arrays (seen environment.now) variables.now }
    requires variables { variables_in (seen environment.now) [] tree.now.decls ≡ Ok variables.now }
    ensures { MakesForms tree.now (seen environment.now) variables.now result }
{
    opl_runs::laws::names_are_declared();
    let declared = declared_with(alloc, variables, arrays)?;
    declared_forms(alloc, sets, arrays, &declared, environment, tree)
}
