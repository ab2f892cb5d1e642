//! The core of a model.
ghost use Rattle.std.specs.Prelude.{◌≡◌, [], IfOk, Ok, map};
ghost use Rattle.opl_eval.specs.Visible.{seen};
ghost use Rattle.opl_meaning.specs.Variables.{variables_in};
ghost use Rattle.opl_nodes.specs.Contexts.{cells};
ghost use Rattle.opl_show.specs.Readings.{names_of};
ghost use Rattle.opl_ground.specs.Names as names;
ghost use Rattle.opl_grounding.specs.Grounds.{Grounds, core_over};

use crate::arrays::all_arrays;
use crate::ends::ends_of;
use crate::forms::{Forms, all_forms};
use crate::tables::tables_of;
use opl_eval::Environment;
use opl_expr::{Core, Goal};
use opl_list::{Boxed, Seq};
use opl_meaning::VariableItem;
use opl_names::variable_names;
use opl_nodes::{Array, FormFault};
use opl_tree::ModelTree;
use std::alloc::{AllocError, Global};

/// An objective out of its box, if there is one.
fn unboxed(goal: Option<Boxed<Goal>>) -> Option<Goal>
    ensures { result ≡ goal }
{
    match goal {
        None => None,
        Some(goal) => Some(goal.into_inner()),
    }
}

/// The core of this objective and these constraints over these declared sets and arrays.
fn core_with(
    alloc: Global,
    enumerations: &[Seq<&[u8]>],
    variables: &[VariableItem],
    sets: Seq<(i64, i64)>,
    arrays: &[Array<'_>],
    forms: Forms,
) -> Result<Core, AllocError>
    ensures { IfOk result (λ core. core ≡ core_over (names.variable_names (names_of enumerations.now) variables.now) sets (map cells arrays.now) forms.goal forms.cons) }
{
    let names = variable_names(alloc, enumerations, variables)?;
    let tables = tables_of(alloc, arrays)?;
    let Forms { goal, cons } = forms;
    Ok(Core {
        names,
        sets,
        tables,
        resources: Seq::new(alloc),
        cons,
        goal: unboxed(goal),
        search: None,
    })
}

/// The core of a model whose data are bound and which has these decision variables, or the first fault of its objective and its
/// constraints. Values of enumerations are written by their names, declaration after declaration.
///
/// # Errors
///
/// The fault of the objective, or else of the first constraint, that has no form, with the place that it tells; `OutOfMemory` where memory
/// is wanting, and from 2^32 variables on.
pub fn ground(
    alloc: Global,
    enumerations: &[Seq<&[u8]>],
    environment: &Environment<'_>,
    variables: &[VariableItem],
    tree: &ModelTree,
) -> Result<Core, FormFault>
    requires { variables_in (seen environment.now) [] tree.now.decls ≡ Ok variables.now }
    ensures { Grounds (names_of enumerations.now) tree.now (seen environment.now) variables.now result }
{
    let arrays = all_arrays(alloc, environment, variables)?;
    let sets = ends_of(alloc, variables)?;
    let made = all_forms(
        alloc,
        sets.as_slice(),
        arrays.as_slice(),
        environment,
        variables,
        tree,
    );
    match made {
        Ok(forms) => {
            let core = core_with(
                alloc,
                enumerations,
                variables,
                sets,
                arrays.as_slice(),
                forms,
            )?;
            Ok(core)
        }
        Err(fault) => Err(fault),
    }
}
