//! Names under an assignment.
ghost use Rattle.std.specs.Prelude.{◌≡◌, ℕ, List, None, Ok, Some, map};
ghost use Rattle.opl_eval.specs.Evaluation.{parameter_or};
ghost use Rattle.opl_eval.specs.Visible.{Gives, parameter_of};
ghost use Rattle.opl_draft.specs.Drafts.{Cells, Draft};
ghost use Rattle.opl_draft.specs.Forms.{cells_in};
ghost use Rattle.opl_draft.specs.Numbers.{variable_named};
ghost use Rattle.opl_draft.specs.Unrolled.{named_draft, plain_draft};
ghost use Rattle.opl_declared.specs.Lookups.{cells_named};
ghost use Rattle.opl_groups.specs.Visits.{sees};
ghost use Rattle.opl_making.specs.Sites as sites;
ghost use Rattle.opl_held.specs.Sourced as spec;
ghost use Rattle.opl_held.specs.Worth.{worth};

use crate::arrays::different;
use crate::assigned::variable;
use crate::outcome::Outcome;
use opl_declared::{Numbered, name_of};
use opl_eval::EvalFault;
use opl_groups::Scope;
use opl_making::{Site, declared_number, elements_differ, parameter};
use opl_term::Term;
use opl_value::Value;
use std::alloc::Global;

/// A name: the parameter of that name, else the decision variable.
pub(crate) fn named(
    alloc: Global,
    site: Site<'_>,
    scope: Scope<'_>,
    values: &[i64],
    name: &[u8],
) -> Result<Outcome<Value>, EvalFault>
    requires { sites.IsSite site scope.environment.now }
    ensures { (at : ℕ) → Gives (λ part. part) (spec.worth_at site.entry values.now (named_draft at (parameter_or None name.now (map parameter_of scope.entry.parameters.now)) (variable_named name.now (sites.items site.entry)))) result }
{
    match parameter(scope.parameters, name) {
        Some(value) => copied(alloc, value),
        None => declared(site, scope, values, name),
    }
}

/// A value that stands elsewhere.
fn copied(alloc: Global, value: &Value) -> Result<Outcome<Value>, EvalFault>
    ensures { Gives (λ part. part) (Ok (Outcome.Fixed value.now)) result }
{
    Ok(Outcome::Fixed(value.copy(alloc)?))
}

/// The decision variable of a name.
fn declared(
    site: Site<'_>,
    scope: Scope<'_>,
    values: &[i64],
    name: &[u8],
) -> Result<Outcome<Value>, EvalFault>
    requires { sites.IsSite site scope.environment.now }
    ensures { (at : ℕ) → Gives (λ part. part) (spec.worth_at site.entry values.now (named_draft at None (variable_named name.now (sites.items site.entry)))) result }
{
    match site.declared.variable(scope.environment, name) {
        Some(numbered) => single(values, numbered),
        None => Ok(Outcome::Fixed(Value::Int(0))),
    }
}

/// A decision variable that is no array. An array stands nowhere alone, which typing sees to.
fn single(values: &[i64], numbered: Numbered<'_>) -> Result<Outcome<Value>, EvalFault>
    ensures { (arrays : List Cells) (at : ℕ) → Gives (λ part. part) (worth arrays values.now (plain_draft at numbered.entry.item.now numbered.entry.first numbered.entry.item.now.space)) result }
{
    match &numbered.item.space {
        None => {
            let value = variable(values, numbered.item.kind, numbered.first as usize)?;
            Ok(Outcome::Live(Some(value)))
        }
        Some(_) => Ok(Outcome::Fixed(Value::Int(0))),
    }
}

/// `alldifferent` of the array that a term names. What names none differs.
pub(crate) fn difference(
    alloc: Global,
    site: Site<'_>,
    scope: Scope<'_>,
    values: &[i64],
    term: &Term,
) -> Result<Outcome<Value>, EvalFault>
    requires { sites.IsSite site scope.environment.now }
    ensures { (at : ℕ) → Gives (λ part. part) (spec.worth_at site.entry values.now (Draft.different at (cells_in (sites.items site.entry) (sites.names site.entry) term.now (sees scope.entry)))) result }
{
    match name_of(site.declared, term) {
        Some(name) => named_difference(alloc, site, scope, values, name),
        None => Ok(Outcome::Fixed(Value::Bool(true))),
    }
}

/// The same of the array that a name stands for.
fn named_difference(
    alloc: Global,
    site: Site<'_>,
    scope: Scope<'_>,
    values: &[i64],
    name: &[u8],
) -> Result<Outcome<Value>, EvalFault>
    requires { sites.IsSite site scope.environment.now }
    ensures { (at : ℕ) → Gives (λ part. part) (spec.worth_at site.entry values.now (Draft.different at (cells_named (sites.items site.entry) (Some name.now) (sees scope.entry)))) result }
{
    match parameter(scope.parameters, name) {
        Some(value) => Ok(Outcome::Fixed(Value::Bool(elements_differ(alloc, value)?))),
        None => {
            let array = declared_number(site, scope, name)?;
            Ok(different(alloc, site.context, array, values)?)
        }
    }
}
