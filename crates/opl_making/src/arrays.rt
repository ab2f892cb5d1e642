//! Arrays by name.
ghost use Rattle.std.specs.Prelude.{◌≡◌, IfOk, None, Some};
ghost use Rattle.opl_value.specs.declared.value.Dimension.TheViews.{out-Value};
ghost use Rattle.opl_eval.specs.Evaluation as evaluation;
ghost use Rattle.opl_eval.specs.Visible.{seen};
ghost use Rattle.opl_draft.specs.Forms.{array_in};
ghost use Rattle.opl_draft.specs.Numbers.{array_or, entries};
ghost use Rattle.opl_declared.specs.Lookups.{array_named};
ghost use Rattle.opl_groups.specs.Visits.{sees};
ghost use Rattle.opl_making.specs.Sites as spec;

use crate::parameters::parameter;
use crate::site::Site;
use opl_declared::name_of;
use opl_eval::are_different;
use opl_groups::Scope;
use opl_term::Term;
use opl_value::Value;
use std::alloc::{AllocError, Global};

/// A number in 32 bits. From 2^32 on memory is wanting.
fn narrowed(number: Option<usize>) -> Result<Option<u32>, AllocError>
    ensures { IfOk result (λ n. n ≡ number) }
{
    match number {
        Some(number) => match u32::try_from(number) {
            Ok(number) => Ok(Some(number)),
            Err(_) => Err(AllocError),
        },
        None => Ok(None),
    }
}

/// The number of the array that the latest declaration of a name declares, if it is one.
pub fn declared_number(
    site: Site<'_>,
    scope: Scope<'_>,
    name: &[u8],
) -> Result<Option<u32>, AllocError>
    requires { spec.IsSite site scope.environment.now }
    ensures { IfOk result (λ n. n ≡ array_or None 0 name.now (entries (seen scope.entry.environment.now).items (spec.items site.entry))) }
{
    narrowed(site.declared.array(scope.environment, name))
}

/// The number of the array that a name stands for, if it is one. A parameter has none.
fn named_number(site: Site<'_>, scope: Scope<'_>, name: &[u8]) -> Result<Option<u32>, AllocError>
    requires { spec.IsSite site scope.environment.now }
    ensures { IfOk result (λ n. n ≡ array_named (spec.items site.entry) (Some name.now) (sees scope.entry)) }
{
    match parameter(scope.parameters, name) {
        Some(_) => Ok(None),
        None => declared_number(site, scope, name),
    }
}

/// The number of the array that a term names, if it is one.
pub fn array_number(
    site: Site<'_>,
    scope: Scope<'_>,
    term: &Term,
) -> Result<Option<u32>, AllocError>
    requires { spec.IsSite site scope.environment.now }
    ensures { IfOk result (λ n. n ≡ array_in (spec.items site.entry) (spec.names site.entry) term.now (sees scope.entry)) }
{
    match name_of(site.declared, term) {
        Some(name) => named_number(site, scope, name),
        None => Ok(None),
    }
}

/// Whether the elements of a value differ, where it is an array.
#[tactic(auto, using(opl_eval::proofs::SetElements::different_of_variants))]
pub fn elements_differ(alloc: Global, value: &Value) -> Result<bool, AllocError>
    ensures { IfOk result (λ holds. holds ≡ evaluation.different_layer (out-Value value.now)) }
{
    match value {
        Value::Array(_, cells) => are_different(alloc, cells.as_slice()),
        Value::Int(_)
        | Value::Bool(_)
        | Value::Enum(..)
        | Value::Record(_)
        | Value::Set(_)
        | Value::Range(..)
        | Value::Names(_) => Ok(true),
    }
}
