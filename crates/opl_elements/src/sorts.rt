//! What parts are compared as.
ghost use Rattle.std.specs.Prelude.{◌≡◌};
ghost use Rattle.opl_form.specs.Parts as parts;
ghost use Rattle.opl_nodes.specs.Pieces as pieces;
ghost use Rattle.opl_elements.specs.Sorts as spec;

use opl_nodes::{Form, Part};
use opl_value::Value;

/// Numbers, the names of one enumeration, and all else, of which there are no variables.
#[derive(Clone, Copy)]
pub enum Sort {
    Whole,
    /// The names of the enumeration of this declaration.
    Named(u32),
    Other,
}

/// Whether parts of these sorts can be equal.
pub fn are_alike(left: Sort, right: Sort) -> bool
    ensures { result ≡ parts.alike (spec.sort left) (spec.sort right) }
{
    match left {
        Sort::Whole => is_whole(right),
        Sort::Named(declaration) => is_named(declaration, right),
        Sort::Other => false,
    }
}

/// Whether a sort is that of numbers.
fn is_whole(sort: Sort) -> bool
    ensures { result ≡ parts.alike parts.Sort.whole (spec.sort sort) }
{
    match sort {
        Sort::Whole => true,
        Sort::Named(_) | Sort::Other => false,
    }
}

/// Whether a sort is that of the names of this enumeration.
fn is_named(declaration: u32, sort: Sort) -> bool
    ensures { result ≡ parts.alike (parts.Sort.named declaration) (spec.sort sort) }
{
    match sort {
        Sort::Named(other) => declaration == other,
        Sort::Whole | Sort::Other => false,
    }
}

/// The sort of a value: a truth counts as a number.
#[tactic(auto, using(crate::proofs::ValueSorts::value_sorts))]
fn value_sort(value: &Value) -> Sort
    ensures { spec.sort result ≡ spec.sort_of_value value.now }
{
    match value {
        Value::Int(_) | Value::Bool(_) => Sort::Whole,
        Value::Enum(declaration, _) => Sort::Named(*declaration),
        Value::Record(_) | Value::Set(_) | Value::Range(..) | Value::Names(_) | Value::Array(..) =>
            { Sort::Other }
    }
}

/// The sort of a part.
pub fn sort_of(part: &Part) -> Sort
    ensures { spec.sort result ≡ parts.sort_of (pieces.form part.now) }
{
    match &part.form {
        Form::Known(value) => value_sort(value.get()),
        Form::Name(declaration, _) => Sort::Named(*declaration),
        Form::Number(_) | Form::Condition(_) | Form::Truth(_) => Sort::Whole,
    }
}

/// The sort of an index or an element: a truth is no number there.
#[tactic(auto, using(crate::proofs::ValueSorts::key_sorts))]
pub fn key_sort_of(value: &Value) -> Sort
    ensures { spec.sort result ≡ spec.sort_of_key value.now }
{
    match value {
        Value::Int(_) => Sort::Whole,
        Value::Enum(declaration, _) => Sort::Named(*declaration),
        Value::Bool(_)
        | Value::Record(_)
        | Value::Set(_)
        | Value::Range(..)
        | Value::Names(_)
        | Value::Array(..) => Sort::Other,
    }
}

/// The sort of a subscript.
pub fn key_sort(part: &Part) -> Sort
    ensures { spec.sort result ≡ parts.key_sort (pieces.form part.now) }
{
    match &part.form {
        Form::Known(value) => key_sort_of(value.get()),
        Form::Number(_) => Sort::Whole,
        Form::Name(declaration, _) => Sort::Named(*declaration),
        Form::Condition(_) | Form::Truth(_) => Sort::Other,
    }
}
