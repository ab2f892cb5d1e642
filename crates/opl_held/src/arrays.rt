//! Elements of arrays, and whether they differ, under an assignment.
ghost use Rattle.std.specs.Prelude.{[], ◌≡◌, IfOk, None, Some};
ghost use Rattle.std.specs.List.{list_all};
ghost use Rattle.std.specs.Option.{option_copied, option_map};
ghost use Rattle.opl_value.specs.Places.{value_at};
ghost use Rattle.opl_draft.specs.Drafts as drafts;
ghost use Rattle.opl_eval.specs.Visible.{Gives};
ghost use Rattle.opl_nodes.specs.Contexts.{arrays, cells, leaves};
ghost use Rattle.opl_held.specs.Arrays as spec;
ghost use Rattle.opl_held.specs.Keys as keys;
ghost use Rattle.opl_held.specs.Outcomes.{each};
ghost use Rattle.opl_held.specs.Worth.{are_live, drawn, indexed};

use crate::assigned::{variable_at, variables};
use crate::keys::{are_fixed, are_indices, dimensions, key_place};
use crate::outcome::Outcome;
use opl_eval::{EvalFault, are_different};
use opl_meaning::Kind;
use opl_nodes::{Array, Context, Leaves};
use opl_value::Value;
use std::alloc::{AllocError, Global};

/// The array of this number.
fn array_at<'a>(context: &Context<'a>, array: Option<u32>) -> Option<&'a Array<'a>>
    ensures { option_map cells (option_copied result) ≡ drafts.array_at (arrays context.now) [] array }
{
    match array {
        Some(number) => context.arrays.get(number as usize),
        None => None,
    }
}

/// Whether the elements are variables, and there is one.
fn are_live(found: &Leaves<'_>) -> bool
    ensures { result ≡ are_live (leaves found.now) }
{
    match found {
        Leaves::Listed(_) => false,
        Leaves::Numbered(_, _, count) => *count != 0,
    }
}

// ---- differences

/// Whether the elements of an array differ.
fn elements_differ(alloc: Global, array: &Array<'_>, values: &[i64]) -> Result<bool, AllocError>
    ensures { IfOk result (λ holds. holds ≡ drafts.are_different [] values.now (Some (cells array.now))) }
{
    match array.leaves {
        Leaves::Listed(found) => are_different(alloc, found),
        Leaves::Numbered(kind, first, count) => {
            let found = variables(alloc, values, kind, first, count)?;
            are_different(alloc, found.as_slice())
        }
    }
}

/// What is drawn from an array of variables has one.
fn drawn(array: &Array<'_>, part: Value) -> Outcome<Value>
    ensures { result ≡ drawn (Some (cells array.now)) (Outcome.Fixed part) }
{
    if are_live(&array.leaves) {
        Outcome::Live(Some(part))
    } else {
        Outcome::Fixed(part)
    }
}

/// `alldifferent` of the array of this number. What is no array differs.
pub(crate) fn different(
    alloc: Global,
    context: &Context<'_>,
    array: Option<u32>,
    values: &[i64],
) -> Result<Outcome<Value>, AllocError>
    ensures { IfOk result (λ part. part ≡ spec.differing values.now (drafts.array_at (arrays context.now) [] array)) }
{
    match array_at(context, array) {
        Some(array) => Ok(drawn(array, Value::Bool(elements_differ(alloc, array, values)?))),
        None => Ok(Outcome::Fixed(Value::Bool(true))),
    }
}

// ---- elements

/// A copy of the value at a place, 0 where there is none.
fn value_copy(alloc: Global, values: &[Value], place: u64) -> Result<Value, AllocError>
    ensures { IfOk result (λ v. v ≡ value_at values.now place) }
{
    match values.get(place as usize) {
        Some(value) => value.copy(alloc),
        None => Ok(Value::Int(0)),
    }
}

/// The element at a place.
fn element_at(
    alloc: Global,
    array: &Array<'_>,
    place: u64,
    values: &[i64],
) -> Result<Value, AllocError>
    ensures { IfOk result (λ v. v ≡ value_at (drafts.leaf_values [] values.now (leaves array.now.leaves)) place) }
{
    match array.leaves {
        Leaves::Listed(found) => value_copy(alloc, found, place),
        Leaves::Numbered(kind, first, count) => variable_at(values, kind, first, count, place),
    }
}

/// An element by a key that has a place, or by one that has none, with or without variables in it.
fn element_where(
    alloc: Global,
    at: u32,
    array: &Array<'_>,
    is_fixed: bool,
    place: Option<u64>,
    values: &[i64],
) -> Result<Outcome<Value>, EvalFault>
    ensures { Gives (λ part. part) (spec.placed values.now at (cells array.now).leaves is_fixed place) result }
{
    match place {
        Some(place) => {
            let element = element_at(alloc, array, place, values)?;
            if is_fixed {
                Ok(drawn(array, element))
            } else {
                Ok(Outcome::Live(Some(element)))
            }
        }
        None => {
            if is_fixed {
                Err(EvalFault::OutOfIndex(at))
            } else {
                Ok(Outcome::Live(None))
            }
        }
    }
}

/// An element of an array. A subscript without variables that is no index is a fault without variables.
fn element_of(
    alloc: Global,
    at: u32,
    array: &Array<'_>,
    subscripts: &[Outcome<Value>],
    values: &[i64],
) -> Result<Outcome<Value>, EvalFault>
    ensures { Gives (λ part. part) (indexed [] values.now at (Some (cells array.now)) subscripts.now) result }
{
    let fit = are_indices(dimensions(array.space), subscripts)?;
    if !fit {
        return Err(EvalFault::OutOfIndex(at));
    }
    let place = key_place(array.space, subscripts)?;
    element_where(alloc, at, array, are_fixed(subscripts), place, values)
}

/// Whether all subscripts are defined.
fn are_defined(subscripts: &[Outcome<Value>]) -> bool
    ensures { result ≡ list_all spec.is_defined subscripts.now }
{
    subscripts.iter().all(|part| is_defined(part))
}

/// Whether a subscript is defined.
fn is_defined(part: &Outcome<Value>) -> bool
    ensures { result ≡ spec.is_defined part.now }
{
    match part {
        Outcome::Fixed(_) => true,
        Outcome::Live(value) => value.is_some(),
    }
}

/// An element of what is no array, which typing rules out.
fn no_element(subscripts: &[Outcome<Value>]) -> Outcome<Value>
    ensures { result ≡ spec.no_element subscripts.now }
{
    if are_fixed(subscripts) {
        return Outcome::Fixed(Value::Int(0));
    }
    if are_defined(subscripts) {
        return Outcome::Live(Some(Value::Int(0)));
    }
    Outcome::Live(None)
}

/// `a[b,..]` of the array of this number.
pub(crate) fn element(
    alloc: Global,
    at: u32,
    context: &Context<'_>,
    array: Option<u32>,
    subscripts: &[Outcome<Value>],
    values: &[i64],
) -> Result<Outcome<Value>, EvalFault>
    ensures { Gives (λ part. part) (indexed [] values.now at (drafts.array_at (arrays context.now) [] array) subscripts.now) result }
{
    match array_at(context, array) {
        Some(array) => element_of(alloc, at, array, subscripts, values),
        None => Ok(no_element(subscripts)),
    }
}
