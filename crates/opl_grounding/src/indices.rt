//! The indices of dimensions, as numbers.
ghost use Rattle.std.specs.Prelude.{◌≡◌, ◌++◌, ◌∷◌, [], IfOk, OnOk, map, pos};
ghost use Rattle.opl_value.specs.declared.value.Dimension.TheViews.{out-Value};
ghost use Rattle.opl_value.specs.Places.{dimension_values};
ghost use Rattle.opl_eval.specs.Compare as compare;
ghost use Rattle.opl_given.specs.Elements.{element, left};
ghost use Rattle.opl_form.specs.Parts as spec;

use opl_given::{Element, Elements, elements_of};
use opl_list::Seq;
use opl_nodes::rank;
use opl_value::{Dimension, Value};
use std::alloc::{AllocError, Global};

/// The rank of an element.
fn rank_of(member: Element<'_>) -> i128
    ensures { result ≡ compare.rank (element member.entry) }
{
    rank(member.get())
}

/// The ranks of elements.
fn ranks(alloc: Global, elements: Elements<'_>) -> Result<Seq<i128>, AllocError>
    ensures { IfOk result (λ ranks. ranks ≡ map compare.rank (left elements.entry)) }
{
    let mut found = Seq::new(alloc);
    let mut rest = elements;
    while let Some((first, others)) = rest.split_first() {
        found.push(rank_of(first))?;
        rest = others;
    }
    Ok(found)
}

/// A place as a number.
fn number_of(place: usize) -> i128
    ensures { result ≡ pos place }
{
    place as i128
}

/// A place behind other numbers.
fn push_place(found: &mut Seq<i128>, place: usize) -> Result<(), AllocError>
    ensures { OnOk result (found.new ≡ found.old ++ pos place ∷ []) }
{
    found.push(number_of(place))
}

/// So many numbers from 0 on.
fn places(alloc: Global, count: usize) -> Result<Seq<i128>, AllocError>
    ensures { IfOk result (λ places. places ≡ spec.places_from 0 count) }
{
    let mut found = Seq::new(alloc);
    for place in 0..count {
        push_place(&mut found, place)?;
    }
    Ok(found)
}

/// Whether a value is a number.
#[tactic(auto, using(crate::proofs::Variants::sorts))]
fn is_number(value: &Value) -> bool
    ensures { result ≡ spec.alike spec.Sort.whole (spec.key_layer (out-Value value.now)) }
{
    match value {
        Value::Int(_) => true,
        Value::Bool(_)
        | Value::Enum(..)
        | Value::Record(_)
        | Value::Set(_)
        | Value::Range(..)
        | Value::Names(_)
        | Value::Array(..) => false,
    }
}

/// Whether a value is a name of the enumeration of this declaration.
#[tactic(auto, using(crate::proofs::Variants::sorts))]
fn is_name_of(value: &Value, declaration: u32) -> bool
    ensures { result ≡ spec.alike (spec.Sort.named declaration) (spec.key_layer (out-Value value.now)) }
{
    match value {
        Value::Enum(own, _) => declaration == *own,
        Value::Int(_)
        | Value::Bool(_)
        | Value::Record(_)
        | Value::Set(_)
        | Value::Range(..)
        | Value::Names(_)
        | Value::Array(..) => false,
    }
}

/// Whether the ranks of two values tell them apart: of two numbers, or of two names of one enumeration.
#[tactic(auto, using(crate::proofs::Variants::sorts))]
fn are_alike(first: &Value, value: &Value) -> bool
    ensures { result ≡ spec.alike (spec.key_layer (out-Value first.now)) (spec.key_layer (out-Value value.now)) }
{
    match first {
        Value::Int(_) => is_number(value),
        Value::Enum(declaration, _) => is_name_of(value, *declaration),
        Value::Bool(_)
        | Value::Record(_)
        | Value::Set(_)
        | Value::Range(..)
        | Value::Names(_)
        | Value::Array(..) => false,
    }
}

/// Whether the rank of each of these values tells it apart from the first.
fn all_alike(first: &Value, values: &[Value]) -> bool
    ensures { result ≡ spec.all_alike (spec.key_layer (out-Value first.now)) values.now }
{
    for value in values {
        if !are_alike(first, value) {
            return false;
        }
    }
    true
}

/// Whether ranks tell these values apart.
fn have_ranks(values: &[Value]) -> bool
    ensures { result ≡ spec.all_alike (spec.first_sort values.now) values.now }
{
    match values.first() {
        Some(first) => all_alike(first, values),
        None => true,
    }
}

/// The indices of a dimension of these values.
fn listed_indices(alloc: Global, values: &[Value]) -> Result<Seq<i128>, AllocError>
    ensures { IfOk result (λ indices. indices ≡ spec.indices_of values.now) }
{
    if have_ranks(values) {
        ranks(alloc, Elements::Listed(values))
    } else {
        places(alloc, values.len())
    }
}

/// The indices of a dimension: the ranks of its values where these tell them apart, else their places.
#[tactic(auto, using(opl_value::proofs::Places::variants))]
pub(crate) fn indices_of(alloc: Global, dimension: &Dimension) -> Result<Seq<i128>, AllocError>
    ensures { IfOk result (λ indices. indices ≡ spec.indices_of (dimension_values dimension.now)) }
{
    match dimension {
        Dimension::Whole(_, _) => ranks(alloc, elements_of(dimension)),
        Dimension::Listed(values, _) => listed_indices(alloc, values.as_slice()),
    }
}
