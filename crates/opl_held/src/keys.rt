//! The places that subscripts have in arrays.
ghost use Rattle.std.specs.Prelude.{◌≡◌, ◌<◌, ◌^◌, false, IfOk, length, map};
ghost use Rattle.std.specs.List.{list_all, list_any};
ghost use Rattle.std.specs.Option.{option_copied};
ghost use Rattle.opl_value.specs.Places.{dimension_values, elements, has_none, lists, place_in};
ghost use Rattle.opl_draft.specs.Settled as settled;
ghost use Rattle.opl_held.specs.Keys as spec;
ghost use Rattle.opl_held.specs.Outcomes.{data_of, value_of};

use crate::outcome::Outcome;
use opl_value::{Dimension, IndexSpace, Value};
use std::alloc::AllocError;

/// The index sets of an array.
pub(crate) fn dimensions(space: &IndexSpace) -> &[Dimension]
    ensures { map dimension_values result.now ≡ lists space.now }
{
    space.dims.as_slice()
}

/// What a subscript comes to, if it is defined.
fn value(part: &Outcome<Value>) -> Option<&Value>
    ensures { option_copied result ≡ value_of part.now }
{
    match part {
        Outcome::Fixed(value) => Some(value),
        Outcome::Live(Some(value)) => Some(value),
        Outcome::Live(None) => None,
    }
}

/// Whether no variable is left in a subscript.
fn is_fixed(part: &Outcome<Value>) -> bool
    ensures { result ≡ spec.is_fixed part.now }
{
    match part {
        Outcome::Fixed(_) => true,
        Outcome::Live(_) => false,
    }
}

/// Whether no variable is left in any of the subscripts.
pub(crate) fn are_fixed(parts: &[Outcome<Value>]) -> bool
    ensures { result ≡ list_all spec.is_fixed parts.now }
{
    parts.iter().all(|part| is_fixed(part))
}

/// The place of a value in a list; None exactly where it isn't there.
fn place_among(values: &[Value], wanted: &Value) -> Option<u64>
    ensures { result ≡ place_in wanted.now values.now }
{
    let mut place = 0;
    for value in values {
        let is_wanted = wanted == value;
        if is_wanted {
            return Some(place);
        }
        place += 1;
    }
    None
}

/// The place of a value in an index set; None exactly where it isn't there. Values need no order for it.
#[tactic(auto, using(crate::proofs::Places::variants))]
fn index_place(dimension: &Dimension, wanted: &Value) -> Option<u64>
    requires { length (dimension_values dimension.now) < 2 ^ 64 }
    ensures { result ≡ place_in wanted.now (dimension_values dimension.now) }
{
    match dimension {
        Dimension::Whole(_, _) => dimension.place(wanted),
        Dimension::Listed(values, _) => place_among(values.as_slice(), wanted),
    }
}

/// The place of a subscript in its index set, if it is defined and an index.
fn subscript_place(dimension: &Dimension, part: &Outcome<Value>) -> Option<u64>
    requires { length (dimension_values dimension.now) < 2 ^ 64 }
    ensures { result ≡ spec.place_or_none (dimension_values dimension.now) (value_of part.now) }
{
    match value(part) {
        Some(value) => index_place(dimension, value),
        None => None,
    }
}

/// Whether a subscript is an index, or has variables. An index set of 2^64 numbers and more counts as want of memory.
fn is_index(dimension: &Dimension, part: &Outcome<Value>) -> Result<bool, AllocError>
    ensures { IfOk result (λ holds. holds ≡ settled.is_index (dimension_values dimension.now) (data_of part.now)) }
{
    match part {
        Outcome::Fixed(value) => {
            if dimension.count().is_none() {
                return Err(AllocError);
            }
            Ok(index_place(dimension, value).is_some())
        }
        Outcome::Live(_) => Ok(true),
    }
}

/// Whether each subscript without variables is an index of its dimension.
pub(crate) fn are_indices(dims: &[Dimension], parts: &[Outcome<Value>]) -> Result<bool, AllocError>
    ensures { IfOk result (λ hold. hold ≡ settled.are_indices (map dimension_values dims.now) (map data_of parts.now)) }
{
    let mut left = dims;
    let mut rest = parts;
    while let Some((dimension, others)) = left.split_first() {
        let Some((part, behind)) = rest.split_first() else {
            return Ok(true);
        };
        let is_index = is_index(dimension, part)?;
        if !is_index {
            return Ok(false);
        }
        left = others;
        rest = behind;
    }
    Ok(true)
}

/// The place of the element that subscripts name; None exactly where one is undefined or no index, or they are not one for each
/// dimension. An index space of 2^64 keys and more counts as want of memory.
pub(crate) fn key_place(
    space: &IndexSpace,
    parts: &[Outcome<Value>],
) -> Result<Option<u64>, AllocError>
    ensures { IfOk result (λ place. place ≡ spec.key_place (lists space.now) parts.now) }
{
    match space.elements() {
        Some(count) => Ok(place_where_any(dimensions(space), parts, count)),
        None => Err(AllocError),
    }
}

/// The same in dimensions with so many keys.
fn place_where_any(dims: &[Dimension], parts: &[Outcome<Value>], count: u64) -> Option<u64>
    requires { count ≡ elements (map dimension_values dims.now) }
    ensures { result ≡ spec.key_place (map dimension_values dims.now) parts.now }
{
    if count == 0 {
        return None;
    }
    place_in_all(dims, parts)
}

/// The same in dimensions of which none is empty.
fn place_in_all(dims: &[Dimension], parts: &[Outcome<Value>]) -> Option<u64>
    requires filled { list_any has_none (map dimension_values dims.now) ≡ false }
    requires countable { elements (map dimension_values dims.now) < 2 ^ 64 }
    ensures { result ≡ spec.key_place (map dimension_values dims.now) parts.now }
{
    let mut found = 0;
    let mut left = dims;
    let mut rest = parts;
    while let Some((dimension, others)) = left.split_first() {
        let (part, behind) = rest.split_first()?;
        let place = subscript_place(dimension, part)?;
        found = found * dimension.size() + place;
        left = others;
        rest = behind;
    }
    if rest.is_empty() { Some(found) } else { None }
}
