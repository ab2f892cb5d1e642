//! Arrays of the model that are another array: its elements, by their keys.
ghost use Rattle.std.specs.Prelude.{◌≡◌, ◌+◌, ◌*◌, ◌<◌, ◌∷◌, ◌^◌, [], IfOk, IfSome, is_some, length, map, nat_eq};
ghost use Rattle.std.specs.List.{flat_map, list_all};
ghost use Rattle.opl_value.specs.declared.value.Dimension.TheViews.{out-Value};
ghost use Rattle.opl_value.specs.Places.{dimension_values, place_in, value_at};
ghost use Rattle.opl_given.specs.Elements.{element, left};
ghost use Rattle.opl_given.specs.Arrays.{values_of};
ghost use Rattle.opl_given.specs.Faults.{Binds, Does, Gives, then};
ghost use Rattle.opl_given.specs.Inside as inside;
ghost use Rattle.opl_given.specs.Readings.{axis_of, known_of};
ghost use Rattle.opl_bind.specs.Scopes.{names_in};
ghost use Rattle.opl_bind.specs.Written as spec;

use crate::fitted::first_token;
use crate::lookup::Lookup;
use crate::scope::{Scope, evaluated};
use opl_given::{Axis, BindFault, Element, Elements, Form, Types, elements_of, is_inside};
use opl_list::Seq;
use opl_term::Term;
use opl_value::{Dimension, Value};
use std::alloc::{AllocError, Global};

/// The number of elements of two index sets, if it is the same; where both have more than can be counted memory is wanting.
fn common_size(dimension: &Dimension, other: &Dimension) -> Result<Option<u64>, BindFault>
    ensures same { Does (λ size. is_some size ≡ nat_eq (length (dimension_values dimension.now)) (length (dimension_values other.now))) result }
    ensures size { Does (λ size. IfSome size (λ n. n ≡ length (dimension_values other.now))) result }
{
    match (dimension.count(), other.count()) {
        (Some(size), Some(other)) => Ok(if size == other { Some(size) } else { None }),
        (None, None) => Err(BindFault::OutOfMemory),
        (Some(_), None) | (None, Some(_)) => Ok(None),
    }
}

/// The place of an element in an index set, if it is there.
fn place_of(lookup: &Lookup<'_>, wanted: Element<'_>) -> Option<u64>
    ensures { result ≡ place_in (element wanted.entry) (dimension_values lookup.now.dimension.now) }
{
    lookup.place(wanted.get())
}

/// The places of these elements in an index set, behind those before.
fn places_in(
    alloc: Global,
    at: u32,
    elements: Elements<'_>,
    lookup: &Lookup<'_>,
) -> Result<Vec<u64>, BindFault>
    ensures { Gives (λ ps. ps.items) (spec.matched (BindFault.Shape 0 at) (dimension_values lookup.now.dimension.now) [] (left elements.entry)) result }
{
    let mut places = Vec::new(alloc);
    let mut rest = elements;
    while let Some((element, behind)) = rest.split_first() {
        let Some(place) = place_of(lookup, element) else {
            return Err(BindFault::Shape(0, at));
        };
        places.push(place)?;
        rest = behind;
    }
    Ok(places)
}

/// The places of the elements of an index set among those of another one.
fn matched(alloc: Global, at: u32, axis: &Axis, other: &Dimension) -> Result<Vec<u64>, BindFault>
    requires { length (dimension_values other.now) < 2 ^ 64 }
    ensures { Gives (λ ps. ps.items) (spec.matched (BindFault.Shape 0 at) (dimension_values other.now) [] (values_of (axis_of axis.now))) result }
{
    let lookup = Lookup::new(alloc, other)?;
    places_in(alloc, at, elements_of(&axis.dimension), &lookup)
}

/// The place behind so many groups; where there is no such number memory is wanting.
fn joint(group: u64, size: u64, place: u64) -> Result<u64, BindFault>
    ensures { Does (λ n. n ≡ group * size + place) result }
{
    let Some(first) = group.checked_mul(size) else {
        return Err(BindFault::OutOfMemory);
    };
    let Some(place) = first.checked_add(place) else {
        return Err(BindFault::OutOfMemory);
    };
    Ok(place)
}

/// Each of the places, behind so many groups.
fn behind_group(alloc: Global, group: u64, size: u64, places: &[u64]) -> Result<Vec<u64>, BindFault>
    ensures { Does (λ all. all.items ≡ map (λ p. group * size + p) places.now) result }
{
    let mut all = Vec::new(alloc);
    for place in places {
        all.push(joint(group, size, *place)?)?;
    }
    Ok(all)
}

/// Each of the places behind each of the groups.
fn behind_groups(
    alloc: Global,
    groups: &[u64],
    size: u64,
    places: &[u64],
) -> Result<Vec<u64>, BindFault>
    ensures { Does (λ all. all.items ≡ flat_map (λ n. map (λ p. n * size + p) places.now) groups.now) result }
{
    let mut all = Vec::new(alloc);
    for group in groups {
        let mut more = behind_group(alloc, *group, size, places)?;
        all.append(&mut more)?;
    }
    Ok(all)
}

/// The places with those of one more dimension behind them.
fn further(
    alloc: Global,
    at: u32,
    before: &[u64],
    axis: &Axis,
    other: &Dimension,
) -> Result<Vec<u64>, BindFault>
    ensures { Gives (λ ps. ps.items) (spec.further (BindFault.Shape 0 at) before.now (values_of (axis_of axis.now)) (dimension_values other.now)) result }
{
    let Some(size) = common_size(&axis.dimension, other)? else {
        return Err(BindFault::Shape(0, at));
    };
    let places = matched(alloc, at, axis, other)?;
    behind_groups(alloc, before, size, places.as_slice())
}

/// The places of keys among those of another array, whose index sets have the same elements, in any order.
fn places_among(
    alloc: Global,
    at: u32,
    axes: &[Axis],
    others: &[Dimension],
) -> Result<Vec<u64>, BindFault>
    ensures { Gives (λ ps. ps.items) (spec.places_among (BindFault.Shape 0 at) (0 ∷ []) (map values_of (map axis_of axes.now)) (map dimension_values others.now)) result }
{
    let mut places = Vec::new(alloc);
    places.push(0)?;
    let mut left = others;
    for axis in axes {
        let Some((other, behind)) = left.split_first() else {
            return Err(BindFault::Shape(0, at));
        };
        places = further(alloc, at, places.as_slice(), axis, other)?;
        left = behind;
    }
    if !left.is_empty() {
        return Err(BindFault::Shape(0, at));
    }
    Ok(places)
}

/// The cell at a place, which is there where the array has one for each key.
fn cell_at(alloc: Global, cells: &[Value], place: u64) -> Result<Value, AllocError>
    ensures { IfOk result (λ cell. cell ≡ value_at cells.now place) }
{
    match cells.get(place as usize) {
        Some(cell) => cell.copy(alloc),
        None => Ok(Value::Int(0)),
    }
}

/// The cells at these places.
fn cells_at(alloc: Global, cells: &[Value], places: &[u64]) -> Result<Seq<Value>, AllocError>
    ensures { IfOk result (λ found. found ≡ map (value_at cells.now) places.now) }
{
    let mut found = Seq::new(alloc);
    for place in places {
        found.push(cell_at(alloc, cells, *place)?)?;
    }
    Ok(found)
}

/// Whether all cells are inside.
fn are_inside(types: &Types<'_>, cells: &[Value], form: &Form) -> bool
    ensures { result ≡ list_all (λ v. inside.is_inside (known_of types.now) v form.now) cells.now }
{
    for cell in cells {
        if !is_inside(types, cell, form) {
            return false;
        }
    }
    true
}

/// The cells, where all are inside.
fn tested(
    types: &Types<'_>,
    at: u32,
    form: &Form,
    cells: Seq<Value>,
) -> Result<Seq<Value>, BindFault>
    ensures { Binds (spec.tested (known_of types.now) at form.now cells) result }
{
    if !are_inside(types, cells.as_slice(), form) {
        return Err(BindFault::Outside(0, at));
    }
    Ok(cells)
}

/// The cells of another array with these index sets, by their keys.
fn taken_array(
    alloc: Global,
    types: &Types<'_>,
    at: u32,
    form: &Form,
    axes: &[Axis],
    others: &[Dimension],
    cells: &[Value],
) -> Result<Seq<Value>, BindFault>
    ensures { Binds (then (spec.places_among (BindFault.Shape 0 at) (0 ∷ []) (map values_of (map axis_of axes.now)) (map dimension_values others.now)) (λ places. spec.tested (known_of types.now) at form.now (map (value_at cells.now) places))) result }
{
    let places = places_among(alloc, at, axes, others)?;
    let cells = cells_at(alloc, cells, places.as_slice())?;
    tested(types, at, form, cells)
}

/// The elements of an array that is given as another array, by their keys.
#[tactic(auto, using(crate::proofs::TakenArrays::arrays_taken))]
fn taken(
    alloc: Global,
    types: &Types<'_>,
    at: u32,
    form: &Form,
    axes: &[Axis],
    value: &Value,
) -> Result<Seq<Value>, BindFault>
    ensures { Binds (spec.taken_layer (known_of types.now) at form.now (map axis_of axes.now) (out-Value value.now)) result }
{
    match value {
        Value::Array(space, cells) => {
            let others = space.dims.as_slice();
            taken_array(alloc, types, at, form, axes, others, cells.as_slice())
        }
        Value::Int(_)
        | Value::Bool(_)
        | Value::Enum(..)
        | Value::Record(_)
        | Value::Set(_)
        | Value::Range(..)
        | Value::Names(_) => Err(BindFault::Shape(0, at)),
    }
}

/// The elements of an array that an expression comes to, by their keys.
#[tactic(auto, using(crate::proofs::TakenArrays::written_whole))]
pub(crate) fn taken_cells(
    alloc: Global,
    types: &Types<'_>,
    scope: Scope<'_>,
    form: &Form,
    axes: &[Axis],
    term: &Term,
) -> Result<Seq<Value>, BindFault>
    ensures { Binds (spec.taken_cells (known_of types.now) (spec.written (known_of types.now) term.now) form.now (map axis_of axes.now) (names_in scope.entry)) result }
{
    let value = evaluated(alloc, scope, term)?;
    taken(alloc, types, first_token(term), form, axes, &value)
}
