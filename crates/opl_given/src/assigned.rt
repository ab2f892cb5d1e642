//! Values that are assigned to items.
ghost use Rattle.std.specs.Prelude.{◌≡◌, IfOk, map, set};
ghost use Rattle.std.specs.List.{list_all};
ghost use Rattle.opl_value.specs.Places.{lists};
ghost use Rattle.opl_given.specs.Assigned as spec;
ghost use Rattle.opl_given.specs.Faults.{Does, Gives};

use crate::fault::BindFault;
use crate::form::Form;
use opl_list::Seq;
use opl_token::Name;
use opl_value::{Key, KeySpace, Value};
use std::alloc::{AllocError, Global};

/// A value that is assigned to an item, or to the element of an array with these subscripts.
#[derive(Drop)]
pub struct Override {
    pub name: Name,
    pub index: Seq<i128>,
    pub value: i128,
}

/// The key of these subscripts.
fn key(alloc: Global, index: &[i128]) -> Result<Key, AllocError>
    ensures { IfOk result (λ key. key.items ≡ map Value.Int index.now) }
{
    let mut key = Key::new(alloc);
    for number in index {
        key.push(Value::Int(*number))?;
    }
    Ok(key)
}

/// The fault of an assigned value that does not fit.
pub(crate) fn unfit(alloc: Global, name: &Name) -> Result<BindFault, BindFault>
    ensures { Does (λ fault. fault ≡ BindFault.Override name.now) result }
{
    Ok(BindFault::Override(Name::from_slice(alloc, name.as_slice())?))
}

/// The cells, with the value at its place.
fn with_cell(cells: Vec<Value>, place: u64, value: i128) -> Vec<Value>
    ensures { result.items ≡ set cells.items place (Value.Int value) }
{
    let at = place as usize;
    let mut cells = cells;
    if at < cells.len() {
        cells[at] = Value::Int(value);
    }
    cells
}

/// The cells, with an assigned value at its place.
fn assigned(
    alloc: Global,
    name: &Name,
    keys: &KeySpace,
    cells: Vec<Value>,
    given: &Override,
) -> Result<Vec<Value>, BindFault>
    ensures { Gives (λ r. r.items) (spec.assigned name.now (lists keys.now.space) cells.items given.now) result }
{
    let key = key(alloc, given.index.as_slice())?;
    match keys.place(key.as_slice()) {
        Some(place) => Ok(with_cell(cells, place, given.value)),
        None => Err(unfit(alloc, name)?),
    }
}

/// The cells, with each value at its place that is assigned to the item.
fn all_assigned(
    alloc: Global,
    name: &Name,
    keys: &KeySpace,
    cells: Vec<Value>,
    overrides: &[Override],
) -> Result<Vec<Value>, BindFault>
    ensures { Gives (λ r. r.items) (spec.all_assigned name.now (lists keys.now.space) cells.items overrides.now) result }
{
    let mut cells = cells;
    for given in overrides {
        if name.as_slice() == given.name.as_slice() {
            cells = assigned(alloc, name, keys, cells, given)?;
        }
    }
    Ok(cells)
}

/// Whether a value is within the ends of a range type.
#[tactic(auto, using(crate::proofs::Numbers::numbers))]
pub(crate) fn is_within(form: &Form, value: &Value) -> bool
    ensures { result ≡ spec.is_within form.now value.now }
{
    match form {
        Form::Range(low, high) => match value {
            Value::Int(number) => *low <= *number && *number <= *high,
            Value::Bool(_)
            | Value::Enum(..)
            | Value::Record(_)
            | Value::Set(_)
            | Value::Range(..)
            | Value::Names(_)
            | Value::Array(..) => true,
        },
        Form::Nothing
        | Form::Int
        | Form::Enumeration(_)
        | Form::Struct(_)
        | Form::Record(_)
        | Form::Set(_) => true,
    }
}

/// Whether each value is within the ends of a range type.
fn are_within(form: &Form, values: &[Value]) -> bool
    ensures { result ≡ list_all (spec.is_within form.now) values.now }
{
    for value in values {
        if !is_within(form, value) {
            return false;
        }
    }
    true
}

/// Whether a value is assigned to the item.
pub(crate) fn is_assigned(name: &Name, overrides: &[Override]) -> bool
    ensures { result ≡ spec.is_assigned name.now overrides.now }
{
    for given in overrides {
        if name.as_slice() == given.name.as_slice() {
            return true;
        }
    }
    false
}

/// The cells, where those to which values are assigned have the last of these.
#[tactic(auto, unfolding(crate::specs::Assigned::overridden))]
pub(crate) fn overridden(
    alloc: Global,
    name: &Name,
    form: &Form,
    keys: &KeySpace,
    cells: Vec<Value>,
    overrides: &[Override],
) -> Result<Vec<Value>, BindFault>
    ensures { Gives (λ r. r.items) (spec.overridden name.now form.now (lists keys.now.space) cells.items overrides.now) result }
{
    if !is_assigned(name, overrides) {
        return Ok(cells);
    }
    let cells = all_assigned(alloc, name, keys, cells, overrides)?;
    if !are_within(form, cells.as_slice()) {
        return Err(unfit(alloc, name)?);
    }
    Ok(cells)
}
