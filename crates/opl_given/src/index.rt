//! The index sets of arrays.
ghost use Rattle.std.specs.Prelude.{◌≡◌, IfOk};
ghost use Rattle.opl_given.specs.Axes as spec;
ghost use Rattle.opl_given.specs.Faults.{Does};
ghost use Rattle.opl_given.specs.Readings.{axis_of};

use crate::axis::Axis;
use crate::fault::BindFault;
use crate::form::Form;
use crate::learn::learn_elements;
use opl_list::Seq;
use opl_token::Name;
use opl_value::{Dimension, Value};
use std::alloc::{AllocError, Global};

/// The position as it is kept; where there is no such position memory is wanting.
pub fn position_of(place: usize) -> Result<u32, BindFault>
    ensures { Does (λ position. position ≡ place) result }
{
    match u32::try_from(place) {
        Ok(position) => Ok(position),
        Err(_) => Err(BindFault::OutOfMemory),
    }
}

/// The names of an enumeration as values; for more than 2^32 of them memory is wanting.
fn name_values(alloc: Global, declaration: u32, names: &[Name]) -> Result<Seq<Value>, BindFault>
    ensures { Does (λ values. values ≡ spec.names_from declaration 0 names.now) result }
{
    let mut values = Seq::new(alloc);
    for (place, _name) in names.iter().enumerate() {
        values.push(Value::Enum(declaration, position_of(place)?))?;
    }
    Ok(values)
}

/// Copies of values, in their order.
fn copies(alloc: Global, values: &[Value]) -> Result<Seq<Value>, AllocError>
    ensures { IfOk result (λ copies. copies ≡ values.now) }
{
    let mut copies = Seq::new(alloc);
    for value in values {
        copies.push(value.copy(alloc)?)?;
    }
    Ok(copies)
}

/// The index set of a set's elements.
fn listed(alloc: Global, elements: &[Value]) -> Result<Axis, BindFault>
    ensures { Does (λ axis. axis_of axis ≡ spec.listed elements.now) result }
{
    let dimension = Dimension::of_set(alloc, copies(alloc, elements)?)?;
    let form = learn_elements(alloc, elements, Form::Nothing)?;
    Ok(Axis { dimension, form })
}

/// The index set of an enumeration.
fn named(alloc: Global, declaration: u32, names: &[Name]) -> Result<Axis, BindFault>
    ensures { Does (λ axis. axis_of axis ≡ spec.named declaration names.now) result }
{
    let values = name_values(alloc, declaration, names)?;
    let dimension = Dimension::of_set(alloc, values)?;
    let form = Form::Enumeration(declaration);
    Ok(Axis { dimension, form })
}

/// The index set of the whole numbers from the first to the second.
fn between(low: &i128, high: &i128) -> Axis
    ensures { axis_of result ≡ spec.between low.now high.now }
{
    let dimension = Dimension::whole(*low, *high);
    let form = Form::Int;
    Axis { dimension, form }
}

/// The index set without elements.
fn nothing() -> Axis
    ensures { axis_of result ≡ spec.no_elements }
{
    let dimension = Dimension::whole(1, 0);
    let form = Form::Nothing;
    Axis { dimension, form }
}

/// The index set that a set is, or the enumeration of this declaration.
#[tactic(auto, using(crate::proofs::Learnt::sets))]
pub fn index_set(alloc: Global, set: &Value, declaration: u32) -> Result<Axis, BindFault>
    ensures { Does (λ axis. axis_of axis ≡ spec.axis_of_set declaration set.now) result }
{
    match set {
        Value::Set(elements) => listed(alloc, elements.as_slice()),
        Value::Range(low, high) => Ok(between(low, high)),
        Value::Names(names) => named(alloc, declaration, names.as_slice()),
        Value::Int(_) | Value::Bool(_) | Value::Enum(..) | Value::Record(_) | Value::Array(..) => {
            Ok(nothing())
        }
    }
}
