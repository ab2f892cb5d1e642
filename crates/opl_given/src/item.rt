//! The values of items that data files give.
ghost use Rattle.std.specs.Prelude.{◌≡◌, IfOk, map};
ghost use Rattle.std.specs.Option.{option_map};
ghost use Rattle.opl_eval.specs.ArrayKeys.{IsKeyed};
ghost use Rattle.opl_value.specs.Places.{value_at};
ghost use Rattle.opl_given.specs.Faults.{Binds, Does};
ghost use Rattle.opl_given.specs.Items as spec;
ghost use Rattle.opl_given.specs.Readings.{axis_of, given_value_of, known_of};

use crate::assigned::{Override, is_assigned, overridden};
use crate::axis::Axis;
use crate::cells::{Source, elements_in};
use crate::enumeration::first_token;
use crate::fault::BindFault;
use crate::form::Form;
use crate::given::GivenValue;
use crate::space::{array_over, keys_of, no_dimensions};
use crate::types::Types;
use crate::value::value_in;
use opl_list::Seq;
use opl_token::Name;
use opl_value::Value;
use std::alloc::Global;

/// The fault of a missing value.
pub fn missing(alloc: Global, name: &Name) -> Result<BindFault, BindFault>
    ensures { Does (λ fault. fault ≡ BindFault.Missing name.now) result }
{
    Ok(BindFault::Missing(Name::from_slice(alloc, name.as_slice())?))
}

/// The value that is given; an item to which a value is assigned needs none.
fn given_or_assigned(
    alloc: Global,
    types: &Types<'_>,
    form: &Form,
    name: &Name,
    overrides: &[Override],
    given: Option<GivenValue<'_>>,
) -> Result<Value, BindFault>
    ensures { Binds (spec.given_or_assigned (known_of types.now) form.now name.now overrides.now (option_map given_value_of given.entry)) result }
{
    match given {
        Some(given) => value_in(alloc, types, given.file, given.value, form),
        None => {
            if is_assigned(name, overrides) {
                Ok(Value::Int(0))
            } else {
                Err(missing(alloc, name)?)
            }
        }
    }
}

/// Whether a value is an array.
#[tactic(auto, using(crate::proofs::Plain::arrays))]
pub fn is_array(value: &Value) -> bool
    ensures { result ≡ spec.is_array value.now }
{
    match value {
        Value::Array(..) => true,
        Value::Int(_)
        | Value::Bool(_)
        | Value::Enum(..)
        | Value::Record(_)
        | Value::Set(_)
        | Value::Range(..)
        | Value::Names(_) => false,
    }
}

/// The first of these values.
fn first_of(values: Vec<Value>) -> Result<Value, BindFault>
    ensures { Does (λ value. value ≡ value_at values.items 0) result }
{
    match values.into_iter().next() {
        Some(value) => Ok(value),
        None => Ok(Value::Int(0)),
    }
}

/// The value that is given, or the last one that is assigned.
fn value_alone(
    alloc: Global,
    types: &Types<'_>,
    form: &Form,
    name: &Name,
    overrides: &[Override],
    given: Option<GivenValue<'_>>,
) -> Result<Value, BindFault>
    ensures { Binds (spec.single_value (known_of types.now) form.now name.now overrides.now (option_map given_value_of given.entry)) result }
{
    let keys = no_dimensions(alloc)?;
    let mut cells = Vec::new(alloc);
    cells.push(given_or_assigned(alloc, types, form, name, overrides, given)?)?;
    let cells = overridden(alloc, name, form, &keys, cells, overrides)?;
    first_of(cells)
}

/// The value of an item without dimensions: the one that is given, or the last one that is assigned to it. It is no array.
pub fn single_value(
    alloc: Global,
    types: &Types<'_>,
    form: &Form,
    name: &Name,
    overrides: &[Override],
    given: Option<GivenValue<'_>>,
) -> Result<Value, BindFault>
    ensures value { Binds (spec.single_value (known_of types.now) form.now name.now overrides.now (option_map given_value_of given.entry)) result }
    ensures keyed { IfOk result IsKeyed }
{
    value_alone(alloc, types, form, name, overrides, given)
}

/// The array that is given, where the cells to which values are assigned have the last of these. For an index space with more than
/// 2^64 - 1 keys memory is wanting.
#[tactic(auto, using(crate::proofs::Spaces::spaces))]
pub fn given_array(
    alloc: Global,
    types: &Types<'_>,
    form: &Form,
    name: &Name,
    overrides: &[Override],
    given: GivenValue<'_>,
    axes: &[Axis],
) -> Result<Value, BindFault>
    ensures value { Binds (spec.given_array (known_of types.now) form.now name.now overrides.now (given_value_of given.entry) (map axis_of axes.now)) result }
    ensures keyed { IfOk result IsKeyed }
{
    let source = Source {
        file: given.file,
        at: first_token(given.value),
    };
    let cells = elements_in(alloc, types, source, axes, form, given.value)?;
    let keys = keys_of(alloc, axes)?;
    let cells = overridden(alloc, name, form, &keys, cells.into_vec(), overrides)?;
    Ok(array_over(keys, Seq::from_vec(cells)))
}
