//! Values of data files, read by the form of their type.
ghost use Rattle.std.specs.Prelude.{◌≡◌, ◌∷◌, [], IfOk, map};
ghost use Rattle.opl_given.specs.Faults.{Binds, Does, Gives};
ghost use Rattle.opl_given.specs.Readings.{known_of};
ghost use Rattle.opl_given.specs.Values as spec;

use crate::fault::BindFault;
use crate::form::Form;
use crate::types::Types;
use opl_data::DataValue;
use opl_list::Seq;
use opl_tree::NameTree;
use opl_value::{Value, make_set};
use std::alloc::{AllocError, Global};

/// The number as it is written, with or without `-`; where there is no such number memory is wanting.
fn signed(is_negative: bool, number: i128) -> Result<i128, BindFault>
    ensures { Does (λ n. n ≡ spec.signed is_negative number) result }
{
    if !is_negative {
        return Ok(number);
    }
    match number.checked_neg() {
        Some(number) => Ok(number),
        None => Err(BindFault::OutOfMemory),
    }
}

/// A number.
#[tactic(auto, using(crate::proofs::Layers::forms_say))]
fn number_in(file: u32, at: u32, number: i128, form: &Form) -> Result<Value, BindFault>
    ensures { Binds (spec.number_in file at number form.now) result }
{
    match form {
        Form::Int => Ok(Value::Int(number)),
        Form::Range(low, high) => {
            if *low <= number && number <= *high {
                Ok(Value::Int(number))
            } else {
                Err(BindFault::Outside(file, at))
            }
        }
        Form::Nothing | Form::Enumeration(_) | Form::Struct(_) | Form::Record(_) | Form::Set(_) => {
            Err(BindFault::Shape(file, at))
        }
    }
}

/// A number, with or without `-`.
fn signed_in(
    file: u32,
    at: u32,
    is_negative: bool,
    number: &i128,
    form: &Form,
) -> Result<Value, BindFault>
    ensures { Binds (spec.number_in file at (spec.signed is_negative number.now) form.now) result }
{
    let number = signed(is_negative, *number)?;
    number_in(file, at, number, form)
}

/// A name of an enumeration.
#[tactic(auto, using(crate::proofs::Layers::forms_say))]
fn name_in(types: &Types<'_>, file: u32, name: &NameTree, form: &Form) -> Result<Value, BindFault>
    ensures { Binds (spec.name_in (known_of types.now) file name.now form.now) result }
{
    match form {
        Form::Enumeration(declaration) => match types.place(*declaration, name.text.as_slice()) {
            Some(place) => Ok(Value::Enum(*declaration, place)),
            None => Err(BindFault::Shape(file, name.at)),
        },
        Form::Nothing
        | Form::Int
        | Form::Range(..)
        | Form::Struct(_)
        | Form::Record(_)
        | Form::Set(_) => Err(BindFault::Shape(file, name.at)),
    }
}

/// The forms of the parts of a record.
#[tactic(auto, using(crate::proofs::Layers::forms_say))]
pub fn parts_of<'f>(types: &'f Types<'_>, form: &'f Form) -> Option<&'f [Form]>
    ensures { spec.seen result ≡ spec.parts_of (known_of types.now) form.now }
{
    match form {
        Form::Struct(declaration) => Some(types.fields(*declaration)),
        Form::Record(forms) => Some(forms.as_slice()),
        Form::Nothing | Form::Int | Form::Range(..) | Form::Enumeration(_) | Form::Set(_) => None,
    }
}

/// The forms of a record's first part and of so many others.
fn split<'f>(
    types: &'f Types<'_>,
    file: u32,
    at: u32,
    form: &'f Form,
    count: usize,
) -> Result<(&'f Form, &'f [Form]), BindFault>
    ensures { Gives (λ r. record { first = r.0.now; others = r.1.now }) (spec.split file at count (spec.parts_of (known_of types.now) form.now)) result }
{
    let Some(forms) = parts_of(types, form) else {
        return Err(BindFault::Shape(file, at));
    };
    let Some((first, others)) = forms.split_first() else {
        return Err(BindFault::Shape(file, at));
    };
    if count != others.len() {
        return Err(BindFault::Shape(file, at));
    }
    Ok((first, others))
}

/// The form of the elements of a set.
#[tactic(auto, using(crate::proofs::Layers::forms_say))]
pub fn element_of(form: &Form) -> Option<&Form>
    ensures { spec.seen result ≡ spec.element_of form.now }
{
    match form {
        Form::Set(element) => Some(element.get()),
        Form::Nothing
        | Form::Int
        | Form::Range(..)
        | Form::Enumeration(_)
        | Form::Struct(_)
        | Form::Record(_) => None,
    }
}

/// A set of the elements, without later copies.
pub fn set_of(alloc: Global, elements: Seq<Value>) -> Result<Value, AllocError>
    ensures { IfOk result (λ set. set ≡ spec.set_of elements) }
{
    let set = make_set(alloc, elements.into_vec())?;
    Ok(Value::Set(Seq::from_vec(set)))
}

/// The value that a data file's value is, in the file with that number, by the form of its type.
#[cycle(values)]
#[tactic(auto, using(crate::proofs::Layers::values_are))]
pub(crate) fn value_in(
    alloc: Global,
    types: &Types<'_>,
    file: u32,
    value: &DataValue,
    form: &Form,
) -> Result<Value, BindFault>
    ensures { Binds (spec.value_in (known_of types.now) file value.now form.now) result }
{
    match value {
        DataValue::Number(at, is_negative, number) => {
            signed_in(file, *at, *is_negative, number, form)
        }
        DataValue::Named(name) => name_in(types, file, name, form),
        DataValue::Record(at, head, rest) => {
            let (first, others) = split(types, file, *at, form, rest.len())?;
            let first = value_in(alloc, types, file, head.get(), first)?;
            Ok(Value::Record(parts_in(alloc, types, file, rest.as_slice(), first, others)?))
        }
        DataValue::Set(at, elements) => match element_of(form) {
            Some(form) => {
                let elements = elements_in(alloc, types, file, elements.as_slice(), form)?;
                Ok(set_of(alloc, elements)?)
            }
            None => Err(BindFault::Shape(file, *at)),
        },
        DataValue::Array(at, _) => Err(BindFault::Shape(file, *at)),
        DataValue::KeyedArray(at, _) => Err(BindFault::Shape(file, *at)),
    }
}

/// The parts of a record behind its first one.
#[cycle(values)]
fn parts_in(
    alloc: Global,
    types: &Types<'_>,
    file: u32,
    rest: &[DataValue],
    first: Value,
    forms: &[Form],
) -> Result<Seq<Value>, BindFault>
    ensures { Binds (spec.each_by_form (first ∷ []) (map (spec.value_in (known_of types.now) file) rest.now) forms.now) result }
{
    let mut parts = Seq::new(alloc);
    parts.push(first)?;
    let mut left = forms;
    for part in rest {
        let Some((form, others)) = left.split_first() else {
            return Ok(parts);
        };
        parts.push(value_in(alloc, types, file, part, form)?)?;
        left = others;
    }
    Ok(parts)
}

/// The elements of a set, in the order in which they are written.
#[cycle(values)]
fn elements_in(
    alloc: Global,
    types: &Types<'_>,
    file: u32,
    elements: &[DataValue],
    form: &Form,
) -> Result<Seq<Value>, BindFault>
    ensures { Binds (spec.all_by_form [] (map (spec.value_in (known_of types.now) file) elements.now) form.now) result }
{
    let mut found = Seq::new(alloc);
    for element in elements {
        found.push(value_in(alloc, types, file, element, form)?)?;
    }
    Ok(found)
}
