//! The form of the elements of a set, read off all of them.
ghost use Rattle.std.specs.Prelude.{◌≡◌, [], IfOk, map};
ghost use Rattle.opl_given.specs.Axes as spec;

use crate::form::Form;
use opl_list::{Boxed, Seq};
use opl_value::Value;
use std::alloc::{AllocError, Global};

/// The forms of a record's parts, as far as they are known.
#[tactic(auto, using(crate::proofs::Learnt::views))]
fn parts_known(form: &Form) -> &[Form]
    ensures { result.now ≡ spec.parts_known form.now }
{
    match form {
        Form::Record(parts) => parts.as_slice(),
        Form::Nothing
        | Form::Int
        | Form::Range(..)
        | Form::Enumeration(_)
        | Form::Struct(_)
        | Form::Set(_) => &[],
    }
}

/// The form of a set's elements, as far as it is known.
#[tactic(auto, using(crate::proofs::Learnt::views))]
fn element_known(alloc: Global, form: &Form) -> Result<Form, AllocError>
    ensures { IfOk result (λ element. element ≡ spec.element_known form.now) }
{
    match form {
        Form::Set(element) => element.get().copy(alloc),
        Form::Nothing
        | Form::Int
        | Form::Range(..)
        | Form::Enumeration(_)
        | Form::Struct(_)
        | Form::Record(_) => Ok(Form::Nothing),
    }
}

/// What a value adds to what is known of the form of its like.
#[cycle(learning)]
#[tactic(auto, using(crate::proofs::Learnt::values_tell))]
pub(crate) fn learn(alloc: Global, value: &Value, form: &Form) -> Result<Form, AllocError>
    ensures { IfOk result (λ learnt. learnt ≡ spec.learnt value.now form.now) }
{
    match value {
        Value::Int(_) => Ok(Form::Int),
        Value::Enum(declaration, _) => Ok(Form::Enumeration(*declaration)),
        Value::Record(parts) => {
            let parts = learn_parts(alloc, parts.as_slice(), parts_known(form))?;
            Ok(Form::Record(parts))
        }
        Value::Set(elements) => {
            let element = element_known(alloc, form)?;
            let element = learn_elements(alloc, elements.as_slice(), element)?;
            Ok(Form::Set(Boxed::new(alloc, element)?))
        }
        Value::Bool(_) | Value::Range(..) | Value::Names(_) | Value::Array(..) => form.copy(alloc),
    }
}

/// What each part adds to what is known of its form.
#[cycle(learning)]
fn learn_parts(alloc: Global, parts: &[Value], forms: &[Form]) -> Result<Seq<Form>, AllocError>
    ensures { IfOk result (λ learnt. learnt ≡ spec.parts_learnt [] (map spec.learnt parts.now) forms.now) }
{
    let mut found = Seq::new(alloc);
    let mut left = forms;
    for part in parts {
        match left.split_first() {
            Some((form, others)) => {
                found.push(learn(alloc, part, form)?)?;
                left = others;
            }
            None => {
                let nothing = Form::Nothing;
                found.push(learn(alloc, part, &nothing)?)?;
            }
        }
    }
    Ok(found)
}

/// What all elements add to what is known of their form.
#[cycle(learning)]
pub(crate) fn learn_elements(
    alloc: Global,
    elements: &[Value],
    form: Form,
) -> Result<Form, AllocError>
    ensures { IfOk result (λ learnt. learnt ≡ spec.elements_learnt (map spec.learnt elements.now) form) }
{
    let mut found = form;
    for element in elements {
        found = learn(alloc, element, &found)?;
    }
    Ok(found)
}
