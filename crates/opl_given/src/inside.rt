//! Whether the numbers in a value lie in the ranges of its type.
ghost use Rattle.std.specs.Prelude.{◌≡◌, map};
ghost use Rattle.std.specs.List.{list_all};
ghost use Rattle.opl_given.specs.Inside as spec;
ghost use Rattle.opl_given.specs.Readings.{known_of};

use crate::assigned::is_within;
use crate::form::Form;
use crate::types::Types;
use crate::value::{element_of, parts_of};
use opl_value::Value;

/// Whether each number in a value that has a range type lies in its range. It takes no memory; the nesting of the value is the depth
/// of the recursion.
#[cycle(insides)]
#[tactic(auto, using(crate::proofs::Insides::insides))]
pub fn is_inside(types: &Types<'_>, value: &Value, form: &Form) -> bool
    ensures { result ≡ spec.is_inside (known_of types.now) value.now form.now }
{
    match value {
        Value::Int(_) => is_within(form, value),
        Value::Record(parts) => match parts_of(&*types, &*form) {
            Some(forms) => parts_inside(types, parts.as_slice(), forms),
            None => true,
        },
        Value::Set(elements) => match element_of(form) {
            Some(element) => elements_inside(types, elements.as_slice(), element),
            None => true,
        },
        Value::Bool(_) | Value::Enum(..) | Value::Range(..) | Value::Names(_) | Value::Array(..) =>
            { true }
    }
}

/// Whether the parts of a record are inside, each by its form.
#[cycle(insides)]
fn parts_inside(types: &Types<'_>, parts: &[Value], forms: &[Form]) -> bool
    ensures { result ≡ spec.each_inside (map (spec.is_inside (known_of types.now)) parts.now) forms.now }
{
    let mut left = forms;
    for part in parts {
        let Some((form, others)) = left.split_first() else {
            return true;
        };
        if !is_inside(types, part, form) {
            return false;
        }
        left = others;
    }
    true
}

/// Whether all elements of a set are inside, by the one form.
#[cycle(insides)]
fn elements_inside(types: &Types<'_>, elements: &[Value], form: &Form) -> bool
    ensures { result ≡ list_all (λ inside. inside form.now) (map (spec.is_inside (known_of types.now)) elements.now) }
{
    for element in elements {
        if !is_inside(types, element, form) {
            return false;
        }
    }
    true
}
