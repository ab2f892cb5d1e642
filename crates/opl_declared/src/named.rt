//! What a name stands for.
ghost use Rattle.std.specs.Prelude.{◌≡◌, None};
ghost use Rattle.std.specs.Option.{option_copied, option_map};
ghost use Rattle.opl_eval.specs.Visible.{seen};
ghost use Rattle.opl_draft.specs.Numbers.{array_or, entries, variable_named};
ghost use Rattle.opl_declared.specs.Kept as spec;
ghost use Rattle.opl_declared.specs.Lookups as lookups;

use crate::declared::{Declared, Numbered};
use opl_eval::Environment;
use opl_meaning::VariableItem;
use opl_value::Value;

/// The declaration at a place, with the number of its first variable.
fn numbered_at<'a>(
    items: &'a [VariableItem],
    firsts: &[u32],
    place: Option<usize>,
) -> Option<Numbered<'a>>
    ensures { option_map spec.numbered_of result ≡ lookups.numbered_at place items.now firsts.now }
{
    match place {
        Some(at) => both(items.get(at), firsts.get(at)),
        None => None,
    }
}

/// A declaration with the number of its first variable.
fn both<'a>(item: Option<&'a VariableItem>, first: Option<&u32>) -> Option<Numbered<'a>>
    ensures { option_map spec.numbered_of result ≡ lookups.both (option_copied item.entry) (option_copied first.entry) }
{
    match item {
        Some(item) => match first {
            Some(first) => Some(Numbered {
                item,
                first: *first,
            }),
            None => None,
        },
        None => None,
    }
}

/// Whether a value is an array.
#[tactic(auto, using(crate::proofs::Arrays::arrays_of_variants))]
fn is_array(value: &Value) -> bool
    ensures { result ≡ lookups.is_array value.now }
{
    match value {
        Value::Array(..) => true,
        Value::Int(_)
        | Value::Bool(_)
        | Value::Enum(..)
        | Value::Record(_)
        | Value::Set(_)
        | Value::Range(..)
        | Value::Names(_) => false,
    }
}

/// Whether a value, if there is one, is an array.
fn names_value(value: Option<&Value>) -> bool
    ensures { result ≡ lookups.names_value (option_copied value.entry) }
{
    match value {
        Some(value) => is_array(value),
        None => false,
    }
}

/// Whether what a name stands for is an array: variables, else a value.
fn names_array(variable: Option<Numbered<'_>>, value: Option<&Value>) -> bool
    ensures { result ≡ lookups.names_array (option_map spec.numbered_of variable.entry) (option_copied value.entry) }
{
    match variable {
        Some(variable) => variable.item.space.is_some(),
        None => names_value(value),
    }
}

/// A place where something is.
fn guarded(is_there: bool, place: Option<usize>) -> Option<usize>
    ensures { result ≡ lookups.guarded is_there place }
{
    if is_there { place } else { None }
}

impl<'a> Declared<'a> {
    /// The decision variables of the latest declaration of that name. It takes no memory.
    pub fn variable(&self, environment: &Environment<'_>, name: &[u8]) -> Option<Numbered<'a>>
        requires { spec.IsDeclared self.now (seen environment.now).items }
        ensures { option_map spec.numbered_of result ≡ variable_named name.now self.now.items.now }
    {
        numbered_at(self.items, self.firsts.as_slice(), self.names.place(name))
    }

    /// The number of the array that the latest declaration of that name declares, if it is one. It takes no memory.
    pub fn array(&self, environment: &Environment<'_>, name: &[u8]) -> Option<usize>
        requires { spec.IsDeclared self.now (seen environment.now).items }
        ensures { result ≡ array_or None 0 name.now (entries (seen environment.now).items self.now.items.now) }
    {
        let is_array = names_array(self.variable(environment, name), environment.value(name));
        guarded(is_array, self.arrays.place(name))
    }
}
