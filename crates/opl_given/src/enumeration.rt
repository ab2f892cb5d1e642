//! The names of an enumeration, as a data file gives them.
ghost use Rattle.std.specs.Prelude.{◌≡◌, []};
ghost use Rattle.opl_given.specs.Enumerations as spec;
ghost use Rattle.opl_given.specs.Faults.{Gives};
ghost use Rattle.opl_given.specs.Readings.{texts_of};
ghost use Rattle.opl_given.specs.Values.{first_token};

use crate::cells::Source;
use crate::fault::BindFault;
use crate::names::Names;
use opl_data::DataValue;
use std::alloc::Global;

/// The place of the first token of a value.
#[tactic(auto, using(crate::proofs::Enumerations::variants))]
pub(crate) fn first_token(value: &DataValue) -> u32
    ensures { result ≡ first_token value.now }
{
    match value {
        DataValue::Number(at, _, _) => *at,
        DataValue::Named(name) => name.at,
        DataValue::Record(at, _, _) => *at,
        DataValue::Set(at, _) => *at,
        DataValue::Array(at, _) => *at,
        DataValue::KeyedArray(at, _) => *at,
    }
}

/// The name that a value is.
#[tactic(auto, using(crate::proofs::Enumerations::variants))]
fn name_of(source: Source, value: &DataValue) -> Result<&[u8], BindFault>
    ensures { Gives (λ n. n.now) (spec.name_of (BindFault.Shape source.file source.at) value.now) result }
{
    match value {
        DataValue::Named(name) => Ok(name.text.as_slice()),
        DataValue::Number(..)
        | DataValue::Record(..)
        | DataValue::Set(..)
        | DataValue::Array(..)
        | DataValue::KeyedArray(..) => Err(source.shape()),
    }
}

/// A name behind those before, from which it differs.
fn with_new<'d>(source: Source, names: Names<'d>, name: &'d [u8]) -> Result<Names<'d>, BindFault>
    ensures { Gives texts_of (spec.with_new (BindFault.Shape source.file source.at) (texts_of names.entry) name.now) result }
{
    if names.place(name).is_some() {
        return Err(source.shape());
    }
    names.with(name)
}

/// Names that all differ.
fn different_names<'d>(
    alloc: Global,
    source: Source,
    values: &'d [DataValue],
) -> Result<Names<'d>, BindFault>
    ensures { Gives texts_of (spec.different_names (BindFault.Shape source.file source.at) [] values.now) result }
{
    let mut names = Names::new(alloc);
    for value in values {
        let name = name_of(source, value)?;
        names = with_new(source, names, name)?;
    }
    Ok(names)
}

/// A set of names that all differ.
#[tactic(auto, using(crate::proofs::Enumerations::variants))]
fn names_in<'d>(alloc: Global, source: Source, value: &'d DataValue) -> Result<Names<'d>, BindFault>
    ensures { Gives texts_of (spec.names_in (BindFault.Shape source.file source.at) value.now) result }
{
    match value {
        DataValue::Set(_, elements) => different_names(alloc, source, elements.as_slice()),
        DataValue::Number(..)
        | DataValue::Named(_)
        | DataValue::Record(..)
        | DataValue::Array(..)
        | DataValue::KeyedArray(..) => Err(source.shape()),
    }
}

/// The names of an enumeration, as the value in the file with that number gives them.
pub fn given_names<'d>(
    alloc: Global,
    file: u32,
    value: &'d DataValue,
) -> Result<Names<'d>, BindFault>
    ensures { Gives texts_of (spec.given_names file value.now) result }
{
    let at = first_token(value);
    names_in(alloc, Source { file, at }, value)
}
