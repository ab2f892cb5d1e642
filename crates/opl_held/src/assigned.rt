//! The values of decision variables under an assignment.
ghost use Rattle.std.specs.Prelude.{[], ◌≡◌, IfOk, pos, slice_index_or};
ghost use Rattle.opl_value.specs.Places.{value_at};
ghost use Rattle.opl_meaning.specs.Assigned.{position_of, value_of};
ghost use Rattle.opl_draft.specs.Drafts.{variable_values};

use opl_meaning::Kind;
use opl_value::Value;
use std::alloc::{AllocError, Global};

/// The number of a variable, 0 where there is none.
fn number_at(values: &[i64], x: usize) -> i64
    ensures { result ≡ slice_index_or values.now x (pos 0) }
{
    if x < values.len() { values[x] } else { 0 }
}

/// The name of an enumeration at a position, the first where that is below 0. From 2^32 on memory is wanting.
fn name_at(declaration: u32, position: i64) -> Result<Value, AllocError>
    ensures { IfOk result (λ v. v ≡ Value.Enum declaration (position_of position)) }
{
    if position < 0 {
        return Ok(Value::Enum(declaration, 0));
    }
    match u32::try_from(position) {
        Ok(position) => Ok(Value::Enum(declaration, position)),
        Err(_) => Err(AllocError),
    }
}

/// The value of a variable of this kind.
pub(crate) fn variable(values: &[i64], kind: Kind, x: usize) -> Result<Value, AllocError>
    ensures { IfOk result (λ v. v ≡ value_of kind (slice_index_or values.now x (pos 0))) }
{
    let number = number_at(values, x);
    match kind {
        Kind::Number => Ok(Value::Int(i128::from(number))),
        Kind::Enumeration(declaration) => name_at(declaration, number),
    }
}

/// The values of so many variables from one on.
pub(crate) fn variables(
    alloc: Global,
    values: &[i64],
    kind: Kind,
    first: u32,
    count: u32,
) -> Result<Vec<Value>, AllocError>
    ensures { IfOk result (λ vs. vs.items ≡ variable_values [] values.now kind first count) }
{
    let mut found = Vec::new(alloc);
    for place in 0..count {
        found.push(variable(values, kind, first as usize + place as usize)?)?;
    }
    Ok(found)
}

/// The value at a place among so many variables from one on, 0 where there is none.
#[tactic(auto, using(crate::proofs::Variables::places))]
pub(crate) fn variable_at(
    values: &[i64],
    kind: Kind,
    first: u32,
    count: u32,
    place: u64,
) -> Result<Value, AllocError>
    ensures { IfOk result (λ v. v ≡ value_at (variable_values [] values.now kind first count) place) }
{
    if place >= u64::from(count) {
        return Ok(Value::Int(0));
    }
    variable(values, kind, first as usize + place as usize)
}
