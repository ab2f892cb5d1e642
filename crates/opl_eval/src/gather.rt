//! What is made of the bodies of parameters as they are found.
ghost use Rattle.std.specs.Prelude.{◌≡◌, ◌++◌, ◌∷◌, [], IfOk, None, OnOk, Some};
ghost use Rattle.std.specs.Option.{option_copied};
ghost use Rattle.opl_eval.specs.Arithmetic as arithmetic;
ghost use Rattle.opl_eval.specs.Compare as compare;
ghost use Rattle.opl_eval.specs.Evaluation as spec;
ghost use Rattle.opl_eval.specs.Gathered as gathered;
ghost use Rattle.opl_eval.specs.Visible.{Gives, held};

use crate::arithmetic::{plus, times};
use crate::compare::number;
use crate::connect::integer;
use crate::fault::EvalFault;
use crate::held::Held;
use opl_list::Seq;
use opl_tree::AggregateOp;
use opl_value::Value;
use std::alloc::{AllocError, Global};
use std::mem;

/// All values, or what an aggregate makes of those so far, so that an aggregate takes no memory for each.
#[derive(Drop)]
pub(crate) enum Gathered {
    Listed(Seq<Value>),
    /// Their sum, or its first fault, at a place.
    Sum(u32, Result<i128, EvalFault>),
    /// Their product, or its first fault, at a place.
    Product(u32, Result<i128, EvalFault>),
    Least(Option<i128>),
    Greatest(Option<i128>),
}

impl Gathered {
    /// An aggregate of nothing so far, at a place.
    pub(crate) fn new(operation: AggregateOp, at: u32) -> Gathered
        ensures { result ≡ gathered.nothing operation at }
    {
        match operation {
            AggregateOp::Sum => Gathered::Sum(at, Ok(0)),
            AggregateOp::Product => Gathered::Product(at, Ok(1)),
            AggregateOp::Min => Gathered::Least(None),
            AggregateOp::Max => Gathered::Greatest(None),
        }
    }

    /// Adds a value.
    pub(crate) fn add(&mut self, value: Value) -> Result<(), AllocError>
        ensures { OnOk result (self.new ≡ gathered.put self.old value) }
    {
        let before = mem::replace(self, Gathered::Least(None));
        *self = with_value(before, value)?;
        Ok(())
    }
}

/// The same, and a value.
fn with_value(before: Gathered, value: Value) -> Result<Gathered, AllocError>
    ensures { IfOk result (λ r. r ≡ gathered.put before value) }
{
    match before {
        Gathered::Listed(values) => listed(values, value),
        Gathered::Sum(at, total) => Ok(Gathered::Sum(at, added(at, total, counted(value)))),
        Gathered::Product(at, total) => {
            Ok(Gathered::Product(at, multiplied(at, total, counted(value))))
        }
        Gathered::Least(found) => Ok(Gathered::Least(Some(lesser(found, counted(value))))),
        Gathered::Greatest(found) => Ok(Gathered::Greatest(Some(greater(found, counted(value))))),
    }
}

/// The number that a value counts as.
fn counted(value: Value) -> i128
    ensures { result ≡ compare.number value }
{
    number(&value)
}

/// All values, and one more.
fn listed(values: Seq<Value>, value: Value) -> Result<Gathered, AllocError>
    ensures { IfOk result (λ r. r ≡ Gathered.Listed (values ++ value ∷ [])) }
{
    Ok(Gathered::Listed(longer(values, value)?))
}

/// A list, and a value behind it.
fn longer(values: Seq<Value>, value: Value) -> Result<Seq<Value>, AllocError>
    ensures { IfOk result (λ r. r ≡ values ++ value ∷ []) }
{
    let mut values = values;
    values.push(value)?;
    Ok(values)
}

/// A sum, and a number added to it.
fn added(at: u32, total: Result<i128, EvalFault>, number: i128) -> Result<i128, EvalFault>
    ensures { result ≡ arithmetic.then total (λ n. arithmetic.plus at n number) }
{
    match total {
        Ok(total) => plus(at, total, number),
        Err(fault) => Err(fault),
    }
}

/// A product, and a number multiplied with it.
fn multiplied(at: u32, total: Result<i128, EvalFault>, number: i128) -> Result<i128, EvalFault>
    ensures { result ≡ arithmetic.then total (λ n. arithmetic.times at n number) }
{
    match total {
        Ok(total) => times(at, total, number),
        Err(fault) => Err(fault),
    }
}

/// The lesser of what was found, if anything, and a number.
fn lesser(found: Option<i128>, number: i128) -> i128
    ensures { result ≡ gathered.lesser found number }
{
    match found {
        Some(found) => { if number < found { number } else { found } }
        None => number,
    }
}

/// The greater of what was found, if anything, and a number.
fn greater(found: Option<i128>, number: i128) -> i128
    ensures { result ≡ gathered.greater found number }
{
    match found {
        Some(found) => { if found < number { number } else { found } }
        None => number,
    }
}

/// What an aggregate at a place has come to.
pub(crate) fn outcome<'a>(at: u32, found: Gathered) -> Result<Held<'a>, EvalFault>
    ensures { Gives held (spec.integer (gathered.outcome at found)) result }
{
    integer(number_of(at, found))
}

/// The number that an aggregate at a place has come to.
fn number_of(at: u32, found: Gathered) -> Result<i128, EvalFault>
    ensures { result ≡ gathered.outcome at found }
{
    match found {
        Gathered::Listed(_) => Ok(0),
        Gathered::Sum(_, total) => total,
        Gathered::Product(_, total) => total,
        Gathered::Least(least) => any(at, least),
        Gathered::Greatest(greatest) => any(at, greatest),
    }
}

/// The number that was found.
fn any(at: u32, found: Option<i128>) -> Result<i128, EvalFault>
    ensures { result ≡ gathered.any at found }
{
    match found {
        Some(number) => Ok(number),
        None => Err(EvalFault::EmptyMinMax(at)),
    }
}

/// All values that were gathered.
pub(crate) fn values_of(alloc: Global, found: Gathered) -> Vec<Value>
    ensures { result.items ≡ gathered.values found }
{
    match found {
        Gathered::Listed(values) => values.into_vec(),
        Gathered::Sum(..) | Gathered::Product(..) | Gathered::Least(_) | Gathered::Greatest(_) =>
            Vec::new(alloc),
    }
}
