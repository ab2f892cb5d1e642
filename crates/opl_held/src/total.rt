//! Aggregates of parts.
ghost use Rattle.std.specs.Prelude.{◌≡◌};
ghost use Rattle.opl_eval.specs.Compare as compare;
ghost use Rattle.opl_held.specs.Gathered as spec;
ghost use Rattle.opl_held.specs.Outcomes.{both, changed};

use crate::outcome::{Outcome, both};
use crate::sign::Sign;
use crate::sum::{Sum, added};
use opl_eval::{EvalFault, number};
use opl_tree::AggregateOp;
use opl_value::Value;

/// What an aggregate of nothing comes to.
pub(crate) fn nothing(operation: AggregateOp, at: u32) -> Result<i128, EvalFault>
    ensures { result ≡ spec.nothing operation at }
{
    match operation {
        AggregateOp::Sum => Ok(0),
        AggregateOp::Product => Ok(1),
        AggregateOp::Min | AggregateOp::Max => Err(EvalFault::EmptyMinMax(at)),
    }
}

/// The lesser of what was found, if anything, and a number.
fn lesser(found: Result<i128, EvalFault>, number: i128) -> Result<i128, EvalFault>
    ensures { result ≡ spec.lesser found number }
{
    match found {
        Ok(found) => {
            if number < found {
                Ok(number)
            } else {
                Ok(found)
            }
        }
        Err(_) => Ok(number),
    }
}

/// The greater of what was found, if anything, and a number.
fn greater(found: Result<i128, EvalFault>, number: i128) -> Result<i128, EvalFault>
    ensures { result ≡ spec.greater found number }
{
    match found {
        Ok(found) => {
            if found < number {
                Ok(number)
            } else {
                Ok(found)
            }
        }
        Err(_) => Ok(number),
    }
}

/// The least so far, and one part more.
fn least(total: Sum, part: Outcome<Value>) -> Sum
    ensures { result ≡ changed (λ p. spec.lesser p.0 (compare.number p.1)) (both total part) }
{
    match both(total, part) {
        Outcome::Fixed((found, value)) => Outcome::Fixed(lesser(found, number(&value))),
        Outcome::Live(Some((found, value))) => {
            Outcome::Live(Some(lesser(found, number(&value))))
        }
        Outcome::Live(None) => Outcome::Live(None),
    }
}

/// The greatest so far, and one part more.
fn greatest(total: Sum, part: Outcome<Value>) -> Sum
    ensures { result ≡ changed (λ p. spec.greater p.0 (compare.number p.1)) (both total part) }
{
    match both(total, part) {
        Outcome::Fixed((found, value)) => Outcome::Fixed(greater(found, number(&value))),
        Outcome::Live(Some((found, value))) => {
            Outcome::Live(Some(greater(found, number(&value))))
        }
        Outcome::Live(None) => Outcome::Live(None),
    }
}

/// A product with one factor more. The fault of a product without variables stays, whatever follows.
fn multiplied(at: u32, total: Sum, part: Outcome<Value>) -> Sum
    ensures { result ≡ spec.multiplied at total part }
{
    match total {
        Outcome::Fixed(Err(fault)) => Outcome::Fixed(Err(fault)),
        Outcome::Fixed(Ok(number)) => added(at, Sign::Times, Outcome::Fixed(Ok(number)), part),
        Outcome::Live(total) => added(at, Sign::Times, Outcome::Live(total), part),
    }
}

/// An aggregate so far, and one body more.
pub(crate) fn gathered(operation: AggregateOp, at: u32, total: Sum, part: Outcome<Value>) -> Sum
    ensures { result ≡ spec.gathered operation at total part }
{
    match operation {
        AggregateOp::Sum => added(at, Sign::Plus, total, part),
        AggregateOp::Product => multiplied(at, total, part),
        AggregateOp::Min => least(total, part),
        AggregateOp::Max => greatest(total, part),
    }
}
