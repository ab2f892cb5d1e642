//! What operations make of parts.
ghost use Rattle.std.specs.Prelude.{◌≡◌, ◌||◌, not};
ghost use Rattle.opl_eval.specs.Arithmetic as arithmetic;
ghost use Rattle.opl_eval.specs.Compare as compare;
ghost use Rattle.opl_eval.specs.Evaluation.{found, integer, is_true};
ghost use Rattle.opl_form.specs.Worth.{some_of};
ghost use Rattle.opl_held.specs.Outcomes.{both, changed, told};

use crate::outcome::{Outcome, both};
use opl_eval::{EvalFault, absolute, negative, number, relates};
use opl_nodes::is_true;
use opl_tree::Relation;
use opl_value::Value;

/// A number as a value, if it is one.
fn defined(number: Result<i128, EvalFault>) -> Option<Value>
    ensures { result ≡ some_of (integer number) }
{
    match number {
        Ok(number) => Some(Value::Int(number)),
        Err(_) => None,
    }
}

/// A number without variables as a part, or its fault.
fn fixed(number: Result<i128, EvalFault>) -> Result<Outcome<Value>, EvalFault>
    ensures { result ≡ found (λ v. Outcome.Fixed v) (integer number) }
{
    match number {
        Ok(number) => Ok(Outcome::Fixed(Value::Int(number))),
        Err(fault) => Err(fault),
    }
}

/// `- a`
pub(crate) fn negated(at: u32, part: Outcome<Value>) -> Result<Outcome<Value>, EvalFault>
    ensures { result ≡ told (changed (λ v. integer (arithmetic.negative at (compare.number v))) part) }
{
    match part {
        Outcome::Fixed(value) => fixed(negative(at, number(&value))),
        Outcome::Live(Some(value)) => Ok(Outcome::Live(defined(negative(at, number(&value))))),
        Outcome::Live(None) => Ok(Outcome::Live(None)),
    }
}

/// `abs(a)`
pub(crate) fn unsigned(at: u32, part: Outcome<Value>) -> Result<Outcome<Value>, EvalFault>
    ensures { result ≡ told (changed (λ v. integer (arithmetic.absolute at (compare.number v))) part) }
{
    match part {
        Outcome::Fixed(value) => fixed(absolute(at, number(&value))),
        Outcome::Live(Some(value)) => Ok(Outcome::Live(defined(absolute(at, number(&value))))),
        Outcome::Live(None) => Ok(Outcome::Live(None)),
    }
}

/// `a = b` and the like.
pub(crate) fn compared(
    relation: Relation,
    left: Outcome<Value>,
    right: Outcome<Value>,
) -> Outcome<Value>
    ensures { result ≡ changed (λ p. Value.Bool (compare.relates relation p.0 p.1)) (both left right) }
{
    match both(left, right) {
        Outcome::Fixed((left, right)) => {
            Outcome::Fixed(Value::Bool(relates(relation, &left, &right)))
        }
        Outcome::Live(Some((left, right))) => {
            Outcome::Live(Some(Value::Bool(relates(relation, &left, &right))))
        }
        Outcome::Live(None) => Outcome::Live(None),
    }
}

/// Whether a premise implies a conclusion.
fn implies(premise: &Value, conclusion: &Value) -> bool
    ensures { result ≡ (not (is_true premise.now) || is_true conclusion.now) }
{
    !is_true(premise) || is_true(conclusion)
}

/// `a => b`
pub(crate) fn implied(premise: Outcome<Value>, conclusion: Outcome<Value>) -> Outcome<Value>
    ensures { result ≡ changed (λ p. Value.Bool (not (is_true p.0) || is_true p.1)) (both premise conclusion) }
{
    match both(premise, conclusion) {
        Outcome::Fixed((premise, conclusion)) => {
            Outcome::Fixed(Value::Bool(implies(&premise, &conclusion)))
        }
        Outcome::Live(Some((premise, conclusion))) => {
            Outcome::Live(Some(Value::Bool(implies(&premise, &conclusion))))
        }
        Outcome::Live(None) => Outcome::Live(None),
    }
}

/// `not a`
pub(crate) fn opposite(part: Outcome<Value>) -> Outcome<Value>
    ensures { result ≡ changed (λ v. Value.Bool (not (is_true v))) part }
{
    match part {
        Outcome::Fixed(value) => Outcome::Fixed(Value::Bool(!is_true(&value))),
        Outcome::Live(Some(value)) => Outcome::Live(Some(Value::Bool(!is_true(&value)))),
        Outcome::Live(None) => Outcome::Live(None),
    }
}
