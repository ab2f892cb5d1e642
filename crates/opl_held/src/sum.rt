//! Sums and chains of parts.
ghost use Rattle.std.specs.Prelude.{◌≡◌, Ok};
ghost use Rattle.opl_eval.specs.Arithmetic as arithmetic;
ghost use Rattle.opl_eval.specs.Compare as compare;
ghost use Rattle.opl_eval.specs.Evaluation.{found};
ghost use Rattle.opl_draft.specs.Drafts as drafts;
ghost use Rattle.opl_held.specs.Outcomes.{both, changed, told};
ghost use Rattle.opl_held.specs.Signs.{sign as sign_of};
ghost use Rattle.opl_held.specs.Worth as spec;

use crate::outcome::{Outcome, both};
use crate::sign::{Sign, divides, operation};
use opl_eval::{EvalFault, applied, number};
use opl_value::Value;

/// A sum so far: a number, or its first fault, which is told only when all operands are there.
pub(crate) type Sum = Outcome<Result<i128, EvalFault>>;

/// A sum of one operand.
pub(crate) fn begun(part: Outcome<Value>) -> Sum
    ensures { result ≡ spec.begun part }
{
    match part {
        Outcome::Fixed(value) => Outcome::Fixed(Ok(number(&value))),
        Outcome::Live(Some(value)) => Outcome::Live(Some(Ok(number(&value)))),
        Outcome::Live(None) => Outcome::Live(None),
    }
}

/// A number, if it is one, behind one step more.
fn behind_step(
    at: u32,
    sign: Sign,
    before: Result<i128, EvalFault>,
    operand: &Value,
) -> Result<i128, EvalFault>
    ensures { result ≡ arithmetic.then before (λ n. arithmetic.applied at n (drafts.operation (sign_of sign) (compare.number operand.now))) }
{
    match before {
        Ok(before) => applied(at, before, operation(sign, number(operand))),
        Err(fault) => Err(fault),
    }
}

/// A sum with one operand more.
pub(crate) fn added(at: u32, sign: Sign, sum: Sum, part: Outcome<Value>) -> Sum
    ensures { result ≡ spec.added at (sign_of sign) sum part }
{
    match both(sum, part) {
        Outcome::Fixed((before, operand)) => {
            Outcome::Fixed(behind_step(at, sign, before, &operand))
        }
        Outcome::Live(Some((before, operand))) => {
            Outcome::Live(Some(behind_step(at, sign, before, &operand)))
        }
        Outcome::Live(None) => Outcome::Live(None),
    }
}

/// What a sum comes to: a fault without variables is told, one by variables leaves it undefined.
fn total(sum: Sum) -> Result<Outcome<i128>, EvalFault>
    ensures { result ≡ told sum }
{
    match sum {
        Outcome::Fixed(Ok(number)) => Ok(Outcome::Fixed(number)),
        Outcome::Fixed(Err(fault)) => Err(fault),
        Outcome::Live(Some(Ok(number))) => Ok(Outcome::Live(Some(number))),
        Outcome::Live(Some(Err(_))) => Ok(Outcome::Live(None)),
        Outcome::Live(None) => Ok(Outcome::Live(None)),
    }
}

/// A number as a sum.
fn alone(number: Outcome<i128>) -> Sum
    ensures { result ≡ changed (λ n. Ok n) number }
{
    match number {
        Outcome::Fixed(number) => Outcome::Fixed(Ok(number)),
        Outcome::Live(Some(number)) => Outcome::Live(Some(Ok(number))),
        Outcome::Live(None) => Outcome::Live(None),
    }
}

/// What a sum comes to, as a value.
pub(crate) fn ended(sum: Sum) -> Result<Outcome<Value>, EvalFault>
    ensures { result ≡ found (changed Value.Int) (told sum) }
{
    match total(sum) {
        Ok(Outcome::Fixed(number)) => Ok(Outcome::Fixed(Value::Int(number))),
        Ok(Outcome::Live(Some(number))) => Ok(Outcome::Live(Some(Value::Int(number)))),
        Ok(Outcome::Live(None)) => Ok(Outcome::Live(None)),
        Err(fault) => Err(fault),
    }
}

/// Whether a part is 0 without variables.
fn is_zero(part: &Outcome<Value>) -> bool
    ensures { result ≡ spec.is_zero part.now }
{
    match part {
        Outcome::Fixed(value) => number(value) == 0,
        Outcome::Live(_) => false,
    }
}

/// A number and one operand more, by a step that is no sum.
fn together(at: u32, sign: Sign, before: Outcome<i128>, part: Outcome<Value>) -> Sum
    ensures { result ≡ changed (λ p. arithmetic.applied at p.0 (drafts.operation (sign_of sign) (compare.number p.1))) (both before part) }
{
    match both(before, part) {
        Outcome::Fixed((before, operand)) => {
            Outcome::Fixed(applied(at, before, operation(sign, number(&operand))))
        }
        Outcome::Live(Some((before, operand))) => {
            Outcome::Live(Some(applied(at, before, operation(sign, number(&operand)))))
        }
        Outcome::Live(None) => Outcome::Live(None),
    }
}

/// What a product or a quotient comes to begins the next sum. A divisor 0 without variables has no quotient, whatever is divided.
fn factored(
    at: u32,
    sign: Sign,
    before: Outcome<i128>,
    part: Outcome<Value>,
) -> Result<Sum, EvalFault>
    ensures { result ≡ spec.factored at (sign_of sign) before part }
{
    let is_fault = divides(sign) && is_zero(&part);
    if is_fault {
        return Err(EvalFault::DivByZero(at));
    }
    match total(together(at, sign, before, part)) {
        Ok(number) => Ok(alone(number)),
        Err(fault) => Err(fault),
    }
}

/// A product or a quotient of a whole sum and one operand more.
fn turned(at: u32, sign: Sign, sum: Sum, part: Outcome<Value>) -> Result<Sum, EvalFault>
    ensures { result ≡ arithmetic.then (told sum) (λ a. spec.factored at (sign_of sign) a part) }
{
    match total(sum) {
        Ok(before) => factored(at, sign, before, part),
        Err(fault) => Err(fault),
    }
}

/// A chain with one step more.
pub(crate) fn stepped(at: u32, sign: Sign, sum: Sum, part: Outcome<Value>) -> Result<Sum, EvalFault>
    ensures { result ≡ spec.stepped at (sign_of sign) sum part }
{
    match sign {
        Sign::Plus => Ok(added(at, Sign::Plus, sum, part)),
        Sign::Minus => Ok(added(at, Sign::Minus, sum, part)),
        Sign::Times => turned(at, Sign::Times, sum, part),
        Sign::Quotient => turned(at, Sign::Quotient, sum, part),
        Sign::Remainder => turned(at, Sign::Remainder, sum, part),
    }
}
