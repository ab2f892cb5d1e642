//! What data expressions and sets come to: the calls of evaluation, passed on. It stands apart from the crate that evaluates, so that
//! wrong answers are tried over a small crate.
#![tactic(auto)]

ghost use Rattle.std.specs.Prelude.{◌≡◌, IfOk};
ghost use Rattle.opl_eval.specs.Arithmetic as arithmetic;
ghost use Rattle.opl_eval.specs.Evaluation as spec;
ghost use Rattle.opl_eval.specs.Visible.{Gives, within};

use opl_eval::{Environment, EvalFault, Parameter};
use opl_term::{SetTerm, Term};
use opl_value::Value;
use std::alloc::Global;

/// What an expression comes to, or its first fault.
pub fn eval(
    alloc: Global,
    environment: &Environment<'_>,
    parameters: &[Parameter<'_>],
    term: &Term,
) -> Result<Value, EvalFault>
    ensures { Gives (λ v. v) (spec.eval term.now (within environment.now parameters.now)) result }
{
    opl_eval::eval(alloc, environment, parameters, term)
}

/// What a set comes to, and for a name of an enumeration the number of its declaration, which is 0 for what is none.
pub fn eval_set(
    alloc: Global,
    environment: &Environment<'_>,
    parameters: &[Parameter<'_>],
    set: &SetTerm,
) -> Result<(Value, u32), EvalFault>
    ensures value { Gives (λ r. r.0) ((spec.set_meaning set.now).value (within environment.now parameters.now)) result }
    ensures declaration { IfOk result (λ r. r.1 ≡ spec.declaration_of ((spec.set_meaning set.now).item (within environment.now parameters.now))) }
{
    opl_eval::eval_set(alloc, environment, parameters, set)
}

/// The quotient of two numbers, cut off towards zero.
pub fn quotient(at: u32, a: i128, b: i128) -> Result<i128, EvalFault>
    ensures { result ≡ arithmetic.quotient at a b }
{
    opl_eval::quotient(at, a, b)
}

/// What the quotient leaves of the first number.
pub fn remainder(at: u32, a: i128, b: i128) -> Result<i128, EvalFault>
    ensures { result ≡ arithmetic.remainder at a b }
{
    opl_eval::remainder(at, a, b)
}
