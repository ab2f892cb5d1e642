//! Expressions evaluated under the names that an initial value sees.
ghost use Rattle.std.specs.Prelude.{◌≡◌};
ghost use Rattle.opl_eval.specs.Evaluation.{meaning};
ghost use Rattle.opl_bind.specs.Dimensions as spec;
ghost use Rattle.opl_given.specs.Faults.{Binds};
ghost use Rattle.opl_bind.specs.Scopes.{names_in};

use opl_eval::{Environment, EvalFault, Parameter, eval};
use opl_given::BindFault;
use opl_term::Term;
use opl_value::Value;
use std::alloc::Global;

/// The declared names with their values, and the names of dimensions with those of their elements.
#[derive(Clone, Copy)]
pub(crate) struct Scope<'a> {
    pub(crate) environment: &'a Environment<'a>,
    pub(crate) parameters: &'a [Parameter<'a>],
}

/// What an expression comes to.
pub(crate) fn evaluated(alloc: Global, scope: Scope<'_>, term: &Term) -> Result<Value, BindFault>
    ensures { Binds (spec.evaluated ((meaning term.now).value (names_in scope.entry))) result }
{
    match eval(alloc, scope.environment, scope.parameters, term) {
        Ok(value) => Ok(value),
        Err(EvalFault::OutOfMemory) => Err(BindFault::OutOfMemory),
        Err(EvalFault::DivByZero(at)) => Err(BindFault::Eval(EvalFault::DivByZero(at))),
        Err(EvalFault::OutOfIndex(at)) => Err(BindFault::Eval(EvalFault::OutOfIndex(at))),
        Err(EvalFault::TooLarge(at)) => Err(BindFault::Eval(EvalFault::TooLarge(at))),
        Err(EvalFault::EmptyMinMax(at)) => Err(BindFault::Eval(EvalFault::EmptyMinMax(at))),
    }
}
