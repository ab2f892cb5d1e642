//! What expressions come to under the names that a declaration of variables sees.
ghost use Rattle.std.specs.Prelude.{◌≡◌};
ghost use Rattle.opl_eval.specs.Evaluation.{eval};
ghost use Rattle.opl_meaning.specs.EachSet.{end_by};
ghost use Rattle.opl_meaning.specs.Faults.{Makes, evaluated};
ghost use Rattle.opl_meaning.specs.VariableReadings.{is_named, sees};

use crate::fault::MeaningFault;
use opl_eval::{Environment, EvalFault, Parameter, eval, number};
use opl_term::Term;
use opl_value::Value;
use std::alloc::Global;

/// The declared names with their values, and the names of dimensions with those of their elements.
#[derive(Clone, Copy)]
pub(crate) struct Visible<'a> {
    pub(crate) environment: &'a Environment<'a>,
    pub(crate) parameters: &'a [Parameter<'a>],
}

/// What an expression comes to.
fn value_of(alloc: Global, visible: Visible<'_>, term: &Term) -> Result<Value, MeaningFault>
    ensures { Makes (evaluated (eval term.now (sees visible.entry))) result }
{
    match eval(alloc, visible.environment, visible.parameters, term) {
        Ok(value) => Ok(value),
        Err(EvalFault::OutOfMemory) => Err(MeaningFault::OutOfMemory),
        Err(EvalFault::DivByZero(at)) => Err(MeaningFault::Eval(EvalFault::DivByZero(at))),
        Err(EvalFault::OutOfIndex(at)) => Err(MeaningFault::Eval(EvalFault::OutOfIndex(at))),
        Err(EvalFault::TooLarge(at)) => Err(MeaningFault::Eval(EvalFault::TooLarge(at))),
        Err(EvalFault::EmptyMinMax(at)) => Err(MeaningFault::Eval(EvalFault::EmptyMinMax(at))),
    }
}

/// The number that an end of a declared set comes to.
pub(crate) fn end_in(alloc: Global, visible: Visible<'_>, end: &Term) -> Result<i128, MeaningFault>
    ensures { Makes (end_by (sees visible.entry) end.now) result }
{
    let value = value_of(alloc, visible, end)?;
    Ok(number(&value))
}

/// Whether one of the parameters has the name, and so hides a declared one.
pub(crate) fn is_hidden(parameters: &[Parameter<'_>], name: &[u8]) -> bool
    ensures { result ≡ is_named parameters.now name.now }
{
    for parameter in parameters {
        if name == parameter.name {
            return true;
        }
    }
    false
}
