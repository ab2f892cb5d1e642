//! What the expressions of declarations come to: ends of ranges, and index sets.
ghost use Rattle.std.specs.Prelude.{◌≡◌, [], IfErr, map};
ghost use Rattle.opl_eval.specs.Visible.{seen};
ghost use Rattle.opl_bind.specs.Dimensions as spec;
ghost use Rattle.opl_given.specs.Faults.{Binds, Gives};
ghost use Rattle.opl_given.specs.Readings.{axis_of};

use opl_eval::{Environment, EvalFault, eval, eval_set, number};
use opl_given::{Axis, BindFault, index_set, space_of};
use opl_list::Seq;
use opl_term::{SetTerm, Term, add_term, set_term};
use opl_tree::{AddTree, DimTree, DimsTree};
use opl_value::{IndexSpace, Value};
use std::alloc::Global;

/// A fault of evaluation as one of a declaration.
fn fault_of(fault: EvalFault) -> BindFault
    ensures value { result ≡ spec.fault_of fault }
    ensures evaluation { spec.IsOfEvaluation result }
{
    match fault {
        EvalFault::OutOfMemory => BindFault::OutOfMemory,
        EvalFault::DivByZero(at) => BindFault::Eval(EvalFault::DivByZero(at)),
        EvalFault::OutOfIndex(at) => BindFault::Eval(EvalFault::OutOfIndex(at)),
        EvalFault::TooLarge(at) => BindFault::Eval(EvalFault::TooLarge(at)),
        EvalFault::EmptyMinMax(at) => BindFault::Eval(EvalFault::EmptyMinMax(at)),
    }
}

/// What an expression comes to.
#[tactic(auto, using(crate::proofs::Evaluations::evaluations))]
fn value_of(alloc: Global, environment: &Environment<'_>, term: &Term) -> Result<Value, BindFault>
    ensures { Binds (spec.value_of (seen environment.now) term.now) result }
{
    match eval(alloc, environment, &[], term) {
        Ok(value) => Ok(value),
        Err(fault) => Err(fault_of(fault)),
    }
}

/// The number that an expression comes to.
#[tactic(auto, unfolding(crate::specs::Dimensions::number_in))]
pub(crate) fn number_in(
    alloc: Global,
    environment: &Environment<'_>,
    t: &AddTree,
) -> Result<i128, BindFault>
    ensures { Binds (spec.number_in (seen environment.now) t.now) result }
{
    let term = add_term(alloc, t)?;
    let value = value_of(alloc, environment, term.get())?;
    Ok(number(&value))
}

/// What a set comes to, and the number of the enumeration's declaration if it is one.
#[tactic(auto, using(crate::proofs::Evaluations::evaluations))]
fn set_of(
    alloc: Global,
    environment: &Environment<'_>,
    term: &SetTerm,
) -> Result<(Value, u32), BindFault>
    ensures value { Gives (λ r. record { value = r.0; declaration = r.1 }) (spec.set_in (seen environment.now) term.now) result }
    ensures faults { IfErr result spec.IsOfEvaluation }
{
    match eval_set(alloc, environment, &[], term) {
        Ok(found) => Ok(found),
        Err(fault) => Err(fault_of(fault)),
    }
}

/// The index set of a dimension.
#[tactic(auto, unfolding(crate::specs::Dimensions::axis_in))]
fn axis_in(alloc: Global, environment: &Environment<'_>, t: &DimTree) -> Result<Axis, BindFault>
    ensures axis { Gives axis_of (spec.axis_in (seen environment.now) t.now) result }
    ensures faults { IfErr result spec.IsOfEvaluation }
{
    let found = {
        let term = set_term(alloc, &t.set)?;
        set_of(alloc, environment, &term)
    };
    let (set, declaration) = found?;
    index_set(alloc, &set, declaration)
}

/// The index sets of dimensions, in order.
pub(crate) fn axes_in(
    alloc: Global,
    environment: &Environment<'_>,
    dims: &DimsTree,
) -> Result<Seq<Axis>, BindFault>
    ensures axes { Gives (map axis_of) (spec.axes_in (seen environment.now) [] (spec.dims_of dims.now)) result }
    ensures faults { IfErr result spec.IsOfEvaluation }
{
    let mut axes = Seq::new(alloc);
    axes.push(axis_in(alloc, environment, &dims.first)?)?;
    for t in dims.rest.as_slice() {
        axes.push(axis_in(alloc, environment, t)?)?;
    }
    Ok(axes)
}

/// The index space of dimensions, whose sets are evaluated in order. It may have more keys than can be counted.
#[tactic(auto, unfolding(crate::specs::Dimensions::space_in), using(opl_given::proofs::Spaces::spaces))]
pub fn index_space(
    alloc: Global,
    environment: &Environment<'_>,
    dims: &DimsTree,
) -> Result<IndexSpace, BindFault>
    ensures space { Binds (spec.space_in (seen environment.now) dims.now) result }
    ensures faults { IfErr result spec.IsOfEvaluation }
{
    let axes = axes_in(alloc, environment, dims)?;
    Ok(space_of(alloc, axes.as_slice())?)
}
