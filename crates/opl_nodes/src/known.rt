//! Values as parts.
ghost use Rattle.std.specs.Prelude.{◌≡◌, ◌<◌, ◌^◌, ℤ, unsigned_abs, Ok};
ghost use Rattle.opl_value.specs.declared.value.Value.{Value};
ghost use Rattle.opl_eval.specs.Compare.{rank};
ghost use Rattle.opl_eval.specs.Evaluation.{integer};
ghost use Rattle.opl_form.specs.Nodes as nodes;
ghost use Rattle.opl_form.specs.Parts.{Form as forms};
ghost use Rattle.opl_nodes.specs.Pieces as spec;

use crate::context::Context;
use crate::fault::FormFault;
use crate::part::{Form, Part};
use crate::testing::tested;
use crate::values::rank;
use opl_eval::EvalFault;
use opl_list::Boxed;
use opl_value::Value;
use std::alloc::Global;

/// A value with all its tests.
#[tactic(auto, using(crate::proofs::Measures::leaves))]
fn value_tested(
    alloc: Global,
    context: &Context<'_>,
    at: u32,
    before: u64,
    value: Value,
) -> Result<Part, FormFault>
    ensures { spec.Makes context.now (spec.tested context.now at before (forms.known value)) result }
{
    let size = rank(&value).unsigned_abs();
    let form = Form::Known(Boxed::new(alloc, value)?);
    tested(context, at, before, form, size, 1, 1)
}

/// What values come to: a value, and one node, where so many were made before.
pub fn known_node(
    alloc: Global,
    context: &Context<'_>,
    before: u64,
    value: Value,
) -> Result<Part, FormFault>
    requires { unsigned_abs (rank value) < 2 ^ 127 }
    ensures { spec.Makes context.now (nodes.known_node context.now.item before value) result }
{
    value_tested(alloc, context, 0, before, value)
}

/// A value of the data.
pub fn value_node(
    alloc: Global,
    context: &Context<'_>,
    at: u32,
    before: u64,
    value: Value,
) -> Result<Part, FormFault>
    ensures { spec.Makes context.now (nodes.value_node context.now.item at before value) result }
{
    value_tested(alloc, context, at, before, value)
}

/// A truth that values come to.
#[tactic(auto, using(crate::proofs::Views::ranks))]
pub fn truth_node(
    alloc: Global,
    context: &Context<'_>,
    before: u64,
    holds: bool,
) -> Result<Part, FormFault>
    ensures { spec.Makes context.now (nodes.known_node context.now.item before (Value.Bool holds)) result }
{
    known_node(alloc, context, before, Value::Bool(holds))
}

/// A number that values come to, or the fault that stands for it.
#[tactic(auto, using(crate::proofs::Views::ranks))]
pub fn evaluated(
    alloc: Global,
    context: &Context<'_>,
    before: u64,
    number: Result<i128, EvalFault>,
) -> Result<Part, FormFault>
    requires { (n : ℤ) → number ≡ Ok n → unsigned_abs n < 2 ^ 127 }
    ensures { spec.Makes context.now (nodes.evaluated context.now.item before (integer number)) result }
{
    match number {
        Ok(number) => known_node(alloc, context, before, Value::Int(number)),
        Err(fault) => Err(FormFault::from(fault)),
    }
}
