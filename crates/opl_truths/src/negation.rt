//! `not`, and a part as a truth.
ghost use Rattle.opl_form.specs.Nodes as nodes;
ghost use Rattle.opl_nodes.specs.Pieces.{IsPart, Makes, form};
ghost use Rattle.opl_truths.specs.Conditions as spec;

use crate::condition::into_condition;
use crate::measure::{condition_depth, condition_nodes};
use opl_expr::Cons;
use opl_nodes::{Context, Form, FormFault, Part, condition_node, is_true, truth_node};
use std::alloc::Global;

/// `not a` where a variable is left in it.
fn denial(alloc: Global, context: &Context<'_>, before: u64, part: Part) -> Result<Part, FormFault>
    requires { spec.IsMeasured part }
    ensures { Makes context.now (nodes.condition_node context.now.item before (Cons.Not (spec.condition part))) result }
{
    let depth = condition_depth(&part) + 1;
    let nodes = condition_nodes(&part) + 1;
    let denied = into_condition(alloc, part)?;
    condition_node(alloc, context, before, Cons::Not(denied), depth, nodes)
}

/// `not a`
pub fn opposite(
    alloc: Global,
    context: &Context<'_>,
    before: u64,
    part: Part,
) -> Result<Part, FormFault>
    requires { IsPart context.now part }
    ensures { Makes context.now (nodes.opposite context.now.item before (form part)) result }
{
    match part.value() {
        Some(value) => truth_node(alloc, context, before, !is_true(value)),
        None => denial(alloc, context, before, part),
    }
}

/// A part as a condition, which is a node.
fn condition_part(
    alloc: Global,
    context: &Context<'_>,
    before: u64,
    part: Part,
) -> Result<Part, FormFault>
    requires { spec.IsMeasured part }
    ensures { Makes context.now (nodes.condition_node context.now.item before (spec.condition part)) result }
{
    let depth = condition_depth(&part);
    let nodes = condition_nodes(&part);
    let cons = into_condition(alloc, part)?;
    condition_node(alloc, context, before, cons.into_inner(), depth, nodes)
}

/// A part as a truth: it is one but for what typing rules out. A value stays the one node that it is, so none is counted before it.
pub fn truth_part(
    alloc: Global,
    context: &Context<'_>,
    before: u64,
    part: Part,
) -> Result<Part, FormFault>
    requires { IsPart context.now part }
    ensures { Makes context.now (nodes.truth_part context.now.item before (form part)) result }
{
    match &part.form {
        Form::Known(value) => truth_node(alloc, context, 0, is_true(value.get())),
        Form::Condition(_) => Ok(part),
        Form::Number(_) | Form::Name(..) | Form::Truth(_) => {
            condition_part(alloc, context, before, part)
        }
    }
}
