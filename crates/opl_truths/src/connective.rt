//! `=>` and `<=>`.
ghost use Rattle.opl_form.specs.Nodes as nodes;
ghost use Rattle.opl_nodes.specs.Pieces.{IsPart, Makes, form};
ghost use Rattle.opl_truths.specs.Conditions as spec;

use crate::condition::into_condition;
use crate::holding::{agree, implies};
use crate::measure::{pair_depth, pair_nodes};
use opl_expr::Cons;
use opl_nodes::{Context, FormFault, Part, both_values, condition_node, truth_node};
use std::alloc::Global;

/// `a => b` where a variable is left in one of them.
fn implication(
    alloc: Global,
    context: &Context<'_>,
    before: u64,
    left: Part,
    right: Part,
) -> Result<Part, FormFault>
    requires left { spec.IsMeasured left }
    requires right { spec.IsMeasured right }
    ensures { Makes context.now (nodes.condition_node context.now.item before (Cons.Imp (spec.condition left) (spec.condition right))) result }
{
    let depth = pair_depth(&left, &right);
    let nodes = pair_nodes(&left, &right);
    let premise = into_condition(alloc, left)?;
    let conclusion = into_condition(alloc, right)?;
    let cons = Cons::Imp(premise, conclusion);
    condition_node(alloc, context, before, cons, depth, nodes)
}

/// `a => b`
pub fn implied(
    alloc: Global,
    context: &Context<'_>,
    before: u64,
    left: Part,
    right: Part,
) -> Result<Part, FormFault>
    requires left { IsPart context.now left }
    requires right { IsPart context.now right }
    ensures { Makes context.now (nodes.implied context.now.item before (form left) (form right)) result }
{
    match both_values(&left, &right) {
        Some((premise, conclusion)) => {
            truth_node(alloc, context, before, implies(premise, conclusion))
        }
        None => implication(alloc, context, before, left, right),
    }
}

/// `a <=> b` where a variable is left in one of them.
fn equivalence(
    alloc: Global,
    context: &Context<'_>,
    before: u64,
    left: Part,
    right: Part,
) -> Result<Part, FormFault>
    requires left { spec.IsMeasured left }
    requires right { spec.IsMeasured right }
    ensures { Makes context.now (nodes.condition_node context.now.item before (Cons.Iff (spec.condition left) (spec.condition right))) result }
{
    let depth = pair_depth(&left, &right);
    let nodes = pair_nodes(&left, &right);
    let first = into_condition(alloc, left)?;
    let second = into_condition(alloc, right)?;
    let cons = Cons::Iff(first, second);
    condition_node(alloc, context, before, cons, depth, nodes)
}

/// `a <=> b`
pub fn same(
    alloc: Global,
    context: &Context<'_>,
    before: u64,
    left: Part,
    right: Part,
) -> Result<Part, FormFault>
    requires left { IsPart context.now left }
    requires right { IsPart context.now right }
    ensures { Makes context.now (nodes.same context.now.item before (form left) (form right)) result }
{
    match both_values(&left, &right) {
        Some((first, second)) => truth_node(alloc, context, before, agree(first, second)),
        None => equivalence(alloc, context, before, left, right),
    }
}
