//! `&`
ghost use Rattle.std.specs.Prelude.{All};
ghost use Rattle.opl_form.specs.Nodes as nodes;
ghost use Rattle.opl_nodes.specs.Pieces.{AreParts, Makes, forms};
ghost use Rattle.opl_truths.specs.Conditions as spec;

use crate::condition::conditions;
use crate::holding::all_true;
use crate::measure::{list_depth, list_nodes};
use opl_expr::Cons;
use opl_list::Seq;
use opl_nodes::{Context, FormFault, Part, Parts, condition_node, truth_node};
use std::alloc::Global;

/// `a & b & ..` where a variable is left in one of them.
fn demands(
    alloc: Global,
    context: &Context<'_>,
    before: u64,
    parts: Seq<Part>,
) -> Result<Part, FormFault>
    requires { All spec.IsMeasured parts }
    ensures { Makes context.now (nodes.condition_node context.now.item before (Cons.And (spec.conditions parts))) result }
{
    let depth = list_depth(parts.as_slice());
    let nodes = list_nodes(parts.as_slice())?;
    let found = conditions(alloc, parts)?;
    condition_node(alloc, context, before, Cons::And(found), depth, nodes)
}

/// `a & b & ..`
pub fn all_hold(alloc: Global, context: &Context<'_>, parts: Parts) -> Result<Part, FormFault>
    requires { AreParts context.now parts }
    ensures { Makes context.now (nodes.all_hold context.now.item parts.before (forms parts.items)) result }
{
    let Parts {
        items,
        before,
        are_known,
        ..
    } = parts;
    if are_known {
        truth_node(alloc, context, before, all_true(items.as_slice()))
    } else {
        demands(alloc, context, before, items)
    }
}
