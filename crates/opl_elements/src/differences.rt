//! Whether the elements of an array differ.
ghost use Rattle.std.specs.Prelude.{◌+◌, ◌<◌, ◌^◌};
ghost use Rattle.opl_eval.specs.Compare as compare;
ghost use Rattle.opl_draft.specs.Drafts as drafts;
ghost use Rattle.opl_form.specs.Made.{array_of};
ghost use Rattle.opl_form.specs.Nodes as nodes;
ghost use Rattle.opl_nodes.specs.Contexts.{arrays, leaves, sets};
ghost use Rattle.opl_nodes.specs.Pieces as pieces;
ghost use Rattle.opl_elements.specs.Differences as spec;
ghost use Rattle.opl_elements.specs.Runs as runs;

use crate::lookups::array_at;
use crate::measures::CAP;
use crate::runs::{are_declared, greatest_two, run};
use opl_eval::{EvalFault, are_different};
use opl_expr::Cons;
use opl_meaning::Kind;
use opl_nodes::{Array, Context, FormFault, Leaves, Part, condition_node, truth_node};
use opl_value::Value;
use std::alloc::Global;

/// `alldifferent(a)` of the array of this number. What is no array differs; `OutOfIndex` comes where the elements are variables that are
/// not alike or not declared.
pub fn different(
    alloc: Global,
    context: &Context<'_>,
    at: u32,
    before: u64,
    array: Option<u32>,
) -> Result<Part, FormFault>
    ensures { pieces.Makes context.now (nodes.different (sets context.now) (arrays context.now) context.now.item at before (array_of (arrays context.now) array)) result }
{
    match array_at(context, array) {
        Some(array) => elements_differ(alloc, context, at, before, array),
        None => truth_node(alloc, context, before, true),
    }
}

/// The same of an array.
fn elements_differ(
    alloc: Global,
    context: &Context<'_>,
    at: u32,
    before: u64,
    array: &Array<'_>,
) -> Result<Part, FormFault>
    ensures { pieces.Makes context.now (spec.leaves_differ context.now at before (leaves array.now.leaves)) result }
{
    match array.leaves {
        Leaves::Listed(values) => values_differ(alloc, context, before, values),
        Leaves::Numbered(kind, first, count) => {
            variables_differ(alloc, context, at, before, kind, first, count)
        }
    }
}

/// Whether values differ.
fn values_differ(
    alloc: Global,
    context: &Context<'_>,
    before: u64,
    values: &[Value],
) -> Result<Part, FormFault>
    ensures { pieces.Makes context.now (nodes.known_node context.now.item before (Value.Bool (compare.all_different values.now))) result }
{
    let differ = are_different(alloc, values)?;
    truth_node(alloc, context, before, differ)
}

/// That variables differ. Variables past number 2^32 - 1 count as want of memory.
fn variables_differ(
    alloc: Global,
    context: &Context<'_>,
    at: u32,
    before: u64,
    kind: Kind,
    first: u32,
    count: u32,
) -> Result<Part, FormFault>
    ensures { pieces.Makes context.now (spec.leaves_differ context.now at before (drafts.Leaves.numbered kind first count)) result }
{
    if !are_declared(context, kind, first, count) {
        return Err(FormFault::Eval(EvalFault::OutOfIndex(at)));
    }
    if count == 0 {
        return truth_node(alloc, context, before, true);
    }
    if greatest_two(context, first as usize, count as usize).1 >= CAP {
        return Err(FormFault::TooLarge(at));
    }
    if first.checked_add(count).is_none() {
        return Err(FormFault::OutOfMemory);
    }
    run_differs(alloc, context, before, first, count)
}

/// That variables one behind another differ.
fn run_differs(
    alloc: Global,
    context: &Context<'_>,
    before: u64,
    first: u32,
    count: u32,
) -> Result<Part, FormFault>
    requires some { 0 < count }
    requires numbered { first + count < 2 ^ 32 }
    ensures { pieces.Makes context.now (nodes.condition_node context.now.item before (Cons.AllDifferent (runs.run first count))) result }
{
    let variables = run(alloc, first, count)?;
    condition_node(
        alloc,
        context,
        before,
        Cons::AllDifferent(variables),
        2,
        u64::from(count) + 1,
    )
}
