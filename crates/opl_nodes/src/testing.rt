//! The tests of nodes.
ghost use Rattle.std.specs.Prelude.{◌≡◌};
ghost use Rattle.opl_form.specs.Measures as measures;
ghost use Rattle.opl_form.specs.Measures.{depth_of, nodes_of, part_depth, part_nodes};
ghost use Rattle.opl_form.specs.Nodes as making;
ghost use Rattle.opl_form.specs.Parts.{ranked};
ghost use Rattle.opl_form.specs.Parts.{Form as forms};
ghost use Rattle.opl_nodes.specs.Contexts.{arrays, sets};
ghost use Rattle.opl_nodes.specs.Pieces as spec;

use crate::context::Context;
use crate::fault::FormFault;
use crate::part::{Form, Part};
use opl_expr::{Cons, Expr};
use opl_list::Boxed;
use std::alloc::Global;

/// Magnitudes stay below this number.
pub const CAP: u128 = 1 << 127;

/// Whether a form so deep, with so many nodes behind those before, passes its tests; its nodes, if so.
#[tactic(auto, using(crate::proofs::Tests::counts))]
fn counted(context: &Context<'_>, before: u64, depth: u32, nodes: u64) -> Result<u32, FormFault>
    ensures { spec.Counts context.now.item before depth nodes result }
{
    if depth > 2048 {
        return Err(FormFault::Depth(context.item));
    }
    if nodes > 4_194_304 || before > 4_194_304 - nodes {
        return Err(FormFault::Nodes(context.item));
    }
    Ok(nodes as u32)
}

/// A form with these measures, tested behind so many nodes.
pub fn tested(
    context: &Context<'_>,
    at: u32,
    before: u64,
    form: Form,
    size: u128,
    depth: u32,
    nodes: u64,
) -> Result<Part, FormFault>
    requires size { spec.IsCapped size (spec.magnitude context.now (ranked (spec.form_of form))) }
    requires depth { depth ≡ part_depth (spec.form_of form) }
    requires nodes { nodes ≡ part_nodes (spec.form_of form) }
    ensures { spec.Makes context.now (spec.tested context.now at before (spec.form_of form)) result }
{
    if size >= CAP {
        return Err(FormFault::TooLarge(at));
    }
    match counted(context, before, depth, nodes) {
        Ok(nodes) => Ok(Part {
            form,
            size,
            depth,
            nodes,
        }),
        Err(fault) => Err(fault),
    }
}

/// The same of an expression.
fn number_tested(
    alloc: Global,
    context: &Context<'_>,
    at: u32,
    before: u64,
    expr: Expr,
    size: u128,
    depth: u32,
    nodes: u64,
) -> Result<Part, FormFault>
    requires size { spec.IsCapped size (spec.magnitude context.now expr) }
    requires depth { depth ≡ measures.depth expr }
    requires nodes { nodes ≡ measures.nodes expr }
    ensures { spec.Makes context.now (spec.tested context.now at before (forms.number expr)) result }
{
    let form = Form::Number(Boxed::new(alloc, expr)?);
    tested(context, at, before, form, size, depth, nodes)
}

/// A number with these measures, tested behind so many nodes. Its magnitude counts as far as it is below 2^127.
pub fn number_node(
    alloc: Global,
    context: &Context<'_>,
    at: u32,
    before: u64,
    expr: Expr,
    size: u128,
    depth: u32,
    nodes: u64,
) -> Result<Part, FormFault>
    requires size { spec.IsCapped size (spec.magnitude context.now expr) }
    requires depth { depth ≡ measures.depth expr }
    requires nodes { nodes ≡ measures.nodes expr }
    ensures { spec.Makes context.now (making.number_node (sets context.now) (arrays context.now) context.now.item at before expr) result }
{
    number_tested(alloc, context, at, before, expr, size, depth, nodes)
}

/// The same of a constraint.
#[tactic(auto, using(crate::proofs::Measures::leaves))]
fn condition_tested(
    alloc: Global,
    context: &Context<'_>,
    before: u64,
    cons: Cons,
    depth: u32,
    nodes: u64,
) -> Result<Part, FormFault>
    requires depth { depth ≡ depth_of cons }
    requires nodes { nodes ≡ nodes_of cons }
    ensures { spec.Makes context.now (spec.tested context.now 0 before (forms.condition cons)) result }
{
    let form = Form::Condition(Boxed::new(alloc, cons)?);
    tested(context, 0, before, form, 1, depth, nodes)
}

/// A constraint with these measures, tested behind so many nodes.
pub fn condition_node(
    alloc: Global,
    context: &Context<'_>,
    before: u64,
    cons: Cons,
    depth: u32,
    nodes: u64,
) -> Result<Part, FormFault>
    requires depth { depth ≡ depth_of cons }
    requires nodes { nodes ≡ nodes_of cons }
    ensures { spec.Makes context.now (making.condition_node context.now.item before cons) result }
{
    condition_tested(alloc, context, before, cons, depth, nodes)
}
