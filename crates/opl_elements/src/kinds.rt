//! Variables and elements, by their sorts.
ghost use Rattle.std.specs.Prelude.{◌≡◌};
ghost use Rattle.opl_draft.specs.Drafts.{Draft};
ghost use Rattle.opl_form.specs.Made.{made};
ghost use Rattle.opl_form.specs.Measures as measures;
ghost use Rattle.opl_form.specs.Nodes as making;
ghost use Rattle.opl_nodes.specs.Contexts.{arrays, sets};
ghost use Rattle.opl_nodes.specs.Pieces as pieces;
ghost use Rattle.opl_elements.specs.Sorts as spec;

use crate::sorts::Sort;
use crate::variables::{magnitude, sort_of_variable};
use opl_eval::EvalFault;
use opl_expr::Expr;
use opl_list::Boxed;
use opl_meaning::Kind;
use opl_nodes::{Context, Form, FormFault, Part, tested};
use std::alloc::Global;

/// A decision variable. `OutOfIndex` comes where none of this number is declared, or its names have numbers below 0.
pub fn variable(
    alloc: Global,
    context: &Context<'_>,
    at: u32,
    before: u64,
    x: u32,
    kind: Kind,
) -> Result<Part, FormFault>
    ensures { pieces.Makes context.now (made (sets context.now) (arrays context.now) context.now.item before (Draft.variable at x kind)) result }
{
    if x as usize >= context.sets.len() {
        return Err(FormFault::Eval(EvalFault::OutOfIndex(at)));
    }
    variable_node(alloc, context, at, before, kind, x)
}

/// A variable, declared or not.
pub fn variable_node(
    alloc: Global,
    context: &Context<'_>,
    at: u32,
    before: u64,
    kind: Kind,
    x: u32,
) -> Result<Part, FormFault>
    ensures { pieces.Makes context.now (making.element_node (sets context.now) (arrays context.now) context.now.item (making.variable_sort (sets context.now) kind x) at before (Expr.Var x)) result }
{
    let sort = sort_of_variable(context, kind, x as usize);
    let size = magnitude(context, x as usize);
    let expr = Boxed::new(alloc, Expr::Var(x))?;
    sorted(context, at, before, sort, expr, size, 1, 1)
}

/// An element that has a variable, by its sort.
pub fn sorted(
    context: &Context<'_>,
    at: u32,
    before: u64,
    sort: Sort,
    expr: Boxed<Expr>,
    size: u128,
    depth: u32,
    nodes: u64,
) -> Result<Part, FormFault>
    requires size { pieces.IsCapped size (pieces.magnitude context.now expr) }
    requires depth { depth ≡ measures.depth expr }
    requires nodes { nodes ≡ measures.nodes expr }
    ensures { pieces.Makes context.now (making.element_node (sets context.now) (arrays context.now) context.now.item (spec.sort sort) at before expr) result }
{
    match sort {
        Sort::Whole => tested(context, at, before, Form::Number(expr), size, depth, nodes),
        Sort::Named(declaration) => tested(
            context,
            at,
            before,
            Form::Name(declaration, expr),
            size,
            depth,
            nodes,
        ),
        Sort::Other => Err(FormFault::Eval(EvalFault::OutOfIndex(at))),
    }
}
