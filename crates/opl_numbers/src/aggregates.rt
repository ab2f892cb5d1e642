//! Nodes of lists of parts.
ghost use Rattle.std.specs.Prelude.{◌≡◌, map};
ghost use Rattle.std.specs.List.{All};
ghost use Rattle.opl_eval.specs.Arithmetic as arithmetic;
ghost use Rattle.opl_eval.specs.Evaluation.{integer};
ghost use Rattle.opl_expr.specs.declared.forms.Expr.TheVariants as exprs;
ghost use Rattle.opl_form.specs.Nodes as making;
ghost use Rattle.opl_form.specs.Parts as forms;
ghost use Rattle.opl_nodes.specs.Contexts.{arrays, sets};
ghost use Rattle.opl_nodes.specs.Pieces as pieces;
ghost use Rattle.opl_numbers.specs.Numbers as spec;

use crate::measured::larger;
use crate::pairs::multiplied;
use crate::row::{Numbers, as_numbers, numbers_of};
use crate::singles::number_part;
use opl_eval::{EvalFault, sum};
use opl_expr::Expr;
use opl_nodes::{Context, FormFault, Part, Parts, evaluated, known_node, number_node};
use opl_tree::AggregateOp;
use opl_value::Value;
use std::alloc::Global;

/// The sum of numbers.
fn sum_of(at: u32, numbers: Vec<i128>) -> Result<i128, EvalFault>
    ensures { result ≡ arithmetic.sum at numbers.items }
{
    sum(at, numbers.as_slice())
}

/// The least of numbers.
fn least_of(at: u32, numbers: Vec<i128>) -> Result<i128, EvalFault>
    ensures { result ≡ arithmetic.least at numbers.items }
{
    opl_eval::least(at, numbers.as_slice())
}

/// The greatest of numbers.
fn greatest_of(at: u32, numbers: Vec<i128>) -> Result<i128, EvalFault>
    ensures { result ≡ arithmetic.greatest at numbers.items }
{
    opl_eval::greatest(at, numbers.as_slice())
}

/// The sum of parts without variables.
pub(crate) fn known_sum(
    alloc: Global,
    context: &Context<'_>,
    at: u32,
    parts: &Parts,
) -> Result<Part, FormFault>
    ensures { pieces.Makes context.now (making.evaluated context.now.item parts.now.before (integer (arithmetic.sum at (map spec.number_of (pieces.forms parts.now.items))))) result }
{
    let numbers = numbers_of(alloc, parts)?;
    let found = sum_of(at, numbers);
    evaluated(alloc, context, parts.before, found)
}

/// The sum of parts with variables.
pub(crate) fn sum_node(
    alloc: Global,
    context: &Context<'_>,
    at: u32,
    parts: Parts,
) -> Result<Part, FormFault>
    requires { pieces.AreParts context.now parts }
    ensures { pieces.Makes context.now (making.number_node (sets context.now) (arrays context.now) context.now.item at parts.before (exprs.Sum (map forms.as_number (pieces.forms parts.items)))) result }
{
    let Parts { items, before, .. } = parts;
    let numbers = as_numbers(alloc, items)?;
    let Numbers {
        exprs,
        total,
        depth,
        nodes,
        ..
    } = numbers;
    let Some(nodes) = nodes.checked_add(1) else {
        return Err(FormFault::OutOfMemory);
    };
    let depth = depth + 1;
    let expr = Expr::Sum(exprs);
    number_node(alloc, context, at, before, expr, total, depth, nodes)
}

/// `sum(..) a`
pub fn summed(
    alloc: Global,
    context: &Context<'_>,
    at: u32,
    parts: Parts,
) -> Result<Part, FormFault>
    requires { pieces.AreParts context.now parts }
    ensures { pieces.Makes context.now (making.summed (sets context.now) (arrays context.now) context.now.item at parts.before (pieces.forms parts.items)) result }
{
    let are_known = parts.are_known;
    if are_known {
        return known_sum(alloc, context, at, &parts);
    }
    sum_node(alloc, context, at, parts)
}

/// The least of parts without variables, of which there is one at least.
fn known_least(
    alloc: Global,
    context: &Context<'_>,
    at: u32,
    parts: &Parts,
) -> Result<Part, FormFault>
    requires { pieces.AreParts context.now parts.now }
    ensures { pieces.Makes context.now (making.evaluated context.now.item parts.now.before (integer (arithmetic.least at (map spec.number_of (pieces.forms parts.now.items))))) result }
{
    let numbers = numbers_of(alloc, parts)?;
    let found = least_of(at, numbers);
    evaluated(alloc, context, parts.before, found)
}

/// The least of parts with variables.
fn least_node(
    alloc: Global,
    context: &Context<'_>,
    at: u32,
    parts: Parts,
) -> Result<Part, FormFault>
    requires { pieces.AreParts context.now parts }
    ensures { pieces.Makes context.now (making.number_node (sets context.now) (arrays context.now) context.now.item at parts.before (exprs.Min (map forms.as_number (pieces.forms parts.items)))) result }
{
    let Parts { items, before, .. } = parts;
    let numbers = as_numbers(alloc, items)?;
    let Numbers {
        exprs,
        greatest,
        depth,
        nodes,
        ..
    } = numbers;
    let Some(nodes) = nodes.checked_add(1) else {
        return Err(FormFault::OutOfMemory);
    };
    let size = larger(1, greatest);
    let depth = depth + 1;
    let expr = Expr::Min(exprs);
    number_node(alloc, context, at, before, expr, size, depth, nodes)
}

/// `min(..) a`
pub fn least(alloc: Global, context: &Context<'_>, at: u32, parts: Parts) -> Result<Part, FormFault>
    requires { pieces.AreParts context.now parts }
    ensures { pieces.Makes context.now (making.least (sets context.now) (arrays context.now) context.now.item at parts.before (pieces.forms parts.items)) result }
{
    let is_empty = parts.items.is_empty();
    if is_empty {
        return Err(FormFault::Eval(EvalFault::EmptyMinMax(at)));
    }
    let are_known = parts.are_known;
    if are_known {
        return known_least(alloc, context, at, &parts);
    }
    least_node(alloc, context, at, parts)
}

/// The greatest of parts without variables, of which there is one at least.
fn known_greatest(
    alloc: Global,
    context: &Context<'_>,
    at: u32,
    parts: &Parts,
) -> Result<Part, FormFault>
    requires { pieces.AreParts context.now parts.now }
    ensures { pieces.Makes context.now (making.evaluated context.now.item parts.now.before (integer (arithmetic.greatest at (map spec.number_of (pieces.forms parts.now.items))))) result }
{
    let numbers = numbers_of(alloc, parts)?;
    let found = greatest_of(at, numbers);
    evaluated(alloc, context, parts.before, found)
}

/// The greatest of parts with variables.
fn greatest_node(
    alloc: Global,
    context: &Context<'_>,
    at: u32,
    parts: Parts,
) -> Result<Part, FormFault>
    requires { pieces.AreParts context.now parts }
    ensures { pieces.Makes context.now (making.number_node (sets context.now) (arrays context.now) context.now.item at parts.before (exprs.Max (map forms.as_number (pieces.forms parts.items)))) result }
{
    let Parts { items, before, .. } = parts;
    let numbers = as_numbers(alloc, items)?;
    let Numbers {
        exprs,
        greatest,
        depth,
        nodes,
        ..
    } = numbers;
    let Some(nodes) = nodes.checked_add(1) else {
        return Err(FormFault::OutOfMemory);
    };
    let size = larger(1, greatest);
    let depth = depth + 1;
    let expr = Expr::Max(exprs);
    number_node(alloc, context, at, before, expr, size, depth, nodes)
}

/// `max(..) a`
pub fn greatest(
    alloc: Global,
    context: &Context<'_>,
    at: u32,
    parts: Parts,
) -> Result<Part, FormFault>
    requires { pieces.AreParts context.now parts }
    ensures { pieces.Makes context.now (making.greatest_of (sets context.now) (arrays context.now) context.now.item at parts.before (pieces.forms parts.items)) result }
{
    let is_empty = parts.items.is_empty();
    if is_empty {
        return Err(FormFault::Eval(EvalFault::EmptyMinMax(at)));
    }
    let are_known = parts.are_known;
    if are_known {
        return known_greatest(alloc, context, at, &parts);
    }
    greatest_node(alloc, context, at, parts)
}

/// The product of a first part and others, from the left.
fn product_from(
    alloc: Global,
    context: &Context<'_>,
    at: u32,
    before: u64,
    first: Part,
    others: Vec<Part>,
) -> Result<Part, FormFault>
    requires first { pieces.IsPart context.now first }
    requires others { All (pieces.IsPart context.now) others.items }
    ensures { pieces.Makes context.now (making.product_from (sets context.now) (arrays context.now) context.now.item at before (pieces.form first) (pieces.forms others.items)) result }
{
    let mut product = first;
    for other in others {
        match multiplied(alloc, context, at, before, product, other) {
            Ok(longer) => product = longer,
            Err(fault) => return Err(fault),
        }
    }
    number_part(alloc, context, at, before, product)
}

/// `prod(..) a`
pub fn product(
    alloc: Global,
    context: &Context<'_>,
    at: u32,
    parts: Parts,
) -> Result<Part, FormFault>
    requires { pieces.AreParts context.now parts }
    ensures { pieces.Makes context.now (making.product (sets context.now) (arrays context.now) context.now.item at parts.before (pieces.forms parts.items)) result }
{
    let Parts { items, before, .. } = parts;
    let is_empty = items.is_empty();
    if is_empty {
        return known_node(alloc, context, before, Value::Int(1));
    }
    let mut others = items.into_vec();
    let first = others.remove(0);
    product_from(alloc, context, at, before, first, others)
}

/// An aggregate.
pub fn aggregated(
    alloc: Global,
    context: &Context<'_>,
    op: AggregateOp,
    at: u32,
    parts: Parts,
) -> Result<Part, FormFault>
    requires { pieces.AreParts context.now parts }
    ensures { pieces.Makes context.now (making.aggregated (sets context.now) (arrays context.now) context.now.item op at parts.before (pieces.forms parts.items)) result }
{
    match op {
        AggregateOp::Sum => summed(alloc, context, at, parts),
        AggregateOp::Product => product(alloc, context, at, parts),
        AggregateOp::Min => least(alloc, context, at, parts),
        AggregateOp::Max => greatest(alloc, context, at, parts),
    }
}
