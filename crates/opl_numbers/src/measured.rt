//! Parts as numbers with their measures.
ghost use Rattle.std.specs.Prelude.{◌≡◌, IfOk, max};
ghost use Rattle.opl_eval.specs.Compare as compare;
ghost use Rattle.opl_form.specs.Parts as parts;
ghost use Rattle.opl_nodes.specs.declared.context.Context.{Context};
ghost use Rattle.opl_nodes.specs.Pieces as pieces;
ghost use Rattle.opl_numbers.specs.Numbers as spec;

use opl_eval::number;
use opl_expr::Expr;
use opl_list::Boxed;
use opl_nodes::{Form, Part};
use opl_value::Value;
use std::alloc::{AllocError, Global};

/// A number with its measures.
#[derive(Drop)]
pub(crate) struct Number {
    pub(crate) expr: Boxed<Expr>,
    /// Its magnitude.
    pub(crate) size: u128,
    pub(crate) depth: u32,
    pub(crate) nodes: u64,
}

/// The number that a part without variables counts as, and 0 for any other.
pub(crate) fn number_of(part: &Part) -> i128
    ensures { result ≡ spec.number_of (pieces.form part.now) }
{
    match &part.form {
        Form::Known(value) => number(value.get()),
        Form::Number(_) | Form::Name(..) | Form::Condition(_) | Form::Truth(_) => 0,
    }
}

/// The greater of two depths.
pub(crate) fn deeper(one: u32, other: u32) -> u32
    ensures { result ≡ max one other }
{
    if one < other { other } else { one }
}

/// The greater of two magnitudes.
pub(crate) fn larger(one: u128, other: u128) -> u128
    ensures { result ≡ max one other }
{
    if one < other { other } else { one }
}

/// An expression with these measures.
fn measured(
    alloc: Global,
    expr: Expr,
    size: u128,
    depth: u32,
    nodes: u64,
) -> Result<Number, AllocError>
    ensures { IfOk result (λ n. n ≡ spec.measured expr size depth nodes) }
{
    let expr = Boxed::new(alloc, expr)?;
    Ok(Number {
        expr,
        size,
        depth,
        nodes,
    })
}

/// The number that a value counts as.
fn constant(alloc: Global, value: &Value) -> Result<Number, AllocError>
    ensures { IfOk result (λ n. n ≡ spec.constant (compare.number value.now)) }
{
    let number = number(value);
    measured(alloc, Expr::Const(number), number.unsigned_abs(), 1, 1)
}

/// What a name counts as.
fn nothing(alloc: Global, expr: Boxed<Expr>, depth: u32, nodes: u64) -> Result<Number, AllocError>
    ensures { IfOk result (λ n. n ≡ spec.measured (parts.nothing expr) 0 depth nodes) }
{
    let zero = Boxed::new(alloc, Expr::Const(0))?;
    measured(alloc, Expr::Mul(zero, expr), 0, depth, nodes)
}

/// A part as a number.
pub(crate) fn as_number(alloc: Global, part: Part) -> Result<Number, AllocError>
    ensures value { IfOk result (λ n. n.expr ≡ parts.as_number (pieces.form part)) }
    ensures measures { IfOk result (λ n. (c : Context) → pieces.IsPart c part → spec.IsNumber c n) }
{
    let Part {
        form,
        size,
        depth,
        nodes,
    } = part;
    let nodes = u64::from(nodes);
    match form {
        Form::Known(value) => constant(alloc, value.get()),
        Form::Number(expr) => Ok(Number {
            expr,
            size,
            depth,
            nodes,
        }),
        Form::Name(_, expr) => nothing(alloc, expr, deeper(1, depth).saturating_add(1), nodes + 2),
        Form::Condition(cons) => {
            measured(
                alloc,
                Expr::Truth(cons),
                1,
                depth.saturating_add(1),
                nodes + 1,
            )
        }
        Form::Truth(cons) => measured(alloc, Expr::Truth(cons), size, depth, nodes),
    }
}
