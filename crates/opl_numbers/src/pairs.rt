//! Nodes of two parts.
ghost use Rattle.std.specs.Prelude.{◌≡◌, ◌&&◌, ◌*◌, ◌<◌, ◌^◌, is_some, max};
ghost use Rattle.opl_eval.specs.Arithmetic as arithmetic;
ghost use Rattle.opl_expr.specs.declared.forms.Expr.TheVariants as exprs;
ghost use Rattle.opl_form.specs.Nodes as making;
ghost use Rattle.opl_form.specs.Parts as parts;
ghost use Rattle.opl_nodes.specs.declared.context.Context.{Context as contexts};
ghost use Rattle.opl_nodes.specs.Contexts.{arrays, sets};
ghost use Rattle.opl_nodes.specs.Pieces as pieces;
ghost use Rattle.opl_numbers.specs.Numbers as spec;

use crate::measured::{Number, as_number, deeper, larger, number_of};
use opl_eval::{EvalFault, number, quotient, remainder, times};
use opl_expr::Expr;
use opl_nodes::{Context, Form, FormFault, Part, evaluated, number_node};
use std::alloc::Global;

/// Whether a variable is left in neither of two parts.
fn are_known(left: &Part, right: &Part) -> bool
    ensures { result ≡ (is_some (pieces.value_of (pieces.form left.now)) && is_some (pieces.value_of (pieces.form right.now))) }
{
    if left.is_known() {
        right.is_known()
    } else {
        false
    }
}

/// Whether a part is the number 0 of the data.
fn is_zero(part: &Part) -> bool
    ensures { result ≡ making.is_zero (pieces.form part.now) }
{
    match &part.form {
        Form::Known(value) => number(value.get()) == 0,
        Form::Number(_) | Form::Name(..) | Form::Condition(_) | Form::Truth(_) => false,
    }
}

/// The product of the numbers of two parts.
fn product_of(at: u32, left: &Part, right: &Part) -> Result<i128, EvalFault>
    ensures { result ≡ arithmetic.times at (spec.number_of (pieces.form left.now)) (spec.number_of (pieces.form right.now)) }
{
    times(at, number_of(left), number_of(right))
}

/// The quotient of the numbers of two parts.
fn quotient_of(at: u32, left: &Part, right: &Part) -> Result<i128, EvalFault>
    ensures { result ≡ arithmetic.quotient at (spec.number_of (pieces.form left.now)) (spec.number_of (pieces.form right.now)) }
{
    quotient(at, number_of(left), number_of(right))
}

/// What the quotient leaves of the first of two parts.
fn remainder_of(at: u32, left: &Part, right: &Part) -> Result<i128, EvalFault>
    ensures { result ≡ arithmetic.remainder at (spec.number_of (pieces.form left.now)) (spec.number_of (pieces.form right.now)) }
{
    remainder(at, number_of(left), number_of(right))
}

/// Whether an expression is a number that is written down.
#[tactic(auto, using(crate::proofs::Constants::constants))]
fn is_constant(expr: &Expr) -> bool
    ensures { (c : contexts) → result ≡ spec.is_constant c expr.now }
{
    match expr {
        Expr::Const(_) => true,
        Expr::Var(_)
        | Expr::Sum(_)
        | Expr::Neg(_)
        | Expr::Mul(..)
        | Expr::Div(..)
        | Expr::Rem(..)
        | Expr::Abs(_)
        | Expr::Min(_)
        | Expr::Max(_)
        | Expr::At(..)
        | Expr::Truth(_)
        | Expr::Ask(..) => false,
    }
}

/// Whether a number is written down.
fn is_written(number: &Number) -> bool
    ensures { (c : contexts) → result ≡ spec.is_constant c number.now.expr }
{
    is_constant(number.expr.get())
}

/// The magnitude of a product, as far as it is below 2^127: where a factor is written down, it is 0 if a factor is.
fn product_size(left: &Number, right: &Number) -> u128
    ensures { (c : contexts) → spec.IsNumber c left.now → spec.IsNumber c right.now → pieces.IsCapped result (pieces.magnitude c (exprs.Mul left.now.expr right.now.expr)) }
{
    let size = left.size.saturating_mul(right.size);
    let is_left = is_written(left);
    if is_left {
        return size;
    }
    let is_right = is_written(right);
    if is_right {
        return size;
    }
    larger(1, size)
}

/// `a * b` of numbers with variables.
fn product_node(
    alloc: Global,
    context: &Context<'_>,
    at: u32,
    before: u64,
    left: Number,
    right: Number,
) -> Result<Part, FormFault>
    requires left { spec.IsNumber context.now left }
    requires right { spec.IsNumber context.now right }
    ensures { pieces.Makes context.now (making.number_node (sets context.now) (arrays context.now) context.now.item at before (exprs.Mul left.expr right.expr)) result }
{
    let size = product_size(&left, &right);
    let depth = deeper(left.depth, right.depth) + 1;
    let nodes = left.nodes + right.nodes + 1;
    let Number { expr: one, .. } = left;
    let Number { expr: other, .. } = right;
    let expr = Expr::Mul(one, other);
    number_node(alloc, context, at, before, expr, size, depth, nodes)
}

/// `a div b` of numbers with variables.
fn quotient_node(
    alloc: Global,
    context: &Context<'_>,
    at: u32,
    before: u64,
    left: Number,
    right: Number,
) -> Result<Part, FormFault>
    requires left { spec.IsNumber context.now left }
    requires right { spec.IsNumber context.now right }
    ensures { pieces.Makes context.now (making.number_node (sets context.now) (arrays context.now) context.now.item at before (exprs.Div left.expr right.expr)) result }
{
    let size = larger(1, left.size);
    let depth = deeper(left.depth, right.depth) + 1;
    let nodes = left.nodes + right.nodes + 1;
    let Number { expr: one, .. } = left;
    let Number { expr: other, .. } = right;
    let expr = Expr::Div(one, other);
    number_node(alloc, context, at, before, expr, size, depth, nodes)
}

/// `a mod b` of numbers with variables.
fn remainder_node(
    alloc: Global,
    context: &Context<'_>,
    at: u32,
    before: u64,
    left: Number,
    right: Number,
) -> Result<Part, FormFault>
    requires left { spec.IsNumber context.now left }
    requires right { spec.IsNumber context.now right }
    ensures { pieces.Makes context.now (making.number_node (sets context.now) (arrays context.now) context.now.item at before (exprs.Rem left.expr right.expr)) result }
{
    let size = larger(1, left.size);
    let depth = deeper(left.depth, right.depth) + 1;
    let nodes = left.nodes + right.nodes + 1;
    let Number { expr: one, .. } = left;
    let Number { expr: other, .. } = right;
    let expr = Expr::Rem(one, other);
    number_node(alloc, context, at, before, expr, size, depth, nodes)
}

/// `a * b`
pub fn multiplied(
    alloc: Global,
    context: &Context<'_>,
    at: u32,
    before: u64,
    left: Part,
    right: Part,
) -> Result<Part, FormFault>
    requires left { pieces.IsPart context.now left }
    requires right { pieces.IsPart context.now right }
    ensures { pieces.Makes context.now (making.multiplied (sets context.now) (arrays context.now) context.now.item at before (pieces.form left) (pieces.form right)) result }
{
    let are_known = are_known(&left, &right);
    if are_known {
        let found = product_of(at, &left, &right);
        return evaluated(alloc, context, before, found);
    }
    let left = as_number(alloc, left)?;
    let right = as_number(alloc, right)?;
    product_node(alloc, context, at, before, left, right)
}

/// `a div b`
pub fn divided(
    alloc: Global,
    context: &Context<'_>,
    at: u32,
    before: u64,
    left: Part,
    right: Part,
) -> Result<Part, FormFault>
    requires left { pieces.IsPart context.now left }
    requires right { pieces.IsPart context.now right }
    ensures { pieces.Makes context.now (making.divided (sets context.now) (arrays context.now) context.now.item at before (pieces.form left) (pieces.form right)) result }
{
    let is_zero = is_zero(&right);
    if is_zero {
        return Err(FormFault::Eval(EvalFault::DivByZero(at)));
    }
    let are_known = are_known(&left, &right);
    if are_known {
        let found = quotient_of(at, &left, &right);
        return evaluated(alloc, context, before, found);
    }
    let left = as_number(alloc, left)?;
    let right = as_number(alloc, right)?;
    quotient_node(alloc, context, at, before, left, right)
}

/// `a mod b`
pub fn left_over(
    alloc: Global,
    context: &Context<'_>,
    at: u32,
    before: u64,
    left: Part,
    right: Part,
) -> Result<Part, FormFault>
    requires left { pieces.IsPart context.now left }
    requires right { pieces.IsPart context.now right }
    ensures { pieces.Makes context.now (making.left_over (sets context.now) (arrays context.now) context.now.item at before (pieces.form left) (pieces.form right)) result }
{
    let is_zero = is_zero(&right);
    if is_zero {
        return Err(FormFault::Eval(EvalFault::DivByZero(at)));
    }
    let are_known = are_known(&left, &right);
    if are_known {
        let found = remainder_of(at, &left, &right);
        return evaluated(alloc, context, before, found);
    }
    let left = as_number(alloc, left)?;
    let right = as_number(alloc, right)?;
    remainder_node(alloc, context, at, before, left, right)
}
