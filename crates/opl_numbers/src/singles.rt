//! Nodes of one part.
ghost use Rattle.std.specs.Prelude.{◌≡◌, ◌<◌, ◌^◌, Ok, unsigned_abs};
ghost use Rattle.opl_eval.specs.Arithmetic as arithmetic;
ghost use Rattle.opl_eval.specs.Compare as compare;
ghost use Rattle.opl_expr.specs.declared.forms.Expr.TheVariants as exprs;
ghost use Rattle.opl_form.specs.Nodes as making;
ghost use Rattle.opl_form.specs.Parts as parts;
ghost use Rattle.opl_form.specs.Parts.{Form as forms};
ghost use Rattle.opl_nodes.specs.declared.context.Context.{Context as contexts};
ghost use Rattle.opl_nodes.specs.Contexts.{arrays, sets};
ghost use Rattle.opl_nodes.specs.Pieces as pieces;
ghost use Rattle.opl_numbers.specs.Numbers as spec;
ghost use Rattle.opl_value.specs.declared.value.Value.TheVariants as values;

use crate::measured::{Number, as_number, larger, number_of};
use opl_eval::{EvalFault, absolute as absolute_value, negative};
use opl_expr::Expr;
use opl_list::Boxed;
use opl_nodes::{Context, Form, FormFault, Part, evaluated, number_node, rank};
use opl_value::Value;
use std::alloc::Global;

/// A value that values come to, as a part.
fn known_part(alloc: Global, value: Value) -> Result<Part, FormFault>
    requires { unsigned_abs (compare.rank value) < 2 ^ 127 }
    ensures { (c : contexts) → pieces.Makes c (Ok (forms.known value)) result }
{
    let size = rank(&value).unsigned_abs();
    let form = Form::Known(Boxed::new(alloc, value)?);
    Ok(Part {
        form,
        size,
        depth: 1,
        nodes: 1,
    })
}

/// The number of a part as a value.
fn plain_value(part: &Part) -> Value
    ensures { result ≡ values.Int (spec.number_of (pieces.form part.now)) }
{
    Value::Int(number_of(part))
}

/// Whether a part is a number with variables.
fn is_number(part: &Part) -> bool
    ensures { result ≡ spec.is_number (pieces.form part.now) }
{
    match &part.form {
        Form::Number(_) => true,
        Form::Known(_) | Form::Name(..) | Form::Condition(_) | Form::Truth(_) => false,
    }
}

/// A part as a number, with the tests of its node.
fn numbered(
    alloc: Global,
    context: &Context<'_>,
    at: u32,
    before: u64,
    part: Part,
) -> Result<Part, FormFault>
    requires { pieces.IsPart context.now part }
    ensures { pieces.Makes context.now (making.number_node (sets context.now) (arrays context.now) context.now.item at before (parts.as_number (pieces.form part))) result }
{
    let number = as_number(alloc, part)?;
    let expr = number.expr.into_inner();
    number_node(
        alloc,
        context,
        at,
        before,
        expr,
        number.size,
        number.depth,
        number.nodes,
    )
}

/// A part as a number.
pub fn number_part(
    alloc: Global,
    context: &Context<'_>,
    at: u32,
    before: u64,
    part: Part,
) -> Result<Part, FormFault>
    requires { pieces.IsPart context.now part }
    ensures { pieces.Makes context.now (making.number_part (sets context.now) (arrays context.now) context.now.item at before (pieces.form part)) result }
{
    let is_known = part.is_known();
    if is_known {
        return known_part(alloc, plain_value(&part));
    }
    let is_number = is_number(&part);
    if is_number {
        return Ok(part);
    }
    numbered(alloc, context, at, before, part)
}

/// The number of a part with the other sign.
fn opposite(at: u32, part: &Part) -> Result<i128, EvalFault>
    ensures { result ≡ arithmetic.negative at (spec.number_of (pieces.form part.now)) }
{
    negative(at, number_of(part))
}

/// The number of a part without its sign.
fn unsigned(at: u32, part: &Part) -> Result<i128, EvalFault>
    ensures { result ≡ arithmetic.absolute at (spec.number_of (pieces.form part.now)) }
{
    absolute_value(at, number_of(part))
}

/// `- a` of a part with variables.
fn negation(
    alloc: Global,
    context: &Context<'_>,
    at: u32,
    before: u64,
    part: Part,
) -> Result<Part, FormFault>
    requires { pieces.IsPart context.now part }
    ensures { pieces.Makes context.now (making.number_node (sets context.now) (arrays context.now) context.now.item at before (exprs.Neg (parts.as_number (pieces.form part)))) result }
{
    let number = as_number(alloc, part)?;
    let Number {
        expr,
        size,
        depth,
        nodes,
    } = number;
    let expr = Expr::Neg(expr);
    number_node(alloc, context, at, before, expr, size, depth + 1, nodes + 1)
}

/// `- a`
pub fn negated(
    alloc: Global,
    context: &Context<'_>,
    at: u32,
    before: u64,
    part: Part,
) -> Result<Part, FormFault>
    requires { pieces.IsPart context.now part }
    ensures { pieces.Makes context.now (making.negated (sets context.now) (arrays context.now) context.now.item at before (pieces.form part)) result }
{
    let is_known = part.is_known();
    if is_known {
        let found = opposite(at, &part);
        return evaluated(alloc, context, before, found);
    }
    negation(alloc, context, at, before, part)
}

/// `abs(a)` of a part with variables.
fn magnitude(
    alloc: Global,
    context: &Context<'_>,
    at: u32,
    before: u64,
    part: Part,
) -> Result<Part, FormFault>
    requires { pieces.IsPart context.now part }
    ensures { pieces.Makes context.now (making.number_node (sets context.now) (arrays context.now) context.now.item at before (exprs.Abs (parts.as_number (pieces.form part)))) result }
{
    let number = as_number(alloc, part)?;
    let Number {
        expr,
        size,
        depth,
        nodes,
    } = number;
    let size = larger(1, size);
    let expr = Expr::Abs(expr);
    number_node(alloc, context, at, before, expr, size, depth + 1, nodes + 1)
}

/// `abs(a)`
pub fn absolute(
    alloc: Global,
    context: &Context<'_>,
    at: u32,
    before: u64,
    part: Part,
) -> Result<Part, FormFault>
    requires { pieces.IsPart context.now part }
    ensures { pieces.Makes context.now (making.absolute (sets context.now) (arrays context.now) context.now.item at before (pieces.form part)) result }
{
    let is_known = part.is_known();
    if is_known {
        let found = unsigned(at, &part);
        return evaluated(alloc, context, before, found);
    }
    magnitude(alloc, context, at, before, part)
}
