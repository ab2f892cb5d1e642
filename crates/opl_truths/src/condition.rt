//! Parts as conditions.
ghost use Rattle.std.specs.Prelude.{◌≡◌, IfOk};
ghost use Rattle.opl_form.specs.Parts as parts;
ghost use Rattle.opl_nodes.specs.Pieces.{form};
ghost use Rattle.opl_truths.specs.Conditions as spec;

use opl_expr::{Cons, Expr, Op};
use opl_list::{Boxed, Seq};
use opl_nodes::{Form, Part, is_true};
use std::alloc::{AllocError, Global};

/// A copy of an expression.
fn copied(alloc: Global, expr: &Expr) -> Result<Boxed<Expr>, AllocError>
    ensures { IfOk result (λ copy. copy ≡ expr.now) }
{
    match expr.copy(alloc) {
        Ok(copy) => Boxed::new(alloc, copy),
        Err(_) => Err(AllocError),
    }
}

/// 0 wherever an expression has a value.
fn nothing(alloc: Global, expr: Boxed<Expr>) -> Result<Boxed<Expr>, AllocError>
    ensures { IfOk result (λ zero. zero ≡ parts.nothing expr) }
{
    let zero = Boxed::new(alloc, Expr::Const(0))?;
    Boxed::new(alloc, Expr::Mul(zero, expr))
}

/// A condition that never holds, in place of what is no truth.
fn never(alloc: Global, expr: Boxed<Expr>) -> Result<Boxed<Cons>, AllocError>
    ensures { IfOk result (λ cons. cons ≡ Cons.Cmp Op.Ne (parts.nothing expr) (parts.nothing expr)) }
{
    let copy = copied(alloc, expr.get())?;
    let left = nothing(alloc, expr)?;
    let right = nothing(alloc, copy)?;
    Boxed::new(alloc, Cons::Cmp(Op::Ne, left, right))
}

/// A part as a condition. A number or a name never holds, which typing rules out.
pub fn into_condition(alloc: Global, part: Part) -> Result<Boxed<Cons>, AllocError>
    ensures { IfOk result (λ cons. cons ≡ parts.as_condition (form part)) }
{
    let Part { form, .. } = part;
    match form {
        Form::Known(value) => Boxed::new(alloc, Cons::Fixed(is_true(value.get()))),
        Form::Number(expr) => never(alloc, expr),
        Form::Name(_, expr) => never(alloc, expr),
        Form::Condition(cons) => Ok(cons),
        Form::Truth(cons) => Ok(cons),
    }
}

/// Parts as conditions.
pub(crate) fn conditions(alloc: Global, parts: Seq<Part>) -> Result<Seq<Cons>, AllocError>
    ensures { IfOk result (λ found. found ≡ spec.conditions parts) }
{
    let mut found = Seq::new(alloc);
    for part in parts.into_vec() {
        found.push(into_condition(alloc, part)?.into_inner())?;
    }
    Ok(found)
}
