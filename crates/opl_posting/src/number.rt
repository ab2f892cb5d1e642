//! Parts as the numbers that they count as.
ghost use Rattle.std.specs.Prelude.{◌≡◌, IfOk};
ghost use Rattle.opl_eval.specs.Compare as compare;
ghost use Rattle.opl_form.specs.Parts as parts;
ghost use Rattle.opl_nodes.specs.Pieces.{form};

use opl_eval::number;
use opl_expr::Expr;
use opl_list::Boxed;
use opl_nodes::{Form, Part};
use opl_value::Value;
use std::alloc::{AllocError, Global};

/// The number that a value counts as.
fn constant(alloc: Global, value: &Value) -> Result<Boxed<Expr>, AllocError>
    ensures { IfOk result (λ e. e ≡ Expr.Const (compare.number value.now)) }
{
    Boxed::new(alloc, Expr::Const(number(value)))
}

/// 0 wherever an expression has a value.
fn nothing(alloc: Global, expr: Boxed<Expr>) -> Result<Boxed<Expr>, AllocError>
    ensures { IfOk result (λ e. e ≡ parts.nothing expr) }
{
    let zero = Boxed::new(alloc, Expr::Const(0))?;
    Boxed::new(alloc, Expr::Mul(zero, expr))
}

/// The number that a part counts as.
pub(crate) fn into_number(alloc: Global, part: Part) -> Result<Boxed<Expr>, AllocError>
    ensures { IfOk result (λ e. e ≡ parts.as_number (form part)) }
{
    match part.form {
        Form::Known(value) => constant(alloc, value.get()),
        Form::Number(expr) => Ok(expr),
        Form::Name(_, expr) => nothing(alloc, expr),
        Form::Condition(cons) => Boxed::new(alloc, Expr::Truth(cons)),
        Form::Truth(cons) => Boxed::new(alloc, Expr::Truth(cons)),
    }
}
