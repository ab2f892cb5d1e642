//! The number that stands beside the variables of an expression.
ghost use Rattle.std.specs.Prelude.{◌≡◌, map};
ghost use Rattle.opl_expr.specs.Forms.{Term, term, terms_of};
ghost use Rattle.opl_expr.specs.Sound.{IsSoundTerm};
ghost use Rattle.opl_linear.specs.Forms.{constant_part, constant_parts};

use crate::numbers::{added, multiplied, negated};
use opl_expr::{Core, Expr};
use opl_range::constant;

/// The number that stands beside the variables of an expression.
#[cycle(constants)]
#[tactic(auto, using(crate::proofs::Plain::parts_are))]
pub fn constant_part(core: &Core, e: &Expr) -> i128
    requires { IsSoundTerm core.now.sets (term core.now.tables core.now.resources e.now) }
    ensures { result ≡ constant_part (term core.now.tables core.now.resources e.now) }
{
    match e {
        Expr::Const(k) => *k,
        Expr::Var(_x) => 0,
        Expr::Sum(parts) => constant_parts(core, parts.as_slice()),
        Expr::Neg(a) => negated(constant_part(core, a.get())),
        Expr::Mul(a, b) => match constant(core, a.get()) {
            Some(k) => multiplied(k, constant_part(core, b.get())),
            None => match constant(core, b.get()) {
                Some(k) => multiplied(k, constant_part(core, a.get())),
                None => 0,
            },
        },
        Expr::Div(_a, _b) => 0,
        Expr::Rem(_a, _b) => 0,
        Expr::Abs(_a) => 0,
        Expr::Min(_parts) => 0,
        Expr::Max(_parts) => 0,
        Expr::At(_table, _parts) => 0,
        Expr::Truth(_c) => 0,
        Expr::Ask(_ask, _x) => 0,
    }
}

/// The sum of the numbers that stand beside the variables of expressions.
#[cycle(constants)]
fn constant_parts(core: &Core, parts: &[Expr]) -> i128
    requires { IsSoundTerm core.now.sets (Term.sum (terms_of (map (term core.now.tables core.now.resources) parts.now))) }
    ensures { result ≡ constant_parts (terms_of (map (term core.now.tables core.now.resources) parts.now)) }
{
    let mut total = 0;
    let mut left = parts.len();
    while left > 0 {
        left -= 1;
        total = added(constant_part(core, &parts[left]), total);
    }
    total
}
