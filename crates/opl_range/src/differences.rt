//! The linear form of the difference of two expressions.
ghost use Rattle.std.specs.Prelude.{◌≡◌, ◌+◌, ◌+ℤ◌, neg_ℤ, unsigned_abs, length, Some};
ghost use Rattle.opl_domain.specs.Family.{Below};
ghost use Rattle.opl_expr.specs.Range.{weighted, with_variables};
ghost use Rattle.opl_expr.specs.Solutions.{declared};
ghost use Rattle.opl_expr.specs.Sound.{IsSmall};
ghost use Rattle.opl_range.specs.Between.{between, rest_between, CanCompare, Ends};

use crate::coefficients::{coefficient, last_named, later};
use crate::hulls::hull;
use crate::rows::scaled;
use opl_domain::{Interval, View};
use opl_expr::{Core, Expr};

/// The first number less the second.
fn subtracted(x: i128, y: i128) -> i128
    requires { IsSmall (unsigned_abs x + unsigned_abs y) }
    ensures { result ≡ x +ℤ neg_ℤ y }
{
    x - y
}

/// The coefficient of variable `x` in `a` minus `b`.
pub fn coefficient_between(core: &Core, a: &Expr, b: &Expr, x: u32) -> i128
    requires { CanCompare core.now a.now b.now }
    ensures { result ≡ between core.now a.now b.now x }
{
    subtracted(coefficient(core, a, x), coefficient(core, b, x))
}

/// The last of the variables below `end` that `a` or `b` names.
pub fn last_between(core: &Core, a: &Expr, b: &Expr, end: u32) -> Option<u32>
    ensures { Ends (between core.now a.now b.now) end result }
{
    later(last_named(core, a, end), last_named(core, b, end))
}

/// The sum, over all variables, of the coefficient in `a` minus `b` times the hull of the set. Only those that `a` or `b`
/// names are asked, from the last one down.
fn variables_between<V: View>(core: &Core, a: &Expr, b: &Expr, view: &V) -> Interval
    requires sound { CanCompare core.now a.now b.now }
    requires within { Below (V.family view.now) (declared core.now) }
    ensures { result ≡ weighted (V.family view.now) (between core.now a.now b.now) (length (V.family view.now)) }
{
    let mut sum = Interval::point(0);
    let mut end = view.vars();
    'named: loop {
        match last_between(core, a, b, end) {
            None => return sum,
            Some(x) => {
                sum = sum.add(scaled(coefficient_between(core, a, b, x), hull(view, x)));
                end = x;
            }
        }
    }
}

/// The interval of `a` minus `b`, where `rest` is what it has beside its variables.
pub fn with_variables<V: View>(
    core: &Core,
    a: &Expr,
    b: &Expr,
    rest: Interval,
    view: &V,
) -> Interval
    requires sound { CanCompare core.now a.now b.now }
    requires within { Below (V.family view.now) (declared core.now) }
    requires rest { Some rest ≡ rest_between (V.family view.now) core.now a.now b.now }
    ensures { result ≡ with_variables (V.family view.now) (between core.now a.now b.now) (length (V.family view.now)) rest }
{
    rest.add(variables_between(core, a, b, view))
}
