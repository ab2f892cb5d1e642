//! Whether the difference of two expressions can be zero, by the values of its variables where it has one or two.
ghost use Rattle.std.specs.Prelude.{◌≡◌, ◌≢◌, ◌<◌, ◌≤◌, ◌+◌, ◌+ℤ◌, ℤ, pos, cond, unsigned_abs, int_div, int_rem, true, false, length, Some, None};
ghost use Rattle.opl_domain.specs.Span.{is_point};
ghost use Rattle.opl_domain.specs.Family.{has, Below};
ghost use Rattle.opl_expr.specs.Range.{with_variables, never_zero};
ghost use Rattle.opl_expr.specs.Solutions.{declared};
ghost use Rattle.opl_expr.specs.Sound.{IsSmall};
ghost use Rattle.opl_range.specs.Magnitudes.{weight};
ghost use Rattle.opl_range.specs.Between.{between, is_pure_between, rest_between, CanCompare, IsLastFactor, IsRoot, are_opposite_units, has_root, meets, zero_by_two, zero_by_values};

use crate::coefficients::{is_linear, negated};
use crate::differences::{coefficient_between, last_between};
use crate::rows::misses_zero;
use opl_domain::{Interval, View};
use opl_expr::{Core, Expr};

/// The last of the variables below `end` whose coefficient in `a` minus `b` isn't 0, with that coefficient.
pub fn last_factor(core: &Core, a: &Expr, b: &Expr, end: u32) -> Option<(u32, i128)>
    requires { CanCompare core.now a.now b.now }
    ensures { IsLastFactor (between core.now a.now b.now) end result }
{
    let mut left = end;
    'named: loop {
        match last_between(core, a, b, left) {
            None => return None,
            Some(x) => {
                let factor = coefficient_between(core, a, b, x);
                if factor != 0 {
                    return Some((x, factor));
                }
                left = x;
            }
        }
    }
}

/// The truncated quotient.
fn quotient(x: i128, y: i128) -> i128
    requires nonzero { y ≢ pos 0 }
    requires fits { IsSmall (unsigned_abs x) }
    ensures value { result ≡ int_div x y }
    ensures small { unsigned_abs result ≤ unsigned_abs x }
{
    x / y
}

/// The remainder, with the sign of the dividend.
fn remainder(x: i128, y: i128) -> i128
    requires nonzero { y ≢ pos 0 }
    requires fits { IsSmall (unsigned_abs x) }
    ensures { result ≡ int_rem x y }
{
    x % y
}

/// The number that makes `k` plus its multiple by `c` zero.
fn root(k: i128, c: i128) -> Option<i128>
    requires nonzero { c ≢ pos 0 }
    requires small { IsSmall (unsigned_abs k) }
    ensures { IsRoot k c result }
{
    if remainder(k, c) == 0 {
        Some(negated(quotient(k, c)))
    } else {
        None
    }
}

/// Whether `v` is a value of variable `x`.
fn is_value<V: View>(view: &V, x: u32, v: i128) -> bool
    requires { x < length (V.family view.now) }
    ensures { result ≡ has (V.family view.now) x v }
{
    if v < view.min(x) as i128 {
        return false;
    }
    if v > view.max(x) as i128 {
        return false;
    }
    view.has(x, v as i64)
}

/// Whether some value of variable `x` makes `k` plus its multiple by `factor` zero.
fn has_root<V: View>(view: &V, x: u32, factor: i128, k: i128) -> bool
    requires variable { x < length (V.family view.now) }
    requires nonzero { factor ≢ pos 0 }
    requires small { IsSmall (unsigned_abs k) }
    ensures { result ≡ has_root (V.family view.now) (λ y. factor) x k }
{
    match root(k, factor) {
        None => false,
        Some(v) => is_value(view, x, v),
    }
}

/// A value, with `shift` added.
fn shifted(v: i64, shift: i128) -> i128
    requires { IsSmall (unsigned_abs v + unsigned_abs shift) }
    ensures { result ≡ v +ℤ shift }
{
    v as i128 + shift
}

/// Whether some value of variable `x`, with `shift` added, is a value of variable `y`.
fn meets<V: View>(view: &V, x: u32, y: u32, shift: i128) -> bool
    requires first { x < length (V.family view.now) }
    requires second { y < length (V.family view.now) }
    requires small { (v : ℤ) → has (V.family view.now) x v ≡ true → IsSmall (unsigned_abs v + unsigned_abs shift) }
    ensures { result ≡ meets (V.family view.now) x y shift }
{
    let mut v = view.min(x);
    loop {
        if is_value(view, y, shifted(v, shift)) {
            return true;
        }
        match view.next(x, v) {
            None => return false,
            Some(w) => v = w,
        }
    }
}

/// Whether two numbers are 1 and -1, in any order.
fn are_opposite_units(x: i128, y: i128) -> bool
    ensures { result ≡ are_opposite_units x y }
{
    x == 1 && y == -1 || x == -1 && y == 1
}

/// Whether some values of the variables `x` and `y` make `k` plus their multiples zero, where these are by 1 and -1, in any
/// order, else none.
fn zero_by_two<V: View>(
    view: &V,
    x: u32,
    first: i128,
    y: u32,
    second: i128,
    k: i128,
) -> Option<bool>
    requires first { x < length (V.family view.now) }
    requires second { y < length (V.family view.now) }
    requires small { IsSmall (unsigned_abs k) }
    requires fits { (v : ℤ) → has (V.family view.now) x v ≡ true → IsSmall (unsigned_abs v + unsigned_abs k) }
    ensures { result ≡ zero_by_two (V.family view.now) x first y second k }
{
    if !are_opposite_units(first, second) {
        return None;
    }
    if first == 1 {
        return Some(meets(view, x, y, k));
    }
    Some(meets(view, x, y, negated(k)))
}

/// Whether some values make `k` plus the variables of `a` minus `b` zero. It is known where there is one variable, or two
/// with coefficients 1 and -1.
fn zero_by_values<V: View>(core: &Core, a: &Expr, b: &Expr, k: i128, view: &V) -> Option<bool>
    requires sound { CanCompare core.now a.now b.now }
    requires within { Below (V.family view.now) (declared core.now) }
    requires small { IsSmall (weight core.now.sets (between core.now a.now b.now) (length (V.family view.now)) + unsigned_abs k) }
    ensures { result ≡ zero_by_values (V.family view.now) (between core.now a.now b.now) (length (V.family view.now)) k }
{
    let (x, first) = last_factor(core, a, b, view.vars())?;
    match last_factor(core, a, b, x) {
        None => Some(has_root(view, x, first, k)),
        Some((y, second)) => match last_factor(core, a, b, y) {
            None => zero_by_two(view, x, first, y, second, k),
            Some(_third) => None,
        },
    }
}

/// The same where there are only variables and a constant, else none.
fn zero_of_linear<V: View>(core: &Core, a: &Expr, b: &Expr, k: i128, view: &V) -> Option<bool>
    requires sound { CanCompare core.now a.now b.now }
    requires within { Below (V.family view.now) (declared core.now) }
    requires small { IsSmall (weight core.now.sets (between core.now a.now b.now) (length (V.family view.now)) + unsigned_abs k) }
    ensures { result ≡ cond (is_pure_between core.now a.now b.now) (zero_by_values (V.family view.now) (between core.now a.now b.now) (length (V.family view.now)) k) None }
{
    if is_linear(core, a) && is_linear(core, b) {
        zero_by_values(core, a, b, k, view)
    } else {
        None
    }
}

/// Whether `a` minus `b` is surely not zero; `rest` is what it has beside its variables, and `whole` its interval.
pub fn never_zero<V: View>(
    core: &Core,
    a: &Expr,
    b: &Expr,
    rest: Interval,
    whole: Interval,
    view: &V,
) -> bool
    requires sound { CanCompare core.now a.now b.now }
    requires within { Below (V.family view.now) (declared core.now) }
    requires rest { Some rest ≡ rest_between (V.family view.now) core.now a.now b.now }
    requires whole { whole ≡ with_variables (V.family view.now) (between core.now a.now b.now) (length (V.family view.now)) rest }
    ensures value { result ≡ never_zero (V.family view.now) (between core.now a.now b.now) (length (V.family view.now)) (is_pure_between core.now a.now b.now) rest }
    ensures apart { is_point (pos 0) whole ≡ true → result ≡ false }
{
    let _vars = view.vars();
    match zero_of_linear(core, a, b, rest.lo(), view) {
        None => misses_zero(whole),
        Some(found) => !found,
    }
}
