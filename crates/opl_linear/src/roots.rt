//! The value of one variable that makes a linear form 0, where the others have one value each.
ghost use Rattle.std.specs.Prelude.{◌≡◌, ◌≢◌, ◌<◌, ◌≤◌, pos, ◌<ℤ◌, unsigned_abs, int_div, int_rem, length};
ghost use Rattle.opl_domain.specs.Family.{Full, hull};
ghost use Rattle.opl_expr.specs.Sound.{IsSmall};
ghost use Rattle.opl_range.specs.Between.{IsRoot};
ghost use Rattle.opl_linear.specs.Roots.{IsValueOf, Avoids};

use crate::trim::negated;
use opl_domain::{Narrow, View};

/// The truncated quotient.
fn quotient(x: i128, y: i128) -> i128
    requires nonzero { y ≢ pos 0 }
    requires fits { IsSmall (unsigned_abs x) }
    ensures value { result ≡ int_div x y }
    ensures small { unsigned_abs result ≤ unsigned_abs x }
{
    x / y
}

/// The remainder, with the sign of the dividend.
fn remainder(x: i128, y: i128) -> i128
    requires nonzero { y ≢ pos 0 }
    requires fits { IsSmall (unsigned_abs x) }
    ensures { result ≡ int_rem x y }
{
    x % y
}

/// The number that makes `k` plus its multiple by `c` zero.
pub fn root(k: i128, c: i128) -> Option<i128>
    requires nonzero { c ≢ pos 0 }
    requires small { IsSmall (unsigned_abs k) }
    ensures { IsRoot k c result }
{
    if c == 1 {
        return Some(negated(k));
    }
    if c == -1 {
        return Some(k);
    }
    if remainder(k, c) == 0 {
        Some(negated(quotient(k, c)))
    } else {
        None
    }
}

/// The number as a value of variable `x`, if it is one.
pub fn value_of<V: View>(view: &V, x: u32, v: i128) -> Option<i64>
    requires { x < length (V.family view.now) }
    ensures { IsValueOf (V.family view.now) x v result }
{
    if v < view.min(x) as i128 {
        return None;
    }
    if v > view.max(x) as i128 {
        return None;
    }
    let value = v as i64;
    if view.has(x, value) {
        Some(value)
    } else {
        None
    }
}

/// Removes the value of `x` that makes its multiple and `rest` 0, and tells whether there is one. Another value of `x` stays.
pub fn avoid<N: Narrow>(n: &mut N, x: u32, factor: i128, rest: i128) -> bool
    requires there { x < length (N.family n.old) }
    requires full { Full (N.family n.old) }
    requires some { factor ≢ pos 0 }
    requires small { IsSmall (unsigned_abs rest) }
    requires open { (hull (N.family n.old) x).low <ℤ (hull (N.family n.old) x).high }
    ensures avoids { Avoids (N.family n.old) (N.family n.new) x factor rest result }
    ensures leads_to { N.leads_to n.old n.new }
{
    match root(rest, factor) {
        None => false,
        Some(wanted) => match value_of(&*n, x, wanted) {
            None => false,
            Some(value) => {
                n.cut(x, value, value);
                true
            }
        },
    }
}
