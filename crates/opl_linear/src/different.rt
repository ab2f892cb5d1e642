//! The filter of a linear form that is to differ from 0.
ghost use Rattle.std.specs.Prelude.{◌≡◌, ◌+◌, ◌<◌, ◌≤◌, ◌+ℤ◌, neg_ℤ, unsigned_abs, length};
ghost use Rattle.opl_expr.specs.Sound.{IsSmall};
ghost use Rattle.opl_filter.specs.Filtering.{IsBetween, Filters};
ghost use Rattle.opl_linear.specs.Linear.{factor_in, NamesOnce, AreAmong, AreFactors, is_zero, bulk};
ghost use Rattle.opl_linear.specs.Roots.{Fixes, IsNextOpen};

use crate::at_most::{added, least_sum};
use crate::roots::avoid;
use crate::trim::least_product;
use opl_domain::{Narrow, View};
use opl_filter::Outcome;

/// Whether `x` has one value.
fn is_fixed<V: View>(view: &V, x: u32) -> bool
    requires { x < length (V.family view.now) }
    ensures { Fixes (V.family view.now) x result }
{
    if view.min(x) < view.max(x) {
        return false;
    }
    true
}

/// The first place from `from` on whose variable has more than one value, or the length.
pub fn next_open<V: View>(parts: &[(u32, i128)], from: usize, view: &V) -> usize
    requires there { AreAmong (length (V.family view.now)) parts.now }
    requires from { from ≤ length parts.now }
    ensures { IsNextOpen (V.family view.now) parts.now from result }
{
    let mut at = from;
    while at < parts.len() {
        if !is_fixed(view, parts[at].0) {
            return at;
        }
        at += 1;
    }
    at
}

/// The first number less the second.
fn less(x: i128, y: i128) -> i128
    requires { IsSmall (unsigned_abs (x +ℤ neg_ℤ y)) }
    ensures { result ≡ x +ℤ neg_ℤ y }
{
    x - y
}

/// Removes the one value with which the parts and the constant are 0, where all variables but one have one value each. It fails
/// where all have, and the form is 0.
pub fn filter_different<N: Narrow>(parts: &[(u32, i128)], constant: i128, n: &mut N) -> Outcome
    requires once { NamesOnce parts.now }
    requires there { AreAmong (length (N.family n.old)) parts.now }
    requires factors { AreFactors parts.now }
    requires fits { IsSmall (unsigned_abs constant + bulk (N.family n.old) parts.now) }
    ensures between { IsBetween (is_zero (factor_in parts.now) constant) (N.family n.old) (N.family n.new) }
    ensures outcome { Filters (is_zero (factor_in parts.now) constant) (N.family n.old) (N.family n.new) result }
    ensures leads_to { N.leads_to n.old n.new }
{
    // No set is empty: a view says so with its number of variables.
    let _vars = n.vars();
    let first = next_open(parts, 0, &*n);
    if first == parts.len() {
        return if added(constant, least_sum(parts, &*n)) == 0 {
            Outcome::Failed
        } else {
            Outcome::Stable
        };
    }
    if next_open(parts, first + 1, &*n) < parts.len() {
        return Outcome::Stable;
    }
    let sum = added(constant, least_sum(parts, &*n));
    let (x, factor) = parts[first];
    let _removed = avoid(n, x, factor, less(sum, least_product(factor, &*n, x)));
    Outcome::Stable
}
