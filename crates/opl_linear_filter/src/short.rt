//! Forms of one variable, or of two with the factors 1 and -1, that are to be 0.
ghost use Rattle.std.specs.Prelude.{◌≡◌, ◌≢◌, ◌<◌, ◌+◌, ◌+ℤ◌, ℤ, pos, true, unsigned_abs, length};
ghost use Rattle.opl_domain.specs.Family.{has, hull, Below};
ghost use Rattle.opl_expr.specs.Range.{has_zero};
ghost use Rattle.opl_expr.specs.Solutions.{declared};
ghost use Rattle.opl_expr.specs.Sound.{IsSmall};
ghost use Rattle.opl_filter.specs.Filtering.{refutes, IsBetween, Filters};
ghost use Rattle.opl_range.specs.Between.{has_root, meets};
ghost use Rattle.opl_linear.specs.Linear.{factor_in};
ghost use Rattle.opl_linear_filter.specs.ShortForms.{equation, IsShort, CanTest};

use crate::numbers::{less, negated};
use opl_domain::{Narrow, View};
use opl_expr::Core;
use opl_filter::{Outcome, remove_dead};
use opl_linear::{root, value_of};
use opl_trace::Test;

/// Whether `v` is a value of variable `x`.
fn is_value<V: View>(view: &V, x: u32, v: i128) -> bool
    requires { x < length (V.family view.now) }
    ensures { result ≡ has (V.family view.now) x v }
{
    match value_of(view, x, v) {
        None => false,
        Some(_value) => true,
    }
}

/// Whether some value of variable `x` makes `k` plus its multiple by `factor` zero.
fn has_root<V: View>(view: &V, x: u32, factor: i128, k: i128) -> bool
    requires variable { x < length (V.family view.now) }
    requires nonzero { factor ≢ pos 0 }
    requires small { IsSmall (unsigned_abs k) }
    ensures { result ≡ has_root (V.family view.now) (λ y. factor) x k }
{
    match root(k, factor) {
        None => false,
        Some(v) => is_value(view, x, v),
    }
}

/// A value, with `shift` added.
fn shifted(v: i64, shift: i128) -> i128
    requires { IsSmall (unsigned_abs v + unsigned_abs shift) }
    ensures { result ≡ v +ℤ shift }
{
    v as i128 + shift
}

/// A value less `shift`.
fn shifted_back(v: i64, shift: i128) -> i128
    requires { IsSmall (unsigned_abs v + unsigned_abs shift) }
    ensures { result +ℤ shift ≡ v }
{
    v as i128 - shift
}

/// Whether some value of variable `x`, with `shift` added, is a value of variable `y`, value by value.
fn meets_by_values<V: View>(view: &V, x: u32, y: u32, shift: i128) -> bool
    requires first { x < length (V.family view.now) }
    requires second { y < length (V.family view.now) }
    requires small { (v : ℤ) → has (V.family view.now) x v ≡ true → IsSmall (unsigned_abs v + unsigned_abs shift) }
    ensures { result ≡ meets (V.family view.now) x y shift }
{
    let mut v = view.min(x);
    loop {
        if is_value(view, y, shifted(v, shift)) {
            return true;
        }
        match view.next(x, v) {
            None => return false,
            Some(w) => v = w,
        }
    }
}

/// The same; where `y` has one value, that alone is asked.
fn meets<V: View>(view: &V, x: u32, y: u32, shift: i128) -> bool
    requires first { x < length (V.family view.now) }
    requires second { y < length (V.family view.now) }
    requires small { (v : ℤ) → has (V.family view.now) x v ≡ true → IsSmall (unsigned_abs v + unsigned_abs shift) }
    requires opposite { (v : ℤ) → has (V.family view.now) y v ≡ true → IsSmall (unsigned_abs v + unsigned_abs shift) }
    ensures { result ≡ meets (V.family view.now) x y shift }
{
    let only = view.min(y);
    if only < view.max(y) {
        return meets_by_values(view, x, y, shift);
    }
    is_value(view, x, shifted_back(only, shift))
}

/// Whether some values make a short form 0.
pub fn has_zero<V: View>(parts: &[(u32, i128)], constant: i128, view: &V) -> bool
    requires { CanTest parts.now constant (V.family view.now) }
    ensures { result ≡ has_zero (V.family view.now) (factor_in parts.now) constant (length (V.family view.now)) }
{
    // No set is empty: a view says so with its number of variables.
    let _vars = view.vars();
    let (x, factor) = parts[0];
    if parts.len() == 1 {
        return has_root(view, x, factor, constant);
    }
    let (y, _opposite) = parts[1];
    if factor == 1 {
        return meets(view, x, y, constant);
    }
    meets(view, x, y, negated(constant))
}

/// Whether no values of a family make a short form 0.
#[derive(Drop)]
struct NeverZero<'a> {
    parts: &'a [(u32, i128)],
    constant: i128,
}

impl<'a> Test for NeverZero<'a> {
    ghost use Rattle.opl_filter.specs.Filtering.{refutes};
    ghost use Rattle.opl_linear_filter.specs.ShortForms.{equation, CanTest};

    ghost can_test = { λ s F. CanTest s.parts.now s.constant F };

    ghost dead = { λ s. refutes (equation s.parts.now s.constant) };

    fn is_dead<V: View>(&self, view: &V) -> bool {
        // No set is empty: a view says so with its number of variables.
        let _vars = view.vars();
        !has_zero(self.parts, self.constant, view)
    }
}

/// Removes the values with which a short form can't be 0, until each value has one with which it is, or until none has. It takes
/// no memory.
pub fn filter_short<N: Narrow>(
    core: &Core,
    parts: &[(u32, i128)],
    constant: i128,
    n: &mut N,
) -> Outcome
    requires form { IsShort core.now parts.now constant }
    requires declared { Below (N.family n.old) (declared core.now) }
    ensures between { IsBetween (refutes (equation parts.now constant)) (N.family n.old) (N.family n.new) }
    ensures outcome { Filters (refutes (equation parts.now constant)) (N.family n.old) (N.family n.new) result }
    ensures leads_to { N.leads_to n.old n.new }
{
    let test = NeverZero { parts, constant };
    let first = parts[0].0;
    if parts.len() == 1 {
        return remove_dead(&test, &[first], n);
    }
    remove_dead(&test, &[first, parts[1].0], n)
}
