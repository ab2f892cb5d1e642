//! The filter of a linear form that is to be at most 0.
ghost use Rattle.std.specs.Prelude.{◌≡◌, ◌+◌, ◌+ℤ◌, neg_ℤ, ◌≤ℤ◌, pos, unsigned_abs, length};
ghost use Rattle.opl_domain.specs.Family.{IsFamily};
ghost use Rattle.opl_expr.specs.Sound.{IsSmall};
ghost use Rattle.opl_filter.specs.Filtering.{IsBetween, Filters};
ghost use Rattle.opl_linear.specs.Linear.{factor_in, NamesOnce, AreAmong, AreFactors, least_sum, is_above, bulk, limit};
ghost use Rattle.opl_linear.specs.Trimming.{IsSlack, IsTrimmedTo};
ghost use Rattle.opl_linear.specs.Alternating.{Changes, Narrows};

use crate::trim::{least_product, trim};
use opl_domain::{Narrow, View};
use opl_filter::Outcome;

/// The sum of two numbers.
pub fn added(x: i128, y: i128) -> i128
    requires { IsSmall (unsigned_abs x + unsigned_abs y) }
    ensures { result ≡ x +ℤ y }
{
    x + y
}

/// The sum of the least values of the parts.
pub fn least_sum<V: View>(parts: &[(u32, i128)], view: &V) -> i128
    requires there { AreAmong (length (V.family view.now)) parts.now }
    requires factors { AreFactors parts.now }
    requires fits { IsSmall (bulk (V.family view.now) parts.now) }
    ensures { result ≡ least_sum (V.family view.now) parts.now }
{
    let mut sum = 0;
    for part in parts {
        sum = added(sum, least_product(part.1, view, part.0));
    }
    sum
}

/// Removes, of each variable, the values that make its part exceed its least value by more than the slack. Tells whether one has gone.
fn trim_all<N: Narrow>(parts: &[(u32, i128)], slack: i128, n: &mut N) -> bool
    requires once { NamesOnce parts.now }
    requires there { AreAmong (length (N.family n.old)) parts.now }
    requires factors { AreFactors parts.now }
    requires slack { pos 0 ≤ℤ slack }
    requires sets { IsFamily (N.family n.old) }
    ensures trims { IsTrimmedTo (N.family n.old) (N.family n.new) parts.now slack (length parts.now) }
    ensures changes { Changes (N.family n.old) (N.family n.new) result }
    ensures leads_to { N.leads_to n.old n.new }
{
    let mut changed = false;
    for part in parts {
        changed |= trim(n, part.0, part.1, slack);
    }
    changed
}

/// The opposite of a number, or of the next one.
fn opposite(least: i128, strict: bool) -> i128
    requires { IsSmall (unsigned_abs least) }
    ensures { result ≡ neg_ℤ (limit strict least) }
{
    if strict { -1 - least } else { -least }
}

/// How much a form may exceed its least value, if it is to be at most 0, or below 0; none where that value is too great.
fn slack(least: i128, strict: bool) -> Option<i128>
    requires { IsSmall (unsigned_abs least) }
    ensures { IsSlack least strict result }
{
    let most = opposite(least, strict);
    if most < 0 { None } else { Some(most) }
}

/// Removes the values with which the parts and the constant can't be at most 0, or below 0 if that is asked, until the family is
/// stable, and tells whether one has gone. None comes where no family within is stable.
pub fn narrow_at_most<N: Narrow>(
    parts: &[(u32, i128)],
    constant: i128,
    strict: bool,
    n: &mut N,
) -> Option<bool>
    requires once { NamesOnce parts.now }
    requires there { AreAmong (length (N.family n.old)) parts.now }
    requires factors { AreFactors parts.now }
    requires fits { IsSmall (unsigned_abs constant + bulk (N.family n.old) parts.now) }
    ensures between { IsBetween (is_above (factor_in parts.now) (limit strict constant)) (N.family n.old) (N.family n.new) }
    ensures narrows { Narrows (is_above (factor_in parts.now) (limit strict constant)) (N.family n.old) (N.family n.new) result }
    ensures leads_to { N.leads_to n.old n.new }
{
    // No set is empty: a view says so with its number of variables.
    let _vars = n.vars();
    let least = added(constant, least_sum(parts, &*n));
    match slack(least, strict) {
        None => None,
        Some(most) => Some(trim_all(parts, most, n)),
    }
}

/// The same, and tells the outcome.
pub fn filter_at_most<N: Narrow>(
    parts: &[(u32, i128)],
    constant: i128,
    strict: bool,
    n: &mut N,
) -> Outcome
    requires once { NamesOnce parts.now }
    requires there { AreAmong (length (N.family n.old)) parts.now }
    requires factors { AreFactors parts.now }
    requires fits { IsSmall (unsigned_abs constant + bulk (N.family n.old) parts.now) }
    ensures between { IsBetween (is_above (factor_in parts.now) (limit strict constant)) (N.family n.old) (N.family n.new) }
    ensures outcome { Filters (is_above (factor_in parts.now) (limit strict constant)) (N.family n.old) (N.family n.new) result }
    ensures leads_to { N.leads_to n.old n.new }
{
    match narrow_at_most(parts, constant, strict, n) {
        None => Outcome::Failed,
        Some(_changed) => Outcome::Stable,
    }
}
