//! Taking a value from a part.
ghost use Rattle.std.specs.Prelude.{◌≡◌, ◌≢◌, ◌<◌, ◌+◌, pos, true, unsigned_abs, length};
ghost use Rattle.opl_domain.specs.Family.{IsFamily, has};
ghost use Rattle.opl_expr.specs.Sound.{IsSmall};
ghost use Rattle.opl_all_different.specs.Parts.{IsThere};
ghost use Rattle.opl_all_different.specs.Taking.{IsNumberFor, Loses, Takes};

use crate::numbers::less;
use crate::part::Part;
use opl_domain::{Narrow, View};
use opl_linear::{root, value_of};

/// The value of the variable with which a part has the value `v`.
fn number_for<V: View>(part: &Part, v: i128, view: &V) -> Option<i64>
    requires there { part.now.variable < length (V.family view.now) }
    requires some { part.now.factor ≢ pos 0 }
    requires fits { IsSmall (unsigned_abs part.now.constant + unsigned_abs v) }
    ensures { IsNumberFor (V.family view.now) part.now v result }
{
    match root(less(part.constant, v), part.factor) {
        None => None,
        Some(wanted) => value_of(view, part.variable, wanted),
    }
}

/// Removes a value of `x`, and tells that; false comes where it is the only one, and stays.
fn lose<N: Narrow>(n: &mut N, x: u32, value: i64) -> bool
    requires sets { IsFamily (N.family n.old) }
    requires there { x < length (N.family n.old) }
    requires value { has (N.family n.old) x value ≡ true }
    ensures loses { Loses (N.family n.old) (N.family n.new) x value result }
    ensures leads_to { N.leads_to n.old n.new }
{
    if n.size(x) == 1 {
        return false;
    }
    n.cut(x, value, value);
    true
}

/// Takes the value `v` from a part. False comes where the part has no other value.
pub fn take<N: Narrow>(part: &Part, v: i128, n: &mut N) -> bool
    requires sets { IsFamily (N.family n.old) }
    requires there { IsThere (length (N.family n.old)) part.now }
    requires fits { IsSmall (unsigned_abs part.now.constant + unsigned_abs v) }
    ensures takes { Takes (N.family n.old) (N.family n.new) part.now v result }
    ensures leads_to { N.leads_to n.old n.new }
{
    if part.factor == 0 {
        return part.constant != v;
    }
    match number_for(part, v, &*n) {
        None => true,
        Some(value) => lose(n, part.variable, value),
    }
}
