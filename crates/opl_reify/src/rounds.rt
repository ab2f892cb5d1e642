//! One round over the values of the variables that stand in two parts.
ghost use Rattle.std.specs.Prelude.{◌≡◌, ◌<◌, true, length};
ghost use Rattle.opl_domain.specs.Family.{IsFamily, has};
ghost use Rattle.opl_trace.specs.Removals.{CanNarrow};
ghost use Rattle.opl_filter.specs.Rounds.{AreThere, TriesValue, TriesValues};
ghost use Rattle.opl_reify.specs.Rounds.{TriesIfListed, TriesShared};

use opl_domain::{Narrow, Only};
use opl_trace::Test;

/// Removes the value `v` of `x` if it is dead, and tells whether it was. None comes where it is dead and the only value of `x`.
fn try_value<T: Test, N: Narrow>(test: &T, n: &mut N, x: u32, v: i64) -> Option<bool>
    requires sets { IsFamily (N.family n.old) }
    requires variable { x < length (N.family n.old) }
    requires value { has (N.family n.old) x v ≡ true }
    requires tests { CanNarrow (T.can_test test.now) (N.family n.old) }
    ensures tries { TriesValue (T.dead test.now) (N.family n.old) (N.family n.new) x v result }
    ensures leads_to { N.leads_to n.old n.new }
{
    if !test.is_dead(&Only::new(&*n, x, v)) {
        return Some(false);
    }
    if n.size(x) == 1 {
        return None;
    }
    n.cut(x, v, v);
    Some(true)
}

/// Removes the values of `x` that are dead, each at its turn, and tells whether there was one. None comes where a last value is dead.
fn try_values<T: Test, N: Narrow>(test: &T, n: &mut N, x: u32) -> Option<bool>
    requires sets { IsFamily (N.family n.old) }
    requires variable { x < length (N.family n.old) }
    requires tests { CanNarrow (T.can_test test.now) (N.family n.old) }
    ensures tries { TriesValues (T.dead test.now) (N.family n.old) (N.family n.new) x result }
    ensures leads_to { N.leads_to n.old n.new }
{
    let mut removed = false;
    let mut v = n.min(x);
    loop {
        removed |= try_value(test, n, x, v)?;
        match n.next(x, v) {
            None => return Some(removed),
            Some(w) => v = w,
        }
    }
}

/// The same where `x` is one of `others`; else nothing is done.
fn try_if_listed<T: Test, N: Narrow>(test: &T, n: &mut N, x: u32, others: &[u32]) -> Option<bool>
    requires sets { IsFamily (N.family n.old) }
    requires variable { x < length (N.family n.old) }
    requires tests { CanNarrow (T.can_test test.now) (N.family n.old) }
    ensures tries { TriesIfListed (T.dead test.now) others.now (N.family n.old) (N.family n.new) x result }
    ensures leads_to { N.leads_to n.old n.new }
{
    if !others.contains(&x) {
        return Some(false);
    }
    try_values(test, n, x)
}

/// Removes the values that are dead of the variables that both lists have, each at its turn, and tells whether there was one.
/// None comes where a last value is dead.
pub fn try_shared<T: Test, N: Narrow>(
    test: &T,
    variables: &[u32],
    others: &[u32],
    n: &mut N,
) -> Option<bool>
    requires sets { IsFamily (N.family n.old) }
    requires there { AreThere variables.now (N.family n.old) }
    requires tests { CanNarrow (T.can_test test.now) (N.family n.old) }
    ensures tries { TriesShared (T.dead test.now) variables.now others.now (N.family n.old) (N.family n.new) result }
    ensures leads_to { N.leads_to n.old n.new }
{
    let mut removed = false;
    for x in variables {
        removed |= try_if_listed(test, n, *x, others)?;
    }
    Some(removed)
}
