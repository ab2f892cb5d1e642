//! Rounds over all values of some variables, each of which removes the values that are dead, until a round removes none.
ghost use Rattle.std.specs.Prelude.{◌≡◌, ◌<◌, true, length};
ghost use Rattle.opl_domain.specs.Family.{IsFamily, has};
ghost use Rattle.opl_trace.specs.Stable.{IsMonotone};
ghost use Rattle.opl_trace.specs.Removals.{CanNarrow};
ghost use Rattle.opl_filter.specs.Filtering.{IsBetween, Filters};
ghost use Rattle.opl_filter.specs.Rounds.{AreThere, LooksOnlyAt, TriesValue, TriesValues, TriesAll};

use crate::outcome::Outcome;
use opl_domain::{Narrow, Only};
use opl_trace::Test;

/// Removes the value `v` of `x` if it is dead, and tells whether it was. None comes where it is dead and the only value of `x`.
fn try_value<T: Test, N: Narrow>(test: &T, n: &mut N, x: u32, v: i64) -> Option<bool>
    requires sets { IsFamily (N.family n.old) }
    requires variable { x < length (N.family n.old) }
    requires value { has (N.family n.old) x v ≡ true }
    requires tests { CanNarrow (T.can_test test.now) (N.family n.old) }
    ensures tries { TriesValue (T.dead test.now) (N.family n.old) (N.family n.new) x v result }
    ensures leads_to { N.leads_to n.old n.new }
{
    if !test.is_dead(&Only::new(&*n, x, v)) {
        return Some(false);
    }
    if n.size(x) == 1 {
        return None;
    }
    n.cut(x, v, v);
    Some(true)
}

/// Removes the values of `x` that are dead, each at its turn, and tells whether there was one. None comes where a last value is dead.
fn try_values<T: Test, N: Narrow>(test: &T, n: &mut N, x: u32) -> Option<bool>
    requires sets { IsFamily (N.family n.old) }
    requires variable { x < length (N.family n.old) }
    requires tests { CanNarrow (T.can_test test.now) (N.family n.old) }
    ensures tries { TriesValues (T.dead test.now) (N.family n.old) (N.family n.new) x result }
    ensures leads_to { N.leads_to n.old n.new }
{
    let mut removed = false;
    let mut v = n.min(x);
    loop {
        removed |= try_value(test, n, x, v)?;
        match n.next(x, v) {
            None => return Some(removed),
            Some(w) => v = w,
        }
    }
}

/// Removes the values of the listed variables that are dead, each at its turn, and tells whether there was one. None comes
/// where a last value is dead.
fn try_all<T: Test, N: Narrow>(test: &T, variables: &[u32], n: &mut N) -> Option<bool>
    requires sets { IsFamily (N.family n.old) }
    requires there { AreThere variables.now (N.family n.old) }
    requires tests { CanNarrow (T.can_test test.now) (N.family n.old) }
    ensures tries { TriesAll (T.dead test.now) variables.now (N.family n.old) (N.family n.new) result }
    ensures leads_to { N.leads_to n.old n.new }
{
    let mut removed = false;
    for x in variables {
        removed |= try_values(test, n, *x)?;
    }
    Some(removed)
}

/// Removes dead values until the family is stable, or until it has failed. A family below a dead one must be dead, each
/// family below the first must be one that the test can take, and the test must look at no set but those of `variables`.
pub fn remove_dead<T: Test, N: Narrow>(test: &T, variables: &[u32], n: &mut N) -> Outcome
    requires falls { IsMonotone (T.dead test.now) }
    requires tests { CanNarrow (T.can_test test.now) (N.family n.old) }
    requires there { AreThere variables.now (N.family n.old) }
    requires others { LooksOnlyAt variables.now (T.dead test.now) }
    ensures between { IsBetween (T.dead test.now) (N.family n.old) (N.family n.new) }
    ensures outcome { Filters (T.dead test.now) (N.family n.old) (N.family n.new) result }
    ensures leads_to { N.leads_to n.old n.new }
{
    // No set is empty: a view says so with its number of variables.
    let _vars = n.vars();
    if test.is_dead(&*n) {
        return Outcome::Failed;
    }
    loop {
        match try_all(test, variables, n) {
            None => return Outcome::Failed,
            Some(false) => return Outcome::Stable,
            Some(true) => {}
        }
    }
}
