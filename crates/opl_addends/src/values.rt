//! Trying the values of one variable.
ghost use Rattle.std.specs.Prelude.{◌≡◌, ◌<◌, true, length};
ghost use Rattle.opl_domain.specs.Family.{IsFamily, has};
ghost use Rattle.opl_filter.specs.Rounds.{TriesValue, TriesValues};
ghost use Rattle.opl_addends.specs.Rounds.{CanTry, SameBut};

use opl_domain::{Narrow, Only};
use opl_trace::Test;

/// Removes the value `v` of `x` if it is dead, and tells whether it was. None comes where it is dead and the only value of `x`.
fn try_value<T: Test, N: Narrow>(test: &T, n: &mut N, x: u32, v: i64) -> Option<bool>
    requires sets { IsFamily (N.family n.old) }
    requires variable { x < length (N.family n.old) }
    requires value { has (N.family n.old) x v ≡ true }
    requires tests { CanTry (T.can_test test.now) (N.family n.old) x }
    ensures tries { TriesValue (T.dead test.now) (N.family n.old) (N.family n.new) x v result }
    ensures leads_to { N.leads_to n.old n.new }
{
    if !test.is_dead(&Only::new(&*n, x, v)) {
        return Some(false);
    }
    if n.size(x) == 1 {
        return None;
    }
    n.cut(x, v, v);
    Some(true)
}

/// Removes the values of `x` that are dead, each at its turn, and tells whether there was one. None comes where a last value is dead.
/// The test need take only families in which `x` has one value.
pub fn try_values<T: Test, N: Narrow>(test: &T, n: &mut N, x: u32) -> Option<bool>
    requires sets { IsFamily (N.family n.old) }
    requires variable { x < length (N.family n.old) }
    requires tests { CanTry (T.can_test test.now) (N.family n.old) x }
    ensures tries { TriesValues (T.dead test.now) (N.family n.old) (N.family n.new) x result }
    ensures others { SameBut x (N.family n.old) (N.family n.new) }
    ensures leads_to { N.leads_to n.old n.new }
{
    let mut removed = false;
    let mut v = n.min(x);
    loop {
        removed |= try_value(test, n, x, v)?;
        match n.next(x, v) {
            None => return Some(removed),
            Some(w) => v = w,
        }
    }
}
