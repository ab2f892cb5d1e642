//! A plain and slow closure: dead values are removed one after another.
ghost use Rattle.std.specs.Prelude.{◌≡◌, ◌<◌, Bool, length};
ghost use Rattle.opl_domain.specs.Family.{Family, IsFamily};
ghost use Rattle.opl_trace.specs.Stable.{IsMonotone};
ghost use Rattle.opl_trace.specs.Closure.{closure};
ghost use Rattle.opl_trace.specs.Removals.{CanNarrow, DeadValue, DeadPair};

use crate::sets::Sets;
use opl_domain::{Narrow, Only, View};

/// A test of families, as whether one refutes a constraint of a list.
pub trait Test {
    ghost can_test: { Self → Family → Type 0 };

    ghost dead: { Self → Family → Bool };

    /// Whether the family is dead. It must be one that the test can take.
    fn is_dead<V: View>(&self, view: &V) -> bool
        requires { can_test self.now (V.family view.now) }
        ensures { result ≡ dead self.now (V.family view.now) };
}

/// The least value of `x` with which alone the family is dead.
fn dead_value<T: Test>(test: &T, sets: &Sets, x: u32) -> Option<i64>
    requires variable { x < length sets.now }
    requires tests { CanNarrow (T.can_test test.now) sets.now }
    ensures { DeadValue (T.dead test.now) sets.now x result }
{
    let mut v = sets.min(x);
    loop {
        if test.is_dead(&Only::new(sets, x, v)) {
            return Some(v);
        }
        match sets.next(x, v) {
            None => return None,
            Some(w) => v = w,
        }
    }
}

/// The first variable with such a value, and the value.
fn dead_pair<T: Test>(test: &T, sets: &Sets) -> Option<(u32, i64)>
    requires { CanNarrow (T.can_test test.now) sets.now }
    ensures found { DeadPair (T.dead test.now) sets.now result }
    ensures family { IsFamily sets.now }
{
    for x in 0..sets.vars() {
        if let Some(v) = dead_value(test, sets, x) {
            return Some((x, v));
        }
    }
    None
}

/// The closure of `sets`: the union of all stable families within them, or none where there is none. A family below a dead one
/// must be dead, and each family below `sets` must be one that the test can take.
pub fn closed<T: Test>(test: &T, sets: Sets) -> Option<Sets>
    requires falls { IsMonotone (T.dead test.now) }
    requires tests { CanNarrow (T.can_test test.now) sets }
    ensures { result ≡ closure (T.dead test.now) sets }
{
    let mut sets = sets;
    loop {
        if test.is_dead(&sets) {
            return None;
        }
        match dead_pair(test, &sets) {
            None => return Some(sets),
            Some((x, v)) => {
                if sets.size(x) == 1 {
                    return None;
                }
                sets.cut(x, v, v);
            }
        }
    }
}
