//! Whether sets and values are within the declared ones.
ghost use Rattle.std.specs.Prelude.{◌≡◌, ◌↔◌, ◌<◌, ℤ, true, length};
ghost use Rattle.opl_domain.specs.Family.{Below, has, member};
ghost use Rattle.opl_expr.specs.Solutions.{declared, is_among};
ghost use Rattle.opl_trace.specs.Between.{values_between};

use opl_domain::View;
use opl_expr::Core;

/// Whether all values of variable `x` lie between two ends.
fn lies_between<V: View>(view: &V, x: u32, ends: &(i64, i64)) -> bool
    requires { x < length (V.family view.now) }
    ensures { result ≡ true ↔ ((v : ℤ) → has (V.family view.now) x v ≡ true → member v (values_between ends.now) ≡ true) }
{
    let (lo, hi) = *ends;
    lo <= view.min(x) && view.max(x) <= hi
}

/// Whether a view has the variables of a core, each with declared values alone.
pub fn is_within<V: View>(core: &Core, view: &V) -> bool
    ensures { result ≡ true ↔ Below (V.family view.now) (declared core.now) }
{
    let sets = core.sets.as_slice();
    let count = view.vars();
    if count as usize != sets.len() {
        return false;
    }
    for x in 0..count {
        if !lies_between(view, x, &sets[x as usize]) {
            return false;
        }
    }
    true
}

/// Whether a value lies between two ends.
fn is_between(v: &i64, ends: &(i64, i64)) -> bool
    ensures { result ≡ member v.now (values_between ends.now) }
{
    let (lo, hi) = *ends;
    lo <= *v && *v <= hi
}

/// Whether there is one value for each variable of a core, and each is a declared one.
pub fn is_assignment(core: &Core, values: &[i64]) -> bool
    ensures { result ≡ is_among values.now (declared core.now) }
{
    let sets = core.sets.as_slice();
    if values.len() != sets.len() {
        return false;
    }
    let mut left = values.len();
    while left > 0 {
        left -= 1;
        if !is_between(&values[left], &sets[left]) {
            return false;
        }
    }
    true
}
