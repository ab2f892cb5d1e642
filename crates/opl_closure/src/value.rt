//! The filter of a posted value.
ghost use Rattle.std.specs.Prelude.{◌≡◌, ◌<◌, ℤ, pos, ◌+ℤ◌, ◌<ℤ◌, ◌≤ℤ◌, true, length};
ghost use Rattle.opl_domain.specs.Family.{IsFamily, has};
ghost use Rattle.opl_trace.specs.Answers.{is_value};
ghost use Rattle.opl_filter.specs.Filtering.{refutes, IsBetween, Filters};
ghost use Rattle.opl_closure.specs.Values.{Keeps};

use opl_domain::Narrow;
use opl_filter::Outcome;

/// The number before `v`, of which `lower` is one below.
fn one_less(v: i64, lower: i64) -> i64
    requires { lower <ℤ v }
    ensures { result +ℤ pos 1 ≡ v }
{
    v - 1
}

/// The number after `v`, of which `higher` is one above.
fn one_more(v: i64, higher: i64) -> i64
    requires { v <ℤ higher }
    ensures { v +ℤ pos 1 ≡ result }
{
    v + 1
}

/// Removes the values of `x` below `v`, which is one of them.
fn remove_below<N: Narrow>(n: &mut N, x: u32, v: i64)
    requires sets { IsFamily (N.family n.old) }
    requires variable { x < length (N.family n.old) }
    requires value { has (N.family n.old) x v ≡ true }
    ensures keeps { Keeps x v (λ w. v ≤ℤ w) (N.family n.old) (N.family n.new) }
    ensures leads_to { N.leads_to n.old n.new }
{
    let least = n.min(x);
    if least >= v {
        return;
    }
    let last = one_less(v, least);
    n.cut(x, least, last);
}

/// Removes the values of `x` above `v`, which is one of them.
fn remove_above<N: Narrow>(n: &mut N, x: u32, v: i64)
    requires sets { IsFamily (N.family n.old) }
    requires variable { x < length (N.family n.old) }
    requires value { has (N.family n.old) x v ≡ true }
    ensures keeps { Keeps x v (λ w. w ≤ℤ v) (N.family n.old) (N.family n.new) }
    ensures leads_to { N.leads_to n.old n.new }
{
    let greatest = n.max(x);
    if greatest <= v {
        return;
    }
    let first = one_more(v, greatest);
    n.cut(x, first, greatest);
}

/// Leaves `x` its value `v` alone, or fails where it has no such value: what the sweep does for `x = v`, by two cuts at most.
/// It takes no memory.
pub fn keep_value<N: Narrow>(n: &mut N, x: u32, v: i64) -> Outcome
    requires { x < length (N.family n.old) }
    ensures between { IsBetween (refutes (is_value x v)) (N.family n.old) (N.family n.new) }
    ensures outcome { Filters (refutes (is_value x v)) (N.family n.old) (N.family n.new) result }
    ensures leads_to { N.leads_to n.old n.new }
{
    // No set is empty: a view says so with its number of variables.
    let _vars = n.vars();
    if !n.has(x, v) {
        return Outcome::Failed;
    }
    remove_below(n, x, v);
    remove_above(n, x, v);
    Outcome::Stable
}
