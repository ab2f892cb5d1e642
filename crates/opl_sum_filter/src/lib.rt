//! A filter with a running sum: of `x + y + .. <= limit` it keeps the sum of the greatest values, and while that is at most the
//! limit it asks nothing.
#![tactic(auto)]

ghost use Rattle.std.specs.Prelude.{◌≡◌, ◌<◌, ◌^◌, length};
ghost use Rattle.opl_domain.specs.Family.{Family};
ghost use Rattle.opl_expr.specs.declared.model.Core.{Core};
ghost use Rattle.opl_sum_filter.specs.Sums.{total_most, at_most_limit, IsMost, AreAmong};

use opl_domain::{Narrow, View};
use opl_expr::Core;
use opl_filter::{Filter, Outcome};
use opl_list::Seq;

/// The sum of the greatest values of variables.
fn total_most<V: View>(variables: &[u32], v: &V) -> i128
    requires among { AreAmong (length (V.family v.now)) variables.now }
    requires few { length variables.now < 2 ^ 32 }
    ensures { result ≡ total_most (V.family v.now) variables.now }
{
    let mut total = 0;
    let mut left = variables.len();
    while left > 0 {
        left -= 1;
        total += v.max(variables[left]) as i128;
    }
    total
}

/// The sum that is kept, or else the sum of the greatest values.
fn known_most<V: View>(most: Option<i128>, variables: &[u32], v: &V) -> i128
    requires among { AreAmong (length (V.family v.now)) variables.now }
    requires few { length variables.now < 2 ^ 32 }
    requires kept { IsMost most (V.family v.now) variables.now }
    ensures { result ≡ total_most (V.family v.now) variables.now }
{
    match most {
        Some(most) => most,
        None => total_most(variables, v),
    }
}

/// A filter of the sum of some variables being at most a limit, over another filter of that, which is asked only where the
/// greatest values exceed the limit.
#[derive(Drop)]
pub struct SumFilter<F> {
    inner: F,
    variables: Seq<u32>,
    limit: i64,
    /// The sum of the greatest values; none where a set has changed since it was made.
    most: Option<i128>,
}

impl<F: Filter> SumFilter<F> {
    /// The filter over `inner`, whose constraint in a core with which it was made is that of these variables and this limit.
    pub fn new(inner: F, variables: Seq<u32>, limit: i64) -> SumFilter<F>
        requires few { length variables < 2 ^ 32 }
        ensures constraint { (d : Core) → ⟦<SumFilter<F> as Filter>⟧.constraint result d ≡ F.constraint inner d }
        ensures core { (d : Core) → F.is_made_with inner d → F.constraint inner d ≡ at_most_limit variables limit → ⟦<SumFilter<F> as Filter>⟧.is_made_with result d }
        ensures fresh { (G : Family) → F.fresh inner G → ⟦<SumFilter<F> as Filter>⟧.fresh result G }
    {
        SumFilter {
            inner,
            variables,
            limit,
            most: None,
        }
    }
}

impl<F: Filter> Filter for SumFilter<F> {
    ghost use Rattle.opl_sum_filter.specs.Sums.{at_most_limit, IsMost};
    ghost use Rattle.opl_sum_filter.specs.Agreeing.{agreeing};

    ghost constraint = { λ s core. F.constraint s.inner core };

    ghost is_made_with = { λ s core. F.is_made_with s.inner core × (F.constraint s.inner core ≡ at_most_limit s.variables s.limit) × (length s.variables < 2 ^ 32) };

    ghost fresh = { λ s T. F.fresh s.inner T × IsMost s.most T s.variables };

    ghost fresh_law = { λ s d T U made agree is. (F.fresh_law s.inner d T U made.0 agree is.0, agreeing s.most T U s.variables s.limit (F.constraint s.inner d) made.1 agree is.1) };

    fn filter<N: Narrow>(&mut self, core: &Core, n: &mut N) -> Outcome {
        // No set is empty: a view says so with its number of variables.
        let _vars = n.vars();
        let most = known_most(self.most, self.variables.as_slice(), n);
        if most <= self.limit as i128 {
            self.most = Some(most);
            return Outcome::Stable;
        }
        let outcome = self.inner.filter(core, n);
        self.most = Some(total_most(self.variables.as_slice(), n));
        outcome
    }

    fn wake(&mut self, x: u32) {
        self.inner.wake(x);
        self.most = None;
    }
}
