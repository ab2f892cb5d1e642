//! The filter of a linear form that is to be 0, by its ends.
ghost use Rattle.std.specs.Prelude.{◌≡◌, ◌+◌, unsigned_abs, length};
ghost use Rattle.opl_expr.specs.Sound.{IsSmall};
ghost use Rattle.opl_filter.specs.Filtering.{IsBetween, Filters};
ghost use Rattle.opl_linear.specs.Linear.{factor_in, NamesOnce, AreAmong, AreFactors, is_above, bulk};
ghost use Rattle.opl_linear.specs.Alternating.{either};

use crate::at_most::narrow_at_most;
use opl_domain::{Narrow, View};
use opl_filter::Outcome;

/// Removes the values with which one of two forms can't be at most 0, until the family is stable for both.
pub fn filter_both<N: Narrow>(
    up: &[(u32, i128)],
    k: i128,
    down: &[(u32, i128)],
    m: i128,
    n: &mut N,
) -> Outcome
    requires up_once { NamesOnce up.now }
    requires up_there { AreAmong (length (N.family n.old)) up.now }
    requires up_factors { AreFactors up.now }
    requires up_fits { IsSmall (unsigned_abs k + bulk (N.family n.old) up.now) }
    requires down_once { NamesOnce down.now }
    requires down_there { AreAmong (length (N.family n.old)) down.now }
    requires down_factors { AreFactors down.now }
    requires down_fits { IsSmall (unsigned_abs m + bulk (N.family n.old) down.now) }
    ensures between { IsBetween (either (is_above (factor_in up.now) k) (is_above (factor_in down.now) m)) (N.family n.old) (N.family n.new) }
    ensures outcome { Filters (either (is_above (factor_in up.now) k) (is_above (factor_in down.now) m)) (N.family n.old) (N.family n.new) result }
    ensures leads_to { N.leads_to n.old n.new }
{
    let _vars = n.vars();
    loop {
        match narrow_at_most(up, k, false, n) {
            None => return Outcome::Failed,
            Some(_changed) => match narrow_at_most(down, m, false, n) {
                None => return Outcome::Failed,
                Some(false) => return Outcome::Stable,
                Some(true) => {}
            },
        }
    }
}
