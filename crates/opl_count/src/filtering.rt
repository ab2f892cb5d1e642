//! What two sums of costs remove that are both to stay within their room.
ghost use Rattle.opl_domain.specs.Family.{Below};
ghost use Rattle.opl_expr.specs.Solutions.{declared};
ghost use Rattle.opl_filter.specs.Filtering.{IsBetween, Filters};
ghost use Rattle.opl_linear.specs.Alternating.{either};
ghost use Rattle.opl_reify.specs.Rounds.{Looks};
ghost use Rattle.opl_notes.specs.Noted.{Knows, Tells};
ghost use Rattle.opl_count.specs.Costs.{is_over};
ghost use Rattle.opl_count.specs.Places.{means_both};
ghost use Rattle.opl_count.specs.Sums.{IsSum};
ghost use Rattle.opl_count.specs.Forcing.{Settles};

use crate::forcing::settle;
use crate::noticing::Noticing;
use crate::sum::Sum;
use opl_domain::{Narrow, View};
use opl_expr::Core;
use opl_filter::Outcome;
use opl_notes::Notes;

/// Removes what the room of the first sum forces, and then what that of the second does. False comes where no family within is
/// stable for both; else the family is, if no value has gone.
fn settle_both<N: Narrow>(
    core: &Core,
    first: &Sum,
    second: &Sum,
    notes: &mut Notes,
    n: &mut N,
) -> bool
    requires first { IsSum core.now first.now }
    requires second { IsSum core.now second.now }
    requires declared { Below (N.family n.old) (declared core.now) }
    requires knows { Knows (means_both core.now first.now second.now) notes.old.top (N.family n.old) }
    ensures settles { Settles (either (is_over core.now first.now.costs) (is_over core.now second.now.costs)) (N.family n.old) (N.family n.new) result }
    ensures leads_to { N.leads_to n.old n.new }
    ensures tells { Tells (means_both core.now first.now second.now) notes.old (N.family n.old) notes.new (N.family n.new) }
{
    // No set is empty: a view says so with its number of variables.
    let _vars = n.vars();
    if !settle(core, first, notes, n) {
        return false;
    }
    settle(core, second, notes, n)
}

/// Does so once. None comes where values have gone and must be looked at again.
fn look<N: Narrow>(
    core: &Core,
    first: &Sum,
    second: &Sum,
    notes: &mut Notes,
    n: &mut N,
) -> Option<Outcome>
    requires first { IsSum core.now first.now }
    requires second { IsSum core.now second.now }
    requires declared { Below (N.family n.old) (declared core.now) }
    requires knows { Knows (means_both core.now first.now second.now) notes.old.top (N.family n.old) }
    ensures looks { Looks (either (is_over core.now first.now.costs) (is_over core.now second.now.costs)) (N.family n.old) (N.family n.new) result }
    ensures leads_to { N.leads_to n.old n.new }
    ensures tells { Tells (means_both core.now first.now second.now) notes.old (N.family n.old) notes.new (N.family n.new) }
{
    // No set is empty: a view says so with its number of variables.
    let _vars = n.vars();
    let mut noticing = Noticing::new(n);
    if !settle_both(core, first, second, notes, &mut noticing) {
        return Some(Outcome::Failed);
    }
    if noticing.changed {
        return None;
    }
    Some(Outcome::Stable)
}

/// Removes values with which more would be paid than there is room for in one of two sums, until the family is stable for both,
/// or until none within is. All values must be declared. It takes no memory.
pub fn filter_counts<N: Narrow>(
    core: &Core,
    first: &Sum,
    second: &Sum,
    notes: &mut Notes,
    n: &mut N,
) -> Outcome
    requires first { IsSum core.now first.now }
    requires second { IsSum core.now second.now }
    requires declared { Below (N.family n.old) (declared core.now) }
    requires knows { Knows (means_both core.now first.now second.now) notes.old.top (N.family n.old) }
    ensures between { IsBetween (either (is_over core.now first.now.costs) (is_over core.now second.now.costs)) (N.family n.old) (N.family n.new) }
    ensures outcome { Filters (either (is_over core.now first.now.costs) (is_over core.now second.now.costs)) (N.family n.old) (N.family n.new) result }
    ensures leads_to { N.leads_to n.old n.new }
    ensures tells { Tells (means_both core.now first.now second.now) notes.old (N.family n.old) notes.new (N.family n.new) }
{
    // No set is empty: a view says so with its number of variables.
    let _vars = n.vars();
    loop {
        match look(core, first, second, notes, n) {
            None => {}
            Some(outcome) => return outcome,
        }
    }
}
