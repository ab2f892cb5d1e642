//! The filter of a disjunction, by which of its parts are open.
ghost use Rattle.std.specs.Prelude.{◌≢◌, ◌<◌, ℕ, length};
ghost use Rattle.opl_domain.specs.Family.{Below};
ghost use Rattle.opl_expr.specs.Solutions.{declared};
ghost use Rattle.opl_filter.specs.Filtering.{refutes, IsBetween, Filters};
ghost use Rattle.opl_reify.specs.Parts.{AreParts, any_of, IsRefutedAt, IsOpenAt};
ghost use Rattle.opl_reify.specs.Rounds.{Looks};

use crate::open::{NoneOpen, next_open};
use crate::part::Part;
use crate::rounds::try_shared;
use opl_domain::{Narrow, View};
use opl_expr::Core;
use opl_filter::Outcome;

/// The filter where one part alone is open: that part's own, since the others stay refuted.
fn filter_one<N: Narrow>(core: &Core, parts: &[Part], at: usize, n: &mut N) -> Outcome
    requires parts { AreParts core.now parts.now }
    requires declared { Below (N.family n.old) (declared core.now) }
    requires there { at < length parts.now }
    requires others { (i : ℕ) → i ≢ at → IsRefutedAt core.now (N.family n.old) parts.now i }
    ensures between { IsBetween (refutes (any_of core.now parts.now)) (N.family n.old) (N.family n.new) }
    ensures outcome { Filters (refutes (any_of core.now parts.now)) (N.family n.old) (N.family n.new) result }
    ensures leads_to { N.leads_to n.old n.new }
{
    // No set is empty: a view says so with its number of variables.
    let _vars = n.vars();
    parts[at].filter.filter(core, n)
}

/// One round where two parts are open. Only values of variables that stand in both can be dead.
fn try_two<N: Narrow>(
    core: &Core,
    parts: &[Part],
    first: usize,
    second: usize,
    n: &mut N,
) -> Option<Outcome>
    requires parts { AreParts core.now parts.now }
    requires declared { Below (N.family n.old) (declared core.now) }
    requires first { IsOpenAt core.now (N.family n.old) parts.now first }
    requires second { IsOpenAt core.now (N.family n.old) parts.now second }
    requires different { first ≢ second }
    ensures looks { Looks (refutes (any_of core.now parts.now)) (N.family n.old) (N.family n.new) result }
    ensures leads_to { N.leads_to n.old n.new }
{
    // No set is empty: a view says so with its number of variables.
    let _vars = n.vars();
    let test = NoneOpen { core, parts };
    let variables = parts[first].variables.as_slice();
    let others = parts[second].variables.as_slice();
    match try_shared(&test, variables, others, n) {
        None => Some(Outcome::Failed),
        Some(false) => Some(Outcome::Stable),
        Some(true) => None,
    }
}

/// Looks once which parts are open, and filters accordingly. None comes where values have gone and parts must be looked at again.
fn look<N: Narrow>(core: &Core, parts: &[Part], n: &mut N) -> Option<Outcome>
    requires parts { AreParts core.now parts.now }
    requires declared { Below (N.family n.old) (declared core.now) }
    ensures looks { Looks (refutes (any_of core.now parts.now)) (N.family n.old) (N.family n.new) result }
    ensures leads_to { N.leads_to n.old n.new }
{
    // No set is empty: a view says so with its number of variables.
    let _vars = n.vars();
    match next_open(core, parts, 0, &*n) {
        None => Some(Outcome::Failed), // No part can hold.
        Some(first) => match next_open(core, parts, first + 1, &*n) {
            None => Some(filter_one(core, parts, first, n)),
            Some(second) => try_two(core, parts, first, second, n),
        },
    }
}

/// Removes values that the disjunction of the parts refutes alone at that moment, until the family is stable for it, or until
/// none within is. All values must be declared. It takes no memory.
pub fn filter_any<N: Narrow>(core: &Core, parts: &[Part], n: &mut N) -> Outcome
    requires parts { AreParts core.now parts.now }
    requires declared { Below (N.family n.old) (declared core.now) }
    ensures between { IsBetween (refutes (any_of core.now parts.now)) (N.family n.old) (N.family n.new) }
    ensures outcome { Filters (refutes (any_of core.now parts.now)) (N.family n.old) (N.family n.new) result }
    ensures leads_to { N.leads_to n.old n.new }
{
    // No set is empty: a view says so with its number of variables.
    let _vars = n.vars();
    loop {
        match look(core, parts, n) {
            None => {}
            Some(outcome) => return outcome,
        }
    }
}
