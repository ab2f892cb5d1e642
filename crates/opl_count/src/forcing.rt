//! What the room that is left forces.
ghost use Rattle.std.specs.Prelude.{◌≡◌, ◌<◌, ◌≤◌, ◌+◌, false, length};
ghost use Rattle.opl_domain.specs.Family.{Below};
ghost use Rattle.opl_expr.specs.Solutions.{declared};
ghost use Rattle.opl_notes.specs.Noted.{Knows, Tells};
ghost use Rattle.opl_count.specs.Costs.{prices, is_over};
ghost use Rattle.opl_count.specs.Places.{means_sum};
ghost use Rattle.opl_count.specs.Sums.{IsSum, IsAlone, IsOpenAt, IsDearAt};
ghost use Rattle.opl_count.specs.Forcing.{Settles, Forces, SettlesAt};

use crate::costs::IsOver;
use crate::noted::{cost_as_noted, is_refuted_as_noted};
use crate::sum::{Costs, Literal, Sum};
use opl_domain::{Narrow, View};
use opl_expr::Core;
use opl_filter::Outcome;
use opl_notes::Notes;
use opl_reify::try_shared;

/// Makes a literal hold, for which there is no room to pay, by its own filter: no other literal has a variable of it. False comes
/// where no family within is stable.
fn force_alone<N: Narrow>(core: &Core, sum: &Sum, at: usize, n: &mut N) -> bool
    requires made { IsSum core.now sum.now }
    requires declared { Below (N.family n.old) (declared core.now) }
    requires there { at < length sum.now.costs.literals }
    requires alone { IsAlone sum.now.costs.literals at }
    requires not_refuted { IsOpenAt core.now (N.family n.old) sum.now.costs.literals at }
    requires dear { IsDearAt core.now (N.family n.old) sum.now.costs at }
    ensures settles { SettlesAt core.now sum.now.costs (N.family n.old) (N.family n.new) at result }
    ensures leads_to { N.leads_to n.old n.new }
{
    // No set is empty: a view says so with its number of variables.
    let _vars = n.vars();
    let literals = sum.costs.literals.as_slice();
    match literals[at].part.filter.filter(core, n) {
        Outcome::Failed => false,
        Outcome::Stable => true,
    }
}

/// Removes the values of the variables of a literal that are dead. False comes where no family within is stable.
fn force_by_values<N: Narrow>(core: &Core, sum: &Sum, at: usize, n: &mut N) -> bool
    requires made { IsSum core.now sum.now }
    requires declared { Below (N.family n.old) (declared core.now) }
    requires there { at < length sum.now.costs.literals }
    ensures settles { SettlesAt core.now sum.now.costs (N.family n.old) (N.family n.new) at result }
    ensures leads_to { N.leads_to n.old n.new }
{
    // No set is empty: a view says so with its number of variables.
    let _vars = n.vars();
    let test = IsOver {
        core,
        costs: &sum.costs,
    };
    let literals = sum.costs.literals.as_slice();
    let variables = literals[at].part.variables.as_slice();
    match try_shared(&test, variables, variables, n) {
        None => false,
        Some(_removed) => true,
    }
}

/// Removes what the room that is left forces at a literal. False comes where no family within is stable.
fn force<N: Narrow>(
    core: &Core,
    sum: &Sum,
    at: usize,
    slack: u128,
    notes: &mut Notes,
    n: &mut N,
) -> bool
    requires made { IsSum core.now sum.now }
    requires declared { Below (N.family n.old) (declared core.now) }
    requires there { at < length sum.now.costs.literals }
    requires slack { sum.now.costs.room ≤ sum.now.costs.paid + prices core.now (N.family n.old) sum.now.costs.literals + slack }
    requires knows { Knows (means_sum core.now sum.now) notes.old.top (N.family n.old) }
    ensures forces { Forces core.now sum.now (N.family n.old) (N.family n.new) at slack result }
    ensures leads_to { N.leads_to n.old n.new }
    ensures tells { Tells (means_sum core.now sum.now) notes.old (N.family n.old) notes.new (N.family n.new) }
{
    // No set is empty: a view says so with its number of variables.
    let _vars = n.vars();
    let ties = sum.ties.as_slice();
    let tie = ties[at];
    let literals = sum.costs.literals.as_slice();
    if tie.reach <= slack {
        return true;
    }
    if is_refuted_as_noted(core, literals, sum.first_place, at, notes, &*n) {
        return true;
    }
    if tie.is_alone {
        return force_alone(core, sum, at, n);
    }
    force_by_values(core, sum, at, n)
}

/// Removes values with which more would be paid than there is room for. False comes where no family within is stable; else the
/// family is stable if no value has gone.
pub fn settle<N: Narrow>(core: &Core, sum: &Sum, notes: &mut Notes, n: &mut N) -> bool
    requires made { IsSum core.now sum.now }
    requires declared { Below (N.family n.old) (declared core.now) }
    requires knows { Knows (means_sum core.now sum.now) notes.old.top (N.family n.old) }
    ensures settles { Settles (is_over core.now sum.now.costs) (N.family n.old) (N.family n.new) result }
    ensures leads_to { N.leads_to n.old n.new }
    ensures tells { Tells (means_sum core.now sum.now) notes.old (N.family n.old) notes.new (N.family n.new) }
{
    // No set is empty: a view says so with its number of variables.
    let _vars = n.vars();
    let literals = sum.costs.literals.as_slice();
    let total = cost_as_noted(core, literals, sum.first_place, sum.costs.paid, notes, &*n);
    if total > sum.costs.room {
        return false;
    }
    let slack = sum.costs.room - total;
    let mut at = 0;
    while at < literals.len() {
        if !force(core, sum, at, slack, notes, n) {
            return false;
        }
        at += 1;
    }
    true
}
