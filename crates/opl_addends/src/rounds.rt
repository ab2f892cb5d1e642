//! Rounds over the variables of a sum, whose range is kept up meanwhile.
ghost use Rattle.std.specs.Prelude.{◌≡◌, ◌<◌, length, Some};
ghost use Rattle.opl_domain.specs.Span.{Span};
ghost use Rattle.opl_domain.specs.Arithmetic.{span_add};
ghost use Rattle.opl_domain.specs.Family.{IsFamily, Below};
ghost use Rattle.opl_expr.specs.Sound.{IsSmall};
ghost use Rattle.opl_expr.specs.Solutions.{declared};
ghost use Rattle.opl_filter.specs.Filtering.{IsBetween, Filters};
ghost use Rattle.opl_reify.specs.Rounds.{Looks};
ghost use Rattle.opl_addends.specs.Addends.{plains, total};
ghost use Rattle.opl_addends.specs.Sums.{is_refuted, IsMention, IsSum, variables};
ghost use Rattle.opl_addends.specs.Rounds.{TriesVariable, TriesEach, Keeps, IsLess};

use crate::asking::WithOthers;
use crate::ranges::{is_refuted_by, total, total_at};
use crate::sum::{Mention, Sum};
use crate::values::try_values;
use opl_domain::{Interval, Narrow, View};
use opl_expr::Core;
use opl_filter::Outcome;

/// What is left of a sum without a part.
fn less(whole: Interval, part: Interval) -> Interval
    requires { IsLess whole part }
    ensures { (rest : Span) → whole ≡ span_add rest part → result ≡ rest }
{
    Interval::new(whole.lo() - part.lo(), whole.hi() - part.hi())
}

/// Removes the values of a variable that are dead, each at its turn, and tells whether there was one. None comes where no family
/// within is stable. `kept` is the range of the whole sum.
fn try_variable<N: Narrow>(
    core: &Core,
    sum: &Sum,
    mention: &Mention,
    kept: &mut Interval,
    n: &mut N,
) -> Option<bool>
    requires sum { IsSum core.now sum.now }
    requires mention { IsMention core.now sum.now.addends mention.now }
    requires declared { Below (N.family n.old) (declared core.now) }
    requires variable { mention.now.variable < length (N.family n.old) }
    requires kept { total (N.family n.old) (plains core.now sum.now.addends) ≡ Some kept.old }
    ensures tries { TriesVariable (is_refuted core.now sum.now) (N.family n.old) (N.family n.new) mention.now.variable result }
    ensures kept { Keeps (N.family n.new) (plains core.now sum.now.addends) kept.new result }
    ensures leads_to { N.leads_to n.old n.new }
{
    // No set is empty: a view says so with its number of variables.
    let _vars = n.vars();
    let places = mention.places.as_slice();
    let own = total_at(core, &sum.addends, places, &*n)?;
    let others = less(*kept, own);
    let test = WithOthers {
        core,
        sum,
        mention,
        others,
    };
    if !try_values(&test, n, mention.variable)? {
        return Some(false);
    }
    let own = total_at(core, &sum.addends, places, &*n)?;
    *kept = others.add(own);
    Some(true)
}

/// Does so for each variable. `kept` is the range of the whole sum.
fn try_each<N: Narrow>(core: &Core, sum: &Sum, kept: Interval, n: &mut N) -> Option<bool>
    requires sum { IsSum core.now sum.now }
    requires declared { Below (N.family n.old) (declared core.now) }
    requires kept { total (N.family n.old) (plains core.now sum.now.addends) ≡ Some kept }
    ensures tries { TriesEach (is_refuted core.now sum.now) (variables sum.now.mentions) (N.family n.old) (N.family n.new) result }
    ensures leads_to { N.leads_to n.old n.new }
{
    // No set is empty: a view says so with its number of variables.
    let _vars = n.vars();
    let mut kept = kept;
    let mut removed = false;
    for mention in sum.mentions.as_slice() {
        removed |= try_variable(core, sum, mention, &mut kept, n)?;
    }
    Some(removed)
}

/// Removes dead values once. None comes where values have gone and the sum must be looked at again.
fn look<N: Narrow>(core: &Core, sum: &Sum, n: &mut N) -> Option<Outcome>
    requires sum { IsSum core.now sum.now }
    requires declared { Below (N.family n.old) (declared core.now) }
    ensures looks { Looks (is_refuted core.now sum.now) (N.family n.old) (N.family n.new) result }
    ensures leads_to { N.leads_to n.old n.new }
{
    // No set is empty: a view says so with its number of variables.
    let _vars = n.vars();
    let Some(kept) = total(core, sum.addends.as_slice(), &*n) else {
        return Some(Outcome::Failed);
    };
    if is_refuted_by(sum.demand, kept) {
        return Some(Outcome::Failed);
    }
    match try_each(core, sum, kept, n) {
        None => Some(Outcome::Failed),
        Some(true) => None,
        Some(false) => Some(Outcome::Stable),
    }
}

/// Removes values with which the sum can't be as demanded, until the family is stable for that, or until none within is. All values
/// must be declared. It takes no memory.
pub fn filter_sum<N: Narrow>(core: &Core, sum: &Sum, n: &mut N) -> Outcome
    requires sum { IsSum core.now sum.now }
    requires declared { Below (N.family n.old) (declared core.now) }
    ensures between { IsBetween (is_refuted core.now sum.now) (N.family n.old) (N.family n.new) }
    ensures outcome { Filters (is_refuted core.now sum.now) (N.family n.old) (N.family n.new) result }
    ensures leads_to { N.leads_to n.old n.new }
{
    // No set is empty: a view says so with its number of variables.
    let _vars = n.vars();
    loop {
        match look(core, sum, n) {
            None => {}
            Some(outcome) => return outcome,
        }
    }
}
