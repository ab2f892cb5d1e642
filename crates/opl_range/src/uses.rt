//! The ranges of what the uses of a resource demand at a time.
ghost use Rattle.std.specs.Prelude.{◌≡◌, ◌<◌, ◌+◌, map, length, ℤ, Some};
ghost use Rattle.opl_domain.specs.Family.{Below};
ghost use Rattle.opl_expr.specs.Forms.{Term, Terms, Fact, Facts, terms_of, plus, demand_at, capacity_at};
ghost use Rattle.opl_expr.specs.Forms.Relation.{at_most, below};
ghost use Rattle.opl_expr.specs.Range.{rest, fact_range};
ghost use Rattle.opl_expr.specs.Solutions.{declared};
ghost use Rattle.opl_expr.specs.Sound.{IsSoundTerm, IsSoundFact};

use crate::hulls::hull;
use crate::rows;
use opl_domain::{Interval, View};
use opl_expr::{Core, Resource, Use};

/// Whether the activity of a use has started by a time.
fn has_started<V: View>(core: &Core, u: &Use, time: i64, view: &V) -> Interval
    requires sound { IsSoundFact core.now.sets (Fact.cmp at_most (Term.var u.now.start) (Term.const time)) }
    requires within { Below (V.family view.now) (declared core.now) }
    ensures { Some result ≡ fact_range (V.family view.now) (Fact.cmp at_most (Term.var u.now.start) (Term.const time)) }
{
    let start = hull(view, u.start);
    rows::at_most_zero(start.add(Interval::point(time as i128).neg()))
}

/// Whether it has not ended by then.
fn has_not_ended<V: View>(core: &Core, u: &Use, time: i64, view: &V) -> Interval
    requires sound { IsSoundFact core.now.sets (Fact.cmp below (Term.const time) (plus (Term.var u.now.start) (Term.var u.now.duration))) }
    requires within { Below (V.family view.now) (declared core.now) }
    ensures { Some result ≡ fact_range (V.family view.now) (Fact.cmp below (Term.const time) (plus (Term.var u.now.start) (Term.var u.now.duration))) }
{
    let end = hull(view, u.start).add(hull(view, u.duration));
    rows::below_zero(Interval::point(time as i128).add(end.neg()))
}

/// What a use demands at a time.
fn demand<V: View>(core: &Core, u: &Use, time: i64, view: &V) -> Interval
    requires sound { IsSoundTerm core.now.sets (demand_at time u.now) }
    requires within { Below (V.family view.now) (declared core.now) }
    ensures { Some result ≡ rest (V.family view.now) (demand_at time u.now) }
{
    let active = has_started(core, u, time, view).min(has_not_ended(core, u, time, view));
    rows::scaled(u.demand, active)
}

/// What uses demand together at a time.
fn demands<V: View>(core: &Core, uses: &[Use], time: i64, view: &V) -> Interval
    requires sound { IsSoundTerm core.now.sets (Term.sum (terms_of (map (demand_at time) uses.now))) }
    requires within { Below (V.family view.now) (declared core.now) }
    ensures { Some result ≡ rest (V.family view.now) (Term.sum (terms_of (map (demand_at time) uses.now))) }
{
    let mut total = Interval::point(0);
    let mut left = uses.len();
    while left > 0 {
        left -= 1;
        total = demand(core, &uses[left], time, view).add(total);
    }
    total
}

/// The range of the demands on a resource being at most its capacity, at a time.
pub fn capacity<V: View>(core: &Core, resource: &Resource, time: i64, view: &V) -> Interval
    requires sound { IsSoundFact core.now.sets (capacity_at (Some resource.now) time) }
    requires within { Below (V.family view.now) (declared core.now) }
    ensures { Some result ≡ fact_range (V.family view.now) (capacity_at (Some resource.now) time) }
{
    let total = demands(core, resource.uses.as_slice(), time, view);
    rows::at_most_zero(total.add(Interval::point(resource.capacity).neg()))
}
