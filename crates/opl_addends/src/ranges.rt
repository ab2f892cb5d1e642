//! The ranges of addends, and of sums of some of them.
ghost use Rattle.std.specs.Prelude.{◌≡◌, ◌+◌, Some};
ghost use Rattle.opl_domain.specs.Span.{Span, magnitude};
ghost use Rattle.opl_domain.specs.Arithmetic.{span_add};
ghost use Rattle.opl_domain.specs.Family.{Below};
ghost use Rattle.opl_expr.specs.Options.{lift};
ghost use Rattle.opl_expr.specs.Sound.{IsSmall, IsSoundTerm};
ghost use Rattle.opl_expr.specs.Solutions.{declared};
ghost use Rattle.opl_addends.specs.Addends.{plain, plains, picked, addend_range, total, CanAdd};
ghost use Rattle.opl_addends.specs.Demands.{is_refuted_by};

use crate::sum::{Addend, Demand};
use opl_domain::{Interval, View};
use opl_expr::Core;
use opl_list::Seq;
use opl_range::range;

/// The range of an addend.
fn addend_range<V: View>(core: &Core, addend: &Addend, view: &V) -> Option<Interval>
    requires sound { IsSoundTerm core.now.sets (plain core.now addend.now).1 }
    requires within { Below (V.family view.now) (declared core.now) }
    ensures { result ≡ addend_range (V.family view.now) (plain core.now addend.now) }
{
    let found = range(core, addend.expression.get(), view)?;
    if addend.is_opposite {
        Some(found.neg())
    } else {
        Some(found)
    }
}

/// The sum of two ranges; it is missing where one is.
fn added(first: Option<Interval>, second: Option<Interval>) -> Option<Interval>
    requires { (u v : Span) → first ≡ Some u → second ≡ Some v → IsSmall (magnitude u + magnitude v) }
    ensures { result ≡ lift span_add first second }
{
    let first = first?;
    let second = second?;
    Some(first.add(second))
}

/// The sum of the ranges of all addends; it is missing where one is.
pub fn total<V: View>(core: &Core, addends: &[Addend], view: &V) -> Option<Interval>
    requires sound { CanAdd core.now.sets (plains core.now addends.now) }
    requires within { Below (V.family view.now) (declared core.now) }
    ensures { result ≡ total (V.family view.now) (plains core.now addends.now) }
{
    let mut found = Some(Interval::point(0));
    let mut left = addends.len();
    while left > 0 {
        left -= 1;
        found = added(addend_range(core, &addends[left], view), found);
    }
    found
}

/// The sum of the ranges of the addends at some places.
pub fn total_at<V: View>(
    core: &Core,
    addends: &Seq<Addend>,
    places: &[usize],
    view: &V,
) -> Option<Interval>
    requires sound { CanAdd core.now.sets (plains core.now (picked addends.now places.now)) }
    requires within { Below (V.family view.now) (declared core.now) }
    ensures { result ≡ total (V.family view.now) (plains core.now (picked addends.now places.now)) }
{
    let mut found = Some(Interval::point(0));
    let mut left = places.len();
    while left > 0 {
        left -= 1;
        if let Some(addend) = addends.get(places[left]) {
            found = added(addend_range(core, addend, view), found);
        }
    }
    found
}

/// Whether no number of a range is as demanded.
pub fn is_refuted_by(demand: Demand, range: Interval) -> bool
    ensures { result ≡ is_refuted_by demand range }
{
    let (low, high) = (range.lo(), range.hi());
    match demand {
        Demand::AtMost => low > 0,
        Demand::Below => low >= 0,
        Demand::Zero => low > 0 || high < 0,
        Demand::Different => low == 0 && high == 0,
    }
}
