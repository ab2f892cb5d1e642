//! What surely happens on a resource, whatever values the variables take.
#![tactic(auto)]

ghost use Rattle.std.specs.Prelude.{◌≡◌, ◌<◌, length};
ghost use Rattle.opl_profile.specs.Activities.{surely_runs};

use opl_domain::View;
use opl_expr::Use;

/// Whether the activity of a use runs at a time, whatever values its start and its duration take: it has started at the latest by
/// then, and it ends at the earliest behind it. At its end it runs no more.
pub fn surely_runs<V: View>(u: &Use, time: i64, view: &V) -> bool
    requires start { u.now.start < length (V.family view.now) }
    requires duration { u.now.duration < length (V.family view.now) }
    ensures { result ≡ surely_runs (V.family view.now) time u.now }
{
    let latest_start = view.max(u.start) as i128;
    let earliest_end = view.min(u.start) as i128 + view.min(u.duration) as i128;
    let time = time as i128;
    latest_start <= time && time < earliest_end
}
