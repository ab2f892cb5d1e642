//! A store that wakes members as sets lose values.
ghost use Rattle.std.specs.Prelude.{◌≡◌, ◌<◌, ℤ, false, true, length};
ghost use Rattle.std.proofs.Common.{refl, ◌∙◌};
ghost use Rattle.opl_domain.specs.Family.{Family, IsFamily, has, set_of, hull, cut_of};
ghost use Rattle.opl_closure.specs.Waits.{Wakes, WakesFor, watches, wakes_self, wakes_join, Between};

use crate::waiting::Waiting;
use crate::watchers::Watchers;
use opl_domain::{Narrow, View};

/// A store, and those who wait: each cut wakes the members that watch its variable, and where an end of the set goes those that watch its
/// ends.
#[derive(Drop)]
pub struct Watched<'a, N> {
    inner: &'a mut N,
    waiting: &'a mut Waiting,
    watchers: &'a Watchers,
    end_watchers: &'a Watchers,
}

impl<'a, N: Narrow> Watched<'a, N> {
    /// The store `inner`, which wakes those who wait.
    pub fn new(
        inner: &'a mut N,
        waiting: &'a mut Waiting,
        watchers: &'a Watchers,
        end_watchers: &'a Watchers,
    ) -> Watched<'a, N>
        ensures inner { (result.inner.ghost_name ≡ inner.entry.ghost_name) × (result.inner.now ≡ inner.old) }
        ensures waiting { (result.waiting.ghost_name ≡ waiting.entry.ghost_name) × (result.waiting.now ≡ waiting.old) }
        ensures watchers { result.watchers.now ≡ watchers.now }
        ensures end_watchers { result.end_watchers.now ≡ end_watchers.now }
    {
        Watched {
            inner,
            waiting,
            watchers,
            end_watchers,
        }
    }
}

impl<'a, N: Narrow> View for Watched<'a, N> {
    ghost family = { λ s. N.family s.inner.now };

    fn vars(&self) -> u32 {
        self.inner.vars()
    }

    fn min(&self, x: u32) -> i64 {
        self.inner.min(x)
    }

    fn max(&self, x: u32) -> i64 {
        self.inner.max(x)
    }

    fn size(&self, x: u32) -> u32 {
        self.inner.size(x)
    }

    fn has(&self, x: u32, v: i64) -> bool {
        self.inner.has(x, v)
    }

    fn next(&self, x: u32, after: i64) -> Option<i64> {
        self.inner.next(x, after)
    }
}

impl<'a, N: Narrow> Narrow for Watched<'a, N> {
    ghost leads_to = { λ s t. (t.inner.ghost_name ≡ s.inner.ghost_name) × (t.waiting.ghost_name ≡ s.waiting.ghost_name) × (t.watchers.now ≡ s.watchers.now) × (t.end_watchers.now ≡ s.end_watchers.now) × N.leads_to s.inner.now t.inner.now × Wakes (watches s.watchers.now) (watches s.end_watchers.now) s.waiting.now (N.family s.inner.now) t.waiting.now (N.family t.inner.now) };

    ghost leads_to_itself = { λ s. (refl, refl, refl, refl, N.leads_to_itself s.inner.now, wakes_self (watches s.watchers.now) (watches s.end_watchers.now) s.waiting.now (N.family s.inner.now)) };

    ghost leads_on = { λ s t u h k. (k.0 ∙ h.0, k.1 ∙ h.1, k.2 ∙ h.2, k.3 ∙ h.3, N.leads_on s.inner.now t.inner.now u.inner.now h.4 k.4, wakes_join s.watchers.now t.watchers.now s.end_watchers.now t.end_watchers.now h.2 h.3 s.waiting.now (N.family s.inner.now) t.waiting.now (N.family t.inner.now) u.waiting.now (N.family u.inner.now) h.5 k.5) };

    fn cut(&mut self, x: u32, lo: i64, hi: i64) {
        if !has_between(&*self.inner, x, lo, hi) {
            self.inner.cut(x, lo, hi);
            return;
        }
        wake_for(
            &*self.inner,
            x,
            lo,
            hi,
            self.watchers,
            self.end_watchers,
            &mut *self.waiting,
        );
        self.inner.cut(x, lo, hi);
    }
}

/// Whether `x` has a value from `lo` to `hi`.
fn has_between<V: View>(view: &V, x: u32, lo: i64, hi: i64) -> bool
    requires { x < length (V.family view.now) }
    ensures { Between (set_of (V.family view.now) x) lo hi result }
{
    if view.has(x, lo) {
        return lo <= hi;
    }
    match view.next(x, lo) {
        None => false,
        Some(v) => v <= hi,
    }
}

/// Whether the least or the greatest value of `x` lies from `lo` to `hi`, or beyond.
fn reaches_end<V: View>(view: &V, x: u32, lo: i64, hi: i64) -> bool
    requires { x < length (V.family view.now) }
    ensures { result ≡ false → hull (cut_of (V.family view.now) x lo hi) x ≡ hull (V.family view.now) x }
{
    view.min(x) >= lo || view.max(x) <= hi
}

/// Lets those wait who watch `x`, and those who watch its ends where one of these goes, before the values from `lo` to `hi` do.
fn wake_for<V: View>(
    view: &V,
    x: u32,
    lo: i64,
    hi: i64,
    watchers: &Watchers,
    end_watchers: &Watchers,
    waiting: &mut Waiting,
)
    requires { x < length (V.family view.now) }
    ensures { WakesFor watchers.now end_watchers.now waiting.old waiting.new (V.family view.now) x (cut_of (V.family view.now) x lo hi) }
{
    watchers.wake(x, waiting);
    if reaches_end(view, x, lo, hi) {
        end_watchers.wake(x, waiting);
    }
}
