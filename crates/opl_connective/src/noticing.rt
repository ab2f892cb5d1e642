//! Sets that notice whether they lose values.
ghost use Rattle.std.specs.Prelude.{◌≡◌, false};
ghost use Rattle.std.proofs.Common.{refl, ◌∙◌};
ghost use Rattle.opl_connective.specs.Noticing.{Notices, notices_none, notices_on};

use opl_domain::{Narrow, View};

/// Sets that can lose values, and whether one has.
#[derive(Drop)]
pub struct Noticing<'a, N> {
    inner: &'a mut N,
    pub changed: bool,
}

impl<'a, N: Narrow> Noticing<'a, N> {
    /// The sets of `inner`, none of which has lost values.
    pub fn new(inner: &'a mut N) -> Noticing<'a, N>
        ensures inner { (result.inner.ghost_name ≡ inner.entry.ghost_name) × (result.inner.now ≡ inner.old) }
        ensures changed { result.changed ≡ false }
    {
        Noticing {
            inner,
            changed: false,
        }
    }
}

impl<'a, N: Narrow> View for Noticing<'a, N> {
    ghost family = { λ s. N.family s.inner.now };

    fn vars(&self) -> u32 {
        self.inner.vars()
    }

    fn min(&self, x: u32) -> i64 {
        self.inner.min(x)
    }

    fn max(&self, x: u32) -> i64 {
        self.inner.max(x)
    }

    fn size(&self, x: u32) -> u32 {
        self.inner.size(x)
    }

    fn has(&self, x: u32, v: i64) -> bool {
        self.inner.has(x, v)
    }

    fn next(&self, x: u32, after: i64) -> Option<i64> {
        self.inner.next(x, after)
    }
}

impl<'a, N: Narrow> Narrow for Noticing<'a, N> {
    ghost leads_to = { λ s t. (t.inner.ghost_name ≡ s.inner.ghost_name) × N.leads_to s.inner.now t.inner.now × Notices s.changed (N.family s.inner.now) t.changed (N.family t.inner.now) };

    ghost leads_to_itself = { λ s. (refl, N.leads_to_itself s.inner.now, notices_none s.changed (N.family s.inner.now)) };

    ghost leads_on = { λ s t u h k. (k.0 ∙ h.0, N.leads_on s.inner.now t.inner.now u.inner.now h.1 k.1, notices_on s.changed (N.family s.inner.now) t.changed (N.family t.inner.now) u.changed (N.family u.inner.now) h.2 k.2) };

    fn cut(&mut self, x: u32, lo: i64, hi: i64) {
        let before = self.inner.size(x);
        self.inner.cut(x, lo, hi);
        self.changed |= self.inner.size(x) < before;
    }
}
