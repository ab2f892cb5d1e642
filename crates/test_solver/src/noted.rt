//! Sets that note how often values were removed, and where last.
ghost use Rattle.std.specs.Prelude.{◌≤◌};
ghost use Rattle.std.proofs.Common.{le_refl, le_trans};

use opl_domain::{Narrow, View};
use opl_trace::Sets;

/// Sets that note how often values were removed, and of which variable last.
#[derive(Drop)]
pub struct Noted {
    pub sets: Sets,
    pub cuts: u32,
    pub last: u32,
}

impl View for Noted {
    ghost family = { λ s. s.sets };

    fn vars(&self) -> u32 {
        self.sets.vars()
    }

    fn min(&self, x: u32) -> i64 {
        self.sets.min(x)
    }

    fn max(&self, x: u32) -> i64 {
        self.sets.max(x)
    }

    fn size(&self, x: u32) -> u32 {
        self.sets.size(x)
    }

    fn has(&self, x: u32, v: i64) -> bool {
        self.sets.has(x, v)
    }

    fn next(&self, x: u32, after: i64) -> Option<i64> {
        self.sets.next(x, after)
    }
}

impl Narrow for Noted {
    ghost leads_to = { λ s t. s.cuts ≤ t.cuts };

    ghost leads_to_itself = { λ s. le_refl s.cuts };

    ghost leads_on = { λ s t u a b. le_trans a b };

    fn cut(&mut self, x: u32, lo: i64, hi: i64) {
        self.sets.cut(x, lo, hi);
        self.cuts = self.cuts.saturating_add(1);
        self.last = x;
    }
}
