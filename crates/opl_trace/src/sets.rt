//! The sets of all variables, kept as they are seen.
ghost use Rattle.std.specs.Prelude.{◌≡◌, ◌<◌, ◌^◌, length, map, IfOk};
ghost use Rattle.std.specs.List.{All};
ghost use Rattle.opl_domain.specs.Family.{Family, IsFamily};
ghost use Rattle.opl_trace.specs.Between.{IsRangeOfValues, values_between};

use opl_domain::{Domain, Narrow, OutOfMemory, View};
use std::alloc::Global;
use std::marker::Model;

/// A set for each variable, which contracts see as a family.
#[derive(Drop)]
pub struct Sets {
    domains: Vec<Domain>,
}

impl Model for Sets {
    ghost use Rattle.std.specs.Prelude.{◌<◌, ◌^◌, length};
    ghost use Rattle.opl_domain.specs.Family.{Family, IsFamily};

    ghost Value = { Family };

    ghost view = { λ s. s.domains.items };

    ghost invariant = { λ s. IsFamily s.domains.items × (length s.domains.items < 2 ^ 32) };
}

impl Sets {
    /// The sets of all values between two ends each.
    pub fn new(alloc: Global, ends: &[(i64, i64)]) -> Result<Sets, OutOfMemory>
        requires ranges { All IsRangeOfValues ends.now }
        requires few { length ends.now < 2 ^ 32 }
        ensures { IfOk result (λ s. s ≡ map values_between ends.now) }
    {
        let mut domains = Vec::new(alloc);
        for (lo, hi) in ends {
            domains.push(Domain::new(alloc, *lo, *hi)?)?;
        }
        Ok(Sets { domains })
    }
}

impl View for Sets {
    ghost family = { λ s. s };

    fn vars(&self) -> u32 {
        self.domains.len() as u32
    }

    fn min(&self, x: u32) -> i64 {
        self.domains[x as usize].min()
    }

    fn max(&self, x: u32) -> i64 {
        self.domains[x as usize].max()
    }

    fn size(&self, x: u32) -> u32 {
        self.domains[x as usize].size()
    }

    fn has(&self, x: u32, v: i64) -> bool {
        self.domains[x as usize].has(v)
    }

    fn next(&self, x: u32, after: i64) -> Option<i64> {
        self.domains[x as usize].next(after)
    }
}

impl Narrow for Sets {
    ghost leads_to = { λ s t. Unit {0} };

    ghost leads_to_itself = { λ s. _ };

    ghost leads_on = { λ s t u a b. b };

    fn cut(&mut self, x: u32, lo: i64, hi: i64) {
        self.domains[x as usize].cut(lo, hi);
    }
}
