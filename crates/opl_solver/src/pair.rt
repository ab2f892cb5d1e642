//! An engine and the sets that it narrows, as what a search stands on.
ghost use Rattle.std.specs.Prelude.{◌≡◌, false, IfOk};
ghost use Rattle.std.proofs.Common.{refl};
ghost use Rattle.opl_trace.specs.GroundCores.{IsGroundCore};
ghost use Rattle.opl_search.specs.States.{beginning};
ghost use Rattle.opl_search.specs.Machines.{has_empty_set};
ghost use Rattle.opl_solver.specs.Pairs.{state_of};

use crate::together::{close, go_back, improve, open_level, post_value};
use opl_domain::{OutOfMemory, Steps, View};
use opl_engine::Engine;
use opl_expr::Core;
use opl_search::{Closed, Solver};
use opl_store::Store;
use std::alloc::Global;
use std::marker::Model;
use std::rc::Rc;

/// The constraints of a core and the sets of its variables, level by level, with the best value so far. The sets of each level
/// hold every family that is stable for its constraints.
#[derive(Drop)]
pub struct Pair {
    engine: Engine,
    store: Store,
}

impl Model for Pair {
    ghost use Rattle.std.specs.Coded.{codes};
    ghost use Rattle.opl_engine.specs.contracts.engine.Engine as engines;
    ghost use Rattle.opl_engine.specs.States.{seen};
    ghost use Rattle.opl_solver.specs.Pairs.{Joint, IsPair};

    ghost Value = { Joint };

    ghost coded = { Prim.hlevel (codes, engines.the_row.coded) };

    ghost view = { λ p. record { engine = p.engine; store = p.store } };

    ghost invariant = { λ p. IsPair (seen p.engine) p.store };
}

impl Pair {
    /// The constraints and the declared sets of a ground core, of which none is empty: no best value, and no open level.
    pub fn new(alloc: Global, core: Rc<Core>) -> Result<Pair, OutOfMemory>
        requires ground { IsGroundCore core.value }
        requires some { has_empty_set core.value ≡ false }
        ensures { IfOk result (λ p. state_of p ≡ beginning core.value) }
    {
        let store = Store::new(alloc, core.as_ref().sets.as_slice())?;
        let engine = Engine::new(alloc, core)?;
        Ok(Pair { engine, store })
    }
}

impl View for Pair {
    ghost family = { λ p. p.store.top };

    fn vars(&self) -> u32 {
        self.store.vars()
    }

    fn min(&self, x: u32) -> i64 {
        self.store.min(x)
    }

    fn max(&self, x: u32) -> i64 {
        self.store.max(x)
    }

    fn size(&self, x: u32) -> u32 {
        self.store.size(x)
    }

    fn has(&self, x: u32, v: i64) -> bool {
        self.store.has(x, v)
    }

    fn next(&self, x: u32, after: i64) -> Option<i64> {
        self.store.next(x, after)
    }
}

impl Solver for Pair {
    ghost state = { state_of };

    fn count_levels(&self) -> u64 {
        self.store.levels()
    }

    fn best(&self) -> Option<i128> {
        self.engine.best()
    }

    fn open_level(&mut self, alloc: Global) -> Result<(), OutOfMemory> {
        open_level(&mut self.engine, &mut self.store, alloc)?;
        Ok(())
    }

    fn go_back(&mut self, level: u64) {
        go_back(&mut self.engine, &mut self.store, level);
    }

    fn post_value(&mut self, _alloc: Global, x: u32, v: i64) -> Result<(), OutOfMemory> {
        post_value(&mut self.engine, &self.store, x, v)?;
        Ok(())
    }

    fn close(&mut self, steps: &mut Steps) -> Closed {
        close(&mut self.engine, &mut self.store, steps)
    }

    fn improve(&mut self) {
        improve(&mut self.engine, &self.store);
    }

    ghost sees = { λ p. refl };
}
