//! What is done to an engine and its store together, so that one fits the other.
ghost use Rattle.std.specs.Prelude.{◌≡◌, ◌<◌, ◌+◌, ◌-◌, ◌^◌, min, true, length, OnOk};
ghost use Rattle.opl_domain.specs.Family.{has, Below};
ghost use Rattle.opl_trace.specs.Answers.{is_value};
ghost use Rattle.opl_turns.specs.Covered.{AreAlone};
ghost use Rattle.opl_engine.specs.States.{seen};
ghost use Rattle.opl_search.specs.States.{opened, back_to, posting, with_sets, improved, IsMoment, Closes};
ghost use Rattle.opl_solver.specs.Pairs.{both, IsPair, closed_as, given_back};

use crate::objective::best_after;
use opl_domain::{OutOfMemory, Steps, View};
use opl_engine::Engine;
use opl_search::Closed;
use opl_store::Store;
use std::alloc::Global;

/// Opens a level of both.
pub fn open_level(engine: &mut Engine, store: &mut Store, alloc: Global) -> Result<(), OutOfMemory>
    requires { IsPair (seen engine.old) store.old }
    ensures pair { IsPair (seen engine.new) store.new }
    ensures opened { OnOk result (both (seen engine.new) store.new ≡ opened (both (seen engine.old) store.old)) }
{
    store.open_level(alloc)?;
    match engine.open_level() {
        Ok(()) => Ok(()),
        Err(error) => {
            let mut steps = Steps::new();
            store.close_level(&mut steps);
            Err(error)
        }
    }
}

/// Closes the level opened last of both.
fn close_level(engine: &mut Engine, store: &mut Store)
    requires pair { IsPair (seen engine.old) store.old }
    requires open { 0 < length store.old.below }
    ensures pair { IsPair (seen engine.new) store.new }
    ensures levels { length store.new.below + 1 ≡ length store.old.below }
    ensures closed { both (seen engine.new) store.new ≡ given_back (both (seen engine.old) store.old) }
{
    let mut steps = Steps::new();
    engine.close_level();
    store.close_level(&mut steps);
}

/// Closes levels of both until `level` are open.
pub fn go_back(engine: &mut Engine, store: &mut Store, level: u64)
    requires pair { IsPair (seen engine.old) store.old }
    requires open { level < length store.old.below }
    ensures pair { IsPair (seen engine.new) store.new }
    ensures back { both (seen engine.new) store.new ≡ back_to level (both (seen engine.old) store.old) }
{
    while level < store.levels() {
        close_level(engine, store);
    }
}

/// Posts that `x` has the value `v`.
pub fn post_value(engine: &mut Engine, store: &Store, x: u32, v: i64) -> Result<(), OutOfMemory>
    requires pair { IsPair (seen engine.old) store.now }
    requires value { has store.now.top x v ≡ true }
    ensures pair { IsPair (seen engine.new) store.now }
    ensures posted { OnOk result (both (seen engine.new) store.now ≡ posting (is_value x v) (both (seen engine.old) store.now)) }
{
    engine.post_value(x, v)?;
    Ok(())
}

/// How closing ends, for a search.
fn closed_as(closed: opl_engine::Closed) -> Closed
    ensures { result ≡ closed_as closed }
{
    match closed {
        opl_engine::Closed::Stable => Closed::Stable,
        opl_engine::Closed::Failed => Closed::Failed,
    }
}

/// Leaves the closure of what is posted and of the bound, or answers that there is none.
pub fn close(engine: &mut Engine, store: &mut Store, steps: &mut Steps) -> Closed
    requires { IsPair (seen engine.old) store.old }
    ensures pair { IsPair (seen engine.new) store.new }
    ensures closed { Closes (both (seen engine.old) store.old) store.new.top result }
    ensures below { Below store.new.top store.old.top }
    ensures others { both (seen engine.new) store.new ≡ with_sets store.new.top (both (seen engine.old) store.old) }
    ensures once { steps.new ≡ min (steps.old + 1) (2 ^ 64 - 1) }
{
    closed_as(engine.close(store, steps))
}

/// Takes the value of the objective at a solution as the best.
pub fn improve(engine: &mut Engine, store: &Store)
    requires pair { IsPair (seen engine.old) store.now }
    requires moment { IsMoment (both (seen engine.old) store.now) }
    requires single { AreAlone store.now.top }
    ensures pair { IsPair (seen engine.new) store.now }
    ensures improved { both (seen engine.new) store.now ≡ improved (both (seen engine.old) store.now) }
{
    // No set is empty: a view says so with its number of variables.
    let _vars = store.vars();
    let best = best_after(engine.core(), store, engine.best());
    engine.set_best(best);
}
