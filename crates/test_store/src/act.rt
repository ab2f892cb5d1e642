//! What is done to a store.
ghost use Rattle.std.specs.Prelude.{◌≡◌, ◌<◌, ℤ, true, length};
ghost use Rattle.opl_domain.specs.Family.{has, cut_of};

use opl_domain::{Narrow, OutOfMemory, Steps, View};
use opl_store::Store;
use std::alloc::Global;

/// Opening a level, closing one, and removing the values of a variable from one to another.
#[derive(Drop, Clone, Copy)]
pub enum Act {
    Open,
    Close,
    Cut(u32, i64, i64),
}

/// Whether there is a variable `x`, and one of its values stays when those from `lo` to `hi` go.
fn can_cut(store: &Store, x: u32, lo: i64, hi: i64) -> bool
    ensures variable { result ≡ true → x < length store.now.top }
    ensures stays { result ≡ true → (v : ℤ) × (has (cut_of store.now.top x lo hi) x v ≡ true) }
{
    if x >= store.vars() {
        return false;
    }
    if store.min(x) < lo {
        return true;
    }
    hi < store.max(x)
}

/// Does what is asked, or nothing where a call can't be made.
pub fn perform(
    alloc: Global,
    store: &mut Store,
    act: Act,
    steps: &mut Steps,
) -> Result<(), OutOfMemory> {
    match act {
        Act::Open => store.open_level(alloc)?,
        Act::Close => {
            if store.levels() > 0 {
                store.close_level(steps);
            }
        }
        Act::Cut(x, lo, hi) => {
            if can_cut(store, x, lo, hi) {
                store.cut(x, lo, hi);
            }
        }
    }
    Ok(())
}
