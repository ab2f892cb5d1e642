//! The search of a ground core.
ghost use Rattle.std.specs.Prelude.{◌≡◌, None, IfOk};
ghost use Rattle.opl_trace.specs.GroundCores.{IsGroundCore};
ghost use Rattle.opl_trace.specs.Marks.{section};
ghost use Rattle.opl_search.specs.Machines.{IsFresh};

use crate::pair::Pair;
use opl_domain::OutOfMemory;
use opl_expr::Core;
use opl_search::{Machine, Way, has_empty_set};
use std::alloc::Global;
use std::rc::Rc;

/// A machine before its first call, for a ground core that has no search section unless default search is asked. A core with
/// an empty set needs no solver.
pub fn search(
    alloc: Global,
    core: Rc<Core>,
    way: Way,
    budget: u64,
) -> Result<Machine<Pair>, OutOfMemory>
    requires ground { IsGroundCore core.value }
    requires way { section way.default_search core.value ≡ None }
    ensures { IfOk result (IsFresh core.value way budget) }
{
    if has_empty_set(core.as_ref()) {
        return Ok(Machine::empty(core, way, budget));
    }
    let pair = Pair::new(alloc, core.clone()?)?;
    Ok(Machine::new(alloc, core, way, pair, budget))
}
