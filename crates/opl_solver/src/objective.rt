//! The value of the objective at a solution.
ghost use Rattle.std.specs.Prelude.{◌≡◌};
ghost use Rattle.opl_domain.specs.Family.{Below};
ghost use Rattle.opl_expr.specs.Forms.{term};
ghost use Rattle.opl_expr.specs.Holds.{value};
ghost use Rattle.opl_expr.specs.Solutions.{declared};
ghost use Rattle.opl_expr.specs.Sound.{IsSoundTerm};
ghost use Rattle.opl_trace.specs.Marks.{objective};
ghost use Rattle.opl_trace.specs.Objective.{best_after};
ghost use Rattle.opl_trace.specs.Run.{values_of};
ghost use Rattle.opl_trace.specs.SoundCores.{IsSoundCore};
ghost use Rattle.opl_turns.specs.Covered.{AreAlone};

use opl_domain::View;
use opl_expr::{Core, Expr};
use opl_range::range;

/// The value of an expression where each variable has one value: the only one of its range.
fn value_at<V: View>(core: &Core, e: &Expr, view: &V) -> Option<i128>
    requires sound { IsSoundTerm core.now.sets (term core.now.tables core.now.resources e.now) }
    requires declared { Below (V.family view.now) (declared core.now) }
    requires single { AreAlone (V.family view.now) }
    ensures { result ≡ value (values_of (V.family view.now)) (term core.now.tables core.now.resources e.now) }
{
    // No set is empty: a view says so with its number of variables.
    let _vars = view.vars();
    match range(core, e, view) {
        None => None,
        Some(values) => Some(values.lo()),
    }
}

/// The best value after a solution, where `best` was the best before it. It takes no memory.
pub fn best_after<V: View>(core: &Core, view: &V, best: Option<i128>) -> Option<i128>
    requires sound { IsSoundCore core.now }
    requires declared { Below (V.family view.now) (declared core.now) }
    requires single { AreAlone (V.family view.now) }
    ensures { result ≡ best_after (objective core.now) (values_of (V.family view.now)) best }
{
    match &core.goal {
        None => best,
        Some(goal) => value_at(core, &goal.value, view),
    }
}
