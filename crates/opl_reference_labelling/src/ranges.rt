//! What the search asks of the ranges of constraints.
ghost use Rattle.std.specs.Prelude.{◌≡◌};
ghost use Rattle.opl_domain.specs.Family.{Below};
ghost use Rattle.opl_expr.specs.Forms.{fact};
ghost use Rattle.opl_expr.specs.Range.{is_refuted};
ghost use Rattle.opl_expr.specs.Solutions.{declared};
ghost use Rattle.opl_expr.specs.Sound.{IsSoundFact};

use opl_domain::View;
use opl_expr::{Cons, Core};

/// What the ranges of constraints tell over sets that are within the declared ones.
pub trait Ranges {
    /// Whether the sets refute a constraint: its range is missing or [0,0].
    fn refuted<V: View>(&self, core: &Core, c: &Cons, view: &V) -> bool
        requires sound { IsSoundFact core.now.sets (fact core.now.tables core.now.resources c.now) }
        requires within { Below (V.family view.now) (declared core.now) }
        ensures { result ≡ is_refuted (V.family view.now) (fact core.now.tables core.now.resources c.now) };
}
