//! Filters of one constraint.
ghost use Rattle.std.specs.Prelude.{◌≡◌};
ghost use Rattle.opl_domain.specs.Family.{Family, Below};
ghost use Rattle.opl_expr.specs.declared.model.Core.{Core};
ghost use Rattle.opl_expr.specs.Forms.{Fact};
ghost use Rattle.opl_expr.specs.Sound.{IsSoundFact};
ghost use Rattle.opl_expr.specs.Solutions.{declared};
ghost use Rattle.opl_filter.specs.Mentions.{mentions};
ghost use Rattle.opl_filter.specs.Fresh.{DifferAt, AgreeOn};
ghost use Rattle.opl_filter.specs.Filtering.{refutes, IsBetween, Filters};

use crate::outcome::Outcome;
use opl_domain::Narrow;
use opl_expr::Core;

/// A filter of one constraint. Contracts see the constraint as it reads in a core, and whether a core is the one with which
/// the filter was made.
pub trait Filter {
    ghost constraint: { Self → Core → Fact };

    ghost is_made_with: { Self → Core → Type 0 };

    ghost fresh: { Self → Family → Type 0 };

    /// Removes values that the constraint refutes alone at that moment, one after another, until the family is stable for
    /// the constraint, or until none within the first family can be. The constraint must be sound, and all values declared.
    /// It takes no memory.
    fn filter<N: Narrow>(&mut self, core: &Core, n: &mut N) -> Outcome
        requires core { is_made_with self.old core.now }
        requires sound { IsSoundFact core.now.sets (constraint self.old core.now) }
        requires fresh { fresh self.old (N.family n.old) }
        requires declared { Below (N.family n.old) (declared core.now) }
        ensures between { IsBetween (refutes (constraint self.old core.now)) (N.family n.old) (N.family n.new) }
        ensures outcome { Filters (refutes (constraint self.old core.now)) (N.family n.old) (N.family n.new) result }
        ensures leads_to { N.leads_to n.old n.new }
        ensures fresh { fresh self.new (N.family n.new) }
        ensures constraint { (d : Core) → constraint self.new d ≡ constraint self.old d }
        ensures core { (d : Core) → is_made_with self.old d → is_made_with self.new d };

    /// Tells that the set of `x` has changed. It takes no memory.
    fn wake(&mut self, x: u32)
        ensures fresh { (F G : Family) → DifferAt x F G → fresh self.old F → fresh self.new G }
        ensures constraint { (d : Core) → constraint self.new d ≡ constraint self.old d }
        ensures core { (d : Core) → is_made_with self.old d → is_made_with self.new d };

    ghost fresh_law: { (s : Self) (d : Core) (F G : Family) → is_made_with s d → AgreeOn (mentions (constraint s d)) F G → fresh s F → fresh s G };
}
