//! Propagators: filters of constraints, each of which tells which variables wake it.
ghost use Rattle.std.specs.Prelude.{◌≡◌, ℕ, Bool, true, length};
ghost use Rattle.opl_domain.specs.Family.{Family, Full, Below, set_of, hull};
ghost use Rattle.opl_expr.specs.declared.model.Core.{Core};
ghost use Rattle.opl_expr.specs.Forms.{Fact};
ghost use Rattle.opl_expr.specs.Solutions.{declared};
ghost use Rattle.opl_trace.specs.Stable.{IsStable};
ghost use Rattle.opl_filter.specs.Filtering.{refutes, IsBetween, Filters};
ghost use Rattle.opl_notes.specs.Noted.{Knows, Tells};

use opl_domain::Narrow;
use opl_expr::Core;
use opl_filter::Outcome;
use opl_notes::Notes;

/// A filter of one constraint, which has to run again only after the set of a variable that wakes it has lost a value, or that of a
/// variable whose ends wake it its least or greatest value. Contracts see the constraint as it reads in a core, and whether a core is the one with which the propagator was made.
pub trait Propagator {
    ghost constraint: { Self → Core → Fact };

    ghost is_made_with: { Self → Core → Type 0 };

    /// Which constraints it takes places of notes to stand for, of so many places.
    ghost means: { Self → Core → (ℕ → Fact) → ℕ → Type 0 };

    /// The variables that wake it by each value that they lose.
    ghost woken_by: { Self → ℕ → Bool };

    /// The variables that wake it by their least and greatest value alone.
    ghost woken_by_ends: { Self → ℕ → Bool };

    /// A number that its work leaves as it is, as that of its kind.
    ghost kind: { Self → ℕ };

    /// Removes values that the constraint refutes alone at that moment, one after another, until the family is stable for
    /// the constraint, or until none within the first family can be. All values must be declared, and the notes right; they are right
    /// afterwards. It takes no memory.
    fn filter<N: Narrow>(&mut self, core: &Core, notes: &mut Notes, n: &mut N) -> Outcome
        requires core { is_made_with self.old core.now }
        requires knows { Knows (means self.old core.now) notes.old.top (N.family n.old) }
        requires declared { Below (N.family n.old) (declared core.now) }
        ensures between { IsBetween (refutes (constraint self.old core.now)) (N.family n.old) (N.family n.new) }
        ensures outcome { Filters (refutes (constraint self.old core.now)) (N.family n.old) (N.family n.new) result }
        ensures leads_to { N.leads_to n.old n.new }
        ensures tells { Tells (means self.old core.now) notes.old (N.family n.old) notes.new (N.family n.new) }
        ensures means { (d : Core) (facts : ℕ → Fact) (places : ℕ) → means self.old d facts places → means self.new d facts places }
        ensures constraint { (d : Core) → constraint self.new d ≡ constraint self.old d }
        ensures core { (d : Core) → is_made_with self.old d → is_made_with self.new d }
        ensures woken_by { (x : ℕ) → woken_by self.new x ≡ woken_by self.old x }
        ensures woken_by_ends { (x : ℕ) → woken_by_ends self.new x ≡ woken_by_ends self.old x }
        ensures kind { kind self.new ≡ kind self.old };

    ghost rests: { (s : Self) (d : Core) (F G : Family) → is_made_with s d → length F ≡ length (declared d) → IsStable (refutes (constraint s d)) F → Full G → Below G F → ((x : ℕ) → woken_by s x ≡ true → set_of G x ≡ set_of F x) → ((x : ℕ) → woken_by_ends s x ≡ true → hull G x ≡ hull F x) → IsStable (refutes (constraint s d)) G };
}
