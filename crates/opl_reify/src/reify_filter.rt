//! The filter of a disjunction of comparisons of linear sides.
ghost use Rattle.std.specs.Prelude.{◌≡◌, IfOk};
ghost use Rattle.opl_domain.specs.Family.{Below};
ghost use Rattle.opl_expr.specs.Forms.{Fact, fact};
ghost use Rattle.opl_expr.specs.Solutions.{declared};
ghost use Rattle.opl_expr.specs.Sound.{IsSoundFact};
ghost use Rattle.opl_filter.specs.Filtering.{refutes, IsBetween, Filters};
ghost use Rattle.opl_reify.specs.Disjunctions.{IsMadeOfParts, IsDisjunctionFor, IsDisjunctionIfAny, IsThereFor};
ghost use Rattle.opl_reify.specs.Ends.{sees_ends};

use crate::filtering::filter_any;
use crate::making::{implied, literals};
use crate::part::Part;
use opl_domain::{Narrow, OutOfMemory};
use opl_expr::{Cons, Core};
use opl_filter::Outcome;
use opl_list::Seq;
use std::alloc::Global;

/// The parts of a disjunction, of which at least one is to hold.
#[derive(Drop)]
pub struct ReifyFilter {
    parts: Seq<Part>,
}

impl ReifyFilter {
    /// The filter of a constraint, exactly where that is a disjunction or an implication whose parts compare linear sides, or are
    /// opposites of such comparisons.
    pub fn new(alloc: Global, core: &Core, c: &Cons) -> Result<Option<ReifyFilter>, OutOfMemory>
        requires { IsSoundFact core.now.sets (fact core.now.tables core.now.resources c.now) }
        ensures filter { IfOk result (IsDisjunctionIfAny core.now (fact core.now.tables core.now.resources c.now)) }
        ensures kind { IfOk result (IsThereFor core.now c.now) }
    {
        match c {
            Cons::Fixed(_b) => Ok(None),
            Cons::Cmp(_op, _a, _b) => Ok(None),
            Cons::And(_parts) => Ok(None),
            Cons::Or(parts) => match literals(alloc, core, parts.as_slice())? {
                None => Ok(None),
                Some(parts) => Ok(Some(ReifyFilter { parts })),
            },
            Cons::Imp(a, b) => match implied(alloc, core, a.get(), b.get())? {
                None => Ok(None),
                Some(parts) => Ok(Some(ReifyFilter { parts })),
            },
            Cons::Iff(_a, _b) => Ok(None),
            Cons::Not(_a) => Ok(None),
            Cons::AllDifferent(_parts) => Ok(None),
            Cons::Capacity(_resource, _time) => Ok(None),
            Cons::Bound(_x) => Ok(None),
        }
    }

    /// Whether it has anything to remove only after a set has lost its least or greatest value.
    pub fn sees_ends(&self) -> bool
        ensures { result ≡ sees_ends self.now }
    {
        self.parts.as_slice().iter().all(|part| part.sees_ends())
    }

    /// Removes values that the constraint refutes alone at that moment, until the family is stable for it, or until none within
    /// is. All values must be declared. It takes no memory.
    pub fn filter<N: Narrow>(&self, core: &Core, n: &mut N) -> Outcome
        requires made { IsMadeOfParts core.now self.now }
        requires declared { Below (N.family n.old) (declared core.now) }
        ensures between { (c : Fact) → IsDisjunctionFor core.now c self.now → IsBetween (refutes c) (N.family n.old) (N.family n.new) }
        ensures outcome { (c : Fact) → IsDisjunctionFor core.now c self.now → Filters (refutes c) (N.family n.old) (N.family n.new) result }
        ensures leads_to { N.leads_to n.old n.new }
    {
        filter_any(core, self.parts.as_slice(), n)
    }
}
