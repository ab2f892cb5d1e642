//! The filter of `alldifferent`.
ghost use Rattle.std.specs.Prelude.{◌≡◌, ℕ, false, map, length, IfOk};
ghost use Rattle.opl_domain.specs.Family.{Below};
ghost use Rattle.opl_expr.specs.declared.model.Core.{Core};
ghost use Rattle.opl_expr.specs.Forms.{Fact, fact, terms_of};
ghost use Rattle.opl_expr.specs.Solutions.{declared};
ghost use Rattle.opl_expr.specs.Sound.{IsSoundFact};
ghost use Rattle.opl_filter.specs.Filtering.{refutes, IsBetween, Filters};
ghost use Rattle.opl_range.specs.Between.{term_of};
ghost use Rattle.opl_all_different.specs.Spreading.{is_done};
ghost use Rattle.opl_all_different.specs.DifferentForms.{IsMade, IsFilterOf, IsMadeForParts, IsFilterIfAny, IsThereFor};

use crate::constructor::{marks, parts_of};
use crate::part::Part;
use crate::settling::settle;
use opl_domain::{Narrow, OutOfMemory, View};
use opl_expr::{Cons, Core, Expr};
use opl_filter::Outcome;
use opl_list::Seq;
use std::alloc::Global;

/// The parts of `alldifferent`, where each has at most one variable, and no two have the same.
#[derive(Drop)]
pub struct DifferentFilter {
    parts: Seq<Part>,
    /// For each part, whether its value has gone from all others. It says nothing between two calls.
    done: Vec<bool>,
}

/// The filter of expressions that are to differ, if each is linear with at most one variable, and no two have the same.
fn of_expressions(
    alloc: Global,
    core: &Core,
    es: &[Expr],
) -> Result<Option<DifferentFilter>, OutOfMemory>
    requires { IsSoundFact core.now.sets (Fact.different (terms_of (map (term_of core.now) es.now))) }
    ensures { IfOk result (IsMadeForParts core.now es.now) }
{
    if core.sets.len() > u32::MAX as usize {
        return Err(OutOfMemory);
    }
    match parts_of(alloc, core, es)? {
        None => Ok(None),
        Some(parts) => {
            let done = marks(alloc, parts.len())?;
            Ok(Some(DifferentFilter { parts, done }))
        }
    }
}

/// Sets no mark.
fn clear(done: &mut [bool])
    ensures same { length done.new ≡ length done.old }
    ensures none { (i : ℕ) → is_done done.new i ≡ false }
{
    for i in 0..done.len() {
        done[i] = false;
    }
}

impl DifferentFilter {
    /// The filter of a constraint, exactly where that is `alldifferent` of linear parts with at most one variable each, no two
    /// of them the same.
    pub fn new(alloc: Global, core: &Core, c: &Cons) -> Result<Option<DifferentFilter>, OutOfMemory>
        requires { IsSoundFact core.now.sets (fact core.now.tables core.now.resources c.now) }
        ensures filter { IfOk result (IsFilterIfAny core.now (fact core.now.tables core.now.resources c.now)) }
        ensures kind { IfOk result (IsThereFor core.now c.now) }
    {
        match c {
            Cons::Fixed(_b) => Ok(None),
            Cons::Cmp(_op, _a, _b) => Ok(None),
            Cons::And(_parts) => Ok(None),
            Cons::Or(_parts) => Ok(None),
            Cons::Imp(_a, _b) => Ok(None),
            Cons::Iff(_a, _b) => Ok(None),
            Cons::Not(_a) => Ok(None),
            Cons::AllDifferent(parts) => of_expressions(alloc, core, parts.as_slice()),
            Cons::Capacity(_resource, _time) => Ok(None),
            Cons::Bound(_x) => Ok(None),
        }
    }

    /// Removes values that the constraint refutes alone at that moment, until the family is stable for it, or until none within
    /// is. All values must be declared. It takes no memory.
    pub fn filter<N: Narrow>(&mut self, core: &Core, n: &mut N) -> Outcome
        requires made { IsMade core.now self.old }
        requires declared { Below (N.family n.old) (declared core.now) }
        ensures between { (c : Fact) → IsFilterOf core.now c self.old → IsBetween (refutes c) (N.family n.old) (N.family n.new) }
        ensures outcome { (c : Fact) → IsFilterOf core.now c self.old → Filters (refutes c) (N.family n.old) (N.family n.new) result }
        ensures leads_to { N.leads_to n.old n.new }
        ensures made { (d : Core) → IsMade d self.old → IsMade d self.new }
        ensures constraint { (d : Core) (c : Fact) → IsFilterOf d c self.old → IsFilterOf d c self.new }
    {
        // No set is empty: a view says so with its number of variables.
        let _vars = n.vars();
        clear(self.done.as_mut_slice());
        settle(self.parts.as_slice(), self.done.as_mut_slice(), n)
    }
}
