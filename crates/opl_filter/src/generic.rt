//! The filter that asks value by value whether its constraint is refuted.
ghost use Rattle.std.specs.Prelude.{◌≡◌, IfOk};
ghost use Rattle.opl_domain.specs.Family.{Below};
ghost use Rattle.opl_expr.specs.declared.model.Core.{Core};
ghost use Rattle.opl_expr.specs.Forms.{fact};
ghost use Rattle.opl_expr.specs.Sound.{IsSoundFact};
ghost use Rattle.opl_expr.specs.Solutions.{declared};
ghost use Rattle.opl_filter.specs.Mentions.{AreVariables};
ghost use Rattle.opl_filter.specs.Filtering.{refutes, IsBetween, Filters};

use crate::filter::Filter;
use crate::outcome::Outcome;
use crate::rounds::remove_dead;
use crate::variables::variables_of;
use opl_domain::{Narrow, OutOfMemory, View};
use opl_expr::{Cons, Core};
use opl_list::Seq;
use opl_range::refuted;
use opl_trace::Test;
use std::alloc::Global;

/// Whether a family refutes a constraint of a core.
#[derive(Drop)]
struct Refutes<'a> {
    core: &'a Core,
    constraint: &'a Cons,
}

impl<'a> Test for Refutes<'a> {
    ghost use Rattle.opl_domain.specs.Family.{Below};
    ghost use Rattle.opl_expr.specs.Forms.{fact};
    ghost use Rattle.opl_expr.specs.Sound.{IsSoundFact};
    ghost use Rattle.opl_expr.specs.Solutions.{declared};
    ghost use Rattle.opl_filter.specs.Filtering.{refutes};

    ghost can_test = { λ s F. IsSoundFact s.core.now.sets (fact s.core.now.tables s.core.now.resources s.constraint.now) × Below F (declared s.core.now) };

    ghost dead = { λ s. refutes (fact s.core.now.tables s.core.now.resources s.constraint.now) };

    fn is_dead<V: View>(&self, view: &V) -> bool {
        refuted(self.core, self.constraint, view)
    }
}

/// Removes, of the variables `variables`, each value that the constraint singly refutes, until none is left or the constraint
/// fails. `variables` must be the variables that `c` mentions. `c` must be sound, and all values declared. It takes no memory.
pub fn sweep<N: Narrow>(core: &Core, c: &Cons, variables: &[u32], n: &mut N) -> Outcome
    requires sound { IsSoundFact core.now.sets (fact core.now.tables core.now.resources c.now) }
    requires declared { Below (N.family n.old) (declared core.now) }
    requires named { AreVariables variables.now (fact core.now.tables core.now.resources c.now) }
    ensures between { IsBetween (refutes (fact core.now.tables core.now.resources c.now)) (N.family n.old) (N.family n.new) }
    ensures outcome { Filters (refutes (fact core.now.tables core.now.resources c.now)) (N.family n.old) (N.family n.new) result }
    ensures leads_to { N.leads_to n.old n.new }
{
    let test = Refutes {
        core,
        constraint: c,
    };
    remove_dead(&test, variables, n)
}

/// A filter for any constraint.
#[derive(Drop)]
pub struct GenericFilter {
    constraint: Cons,
    variables: Seq<u32>,
}

impl GenericFilter {
    /// A filter of a copy of `c`, for this core.
    pub fn new(alloc: Global, core: &Core, c: &Cons) -> Result<GenericFilter, OutOfMemory>
        ensures constraint { IfOk result (λ f. (d : Core) → ⟦<GenericFilter as Filter>⟧.constraint f d ≡ fact d.tables d.resources c.now) }
        ensures core { IfOk result (λ f. ⟦<GenericFilter as Filter>⟧.is_made_with f core.now) }
    {
        Ok(GenericFilter {
            constraint: c.copy(alloc)?,
            variables: variables_of(alloc, core, c)?,
        })
    }
}

impl Filter for GenericFilter {
    ghost use Rattle.opl_expr.specs.Forms.{fact};
    ghost use Rattle.opl_filter.specs.Mentions.{AreVariables};

    ghost constraint = { λ s core. fact core.tables core.resources s.constraint };

    ghost is_made_with = { λ s core. AreVariables s.variables (fact core.tables core.resources s.constraint) };

    ghost fresh = { λ s F. Unit {0} };

    ghost fresh_law = { λ s d F G made agree is. is };

    fn wake(&mut self, _x: u32) {}

    fn filter<N: Narrow>(&mut self, core: &Core, n: &mut N) -> Outcome {
        sweep(core, &self.constraint, self.variables.as_slice(), n)
    }
}
