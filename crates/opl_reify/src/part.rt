//! One part of a disjunction.
ghost use Rattle.std.specs.Prelude.{◌≡◌};
ghost use Rattle.opl_domain.specs.Family.{Below};
ghost use Rattle.opl_expr.specs.Solutions.{declared};
ghost use Rattle.opl_filter.specs.Filtering.{refutes};
ghost use Rattle.opl_reify.specs.Ends.{part_sees_ends};
ghost use Rattle.opl_reify.specs.Parts.{fact_in, IsPart};

use opl_domain::View;
use opl_expr::{Cons, Core};
use opl_linear_filter::LinearFilter;
use opl_list::{Boxed, Seq};

/// A comparison of linear sides, with its variables and its filter.
#[derive(Drop)]
pub struct Part {
    pub constraint: Boxed<Cons>,
    pub variables: Seq<u32>,
    pub filter: LinearFilter,
}

impl Part {
    /// Whether its filter has anything to remove only after a set has lost its least or greatest value.
    pub fn sees_ends(&self) -> bool
        ensures { result ≡ part_sees_ends self.now }
    {
        self.filter.sees_ends()
    }

    /// Whether the family refutes it. All values must be declared.
    pub fn is_refuted<V: View>(&self, core: &Core, view: &V) -> bool
        requires part { IsPart core.now self.now }
        requires within { Below (V.family view.now) (declared core.now) }
        ensures { result ≡ refutes (fact_in core.now self.now) (V.family view.now) }
    {
        self.filter.is_refuted(core, view)
    }
}
