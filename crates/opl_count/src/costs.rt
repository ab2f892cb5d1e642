//! What is paid with the sets of a view.
ghost use Rattle.std.specs.Prelude.{◌≡◌, ◌+◌, ◌<◌, ◌^◌};
ghost use Rattle.opl_domain.specs.Family.{Below};
ghost use Rattle.opl_expr.specs.Solutions.{declared};
ghost use Rattle.opl_reify.specs.Parts.{IsPart};
ghost use Rattle.opl_filter.specs.Filtering.{refutes};
ghost use Rattle.opl_count.specs.Costs.{fact_of, price, prices, weights, HaveParts};

use crate::sum::{Costs, Literal};
use opl_domain::View;
use opl_expr::Core;
use opl_trace::Test;

/// Whether a literal is refuted.
pub fn is_refuted<V: View>(core: &Core, literal: &Literal, view: &V) -> bool
    requires part { IsPart core.now literal.now.part }
    requires within { Below (V.family view.now) (declared core.now) }
    ensures { result ≡ refutes (fact_of core.now literal.now) (V.family view.now) }
{
    literal.part.is_refuted(core, view)
}

/// What is paid for a literal.
fn price<V: View>(core: &Core, literal: &Literal, view: &V) -> u128
    requires part { IsPart core.now literal.now.part }
    requires within { Below (V.family view.now) (declared core.now) }
    ensures { result ≡ price core.now (V.family view.now) literal.now }
{
    if is_refuted(core, literal, view) {
        literal.weight
    } else {
        0
    }
}

/// What is paid together.
pub fn cost<V: View>(core: &Core, literals: &[Literal], paid: u128, view: &V) -> u128
    requires parts { HaveParts core.now literals.now }
    requires fits { paid + weights literals.now < 2 ^ 128 }
    requires within { Below (V.family view.now) (declared core.now) }
    ensures { result ≡ paid + prices core.now (V.family view.now) literals.now }
{
    let mut total = paid;
    let mut left = literals.len();
    while left > 0 {
        left -= 1;
        total += price(core, &literals[left], view);
    }
    total
}

/// Whether more is paid than there is room for.
#[derive(Drop)]
pub struct IsOver<'a> {
    pub core: &'a Core,
    pub costs: &'a Costs,
}

impl<'a> Test for IsOver<'a> {
    ghost use Rattle.opl_domain.specs.Family.{Below};
    ghost use Rattle.opl_expr.specs.Solutions.{declared};
    ghost use Rattle.opl_count.specs.Costs.{IsMade, is_over};

    ghost can_test = { λ s F. IsMade s.core.now s.costs.now × Below F (declared s.core.now) };

    ghost dead = { λ s. is_over s.core.now s.costs.now };

    fn is_dead<V: View>(&self, view: &V) -> bool {
        cost(
            self.core,
            self.costs.literals.as_slice(),
            self.costs.paid,
            view,
        ) > self.costs.room
    }
}
