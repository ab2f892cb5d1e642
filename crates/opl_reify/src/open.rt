//! Which parts of a disjunction are open: not refuted.
ghost use Rattle.opl_domain.specs.Family.{Below};
ghost use Rattle.opl_expr.specs.Solutions.{declared};
ghost use Rattle.opl_reify.specs.Parts.{AreParts, NextOpen};

use crate::part::Part;
use opl_domain::View;
use opl_expr::Core;
use opl_trace::Test;

/// The place of the first open part from `from` on.
pub fn next_open<V: View>(core: &Core, parts: &[Part], from: usize, view: &V) -> Option<usize>
    requires parts { AreParts core.now parts.now }
    requires within { Below (V.family view.now) (declared core.now) }
    ensures { NextOpen core.now (V.family view.now) parts.now from result }
{
    let mut at = from;
    while at < parts.len() {
        if !parts[at].is_refuted(core, view) {
            return Some(at);
        }
        at += 1;
    }
    None
}

/// Whether a family refutes a disjunction: no part is open.
#[derive(Drop)]
pub struct NoneOpen<'a> {
    pub core: &'a Core,
    pub parts: &'a [Part],
}

impl<'a> Test for NoneOpen<'a> {
    ghost use Rattle.opl_domain.specs.Family.{Below};
    ghost use Rattle.opl_expr.specs.Solutions.{declared};
    ghost use Rattle.opl_filter.specs.Filtering.{refutes};
    ghost use Rattle.opl_reify.specs.Parts.{AreParts, any_of};

    ghost can_test = { λ s F. AreParts s.core.now s.parts.now × Below F (declared s.core.now) };

    ghost dead = { λ s. refutes (any_of s.core.now s.parts.now) };

    fn is_dead<V: View>(&self, view: &V) -> bool {
        match next_open(self.core, self.parts, 0, view) {
            None => true,
            Some(_at) => false,
        }
    }
}
