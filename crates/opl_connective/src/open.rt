//! Tests of families by nodes.
ghost use Rattle.std.specs.Prelude.{◌≡◌};

use crate::node::Node;
use crate::refuting::{Side, first_told, refuted, side_left};
use opl_domain::View;
use opl_expr::Core;
use opl_trace::Test;

/// Whether a family refutes each of some nodes, or the opposite of each.
#[derive(Drop)]
pub struct NoneOpen<'a> {
    pub core: &'a Core,
    pub nodes: &'a [Node],
    pub is_opposite: bool,
}

impl<'a> Test for NoneOpen<'a> {
    ghost use Rattle.std.specs.Prelude.{map};
    ghost use Rattle.opl_domain.specs.Family.{Below};
    ghost use Rattle.opl_expr.specs.Solutions.{declared};
    ghost use Rattle.opl_connective.specs.Trees.{tree, all_refuted};
    ghost use Rattle.opl_connective.specs.Nodes.{AreNodes};

    ghost can_test = { λ s F. AreNodes s.core.now s.nodes.now × Below F (declared s.core.now) };

    ghost dead = { λ s. all_refuted s.core.now s.is_opposite (map tree s.nodes.now) };

    fn is_dead<V: View>(&self, view: &V) -> bool {
        match first_told(self.core, self.nodes, self.is_opposite, false, 0, view) {
            None => true,
            Some(_at) => false,
        }
    }
}

/// Whether a family refutes that two nodes are alike, or that they differ.
#[derive(Drop)]
pub struct Unlike<'a> {
    pub core: &'a Core,
    pub first: &'a Node,
    pub second: &'a Node,
    pub is_opposite: bool,
}

impl<'a> Test for Unlike<'a> {
    ghost use Rattle.opl_domain.specs.Family.{Below};
    ghost use Rattle.opl_expr.specs.Solutions.{declared};
    ghost use Rattle.opl_connective.specs.Trees.{tree, iff_refuted};
    ghost use Rattle.opl_connective.specs.Nodes.{IsTree};

    ghost can_test = { λ s F. IsTree s.core.now (tree s.first.now) × IsTree s.core.now (tree s.second.now) × Below F (declared s.core.now) };

    ghost dead = { λ s. iff_refuted s.core.now s.is_opposite (tree s.first.now) (tree s.second.now) };

    fn is_dead<V: View>(&self, view: &V) -> bool {
        // No set is empty: a view says so with its number of variables.
        let _vars = view.vars();
        match side_left(self.core, self.first, self.second, self.is_opposite, view) {
            Side::First(is_opposite) => refuted(self.core, self.first, is_opposite, view),
            Side::Second(is_opposite) => refuted(self.core, self.second, is_opposite, view),
            Side::Both => false,
        }
    }
}
