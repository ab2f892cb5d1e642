//! What a node removes until nothing more goes.
ghost use Rattle.std.specs.Prelude.{false};
ghost use Rattle.opl_domain.specs.Family.{Below};
ghost use Rattle.opl_expr.specs.Solutions.{declared};
ghost use Rattle.opl_filter.specs.Filtering.{IsBetween, Filters};
ghost use Rattle.opl_reify.specs.Rounds.{Looks};
ghost use Rattle.opl_connective.specs.Trees.{tree, is_refuted};
ghost use Rattle.opl_connective.specs.Nodes.{IsTree};

use crate::node::Node;
use crate::noticing::Noticing;
use crate::rounds::round;
use opl_domain::{Narrow, View};
use opl_expr::Core;
use opl_filter::Outcome;

/// One round over the node. None comes where values have gone and it must be looked at again.
fn look<N: Narrow>(core: &Core, node: &Node, n: &mut N) -> Option<Outcome>
    requires node { IsTree core.now (tree node.now) }
    requires declared { Below (N.family n.old) (declared core.now) }
    ensures looks { Looks (is_refuted core.now false (tree node.now)) (N.family n.old) (N.family n.new) result }
    ensures leads_to { N.leads_to n.old n.new }
{
    // No set is empty: a view says so with its number of variables.
    let _vars = n.vars();
    let mut noticing = Noticing::new(n);
    if !round(core, node, false, &mut noticing) {
        return Some(Outcome::Failed);
    }
    if noticing.changed {
        return None;
    }
    Some(Outcome::Stable)
}

/// Removes values that the node refutes alone at that moment, until the family is stable for it, or until none within is. All values
/// must be declared. It takes no memory.
pub fn filter_node<N: Narrow>(core: &Core, node: &Node, n: &mut N) -> Outcome
    requires node { IsTree core.now (tree node.now) }
    requires declared { Below (N.family n.old) (declared core.now) }
    ensures between { IsBetween (is_refuted core.now false (tree node.now)) (N.family n.old) (N.family n.new) }
    ensures outcome { Filters (is_refuted core.now false (tree node.now)) (N.family n.old) (N.family n.new) result }
    ensures leads_to { N.leads_to n.old n.new }
{
    // No set is empty: a view says so with its number of variables.
    let _vars = n.vars();
    loop {
        match look(core, node, n) {
            None => {}
            Some(outcome) => return outcome,
        }
    }
}
