//! Whether a family refutes a node, or its opposite.
ghost use Rattle.std.specs.Prelude.{◌≡◌, map};
ghost use Rattle.opl_domain.specs.Family.{Below};
ghost use Rattle.opl_expr.specs.Solutions.{declared};
ghost use Rattle.opl_connective.specs.Trees.{tree, is_refuted};
ghost use Rattle.opl_connective.specs.Nodes.{IsTree, AreNodes, First, LeavesSide};

use crate::node::Node;
use opl_domain::View;
use opl_expr::Core;

/// What of two nodes matters that are to be alike, or to differ: one of them or its opposite, since the other is decided; or both.
#[derive(Drop, Clone, Copy)]
pub enum Side {
    First(bool),
    Second(bool),
    Both,
}

/// Whether the family refutes the node, or its opposite.
#[cycle(refuting)]
pub fn refuted<V: View>(core: &Core, node: &Node, is_opposite: bool, view: &V) -> bool
    requires node { IsTree core.now (tree node.now) }
    requires within { Below (V.family view.now) (declared core.now) }
    ensures { result ≡ is_refuted core.now is_opposite (tree node.now) (V.family view.now) }
{
    // No set is empty: a view says so with its number of variables.
    let _vars = view.vars();
    match node {
        Node::Literal(part, opposite) => {
            if is_opposite {
                opposite.is_refuted(core, view)
            } else {
                part.is_refuted(core, view)
            }
        }
        Node::Not(node) => refuted(core, node.get(), !is_opposite, view),
        Node::And(_variables, nodes) => {
            // One part is refuted; or the opposite of each is.
            match first_told(core, nodes.as_slice(), is_opposite, !is_opposite, 0, view) {
                None => is_opposite,
                Some(_at) => !is_opposite,
            }
        }
        Node::Or(_variables, nodes) => {
            // Each part is refuted; or the opposite of one is.
            match first_told(core, nodes.as_slice(), is_opposite, is_opposite, 0, view) {
                None => !is_opposite,
                Some(_at) => is_opposite,
            }
        }
        Node::Iff(_variables, first, second) => {
            // Only a side that is decided tells which side of the other matters.
            if refuted(core, first.get(), true, view) {
                return refuted(core, second.get(), is_opposite, view);
            }
            if refuted(core, first.get(), false, view) {
                return refuted(core, second.get(), !is_opposite, view);
            }
            false
        }
    }
}

/// The place of the first node from `from` on that is refuted, or whose opposite is, if `told`; else of the first that isn't.
#[cycle(refuting)]
pub fn first_told<V: View>(
    core: &Core,
    nodes: &[Node],
    is_opposite: bool,
    told: bool,
    from: usize,
    view: &V,
) -> Option<usize>
    requires nodes { AreNodes core.now nodes.now }
    requires within { Below (V.family view.now) (declared core.now) }
    ensures { First core.now (V.family view.now) is_opposite (map tree nodes.now) told from result }
{
    let mut at = from;
    while at < nodes.len() {
        if refuted(core, &nodes[at], is_opposite, view) == told {
            return Some(at);
        }
        at += 1;
    }
    None
}

/// Which of two nodes a filter goes on with that are to be alike, or to differ: one whose other is decided, or its opposite.
pub fn side_left<V: View>(
    core: &Core,
    first: &Node,
    second: &Node,
    is_opposite: bool,
    view: &V,
) -> Side
    requires first { IsTree core.now (tree first.now) }
    requires second { IsTree core.now (tree second.now) }
    requires within { Below (V.family view.now) (declared core.now) }
    ensures { LeavesSide core.now (V.family view.now) is_opposite (tree first.now) (tree second.now) result }
{
    // No set is empty: a view says so with its number of variables.
    let _vars = view.vars();
    if refuted(core, first, true, view) {
        return Side::Second(is_opposite);
    }
    if refuted(core, first, false, view) {
        return Side::Second(!is_opposite);
    }
    if refuted(core, second, true, view) {
        return Side::First(is_opposite);
    }
    if refuted(core, second, false, view) {
        return Side::First(!is_opposite);
    }
    Side::Both
}
