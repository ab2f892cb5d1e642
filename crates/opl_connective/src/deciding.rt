//! Whether the ends of sets alone decide a node.
ghost use Rattle.std.specs.Prelude.{◌≡◌, map};
ghost use Rattle.opl_connective.specs.Trees.{tree, trees_of};
ghost use Rattle.opl_connective.specs.Ends.{tree_sees_ends, trees_see_ends};

use crate::node::Node;

/// Whether the ends of the sets alone decide the node, or its opposite.
#[cycle(deciding)]
pub fn node_sees_ends(node: &Node, is_opposite: bool) -> bool
    ensures { result ≡ tree_sees_ends is_opposite (tree node.now) }
{
    match node {
        Node::Literal(part, opposite) => {
            if is_opposite {
                opposite.sees_ends()
            } else {
                part.sees_ends()
            }
        }
        Node::Not(node) => node_sees_ends(node.get(), !is_opposite),
        Node::And(_variables, nodes) => all_see_ends(nodes.as_slice(), is_opposite),
        Node::Or(_variables, nodes) => all_see_ends(nodes.as_slice(), is_opposite),
        Node::Iff(_variables, first, second) => {
            if !node_sees_ends(first.get(), false) {
                return false;
            }
            if !node_sees_ends(first.get(), true) {
                return false;
            }
            if !node_sees_ends(second.get(), false) {
                return false;
            }
            node_sees_ends(second.get(), true)
        }
    }
}

/// The same of each node.
#[cycle(deciding)]
fn all_see_ends(nodes: &[Node], is_opposite: bool) -> bool
    ensures { result ≡ trees_see_ends is_opposite (trees_of (map tree nodes.now)) }
{
    let mut left = nodes.len();
    while left > 0 {
        left -= 1;
        if !node_sees_ends(&nodes[left], is_opposite) {
            return false;
        }
    }
    true
}
