//! Connectives inside one another.
ghost use Rattle.std.specs.Prelude.{◌≡◌};
ghost use Rattle.opl_connective.specs.Trees.{tree, names};

use opl_list::{Boxed, Seq};
use opl_reify::Part;

/// A comparison of linear sides with its opposite, or what connectives build of such. What joins others keeps its variables.
#[derive(Drop)]
pub enum Node {
    Literal(Part, Part),
    Not(Boxed<Node>),
    And(Seq<u32>, Seq<Node>),
    Or(Seq<u32>, Seq<Node>),
    Iff(Seq<u32>, Boxed<Node>, Boxed<Node>),
}

impl Node {
    /// The variables that it names.
    #[cycle(naming)]
    pub fn variables(&self) -> &[u32]
        ensures { result.now ≡ names (tree self.now) }
    {
        match self {
            Node::Literal(part, _opposite) => part.variables.as_slice(),
            Node::Not(node) => node.get().variables(),
            Node::And(variables, _nodes) => variables.as_slice(),
            Node::Or(variables, _nodes) => variables.as_slice(),
            Node::Iff(variables, _first, _second) => variables.as_slice(),
        }
    }
}
