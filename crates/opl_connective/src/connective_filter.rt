//! The filter of connectives inside one another.
ghost use Rattle.std.specs.Prelude.{◌≡◌, IfOk};
ghost use Rattle.opl_domain.specs.Family.{Below};
ghost use Rattle.opl_expr.specs.Forms.{Fact, fact};
ghost use Rattle.opl_expr.specs.Solutions.{declared};
ghost use Rattle.opl_expr.specs.Sound.{IsSoundFact};
ghost use Rattle.opl_filter.specs.Filtering.{refutes, IsBetween, Filters};
ghost use Rattle.opl_connective.specs.Connectives.{IsMadeOfNodes, IsConnectiveFor, IsConnectiveIfAny};
ghost use Rattle.opl_connective.specs.Kinds.{IsThereFor};
ghost use Rattle.opl_connective.specs.Ends.{sees_ends};

use crate::deciding::node_sees_ends;
use crate::filtering::filter_node;
use crate::making::node_of;
use crate::node::Node;
use opl_domain::{Narrow, OutOfMemory};
use opl_expr::{Cons, Core};
use opl_filter::Outcome;
use opl_list::Boxed;
use std::alloc::Global;

/// What connectives build of comparisons of linear sides.
#[derive(Drop)]
pub struct ConnectiveFilter {
    node: Boxed<Node>,
}

impl ConnectiveFilter {
    /// The filter of a constraint, exactly where conjunctions, disjunctions, implications, equivalences and opposites build it of
    /// comparisons of linear sides.
    pub fn new(
        alloc: Global,
        core: &Core,
        c: &Cons,
    ) -> Result<Option<ConnectiveFilter>, OutOfMemory>
        requires { IsSoundFact core.now.sets (fact core.now.tables core.now.resources c.now) }
        ensures filter { IfOk result (IsConnectiveIfAny core.now (fact core.now.tables core.now.resources c.now)) }
        ensures kind { IfOk result (IsThereFor core.now c.now) }
    {
        match node_of(alloc, core, c)? {
            None => Ok(None),
            Some(node) => Ok(Some(ConnectiveFilter { node })),
        }
    }

    /// Whether it has anything to remove only after a set has lost its least or greatest value.
    pub fn sees_ends(&self) -> bool
        ensures { result ≡ sees_ends self.now }
    {
        node_sees_ends(self.node.get(), false)
    }

    /// Removes values that the constraint refutes alone at that moment, until the family is stable for it, or until none within
    /// is. All values must be declared. It takes no memory.
    pub fn filter<N: Narrow>(&self, core: &Core, n: &mut N) -> Outcome
        requires made { IsMadeOfNodes core.now self.now }
        requires declared { Below (N.family n.old) (declared core.now) }
        ensures between { (c : Fact) → IsConnectiveFor core.now c self.now → IsBetween (refutes c) (N.family n.old) (N.family n.new) }
        ensures outcome { (c : Fact) → IsConnectiveFor core.now c self.now → Filters (refutes c) (N.family n.old) (N.family n.new) result }
        ensures leads_to { N.leads_to n.old n.new }
    {
        filter_node(core, self.node.get(), n)
    }
}
