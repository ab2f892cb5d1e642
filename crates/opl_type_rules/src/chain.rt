//! What is known of an expression with subscripts and fields behind it, link by link.
ghost use Rattle.std.specs.Prelude.{◌≡◌, ◌++◌, [], map, reverse};
ghost use Rattle.opl_type_rules.specs.Steps as step;
ghost use Rattle.opl_type_rules.specs.Types.{sort};
ghost use Rattle.opl_type_rules.specs.Values.{Does, chained, node_of};

use crate::fault::TypeFault;
use crate::kind::Ty;
use crate::node::Node;
use crate::rules::append;
use opl_list::Seq;
use std::alloc::Global;
use std::mem;

/// An expression with what stands behind it so far. The types of the expressions in it are kept beside it, so that one link
/// more costs no more than what it adds.
#[derive(Drop)]
pub struct Chain {
    /// The whole, but for the types of the expressions in it.
    pub last: Node,
    /// The types of the links before the last, the first one first.
    pub before: Seq<Ty>,
    /// The types of the expressions in the first link, and in the subscripts.
    pub behind: Seq<Ty>,
}

/// The same expression, without the types of the expressions in it.
pub fn bare(alloc: Global, node: Node) -> Node
    ensures { node_of result ≡ step.with_inner [] (node_of node) }
{
    Node {
        inner: Seq::new(alloc),
        ..node
    }
}

/// An expression with nothing behind it yet.
pub fn begun(alloc: Global, node: Node) -> Chain
    ensures { chained result ≡ node_of node }
{
    let mut last = node;
    let behind = mem::replace(&mut last.inner, Seq::new(alloc));
    Chain {
        last,
        before: Seq::new(alloc),
        behind,
    }
}

/// The types in a link: the first of them is that of the link before it.
fn add_inner(before: &mut Seq<Ty>, behind: &mut Seq<Ty>, inner: Seq<Ty>) -> Result<(), TypeFault>
    ensures { Does (λ u. (before.new ≡ before.old ++ step.firsts inner) × (behind.new ≡ behind.old ++ step.others inner)) result }
{
    if inner.is_empty() {
        return Ok(());
    }
    let mut types = inner.into_vec();
    before.push(types.remove(0))?;
    append(behind, Seq::from_vec(types))?;
    Ok(())
}

/// One link more behind those that have these types.
pub fn extended(
    alloc: Global,
    before: Seq<Ty>,
    behind: Seq<Ty>,
    last: Node,
) -> Result<Chain, TypeFault>
    ensures { Does (λ r. chained r ≡ step.grown (reverse (map sort before) ++ map sort behind) (node_of last)) result }
{
    let mut before = before;
    let mut behind = behind;
    let mut last = last;
    let inner = mem::replace(&mut last.inner, Seq::new(alloc));
    add_inner(&mut before, &mut behind, inner)?;
    Ok(Chain {
        last,
        before,
        behind,
    })
}

/// The expression with all that stands behind it.
pub fn ended(chain: Chain) -> Result<Node, TypeFault>
    ensures { Does (λ r. node_of r ≡ chained chain) result }
{
    let Chain {
        last,
        before,
        behind,
    } = chain;
    let mut types = before.into_vec();
    types.reverse();
    let mut inner = Seq::from_vec(types);
    append(&mut inner, behind)?;
    Ok(Node { inner, ..last })
}
