//! The nodes of constraints.
ghost use Rattle.std.specs.Prelude.{◌≡◌, ◌∷◌, [], ℕ, IfOk, map};
ghost use Rattle.opl_expr.specs.Forms.{Fact, fact, facts_of};
ghost use Rattle.opl_expr.specs.Sound.{IsSoundFact, AreSoundFacts};
ghost use Rattle.opl_reify.specs.Parts.{IsPartOf};
ghost use Rattle.opl_reify.specs.Literals.{IsLiteral};
ghost use Rattle.opl_connective.specs.declared.node.Node.TheVariants as variants;
ghost use Rattle.opl_connective.specs.Connectives.{IsNodeIfAny, AreNodesIfAny};
ghost use Rattle.opl_connective.specs.Kinds.{IsThereFor, AreThereFor, IsLiteralThere};

use crate::node::Node;
use opl_domain::OutOfMemory;
use opl_expr::{Cons, Core};
use opl_filter::variables_of;
use opl_list::{Boxed, Seq};
use opl_reify::{Part, literal};
use std::alloc::Global;

/// The node of a comparison, by its part and that of its opposite.
fn with_opposite(
    alloc: Global,
    core: &Core,
    c: &Cons,
    part: Part,
) -> Result<Option<Boxed<Node>>, OutOfMemory>
    requires sound { IsSoundFact core.now.sets (fact core.now.tables core.now.resources c.now) }
    requires part { IsPartOf core.now (fact core.now.tables core.now.resources c.now) part }
    ensures node { IfOk result (IsNodeIfAny core.now (fact core.now.tables core.now.resources c.now)) }
    ensures kind { IfOk result (IsLiteralThere core.now c.now) }
{
    match literal(alloc, core, c, true)? {
        None => Ok(None),
        Some(opposite) => Ok(Some(Boxed::new(alloc, Node::Literal(part, opposite))?)),
    }
}

/// The node of a comparison of linear sides, if the constraint is one, or the opposite of one.
fn leaf(alloc: Global, core: &Core, c: &Cons) -> Result<Option<Boxed<Node>>, OutOfMemory>
    requires { IsSoundFact core.now.sets (fact core.now.tables core.now.resources c.now) }
    ensures node { IfOk result (IsNodeIfAny core.now (fact core.now.tables core.now.resources c.now)) }
    ensures kind { IfOk result (IsLiteralThere core.now c.now) }
{
    match literal(alloc, core, c, false)? {
        None => Ok(None),
        Some(part) => with_opposite(alloc, core, c, part),
    }
}

/// The node of an implication: the opposite of the first side holds, or the second.
fn implication(
    alloc: Global,
    variables: Seq<u32>,
    first: Boxed<Node>,
    second: Boxed<Node>,
) -> Result<Boxed<Node>, OutOfMemory>
    ensures { IfOk result (λ n. n ≡ variants.Or variables (variants.Not first ∷ second ∷ [])) }
{
    let mut nodes = Seq::new(alloc);
    nodes.push(Node::Not(first))?;
    nodes.push(second.into_inner())?;
    Ok(Boxed::new(alloc, Node::Or(variables, nodes))?)
}

/// The node of a constraint, if connectives build it of comparisons of linear sides.
#[cycle(making)]
pub fn node_of(alloc: Global, core: &Core, c: &Cons) -> Result<Option<Boxed<Node>>, OutOfMemory>
    requires { IsSoundFact core.now.sets (fact core.now.tables core.now.resources c.now) }
    ensures node { IfOk result (IsNodeIfAny core.now (fact core.now.tables core.now.resources c.now)) }
    ensures kind { IfOk result (IsThereFor core.now c.now) }
{
    match c {
        Cons::Fixed(_b) => Ok(None),
        Cons::Cmp(_op, _a, _b) => leaf(alloc, core, c),
        Cons::And(parts) => {
            let variables = variables_of(alloc, core, c)?;
            match nodes_of(alloc, core, parts.as_slice())? {
                None => Ok(None),
                Some(nodes) => Ok(Some(Boxed::new(alloc, Node::And(variables, nodes))?)),
            }
        }
        Cons::Or(parts) => {
            let variables = variables_of(alloc, core, c)?;
            match nodes_of(alloc, core, parts.as_slice())? {
                None => Ok(None),
                Some(nodes) => Ok(Some(Boxed::new(alloc, Node::Or(variables, nodes))?)),
            }
        }
        Cons::Imp(a, b) => {
            let variables = variables_of(alloc, core, c)?;
            let b = b.get();
            match node_of(alloc, core, a.get())? {
                None => Ok(None),
                Some(first) => match node_of(alloc, core, b)? {
                    None => Ok(None),
                    Some(second) => Ok(Some(implication(alloc, variables, first, second)?)),
                },
            }
        }
        Cons::Iff(a, b) => {
            let variables = variables_of(alloc, core, c)?;
            let b = b.get();
            match node_of(alloc, core, a.get())? {
                None => Ok(None),
                Some(first) => match node_of(alloc, core, b)? {
                    None => Ok(None),
                    Some(second) => {
                        Ok(Some(Boxed::new(alloc, Node::Iff(variables, first, second))?))
                    }
                },
            }
        }
        Cons::Not(a) => match node_of(alloc, core, a.get())? {
            None => Ok(None),
            Some(node) => Ok(Some(Boxed::new(alloc, Node::Not(node))?)),
        },
        Cons::AllDifferent(_parts) => Ok(None),
        Cons::Capacity(_resource, _time) => Ok(None),
        Cons::Bound(_x) => Ok(None),
    }
}

/// The nodes of constraints, if each has one.
#[cycle(making)]
fn nodes_of(alloc: Global, core: &Core, cs: &[Cons]) -> Result<Option<Seq<Node>>, OutOfMemory>
    requires { AreSoundFacts core.now.sets (facts_of (map (fact core.now.tables core.now.resources) cs.now)) }
    ensures nodes { IfOk result (AreNodesIfAny core.now (map (fact core.now.tables core.now.resources) cs.now)) }
    ensures kind { IfOk result (AreThereFor core.now cs.now) }
{
    let mut found = Seq::new(alloc);
    for c in cs {
        match node_of(alloc, core, c)? {
            None => return Ok(None),
            Some(node) => found.push(node.into_inner())?,
        }
    }
    Ok(Some(found))
}
