//! One round over a node.
ghost use Rattle.std.specs.Prelude.{◌≡◌, ◌<◌, false, map, length};
ghost use Rattle.opl_domain.specs.Family.{Below};
ghost use Rattle.opl_expr.specs.Solutions.{declared};
ghost use Rattle.opl_trace.specs.Stable.{IsMonotone};
ghost use Rattle.opl_trace.specs.Removals.{CanNarrow};
ghost use Rattle.opl_filter.specs.Filtering.{refutes};
ghost use Rattle.opl_filter.specs.Rounds.{AreThere};
ghost use Rattle.opl_reify.specs.Parts.{fact_in, IsPart};
ghost use Rattle.opl_connective.specs.Trees.{tree, is_refuted, some_refuted, all_refuted, iff_refuted};
ghost use Rattle.opl_connective.specs.Nodes.{IsTree, AreNodes, IsOpenAt, IsOpen};
ghost use Rattle.opl_connective.specs.Rounds.{Goes, SparesOthers};

use crate::node::Node;
use crate::open::{NoneOpen, Unlike};
use crate::refuting::{Side, first_told, side_left};
use opl_domain::{Narrow, View};
use opl_expr::Core;
use opl_filter::Outcome;
use opl_reify::{Part, try_shared};
use opl_trace::Test;

/// Filters by a comparison.
fn by_part<N: Narrow>(core: &Core, part: &Part, n: &mut N) -> bool
    requires part { IsPart core.now part.now }
    requires declared { Below (N.family n.old) (declared core.now) }
    ensures goes { Goes (refutes (fact_in core.now part.now)) (N.family n.old) (N.family n.new) result }
    ensures leads_to { N.leads_to n.old n.new }
{
    match part.filter.filter(core, n) {
        Outcome::Stable => true,
        Outcome::Failed => false,
    }
}

/// Tries the values of the variables that two lists share, where no value of another variable is dead.
fn by_values<T: Test, N: Narrow>(test: &T, first: &[u32], second: &[u32], n: &mut N) -> bool
    requires falls { IsMonotone (T.dead test.now) }
    requires tests { CanNarrow (T.can_test test.now) (N.family n.old) }
    requires there { AreThere first.now (N.family n.old) }
    requires spared { T.dead test.now (N.family n.old) ≡ false }
    requires first { SparesOthers (T.dead test.now) first.now (N.family n.old) }
    requires second { SparesOthers (T.dead test.now) second.now (N.family n.old) }
    ensures goes { Goes (T.dead test.now) (N.family n.old) (N.family n.new) result }
    ensures leads_to { N.leads_to n.old n.new }
{
    // No set is empty: a view says so with its number of variables.
    let _vars = n.vars();
    match try_shared(test, first, second, n) {
        None => false,
        Some(_removed) => true,
    }
}

/// Tries the values of the variables that two open nodes share, of which one is to hold, or its opposite.
fn by_two<N: Narrow>(
    core: &Core,
    nodes: &[Node],
    is_opposite: bool,
    first: usize,
    second: usize,
    n: &mut N,
) -> bool
    requires nodes { AreNodes core.now nodes.now }
    requires declared { Below (N.family n.old) (declared core.now) }
    requires first { IsOpenAt core.now (N.family n.old) is_opposite nodes.now first }
    requires second { IsOpenAt core.now (N.family n.old) is_opposite nodes.now second }
    ensures goes { Goes (all_refuted core.now is_opposite (map tree nodes.now)) (N.family n.old) (N.family n.new) result }
    ensures leads_to { N.leads_to n.old n.new }
{
    // No set is empty: a view says so with its number of variables.
    let _vars = n.vars();
    let test = NoneOpen {
        core,
        nodes,
        is_opposite,
    };
    let variables = nodes[first].variables();
    let others = nodes[second].variables();
    by_values(&test, variables, others, n)
}

/// Tries the values of the variables that two open nodes share, which are to be alike, or to differ.
fn by_unlike<N: Narrow>(
    core: &Core,
    first: &Node,
    second: &Node,
    is_opposite: bool,
    n: &mut N,
) -> bool
    requires first { IsTree core.now (tree first.now) }
    requires second { IsTree core.now (tree second.now) }
    requires declared { Below (N.family n.old) (declared core.now) }
    requires first_open { IsOpen core.now (N.family n.old) (tree first.now) }
    requires second_open { IsOpen core.now (N.family n.old) (tree second.now) }
    ensures goes { Goes (iff_refuted core.now is_opposite (tree first.now) (tree second.now)) (N.family n.old) (N.family n.new) result }
    ensures leads_to { N.leads_to n.old n.new }
{
    // No set is empty: a view says so with its number of variables.
    let _vars = n.vars();
    let test = Unlike {
        core,
        first,
        second,
        is_opposite,
    };
    let variables = first.variables();
    let others = second.variables();
    by_values(&test, variables, others, n)
}

/// Removes values that the node, or its opposite, refutes alone at that moment. False comes where no family within is stable for it; else the
/// family is, if no value has gone.
#[cycle(rounds)]
pub fn round<N: Narrow>(core: &Core, node: &Node, is_opposite: bool, n: &mut N) -> bool
    requires node { IsTree core.now (tree node.now) }
    requires declared { Below (N.family n.old) (declared core.now) }
    ensures goes { Goes (is_refuted core.now is_opposite (tree node.now)) (N.family n.old) (N.family n.new) result }
    ensures leads_to { N.leads_to n.old n.new }
{
    // No set is empty: a view says so with its number of variables.
    let _vars = n.vars();
    match node {
        Node::Literal(part, opposite) => {
            if is_opposite {
                by_part(core, opposite, n)
            } else {
                by_part(core, part, n)
            }
        }
        Node::Not(node) => round(core, node.get(), !is_opposite, n),
        Node::And(_variables, parts) => {
            let parts = parts.as_slice();
            if is_opposite {
                return round_any(core, parts, true, n);
            }
            round_all(core, parts, false, n)
        }
        Node::Or(_variables, parts) => {
            let parts = parts.as_slice();
            if is_opposite {
                return round_all(core, parts, true, n);
            }
            round_any(core, parts, false, n)
        }
        Node::Iff(_variables, a, b) => {
            let first = a.get();
            let second = b.get();
            match side_left(core, first, second, is_opposite, &*n) {
                Side::First(is_opposite) => round(core, first, is_opposite, n),
                Side::Second(is_opposite) => round(core, second, is_opposite, n),
                Side::Both => by_unlike(core, first, second, is_opposite, n),
            }
        }
    }
}

/// The same where each of some nodes is to hold, or its opposite: a round over each in turn.
#[cycle(rounds)]
fn round_all<N: Narrow>(core: &Core, nodes: &[Node], is_opposite: bool, n: &mut N) -> bool
    requires nodes { AreNodes core.now nodes.now }
    requires declared { Below (N.family n.old) (declared core.now) }
    ensures goes { Goes (some_refuted core.now is_opposite (map tree nodes.now)) (N.family n.old) (N.family n.new) result }
    ensures leads_to { N.leads_to n.old n.new }
{
    // No set is empty: a view says so with its number of variables.
    let _vars = n.vars();
    for node in nodes {
        if !round(core, node, is_opposite, n) {
            return false;
        }
    }
    true
}

/// The same where one of some nodes is to hold, or its opposite: a round over that which alone is open. Where two are, only values of variables
/// that both name can be dead.
#[cycle(rounds)]
fn round_any<N: Narrow>(core: &Core, nodes: &[Node], is_opposite: bool, n: &mut N) -> bool
    requires nodes { AreNodes core.now nodes.now }
    requires declared { Below (N.family n.old) (declared core.now) }
    ensures goes { Goes (all_refuted core.now is_opposite (map tree nodes.now)) (N.family n.old) (N.family n.new) result }
    ensures leads_to { N.leads_to n.old n.new }
{
    // No set is empty: a view says so with its number of variables.
    let _vars = n.vars();
    match first_told(core, nodes, is_opposite, false, 0, &*n) {
        None => false,
        Some(first) => match first_told(core, nodes, is_opposite, false, first + 1, &*n) {
            None => round(core, &nodes[first], is_opposite, n),
            Some(second) => by_two(core, nodes, is_opposite, first, second, n),
        },
    }
}
