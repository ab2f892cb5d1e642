//! How deep parts nest as conditions, and how many nodes they have.
ghost use Rattle.std.specs.Prelude.{◌≡◌, ◌≤◌, ◌+◌, All, IfOk, max};
ghost use Rattle.opl_form.specs.Measures.{depth_of, nodes_of};
ghost use Rattle.opl_truths.specs.Conditions as spec;

use opl_nodes::{Form, Part};
use std::alloc::AllocError;

/// The greater of two depths.
fn deeper(one: u32, other: u32) -> u32
    ensures { result ≡ max one other }
{
    if one < other { other } else { one }
}

/// How deep a part nests as a condition.
pub(crate) fn condition_depth(part: &Part) -> u32
    requires { spec.IsMeasured part.now }
    ensures value { result ≡ depth_of (spec.condition part.now) }
    ensures bound { result ≤ 2050 }
{
    match &part.form {
        Form::Known(_) | Form::Condition(_) => part.depth,
        Form::Number(_) | Form::Name(..) => deeper(1, part.depth) + 2,
        Form::Truth(_) => part.depth - 1,
    }
}

/// How many nodes a part has as a condition.
pub(crate) fn condition_nodes(part: &Part) -> u64
    requires { spec.IsMeasured part.now }
    ensures value { result ≡ nodes_of (spec.condition part.now) }
    ensures bound { result ≤ 8388613 }
{
    let nodes = u64::from(part.nodes);
    match &part.form {
        Form::Known(_) | Form::Condition(_) => nodes,
        Form::Number(_) | Form::Name(..) => 2 * nodes + 5,
        Form::Truth(_) => nodes - 1,
    }
}

/// How deep a condition of two nests.
pub(crate) fn pair_depth(left: &Part, right: &Part) -> u32
    requires left { spec.IsMeasured left.now }
    requires right { spec.IsMeasured right.now }
    ensures { result ≡ max (depth_of (spec.condition left.now)) (depth_of (spec.condition right.now)) + 1 }
{
    deeper(condition_depth(left), condition_depth(right)) + 1
}

/// How many nodes a condition of two has.
pub(crate) fn pair_nodes(left: &Part, right: &Part) -> u64
    requires left { spec.IsMeasured left.now }
    requires right { spec.IsMeasured right.now }
    ensures { result ≡ nodes_of (spec.condition left.now) + nodes_of (spec.condition right.now) + 1 }
{
    condition_nodes(left) + condition_nodes(right) + 1
}

/// How deep a condition of these parts nests.
pub(crate) fn list_depth(parts: &[Part]) -> u32
    requires { All spec.IsMeasured parts.now }
    ensures { result ≡ spec.deepest parts.now + 1 }
{
    let mut depth = 0;
    for part in parts {
        depth = deeper(depth, condition_depth(part));
    }
    depth + 1
}

/// How many nodes a condition of these parts has. What 64 bits don't count is want of memory.
pub(crate) fn list_nodes(parts: &[Part]) -> Result<u64, AllocError>
    requires { All spec.IsMeasured parts.now }
    ensures { IfOk result (λ nodes. nodes ≡ spec.nodes_in parts.now + 1) }
{
    let mut nodes: u64 = 1;
    for part in parts {
        let Some(more) = nodes.checked_add(condition_nodes(part)) else {
            return Err(AllocError);
        };
        nodes = more;
    }
    Ok(nodes)
}
