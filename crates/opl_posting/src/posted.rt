//! Constraints one behind another.
ghost use Rattle.std.specs.Prelude.{◌≡◌, ◌+◌, ◌++◌, ◌∷◌, [], Ok};
ghost use Rattle.opl_form.specs.Parts.{as_condition};
ghost use Rattle.opl_form.specs.Measures.{part_nodes};
ghost use Rattle.opl_nodes.specs.Pieces.{form};
ghost use Rattle.opl_posting.specs.Walks as spec;

use opl_expr::Cons;
use opl_list::Seq;
use opl_making::nodes_behind;
use opl_nodes::{FormFault, Part};
use opl_truths::into_condition;
use std::alloc::Global;

/// Constraints, and how many nodes all of them have.
#[derive(Drop)]
pub(crate) struct Posted {
    pub(crate) constraints: Seq<Cons>,
    pub(crate) nodes: u64,
}

/// The constraints with one more behind them. 2^64 nodes and more count as want of memory.
pub(crate) fn pushed(alloc: Global, posted: Posted, part: Part) -> Result<Posted, FormFault>
    ensures { (part.nodes ≡ part_nodes (form part)) → spec.PostsBehind (Ok (posted.constraints ++ as_condition (form part) ∷ [], posted.nodes + part_nodes (form part))) result }
{
    let nodes = nodes_behind(posted.nodes, &part)?;
    let condition = into_condition(alloc, part)?;
    let mut constraints = posted.constraints;
    constraints.push(condition.into_inner())?;
    Ok(Posted { constraints, nodes })
}
