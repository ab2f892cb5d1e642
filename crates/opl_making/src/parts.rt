//! Parts behind others.
ghost use Rattle.std.specs.Prelude.{◌≡◌, ◌+◌, ◌++◌, ◌∷◌, [], IfOk, Ok};
ghost use Rattle.opl_nodes.specs.declared.context.Context.{Context};
ghost use Rattle.opl_nodes.specs.Pieces as pieces;
ghost use Rattle.opl_making.specs.Sites as spec;

use opl_nodes::{FormFault, Part, Parts};
use std::alloc::AllocError;

/// How many nodes were made behind a part, where so many were made before it. 2^64 and more count as want of memory.
pub fn nodes_behind(before: u64, part: &Part) -> Result<u64, AllocError>
    ensures { IfOk result (λ n. n ≡ before + part.now.nodes) }
{
    match before.checked_add(u64::from(part.nodes)) {
        Some(nodes) => Ok(nodes),
        None => Err(AllocError),
    }
}

/// The parts with one more behind them.
pub fn pushed(parts: Parts, part: Part) -> Result<Parts, FormFault>
    ensures { (c : Context) → pieces.AreParts c parts → pieces.IsPart c part → spec.MakesForms c parts.before (Ok (pieces.forms parts.items ++ pieces.form part ∷ [])) result }
{
    let mut parts = parts;
    parts.push(part)?;
    Ok(parts)
}
