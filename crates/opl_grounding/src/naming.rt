//! The declarations of variables and the names of arrays.
ghost use Rattle.std.specs.Prelude.{◌≡◌, IfOk, map};
ghost use Rattle.opl_declared.specs.Kept.{firsts_of, texts_of};
ghost use Rattle.opl_nodes.specs.Contexts.{cells};

use opl_declared::Declared;
use opl_meaning::VariableItem;
use opl_nodes::Array;
use std::alloc::{AllocError, Global};

/// These declarations of variables, and the names of these arrays in their order.
pub(crate) fn declared_with<'a>(
    alloc: Global,
    variables: &'a [VariableItem],
    arrays: &[Array<'a>],
) -> Result<Declared<'a>, AllocError>
    ensures items { IfOk result (λ d. d.items.now ≡ variables.now) }
    ensures names { IfOk result (λ d. texts_of d.names ≡ map (λ v. v.name) variables.now) }
    ensures firsts { IfOk result (λ d. d.firsts ≡ firsts_of 0 variables.now) }
    ensures arrays { IfOk result (λ d. texts_of d.arrays ≡ map (λ a. a.name) (map cells arrays.now)) }
{
    let mut declared = Declared::new(alloc, variables)?;
    for array in arrays {
        declared = declared.with_array(array.name)?;
    }
    Ok(declared)
}
