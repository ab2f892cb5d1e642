//! All arrays of a model.
ghost use Rattle.std.specs.Prelude.{◌≡◌, IfOk, map};
ghost use Rattle.opl_eval.specs.Visible.{seen};
ghost use Rattle.opl_draft.specs.Numbers.{arrays_of, entries};
ghost use Rattle.opl_nodes.specs.Contexts.{cells};

use crate::data::data_arrays;
use crate::variables::push_variables;
use opl_eval::Environment;
use opl_list::Seq;
use opl_meaning::VariableItem;
use opl_nodes::Array;
use std::alloc::{AllocError, Global};

/// The arrays of a model: those of data, then those of variables, each in the order of the declarations.
pub(crate) fn all_arrays<'a>(
    alloc: Global,
    environment: &'a Environment<'_>,
    variables: &'a [VariableItem],
) -> Result<Seq<Array<'a>>, AllocError>
    ensures { IfOk result (λ arrays. map cells arrays ≡ arrays_of (entries (seen environment.now).items variables.now)) }
{
    let mut arrays = data_arrays(alloc, environment)?;
    push_variables(&mut arrays, variables)?;
    Ok(arrays)
}
