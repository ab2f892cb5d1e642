//! The arrays of data.
ghost use Rattle.std.specs.Prelude.{◌≡◌, ◌++◌, [], IfOk, OnOk, map};
ghost use Rattle.std.specs.Option.{option_map};
ghost use Rattle.opl_eval.specs.Visible.{lent, seen};
ghost use Rattle.opl_draft.specs.Numbers.{arrays_of, data_cells, data_entries, with_cells};
ghost use Rattle.opl_nodes.specs.Contexts.{cells};

use opl_eval::{Environment, Item};
use opl_list::Seq;
use opl_nodes::{Array, Leaves};
use opl_value::Value;
use std::alloc::{AllocError, Global};

/// The array that a declared name stands for, if it is one.
#[tactic(auto, using(crate::proofs::Variants::kinds))]
fn data_array(item: Item<'_>) -> Option<Array<'_>>
    ensures { option_map cells result ≡ data_cells item.entry.name.now item.entry.value.now }
{
    match item.value {
        Value::Array(space, elements) => {
            Some(Array {
                name: item.name,
                space,
                leaves: Leaves::Listed(elements.as_slice()),
            })
        }
        Value::Int(_)
        | Value::Bool(_)
        | Value::Enum(..)
        | Value::Record(_)
        | Value::Set(_)
        | Value::Range(..)
        | Value::Names(_) => None,
    }
}

/// One array more, if it is one.
pub(crate) fn push_array<'a>(
    arrays: &mut Seq<Array<'a>>,
    array: Option<Array<'a>>,
) -> Result<(), AllocError>
    ensures { OnOk result (map cells arrays.new ≡ map cells arrays.old ++ with_cells (option_map cells array.entry) []) }
{
    match array {
        Some(array) => arrays.push(array),
        None => Ok(()),
    }
}

/// The arrays of data, in the order of their declarations.
pub(crate) fn data_arrays<'a>(
    alloc: Global,
    environment: &'a Environment<'_>,
) -> Result<Seq<Array<'a>>, AllocError>
    ensures { IfOk result (λ arrays. map cells arrays ≡ arrays_of (data_entries (seen environment.now).items)) }
{
    let mut arrays = Seq::new(alloc);
    for place in 0..usize::MAX {
        match environment.item(place) {
            Some(item) => push_array(&mut arrays, data_array(item))?,
            None => return Ok(arrays),
        }
    }
    Err(AllocError)
}
