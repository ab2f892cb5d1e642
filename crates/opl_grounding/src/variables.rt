//! The arrays of decision variables.
ghost use Rattle.std.specs.Prelude.{◌≡◌, ◌+◌, ◌++◌, IfOk, OnOk, length, map};
ghost use Rattle.std.specs.Option.{option_map};
ghost use Rattle.opl_draft.specs.Numbers.{arrays_of, variable_cells, variable_entries};
ghost use Rattle.opl_nodes.specs.Contexts.{cells};

use crate::data::push_array;
use opl_list::Seq;
use opl_meaning::VariableItem;
use opl_nodes::{Array, Leaves};
use std::alloc::AllocError;

/// The array of variables of which the first has this number, and of which there are so many, if it is one.
fn variable_array(item: &VariableItem, first: u32, count: u32) -> Option<Array<'_>>
    requires { count ≡ length item.now.sets }
    ensures { option_map cells result ≡ variable_cells item.now first item.now.space }
{
    match &item.space {
        Some(space) => {
            Some(Array {
                name: item.name.as_slice(),
                space,
                leaves: Leaves::Numbered(item.kind, first, count),
            })
        }
        None => None,
    }
}

/// How many variables a declaration has.
fn count_of(item: &VariableItem) -> Result<u32, AllocError>
    ensures { IfOk result (λ count. count ≡ length item.now.sets) }
{
    match u32::try_from(item.sets.len()) {
        Ok(count) => Ok(count),
        Err(_) => Err(AllocError),
    }
}

/// The number that comes so many behind another.
pub(crate) fn behind(number: u32, count: u32) -> Result<u32, AllocError>
    ensures { IfOk result (λ r. r ≡ number + count) }
{
    match number.checked_add(count) {
        Some(sum) => Ok(sum),
        None => Err(AllocError),
    }
}

/// The arrays of these variables, behind other arrays. From 2^32 variables on memory is wanting.
pub(crate) fn push_variables<'a>(
    arrays: &mut Seq<Array<'a>>,
    items: &'a [VariableItem],
) -> Result<(), AllocError>
    ensures { OnOk result (map cells arrays.new ≡ map cells arrays.old ++ arrays_of (variable_entries 0 items.now)) }
{
    let mut number = 0;
    for item in items {
        let count = count_of(item)?;
        push_array(arrays, variable_array(item, number, count))?;
        number = behind(number, count)?;
    }
    Ok(())
}
