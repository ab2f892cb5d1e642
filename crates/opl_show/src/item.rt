//! The texts of variables' values.
ghost use Rattle.std.specs.Prelude.{◌≡◌, ◌++◌, OnOk};
ghost use Rattle.opl_meaning.specs.Assigned.{first_of, item_value};
ghost use Rattle.opl_show.specs.Readings.{names_of};
ghost use Rattle.opl_show.specs.Texts.{value_text};

use crate::cells::Cells;
use crate::name::push_number;
use crate::value::push_array;
use opl_list::Seq;
use opl_meaning::VariableItem;
use std::alloc::{AllocError, Global};

/// The first of the numbers; 0 where there are none.
fn first(numbers: &[i128]) -> i128
    ensures { result ≡ first_of numbers.now }
{
    match numbers.first() {
        Some(number) => *number,
        None => 0,
    }
}

/// Adds the text of the value of a declared variable, or of an array of them, under its part of an assignment.
#[tactic(auto, using(crate::proofs::Texts::texts))]
pub(crate) fn push_item(
    alloc: Global,
    text: &mut Vec<u8>,
    enumerations: &[Seq<&[u8]>],
    item: &VariableItem,
    numbers: &[i128],
) -> Result<(), AllocError>
    ensures { OnOk result (text.new.items ≡ text.old.items ++ value_text (names_of enumerations.now) (item_value item.now.kind item.now.space numbers.now)) }
{
    match &item.space {
        None => {
            let number = first(numbers);
            push_number(text, enumerations, item.kind, &number)?;
        }
        Some(space) => {
            let cells = Cells::Numbers(item.kind, numbers);
            push_array(alloc, text, enumerations, space.dims.as_slice(), cells)?;
        }
    }
    Ok(())
}
