//! Arrays by their numbers.
ghost use Rattle.std.specs.Prelude.{◌≡◌};
ghost use Rattle.std.specs.Option.{option_copied, option_map};
ghost use Rattle.opl_form.specs.Made.{array_of};
ghost use Rattle.opl_nodes.specs.Contexts.{arrays, cells};

use opl_nodes::{Array, Context};

/// The array of this number.
pub fn array_at<'a>(context: &Context<'a>, array: Option<u32>) -> Option<&'a Array<'a>>
    ensures { option_map cells (option_copied result) ≡ array_of (arrays context.now) array }
{
    match array {
        Some(number) => context.arrays.get(number as usize),
        None => None,
    }
}
