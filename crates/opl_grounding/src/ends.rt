//! The ends of declared sets.
ghost use Rattle.std.specs.Prelude.{◌≡◌, ◌++◌, IfOk, OnOk, map};
ghost use Rattle.opl_form.specs.Laws.{declared_ends};

use opl_list::Seq;
use opl_meaning::{DeclaredSet, VariableItem};
use std::alloc::{AllocError, Global};

/// The ends of declared sets, behind others.
fn push_ends(ends: &mut Seq<(i64, i64)>, sets: &[DeclaredSet]) -> Result<(), AllocError>
    ensures { OnOk result (ends.new ≡ ends.old ++ map (λ set. (set.low, set.high)) sets.now) }
{
    for set in sets {
        ends.push((set.low, set.high))?;
    }
    Ok(())
}

/// The ends of the declared sets of all variables, in the order of their numbers.
pub(crate) fn ends_of(
    alloc: Global,
    variables: &[VariableItem],
) -> Result<Seq<(i64, i64)>, AllocError>
    ensures { IfOk result (λ ends. ends ≡ declared_ends variables.now) }
{
    let mut ends = Seq::new(alloc);
    for item in variables {
        push_ends(&mut ends, item.sets.as_slice())?;
    }
    Ok(ends)
}
