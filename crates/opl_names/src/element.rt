//! The name of an element of an array.
ghost use Rattle.std.specs.Prelude.{◌≡◌, ◌++◌, map, IfOk, OnOk};
ghost use Rattle.opl_bind.specs.Keys.{chosen};
ghost use Rattle.opl_ground.specs.Names as spec;
ghost use Rattle.opl_show.specs.Readings.{names_of};
ghost use Rattle.opl_show.specs.Texts.{joined, value_text};

use opl_bind::Turn;
use opl_list::Seq;
use opl_show::push_value;
use opl_token::Name;
use std::alloc::{AllocError, Global};

/// Adds the texts of a key, with `,` between them.
fn push_key(
    alloc: Global,
    text: &mut Vec<u8>,
    enumerations: &[Seq<&[u8]>],
    key: &[Turn<'_, '_>],
) -> Result<(), AllocError>
    ensures { OnOk result (text.new.items ≡ text.old.items ++ joined (map (value_text (names_of enumerations.now)) (chosen key.now))) }
{
    let Some((first, others)) = key.split_first() else {
        return Ok(());
    };
    push_value(alloc, text, enumerations, first.element.get())?;
    for turn in others {
        text.extend_from_slice(b",")?;
        push_value(alloc, text, enumerations, turn.element.get())?;
    }
    Ok(())
}

/// The name of the element at a key of the array of this name: `NAME[k,..]`.
pub(crate) fn element_name(
    alloc: Global,
    enumerations: &[Seq<&[u8]>],
    name: &[u8],
    key: &[Turn<'_, '_>],
) -> Result<Name, AllocError>
    ensures { IfOk result (λ text. text ≡ spec.element_name (names_of enumerations.now) name.now (chosen key.now)) }
{
    let mut text = Vec::from_slice(alloc, name)?;
    text.extend_from_slice(b"[")?;
    push_key(alloc, &mut text, enumerations, key)?;
    text.extend_from_slice(b"]")?;
    Ok(Name::from_vec(text))
}
