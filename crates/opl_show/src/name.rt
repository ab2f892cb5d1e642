//! Numbers and names.
ghost use Rattle.std.specs.Prelude.{◌≡◌, ◌++◌, OnOk};
ghost use Rattle.opl_show.specs.Readings.{names_of};
ghost use Rattle.opl_meaning.specs.Assigned.{position_of, value_of};
ghost use Rattle.opl_show.specs.Texts.{name_text, value_text};

use itoa::Buffer;
use opl_list::Seq;
use opl_meaning::Kind;
use std::alloc::AllocError;

/// Adds the name at that position of the enumeration with that number of its declaration; nothing where there is none.
pub(crate) fn push_name(
    text: &mut Vec<u8>,
    enumerations: &[Seq<&[u8]>],
    declaration: u32,
    position: u128,
) -> Result<(), AllocError>
    ensures { OnOk result (text.new.items ≡ text.old.items ++ name_text (names_of enumerations.now) declaration position) }
{
    let Some(names) = enumerations.get(declaration as usize) else {
        return Ok(());
    };
    if position < names.len() as u128 {
        let name = names.as_slice()[position as usize];
        text.extend_from_slice(name)?;
    }
    Ok(())
}

/// The position that a number stands for: 0 where it is below.
fn position(number: &i128) -> u128
    ensures { result ≡ position_of number.now }
{
    u128::try_from(*number).unwrap_or(0)
}

/// Adds the text of the value of this kind that a number stands for.
#[tactic(auto, using(crate::proofs::Texts::texts))]
pub(crate) fn push_number(
    text: &mut Vec<u8>,
    enumerations: &[Seq<&[u8]>],
    kind: Kind,
    number: &i128,
) -> Result<(), AllocError>
    ensures { OnOk result (text.new.items ≡ text.old.items ++ value_text (names_of enumerations.now) (value_of kind number.now)) }
{
    match kind {
        Kind::Number => {
            text.extend_from_slice(Buffer::new().format(*number).as_bytes())?;
        }
        Kind::Enumeration(declaration) => {
            push_name(text, enumerations, declaration, position(number))?;
        }
    }
    Ok(())
}
