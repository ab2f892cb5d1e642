//! The names of the variables that are declared.
ghost use Rattle.std.specs.Prelude.{◌≡◌, ◌++◌, map, IfOk, OnOk};
ghost use Rattle.opl_bind.specs.Keys.{keys};
ghost use Rattle.opl_given.specs.Elements.{left};
ghost use Rattle.opl_ground.specs.Names as spec;
ghost use Rattle.opl_show.specs.Readings.{names_of};
ghost use Rattle.opl_value.specs.Places.{lists};

use crate::element::element_name;
use opl_bind::Walk;
use opl_given::{Elements, elements_of};
use opl_list::Seq;
use opl_meaning::VariableItem;
use opl_token::Name;
use opl_value::IndexSpace;
use std::alloc::{AllocError, Global};

/// The index sets of an index space.
fn sets_of(alloc: Global, space: &IndexSpace) -> Result<Vec<Elements<'_>>, AllocError>
    ensures { IfOk result (λ sets. map left sets.items ≡ lists space.now) }
{
    let dims = space.dims.as_slice();
    let mut sets = Vec::new(alloc);
    for dimension in dims {
        sets.push(elements_of(dimension))?;
    }
    Ok(sets)
}

/// Adds the names of the elements of an array, in index order.
fn push_elements(
    alloc: Global,
    names: &mut Seq<Name>,
    enumerations: &[Seq<&[u8]>],
    name: &[u8],
    space: &IndexSpace,
) -> Result<(), AllocError>
    ensures { OnOk result (names.new ≡ names.old ++ map (spec.element_name (names_of enumerations.now) name.now) (keys (lists space.now))) }
{
    let sets = sets_of(alloc, space)?;
    let mut walk = Walk::new(alloc, sets.as_slice());
    while walk.advance()? {
        names.push(element_name(alloc, enumerations, name, walk.key())?)?;
    }
    Ok(())
}

/// Adds the name of a variable that is no array, or those of an array's elements.
fn push_names(
    alloc: Global,
    names: &mut Seq<Name>,
    enumerations: &[Seq<&[u8]>],
    item: &VariableItem,
) -> Result<(), AllocError>
    ensures { OnOk result (names.new ≡ names.old ++ spec.names_over (names_of enumerations.now) item.now.name item.now.space) }
{
    let name = item.name.as_slice();
    match &item.space {
        None => names.push(Name::from_slice(alloc, name)?),
        Some(space) => push_elements(alloc, names, enumerations, name, space),
    }
}

/// The names of all decision variables, in the order of their numbers: of a variable that is no array its own, and of an array
/// `NAME[k,..]` for each element in index order, where the parts of the key are written as values are.
pub fn variable_names(
    alloc: Global,
    enumerations: &[Seq<&[u8]>],
    items: &[VariableItem],
) -> Result<Seq<Name>, AllocError>
    ensures { IfOk result (λ names. names ≡ spec.variable_names (names_of enumerations.now) items.now) }
{
    let mut names = Seq::new(alloc);
    for item in items {
        push_names(alloc, &mut names, enumerations, item)?;
    }
    Ok(names)
}
