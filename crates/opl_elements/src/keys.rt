//! The places that keys without variables have in arrays.
ghost use Rattle.std.specs.Prelude.{◌≡◌, ◌<◌, ◌^◌, false, IfOk, length, map};
ghost use Rattle.std.specs.List.{list_any};
ghost use Rattle.opl_value.specs.Places.{dimension_values, elements, has_none, lists};
ghost use Rattle.opl_nodes.specs.Pieces as pieces;
ghost use Rattle.opl_elements.specs.Places as spec;

use crate::dimensions::subscript_place;
use opl_nodes::Part;
use opl_value::{Dimension, IndexSpace};
use std::alloc::AllocError;

/// The index sets of an array.
pub fn dimensions(space: &IndexSpace) -> &[Dimension]
    ensures { map dimension_values result.now ≡ lists space.now }
{
    space.dims.as_slice()
}

/// The place of the element that subscripts without variables name; None exactly where one is no index, or they are not one for each
/// dimension. It takes no memory; an index space of 2^64 keys and more counts as want of it.
pub fn key_place(space: &IndexSpace, parts: &[Part]) -> Result<Option<u64>, AllocError>
    ensures { IfOk result (λ place. place ≡ spec.key_place (lists space.now) (pieces.forms parts.now)) }
{
    match space.elements() {
        Some(count) => Ok(place_where_any(dimensions(space), parts, count)),
        None => Err(AllocError),
    }
}

/// The same in dimensions with so many keys.
fn place_where_any(dims: &[Dimension], parts: &[Part], count: u64) -> Option<u64>
    requires { count ≡ elements (map dimension_values dims.now) }
    ensures { result ≡ spec.key_place (map dimension_values dims.now) (pieces.forms parts.now) }
{
    if count == 0 {
        return None;
    }
    place_in_all(dims, parts)
}

/// The same in dimensions of which none is empty.
fn place_in_all(dims: &[Dimension], parts: &[Part]) -> Option<u64>
    requires filled { list_any has_none (map dimension_values dims.now) ≡ false }
    requires countable { elements (map dimension_values dims.now) < 2 ^ 64 }
    ensures { result ≡ spec.key_place (map dimension_values dims.now) (pieces.forms parts.now) }
{
    let mut found = 0;
    let mut left = dims;
    let mut rest = parts;
    while let Some((dimension, others)) = left.split_first() {
        let (part, behind) = rest.split_first()?;
        let place = subscript_place(dimension, part)?;
        found = found * dimension.size() + place;
        left = others;
        rest = behind;
    }
    if rest.is_empty() { Some(found) } else { None }
}
