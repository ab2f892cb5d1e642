//! The index spaces of arrays.
ghost use Rattle.std.specs.Prelude.{◌≡◌, [], IfOk, map};
ghost use Rattle.opl_eval.specs.ArrayKeys.{IsKeyed};
ghost use Rattle.opl_value.specs.Places.{AreSorted, lists, dimensions};
ghost use Rattle.opl_given.specs.Faults.{Does};
ghost use Rattle.opl_value.specs.Places as spec;

use crate::axis::Axis;
use crate::fault::BindFault;
use opl_list::Seq;
use opl_value::{IndexSpace, KeySpace, Value};
use std::alloc::{AllocError, Global};

/// The keys of an item without dimensions: the empty one alone.
#[tactic(auto, using(crate::proofs::Spaces::spaces))]
pub(crate) fn no_dimensions(alloc: Global) -> Result<KeySpace, BindFault>
    ensures { Does (λ keys. lists keys.space ≡ []) result }
{
    match KeySpace::new(IndexSpace::new(alloc)) {
        Some(keys) => Ok(keys),
        None => Err(BindFault::OutOfMemory),
    }
}

/// The keys of these index sets. For more than 2^64 - 1 of them memory is wanting.
#[tactic(auto, using(crate::proofs::Spaces::spaces))]
pub fn keys_of(alloc: Global, axes: &[Axis]) -> Result<KeySpace, BindFault>
    ensures { Does (λ keys. keys.space ≡ spec.space_of (map (λ a. a.dimension) axes.now)) result }
{
    let space = space_of(alloc, axes)?;
    match KeySpace::new(space) {
        Some(keys) => Ok(keys),
        None => Err(BindFault::OutOfMemory),
    }
}

/// The index space of these index sets.
#[tactic(auto, using(crate::proofs::Spaces::spaces))]
pub fn space_of(alloc: Global, axes: &[Axis]) -> Result<IndexSpace, AllocError>
    ensures space { IfOk result (λ space. space ≡ spec.space_of (map (λ a. a.dimension) axes.now)) }
    ensures sorted { IfOk result (λ space. AreSorted (dimensions space)) }
{
    let mut space = IndexSpace::new(alloc);
    for axis in axes {
        space.push(axis.dimension.copy(alloc)?)?;
    }
    Ok(space)
}

/// The array over that index space with these cells, which stand in index order.
#[tactic(auto, using(opl_eval::proofs::Keys::keyed_values))]
pub fn array_over(keys: KeySpace, cells: Seq<Value>) -> Value
    ensures value { result ≡ Value.Array keys.space cells }
    ensures keyed { IsKeyed result }
{
    let KeySpace { space } = keys;
    Value::Array(space, cells)
}
