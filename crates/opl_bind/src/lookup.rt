//! An index set in which the places of values are found.
ghost use Rattle.std.specs.Prelude.{◌≡◌, ◌<◌, ◌^◌, length};
ghost use Rattle.std.specs.HashMap.{get_by};
ghost use Rattle.std.proofs.Props.{props};
ghost use Rattle.opl_value.specs.declared.value.Value.{Value};
ghost use Rattle.opl_value.specs.Order.{value_eq};
ghost use Rattle.opl_value.specs.Places.{dimension_values, place_in};
ghost use Rattle.opl_given.specs.Elements.{listed_values};

use opl_value::{Dimension, Value};
use std::collections::HashMap;

/// An index set of at most 2^64 - 1 elements, and the first place of each value that it lists.
#[derive(Drop)]
pub(crate) struct Lookup<'d> {
    pub(crate) dimension: &'d Dimension,
    pub(crate) firsts: HashMap<&'d Value, u64>,
    ghost is_countable: { length (dimension_values dimension.now) < 2 ^ 64 },
    ghost are_first: { (wanted : Value) → get_by (λ v. value_eq wanted v.now) firsts ≡ place_in wanted (listed_values dimension.now) } by { Prim.hlevel props },
}
