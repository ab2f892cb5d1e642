//! Sets, the order of values, and the places of keys: the calls on values, passed on. It stands apart from the crate that computes
//! them, so that wrong answers are tried over a small crate.
#![tactic(auto)]

ghost use Rattle.std.specs.Prelude.{◌≡◌, ◌<◌, ◌^◌, IfOk, SomeIff, length};
ghost use Rattle.opl_value.specs.Order.{value_cmp};
ghost use Rattle.opl_value.specs.Places as spec;
ghost use Rattle.opl_value.specs.Places.{AreSorted, IsSorted, dimension_values, dimensions, lists, numbers_between};
ghost use Rattle.opl_value.specs.Rising.{listed_dimension};
ghost use Rattle.opl_value.specs.Sets.{first_occurrences};

use opl_list::Seq;
use opl_value::{Dimension, IndexSpace, Value};
use std::alloc::{AllocError, Global};
use std::cmp::Ordering;

/// The values without later copies, each at its first occurrence.
pub fn set_of(alloc: Global, values: Vec<Value>) -> Result<Vec<Value>, AllocError>
    ensures { IfOk result (λ set. set.items ≡ first_occurrences values.items) }
{
    opl_value::make_set(alloc, values)
}

/// Which of two values comes first: that of the earlier variant, and of one variant that with the lesser first part that differs.
pub fn order_of(value: &Value, other: &Value) -> Ordering
    ensures { result ≡ value_cmp value.now other.now }
{
    value.cmp(other)
}

/// The dimension of the whole numbers from the first to the second.
pub fn whole(low: i128, high: i128) -> Dimension
    ensures values { dimension_values result ≡ numbers_between low high }
    ensures dimension { result ≡ Dimension.Whole low high }
{
    Dimension::whole(low, high)
}

/// The dimension of a set: of the values without later copies.
pub fn dimension_of(alloc: Global, values: Seq<Value>) -> Result<Dimension, AllocError>
    ensures sorted { IfOk result IsSorted }
    ensures dimension { IfOk result (λ dimension. dimension ≡ listed_dimension (first_occurrences values)) }
{
    Dimension::of_set(alloc, values)
}

/// The number of values of a dimension; None exactly where it is past 2^64 - 1.
pub fn size_of(dimension: &Dimension) -> Option<u64>
    ensures { SomeIff result (length (dimension_values dimension.now) < 2 ^ 64) (length (dimension_values dimension.now)) }
{
    dimension.count()
}

/// The place of a value in a dimension; None exactly where it isn't there.
pub fn place_of_value(dimension: &Dimension, value: &Value) -> Option<u64>
    requires sorted { IsSorted dimension.now }
    requires countable { length (dimension_values dimension.now) < 2 ^ 64 }
    ensures { result ≡ spec.place_in value.now (dimension_values dimension.now) }
{
    dimension.place(value)
}

/// The number of keys of an index space; None exactly where it is past 2^64 - 1.
pub fn keys_of(space: &IndexSpace) -> Option<u64>
    ensures { SomeIff result (spec.elements (lists space.now) < 2 ^ 64) (spec.elements (lists space.now)) }
{
    space.elements()
}

/// The number of the element of an array with that key; None exactly where a component is not in its dimension, or the key has
/// not one component for each dimension.
pub fn place_of_key(space: &IndexSpace, key: &[Value]) -> Option<u64>
    requires sorted { AreSorted (dimensions space.now) }
    requires countable { spec.elements (lists space.now) < 2 ^ 64 }
    ensures { result ≡ spec.place_of (lists space.now) key.now }
{
    opl_value::place(space, key)
}
