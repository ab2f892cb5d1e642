//! How many values a dimension has, and how many keys an index space.
ghost use Rattle.std.specs.Prelude.{◌≡◌, ◌↔◌, ◌-◌, ◌<◌, ◌^◌, ◌+ℤ◌, ◌<ℤ◌, IsTrue, SomeIff, false, length, map, pos};
ghost use Rattle.std.specs.List.{list_any};
ghost use Rattle.opl_value.specs.Places.{dimension_values, elements, has_none, lists, numbers_between};

use crate::index::{has_empty, size_between};
use crate::value::{Dimension, IndexSpace};

impl Dimension {
    /// The number of values; None exactly where it is past 2^64 - 1. It takes no memory.
    #[tactic(auto, using(crate::proofs::Places::variants))]
    pub fn count(&self) -> Option<u64>
        ensures { SomeIff result (length (dimension_values self.now) < 2 ^ 64) (length (dimension_values self.now)) }
    {
        match self {
            Dimension::Whole(low, high) => count_between(*low, *high),
            Dimension::Listed(values, _) => Some(values.len() as u64),
        }
    }
}

impl IndexSpace {
    /// The number of keys; None exactly where it is past 2^64 - 1. It takes no memory.
    pub fn elements(&self) -> Option<u64>
        ensures { SomeIff result (elements (lists self.now) < 2 ^ 64) (elements (lists self.now)) }
    {
        let dims = self.dims.as_slice();
        if has_empty(dims) {
            return Some(0);
        }
        product(dims)
    }
}

/// The number of keys of these dimensions, of which none is empty; None exactly where it is past 2^64 - 1.
fn product(dims: &[Dimension]) -> Option<u64>
    requires { list_any has_none (map dimension_values dims.now) ≡ false }
    ensures { SomeIff result (elements (map dimension_values dims.now) < 2 ^ 64) (elements (map dimension_values dims.now)) }
{
    let mut found = 1u64;
    for dimension in dims {
        found = found.checked_mul(dimension.count()?)?;
    }
    Some(found)
}

/// How many whole numbers there are from the first to the second; None exactly where it is past 2^64 - 1.
fn count_between(low: i128, high: i128) -> Option<u64>
    ensures { SomeIff result (length (numbers_between low high) < 2 ^ 64) (length (numbers_between low high)) }
{
    if high < low {
        return Some(0);
    }
    if is_near(low, high) {
        Some(size_between(low, high))
    } else {
        None
    }
}

/// Whether a number is less than 2^64 - 1 above another one.
fn is_near(low: i128, number: i128) -> bool
    ensures { IsTrue result ↔ (number <ℤ (low +ℤ pos (2 ^ 64 - 1))) }
{
    let limit = u64::MAX as i128;
    i128::MAX - limit < low || number < low + limit
}
