//! The places of keys in an index space.
ghost use Rattle.std.specs.Prelude.{◌≡◌, false, pos, ◌+ℤ◌, ◌<ℤ◌, ◌≤ℤ◌, ◌<◌, ◌≤◌, ◌^◌, length, map};
ghost use Rattle.std.specs.List.{list_any};
ghost use Rattle.opl_value.specs.Places.{AreRising, AreSorted, IsSorted, dimension_values, dimensions, elements, has_none, lists, numbers_between, place_in, place_of};

use crate::value::{Dimension, IndexSpace, Value};
use std::cmp::Ordering;

impl Dimension {
    /// Whether the dimension has no values.
    #[tactic(auto, using(crate::proofs::Places::variants))]
    pub fn is_empty(&self) -> bool
        ensures { result ≡ has_none (dimension_values self.now) }
    {
        match self {
            Dimension::Whole(low, high) => are_none(*low, *high),
            Dimension::Listed(values, _) => values.len() == 0,
        }
    }

    /// The number of values.
    #[tactic(auto, using(crate::proofs::Places::variants))]
    pub fn size(&self) -> u64
        requires { length (dimension_values self.now) < 2 ^ 64 }
        ensures { result ≡ length (dimension_values self.now) }
    {
        match self {
            Dimension::Whole(low, high) => size_between(*low, *high),
            Dimension::Listed(values, _) => values.len() as u64,
        }
    }

    /// The place of a value in the dimension; None exactly where it isn't there. The time is that of a search by halves.
    #[tactic(auto, using(crate::proofs::Places::variants))]
    pub fn place(&self, value: &Value) -> Option<u64>
        requires sorted { IsSorted self.now }
        requires countable { length (dimension_values self.now) < 2 ^ 64 }
        ensures { result ≡ place_in value.now (dimension_values self.now) }
    {
        match self {
            Dimension::Whole(low, high) => place_between(*low, *high, value),
            Dimension::Listed(values, rising) => {
                place_among(values.as_slice(), rising.as_slice(), value)
            }
        }
    }
}

/// The number of the element of an array with that key; None exactly where a component is not in its dimension, or the key has
/// not one component for each dimension. It takes no memory.
pub fn place(space: &IndexSpace, key: &[Value]) -> Option<u64>
    requires sorted { AreSorted (dimensions space.now) }
    requires countable { elements (lists space.now) < 2 ^ 64 }
    ensures { result ≡ place_of (lists space.now) key.now }
{
    let dims = space.dims.as_slice();
    if has_empty(dims) {
        return None;
    }
    place_in_all(dims, key)
}

/// Whether a dimension has no values.
pub(crate) fn has_empty(dims: &[Dimension]) -> bool
    ensures { result ≡ list_any has_none (map dimension_values dims.now) }
{
    for dimension in dims {
        if dimension.is_empty() {
            return true;
        }
    }
    false
}

/// The place of a key in these dimensions, of which none is empty.
fn place_in_all(dims: &[Dimension], key: &[Value]) -> Option<u64>
    requires sorted { AreSorted dims.now }
    requires filled { list_any has_none (map dimension_values dims.now) ≡ false }
    requires countable { elements (map dimension_values dims.now) < 2 ^ 64 }
    ensures { result ≡ place_of (map dimension_values dims.now) key.now }
{
    let mut found = 0;
    let mut left = dims;
    let mut rest = key;
    while let Some((dimension, others)) = left.split_first() {
        let (component, behind) = rest.split_first()?;
        let place = dimension.place(component)?;
        found = found * dimension.size() + place;
        left = others;
        rest = behind;
    }
    if rest.is_empty() { Some(found) } else { None }
}

/// The place of a value in the list, of which the places in the rising order of the values are known.
fn place_among(values: &[Value], rising: &[usize], wanted: &Value) -> Option<u64>
    requires { AreRising values.now rising.now }
    ensures { result ≡ place_in wanted.now values.now }
{
    let mut low = 0;
    let mut high = rising.len();
    while low < high {
        let middle = low + (high - low) / 2;
        let place = rising[middle];
        match values[place].order(wanted) {
            Ordering::Less => low = middle + 1,
            Ordering::Equal => return Some(place as u64),
            Ordering::Greater => high = middle,
        }
    }
    None
}

/// The place of a value among the whole numbers from the first to the second.
#[tactic(auto, using(crate::proofs::Places::others))]
fn place_between(low: i128, high: i128, wanted: &Value) -> Option<u64>
    requires { length (numbers_between low high) < 2 ^ 64 }
    ensures { result ≡ place_in wanted.now (numbers_between low high) }
{
    match wanted {
        Value::Int(number) => place_of_number(low, high, *number),
        Value::Bool(_)
        | Value::Enum(..)
        | Value::Record(_)
        | Value::Set(_)
        | Value::Range(..)
        | Value::Names(_)
        | Value::Array(..) => None,
    }
}

/// The place of a whole number among those from the first to the second.
fn place_of_number(low: i128, high: i128, number: i128) -> Option<u64>
    requires { length (numbers_between low high) < 2 ^ 64 }
    ensures { result ≡ place_in (Value.Int number) (numbers_between low high) }
{
    if number < low || high < number {
        return None;
    }
    Some(distance(low, number))
}

/// How many whole numbers there are from the first to the second.
pub(crate) fn size_between(low: i128, high: i128) -> u64
    requires { length (numbers_between low high) < 2 ^ 64 }
    ensures { result ≡ length (numbers_between low high) }
{
    if high < low {
        return 0;
    }
    distance(low, high) + 1
}

/// Whether there are no whole numbers from the first to the second.
fn are_none(low: i128, high: i128) -> bool
    ensures { result ≡ has_none (numbers_between low high) }
{
    high < low
}

/// How far a number is above another one.
fn distance(low: i128, number: i128) -> u64
    requires above { low ≤ℤ number }
    requires near { number <ℤ (low +ℤ pos (2 ^ 64)) }
    ensures { low +ℤ pos result ≡ number }
{
    (number - low) as u64
}
