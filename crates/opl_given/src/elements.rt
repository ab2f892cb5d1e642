//! The elements of an index set, one after another.
ghost use Rattle.std.specs.Prelude.{◌≡◌, [], ◌∷◌, IfNone, IfSome};
ghost use Rattle.opl_value.specs.Places.{dimension_values, numbers_between};
ghost use Rattle.opl_given.specs.Elements.{element, left};

use opl_value::{Dimension, Value};

/// An element of an index set. A number is made when its turn comes.
#[derive(Drop)]
pub enum Element<'d> {
    Borrowed(&'d Value),
    Owned(Value),
}

impl Element<'_> {
    /// The element.
    pub fn get(&self) -> &Value
        ensures { result.now ≡ element self.now }
    {
        match self {
            Element::Borrowed(value) => value,
            Element::Owned(value) => value,
        }
    }
}

/// The elements of an index set that are left, in order.
#[derive(Clone, Copy)]
pub enum Elements<'d> {
    Listed(&'d [Value]),
    /// The whole numbers from the first to the second.
    Between(i128, i128),
}

/// All elements of an index set.
#[tactic(auto, using(crate::proofs::DimensionElements::dimension_elements))]
pub fn elements_of(dimension: &Dimension) -> Elements<'_>
    ensures { left result ≡ dimension_values dimension.now }
{
    match dimension {
        Dimension::Whole(low, high) => Elements::Between(*low, *high),
        Dimension::Listed(values, _) => Elements::Listed(values.as_slice()),
    }
}

/// Of no elements none is left.
pub fn no_elements<'d>() -> Elements<'d>
    ensures { left result ≡ [] }
{
    Elements::Listed(&[])
}

impl<'d> Elements<'d> {
    /// The first element, and the others.
    pub fn split_first(self) -> Option<(Element<'d>, Elements<'d>)>
        ensures none { IfNone result (left self.entry ≡ []) }
        ensures some { IfSome result (λ r. left self.entry ≡ element r.0 ∷ left r.1) }
    {
        match self {
            Elements::Listed(values) => match values.split_first() {
                Some((first, others)) => Some((Element::Borrowed(first), Elements::Listed(others))),
                None => None,
            },
            Elements::Between(low, high) => between(low, high),
        }
    }
}

/// The first whole number of these, and the others.
fn between<'d>(low: i128, high: i128) -> Option<(Element<'d>, Elements<'d>)>
    ensures none { IfNone result (numbers_between low high ≡ []) }
    ensures some { IfSome result (λ r. numbers_between low high ≡ element r.0 ∷ left r.1) }
{
    if high < low {
        return None;
    }
    let first = Element::Owned(Value::Int(low));
    if low == high {
        return Some((first, Elements::Listed(&[])));
    }
    Some((first, Elements::Between(low + 1, high)))
}
