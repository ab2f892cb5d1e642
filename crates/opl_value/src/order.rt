//! How values are ordered: by variant, then by parts.
ghost use Rattle.std.specs.Prelude.{◌≡◌};
ghost use Rattle.std.specs.Ordering.{nat_cmp};
ghost use Rattle.std.specs.Cmp.Lexicographic.{slice_cmp};
ghost use Rattle.opl_value.specs.Order.{value_cmp, space_cmp, dimension_cmp};

use crate::value::{Dimension, IndexSpace, Value};
use opl_token::Name;
use std::cmp::Ordering;

impl Value {
    /// Which of two values comes first: that of the earlier variant, and of one variant that with the lesser first part that differs.
    #[tactic(auto, using(crate::proofs::Trees::trees, crate::proofs::Trees::parts))]
    #[cycle(orders)]
    pub(crate) fn order(&self, other: &Value) -> Ordering
        ensures { result ≡ value_cmp self.now other.now }
    {
        match self {
            Value::Int(a) => match other {
                Value::Int(b) => a.cmp(b),
                Value::Bool(_)
                | Value::Enum(..)
                | Value::Record(_)
                | Value::Set(_)
                | Value::Range(..)
                | Value::Names(_)
                | Value::Array(..) => Ordering::Less,
            },
            Value::Bool(a) => match other {
                Value::Int(_) => Ordering::Greater,
                Value::Bool(b) => a.cmp(b),
                Value::Enum(..)
                | Value::Record(_)
                | Value::Set(_)
                | Value::Range(..)
                | Value::Names(_)
                | Value::Array(..) => Ordering::Less,
            },
            Value::Enum(a, p) => match other {
                Value::Int(_) | Value::Bool(_) => Ordering::Greater,
                Value::Enum(b, q) => a.cmp(b).then(p.cmp(q)),
                Value::Record(_)
                | Value::Set(_)
                | Value::Range(..)
                | Value::Names(_)
                | Value::Array(..) => Ordering::Less,
            },
            Value::Record(a) => match other {
                Value::Int(_) | Value::Bool(_) | Value::Enum(..) => Ordering::Greater,
                Value::Record(b) => order_values(a.as_slice(), b.as_slice()),
                Value::Set(_) | Value::Range(..) | Value::Names(_) | Value::Array(..) => {
                    Ordering::Less
                }
            },
            Value::Set(a) => match other {
                Value::Int(_) | Value::Bool(_) | Value::Enum(..) | Value::Record(_) => {
                    Ordering::Greater
                }
                Value::Set(b) => order_values(a.as_slice(), b.as_slice()),
                Value::Range(..) | Value::Names(_) | Value::Array(..) => Ordering::Less,
            },
            Value::Range(a, p) => match other {
                Value::Int(_)
                | Value::Bool(_)
                | Value::Enum(..)
                | Value::Record(_)
                | Value::Set(_) => Ordering::Greater,
                Value::Range(b, q) => a.cmp(b).then(p.cmp(q)),
                Value::Names(_) | Value::Array(..) => Ordering::Less,
            },
            Value::Names(a) => match other {
                Value::Int(_)
                | Value::Bool(_)
                | Value::Enum(..)
                | Value::Record(_)
                | Value::Set(_)
                | Value::Range(..) => Ordering::Greater,
                Value::Names(b) => order_names(a.as_slice(), b.as_slice()),
                Value::Array(..) => Ordering::Less,
            },
            Value::Array(a, p) => match other {
                Value::Int(_)
                | Value::Bool(_)
                | Value::Enum(..)
                | Value::Record(_)
                | Value::Set(_)
                | Value::Range(..)
                | Value::Names(_) => Ordering::Greater,
                Value::Array(b, q) => a.order(b).then(order_values(p.as_slice(), q.as_slice())),
            },
        }
    }
}

impl IndexSpace {
    /// Which of two index spaces comes first: that with the lesser first dimension that differs.
    #[tactic(auto, using(crate::proofs::Trees::trees, crate::proofs::Trees::parts))]
    #[cycle(orders)]
    pub(crate) fn order(&self, other: &IndexSpace) -> Ordering
        ensures { result ≡ space_cmp self.now other.now }
    {
        order_dimensions(self.dims.as_slice(), other.dims.as_slice())
    }
}

impl Dimension {
    /// Which of two dimensions comes first: a whole range, or that with the lesser first part that differs.
    #[tactic(auto, using(crate::proofs::Trees::trees, crate::proofs::Trees::parts))]
    #[cycle(orders)]
    pub(crate) fn order(&self, other: &Dimension) -> Ordering
        ensures { result ≡ dimension_cmp self.now other.now }
    {
        match self {
            Dimension::Whole(a, p) => match other {
                Dimension::Whole(b, q) => a.cmp(b).then(p.cmp(q)),
                Dimension::Listed(..) => Ordering::Less,
            },
            Dimension::Listed(a, p) => match other {
                Dimension::Whole(..) => Ordering::Greater,
                Dimension::Listed(b, q) => order_values(a.as_slice(), b.as_slice()).then(
                    p.as_slice().cmp(q.as_slice()),
                ),
            },
        }
    }
}

/// Which of two lists of values comes first: that with the lesser first member that differs, or the shorter one.
#[cycle(orders)]
fn order_values(values: &[Value], others: &[Value]) -> Ordering
    ensures { result ≡ slice_cmp value_cmp values.now others.now }
{
    let mut left = others;
    for value in values {
        let Some((other, rest)) = left.split_first() else {
            return Ordering::Greater;
        };
        let found = value.order(other);
        if found != Ordering::Equal {
            return found;
        }
        left = rest;
    }
    match left.split_first() {
        Some(_) => Ordering::Less,
        None => Ordering::Equal,
    }
}

/// Which of two lists of dimensions comes first.
#[cycle(orders)]
fn order_dimensions(dims: &[Dimension], others: &[Dimension]) -> Ordering
    ensures { result ≡ slice_cmp dimension_cmp dims.now others.now }
{
    let mut left = others;
    for dimension in dims {
        let Some((other, rest)) = left.split_first() else {
            return Ordering::Greater;
        };
        let found = dimension.order(other);
        if found != Ordering::Equal {
            return found;
        }
        left = rest;
    }
    match left.split_first() {
        Some(_) => Ordering::Less,
        None => Ordering::Equal,
    }
}

/// Which of two lists of names comes first.
fn order_names(names: &[Name], others: &[Name]) -> Ordering
    ensures { result ≡ slice_cmp (slice_cmp nat_cmp) names.now others.now }
{
    let mut left = others;
    for name in names {
        let Some((other, rest)) = left.split_first() else {
            return Ordering::Greater;
        };
        let found = name.as_slice().cmp(other.as_slice());
        if found != Ordering::Equal {
            return found;
        }
        left = rest;
    }
    match left.split_first() {
        Some(_) => Ordering::Less,
        None => Ordering::Equal,
    }
}
