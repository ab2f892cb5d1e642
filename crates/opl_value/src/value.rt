//! What the data of a model are: values, and the index spaces of arrays.
ghost use Rattle.std.specs.Prelude.{◌≡◌, IfOk};

use opl_list::Seq;
use opl_token::Name;
use std::alloc::{AllocError, Global};

/// A value of data.
#[derive(Drop)]
#[cycle(values)]
pub enum Value {
    Int(i128),
    Bool(bool),
    /// A name of an enumeration: the number of its declaration, and the name's position in it, both from 0.
    Enum(u32, u32),
    /// A record or a row: its parts.
    Record(Seq<Value>),
    /// A set: its elements, in order of first occurrence.
    Set(Seq<Value>),
    /// What a range is declared as: its ends. It is empty where the first is greater.
    Range(i128, i128),
    /// What an enumeration is declared as: its names in order.
    Names(Seq<Name>),
    /// An array: its index space, and its elements in the order of their places.
    Array(IndexSpace, Seq<Value>),
}

/// The index sets of an array, dimension after dimension.
#[derive(Drop)]
#[cycle(values)]
pub struct IndexSpace {
    pub dims: Seq<Dimension>,
}

/// The index set of one dimension.
#[derive(Drop)]
#[cycle(values)]
pub enum Dimension {
    /// The whole numbers from the first to the second.
    Whole(i128, i128),
    /// The values in their order, and their places in the rising order of the values.
    Listed(Seq<Value>, Seq<usize>),
}

impl Value {
    /// An equal value.
    #[cycle(copies)]
    pub fn copy(&self, alloc: Global) -> Result<Value, AllocError>
        ensures { IfOk result (λ r. r ≡ self.now) }
    {
        match self {
            Value::Int(number) => Ok(Value::Int(*number)),
            Value::Bool(holds) => Ok(Value::Bool(*holds)),
            Value::Enum(declaration, position) => Ok(Value::Enum(*declaration, *position)),
            Value::Record(parts) => Ok(Value::Record(copy_values(alloc, parts.as_slice())?)),
            Value::Set(elements) => Ok(Value::Set(copy_values(alloc, elements.as_slice())?)),
            Value::Range(low, high) => Ok(Value::Range(*low, *high)),
            Value::Names(names) => Ok(Value::Names(copy_names(alloc, names.as_slice())?)),
            Value::Array(space, elements) => Ok(Value::Array(
                space.copy(alloc)?,
                copy_values(alloc, elements.as_slice())?,
            )),
        }
    }
}

impl IndexSpace {
    /// An equal index space.
    #[cycle(copies)]
    pub fn copy(&self, alloc: Global) -> Result<IndexSpace, AllocError>
        ensures { IfOk result (λ r. r ≡ self.now) }
    {
        let dims = copy_dimensions(alloc, self.dims.as_slice())?;
        Ok(IndexSpace { dims })
    }
}

impl Dimension {
    /// An equal dimension.
    #[cycle(copies)]
    pub fn copy(&self, alloc: Global) -> Result<Dimension, AllocError>
        ensures { IfOk result (λ r. r ≡ self.now) }
    {
        match self {
            Dimension::Whole(low, high) => Ok(Dimension::Whole(*low, *high)),
            Dimension::Listed(values, rising) => Ok(Dimension::Listed(
                copy_values(alloc, values.as_slice())?,
                Seq::from_slice(alloc, rising.as_slice())?,
            )),
        }
    }
}

/// Copies of values, in their order.
#[cycle(copies)]
fn copy_values(alloc: Global, values: &[Value]) -> Result<Seq<Value>, AllocError>
    ensures { IfOk result (λ r. r ≡ values.now) }
{
    let mut copies = Seq::new(alloc);
    for value in values {
        copies.push(value.copy(alloc)?)?;
    }
    Ok(copies)
}

/// Copies of dimensions, in their order.
#[cycle(copies)]
fn copy_dimensions(alloc: Global, dims: &[Dimension]) -> Result<Seq<Dimension>, AllocError>
    ensures { IfOk result (λ r. r ≡ dims.now) }
{
    let mut copies = Seq::new(alloc);
    for dimension in dims {
        copies.push(dimension.copy(alloc)?)?;
    }
    Ok(copies)
}

/// Copies of names, in their order.
fn copy_names(alloc: Global, names: &[Name]) -> Result<Seq<Name>, AllocError>
    ensures { IfOk result (λ r. r ≡ names.now) }
{
    let mut copies = Seq::new(alloc);
    for name in names {
        copies.push(Name::from_slice(alloc, name.as_slice())?)?;
    }
    Ok(copies)
}
