//! Arrays as forms need them: lent elements.
use opl_meaning::Kind;
use opl_value::{IndexSpace, Value};

/// The elements of an array in index order.
#[derive(Drop, Clone, Copy)]
pub enum Leaves<'a> {
    /// Values.
    Listed(&'a [Value]),
    /// Decision variables of this kind: the number of the first, and how many there are.
    Numbered(Kind, u32, u32),
}

/// An array.
#[derive(Drop)]
pub struct Array<'a> {
    pub name: &'a [u8],
    pub space: &'a IndexSpace,
    pub leaves: Leaves<'a>,
}
