//! What forms are made for.
use crate::array::Array;

/// What the forms of an item are made for.
pub struct Context<'a> {
    /// The ends of each variable's declared set.
    pub sets: &'a [(i64, i64)],
    /// All arrays, by their numbers.
    pub arrays: &'a [Array<'a>],
    /// The place of the item.
    pub item: u32,
}
