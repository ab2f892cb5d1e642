//! What constraints are made for.
use opl_declared::Declared;
use opl_nodes::Array;

/// What all constraints of a model are made for.
#[derive(Clone, Copy)]
pub(crate) struct Plan<'a> {
    /// The ends of each variable's declared set.
    pub(crate) sets: &'a [(i64, i64)],
    /// All arrays, by their numbers.
    pub(crate) arrays: &'a [Array<'a>],
    pub(crate) declared: &'a Declared<'a>,
}
