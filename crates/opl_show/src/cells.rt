//! The elements of an array that are still to be written.
use opl_meaning::Kind;
use opl_value::Value;

/// Elements of an array, in the order of their places.
#[derive(Clone, Copy)]
pub(crate) enum Cells<'a> {
    Values(&'a [Value]),
    /// Numbers that stand for values of this kind.
    Numbers(Kind, &'a [i128]),
}
