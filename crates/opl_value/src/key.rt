//! Keys of elements of arrays.
use crate::value::Value;
use smallvec::SmallVec;
use std::alloc::Global;
use std::default::MadeWith;

/// The key of an element of an array: its subscripts in their order. Up to two take no memory of their own.
pub type Key = SmallVec<Value, 2>;

/// What stands in a place of a key that has no subscript.
impl MadeWith<Global> for Value {
    fn made_with(_alloc: Global) -> Value {
        Value::Int(0)
    }
}
