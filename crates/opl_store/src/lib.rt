//! A stack of families, kept as words of bits that are undone level by level.
#![tactic(auto)]

mod set;
mod shape;
mod store;

pub use store::Store;
