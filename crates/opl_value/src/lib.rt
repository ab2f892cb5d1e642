//! Values of data, index spaces of arrays, and sets in order of first occurrence.
#![tactic(auto)]

mod compare;
mod count;
mod dimension;
mod index;
mod key;
mod keys;
pub mod laws;
mod order;
mod set;
mod space;
mod value;

pub use index::place;
pub use key::Key;
pub use keys::KeySpace;
pub use set::make_set;
pub use value::{Dimension, IndexSpace, Value};
