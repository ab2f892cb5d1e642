//! Data files: their trees, and the reader of their tokens.
#![tactic(auto)]

pub mod laws;
mod reader;
mod tree;
mod value;

pub use reader::parse_data;
pub use tree::{DataItem, DataPair, DataTree, DataValue};
