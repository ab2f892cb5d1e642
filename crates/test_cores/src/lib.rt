//! Ground cores that are read from short texts, for programs of tests.
#![tactic(auto)]

mod model;
mod reader;
mod section;

pub use model::{Parts, number};
pub use reader::{constraint, expression};
