//! The words of a call: what they ask for, or that they are no call.
#![tactic(auto)]

mod call;
mod given;
pub mod laws;
mod number;
mod words;

pub use call::{Command, FilesRequest, Generated, Kind, Request, Searching};
pub use words::{DEFAULT_BUDGET, request};
