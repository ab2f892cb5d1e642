//! The rules of the grammar of models, read from left to right by the next token alone.
#![tactic(auto)]

mod cursor;
pub mod keeping;
pub mod list;
mod look;
mod parts;
pub mod tables;

pub use cursor::Cursor;
pub use look::Look;
pub use parts::{Braced, Operand};
