//! Expressions and what stands in their brackets, read on every level of nesting.
#![tactic(auto)]

mod next;
mod phrases;
mod wanted;

pub use phrases::Phrases;
