//! What a search asks at a moment: answers to questions, conditions and keys, and the places of the branches that a
//! statement takes, in their order. A program that goes from moment to moment stands on it.
#![tactic(auto)]

mod answers;
mod elements;
pub mod laws;
mod places;
mod questions;

pub use answers::{answered, answered_term, is_single};
pub use elements::{branches_at, place, without};
pub use places::{ordered, pick, taken};
pub use questions::{is_decided, is_met, key_value};
