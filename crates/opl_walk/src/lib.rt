//! One walk over trees, which tells a visitor what a tree writes and the levels that its tokens open.
//! Two visitors: how a tree is spelt, and how deep it nests.
#![tactic(auto)]

mod data;
mod declaration;
mod depth;
mod expression;
mod instruction;
mod model;
mod search;
mod spelling;
mod visitor;
mod words;

pub use depth::{depth_data, depth_model};
pub use spelling::{spell_data, spell_model};
