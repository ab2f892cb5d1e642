//! Filters of linear forms, and how comparisons are decided by them.
#![tactic(auto)]

mod at_most;
mod different;
mod equal;
mod form;
mod kind;
pub mod laws;
mod rejected;
mod roots;
mod trim;

pub use form::filter_form;
pub use kind::Kind;
pub use rejected::is_rejected;
pub use roots::{root, value_of};
