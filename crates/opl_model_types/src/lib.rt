//! The types of a model's expressions, and the first fault of a model whose expressions do not fit together.
#![tactic(auto)]

pub mod laws;
mod typed;

pub use opl_type_rules::fault::TypeFault;
pub use opl_type_rules::kind::Ty;
pub use typed::{Typed, kinds_of, with_kinds};
