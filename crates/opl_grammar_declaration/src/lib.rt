//! The rules of declarations.
#![tactic(auto)]

mod declaration;

pub use declaration::decls;
