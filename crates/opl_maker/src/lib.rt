//! Ground forms of expressions, made in one pass over terms: what names no decision variable is evaluated, all else is made of its parts.
#![tactic(auto)]

mod making;
mod names;

pub use making::{make, make_truth};
