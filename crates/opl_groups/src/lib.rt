//! The choices of parameters under groups such as `(i in 1..3, ordered j,k in S : c)`, one after another.
#![tactic(auto)]

mod choices;
mod course;
mod elements;
mod scope;

pub use choices::Choices;
pub use scope::Scope;
