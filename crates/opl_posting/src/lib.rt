//! The objective of an instruction, and the constraints of its items, each made as soon as it is met: `forall` goes through one choice of its
//! parameters after another, and no list of instances is held.
#![tactic(auto)]

mod aim;
mod aiming;
mod condition;
mod constraints;
mod number;
mod place;
mod plan;
mod posted;
mod posting;
mod walk;

pub use aim::Aim;
pub use aiming::objective;
pub use posting::post;
