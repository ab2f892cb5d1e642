//! Whether ground expressions, constraints and whole cores are sound, and whether sets and values are those of a core, for
//! those who are about to use them. It takes no memory.
#![tactic(auto)]

mod fitting;
mod ground;
mod measures;
mod nodes;
mod numbers;
mod parts;
mod sections;
mod steps;
mod tables;
mod variables;
mod views;
mod whole;

pub use ground::is_ground;
pub use parts::{are_sound, can_be_best, is_sound_constraint, is_sound_expression, magnitude};
pub use views::{is_assignment, is_within};
pub use whole::is_sound;
