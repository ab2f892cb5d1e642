//! What names stand for in expressions of items: decision variables, their numbers, and the numbers of arrays.
#![tactic(auto)]

mod declared;
mod mention;
mod named;
mod names;
mod placing;
mod term_name;
mod term_place;

pub use declared::{Declared, Numbered};
pub use mention::is_mentioned;
pub use term_name::name_of;
pub use term_place::place;
