//! What ground forms are made of in one pass over terms: the site of the making, the places of operands, arrays by name, and the parts
//! that need no other parts.
#![tactic(auto)]

mod arrays;
mod parameters;
mod parts;
mod places;
mod site;
mod values;

pub use arrays::{array_number, declared_number, elements_differ};
pub use parameters::parameter;
pub use parts::{nodes_behind, pushed};
pub use places::{draft_place, places_of};
pub use site::Site;
pub use values::{copied_part, nothing_part, value_part};
