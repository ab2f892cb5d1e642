//! The data values of a model, from its declarations and its data files.
#![tactic(auto)]

mod dimension;
mod each;
mod first_place;
mod fitted;
mod key_names;
mod key_walk;
pub mod laws;
mod lookup;
mod model;
mod opened;
mod scope;
mod taken;
mod written;

pub use dimension::index_space;
pub use key_names::with_names;
pub use key_walk::{Turn, Walk};
pub use model::{DataValues, bind};
pub use opl_given::{BindFault, Override};
