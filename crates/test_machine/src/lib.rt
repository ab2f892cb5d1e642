//! The machine as programs of tests ask it: questions on the search of a core, with answers as plain text.
#![tactic(auto)]

mod asked;
mod followed;
mod found;
mod shown;

pub use asked::push_asked;
pub use followed::push_followed;
pub use shown::{NOT_ASKED, push_ends, push_number, push_sets, push_words};
