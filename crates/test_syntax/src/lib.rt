//! Tells of each text of a file how it reads, and whether its tree is spelt as it is.
#![tactic(auto)]

mod cases;
mod escape;
mod file;
mod item;
mod reading;
mod same;
mod spelt;
mod stop;
mod term;
mod token;
mod word;

pub use file::told_of_file;
