//! The rules of statements, and of the search section above them.
#![tactic(auto)]

mod next_statements;
mod search;
mod statement;
mod wanted_statements;

pub use search::search_section;
