//! The text of a ground core: its variables with their declared sets, its objective and its constraints in prefix form.
#![tactic(auto)]

mod forms;
mod lines;
mod names;

pub use lines::{
    constraint_line, constraints_heading, ground_text, variable_line, variables_heading,
};
