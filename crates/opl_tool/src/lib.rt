//! The program's commands: from the words and files of a call to the text that it prints.
#![tactic(auto)]

mod answer;
mod call;
mod carry_out;
mod ended;
mod help;
pub mod laws;
mod line;
mod printing;

pub use answer::Answer;
pub use call::run;
