//! The tokens of a text in the OPL language, and the scanner that finds them.
#![tactic(auto)]

mod fault;
pub mod laws;
mod scanner;
mod sign;
mod token;

pub use fault::ScanFault;
pub use opl_list::Seq;
pub use scanner::scan;
pub use sign::Sign;
pub use token::{Kind, Name, Token};
