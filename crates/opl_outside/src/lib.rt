//! What a program meets outside: files that it reads and writes, and places that take its output.
#![tactic(auto)]

mod count;
mod error;
mod failing;
mod file_map;
mod memory;
mod real;
mod shelf;
mod sink;
mod sure;

pub use error::OutsideError;
pub use memory::{MemoryShelf, MemorySink};
pub use real::{RealShelf, RealSink};
pub use shelf::{Found, MAX_BYTES, Shelf};
pub use sink::Sink;
pub use sure::{SureShelf, SureSink};
