//! How a command ends.

/// How a command ends of which nothing more is told.
#[derive(Clone, Copy)]
pub enum Ended {
    Done,
    NoSolution,
}
