//! How closing ends.

/// How closing ends.
#[derive(Drop, Clone, Copy)]
pub enum Closed {
    /// The sets are the closure of what is posted.
    Stable,
    /// There is no closure.
    Failed,
}
