//! What stood when a level was opened.

/// What stood when a level was opened.
#[derive(Drop, Clone, Copy)]
pub struct Opening {
    /// The number of members.
    pub members: u32,
    /// Whether no member waited but perhaps the bound.
    pub calm: bool,
    /// Whether the bound did not wait.
    pub bounded: bool,
    /// The best value.
    pub best: Option<i128>,
}
