//! The expressions that are to differ.

/// A multiple of a variable, and a constant. With the factor 0 it is the constant alone.
#[derive(Drop, Clone, Copy)]
pub struct Part {
    pub variable: u32,
    pub factor: i128,
    pub constant: i128,
}
