//! What a linear form is to be.

/// What a linear form is to be: the sum of some variables, each with a factor, and a constant.
#[derive(Drop, Clone, Copy)]
pub enum Kind {
    /// At most 0.
    AtMost,
    /// Below 0.
    Below,
    /// 0, which is decided by its least and its greatest value.
    Zero,
    /// Not 0.
    Different,
}
