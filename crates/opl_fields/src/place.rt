//! Where a field of a record stands.

/// A field that a model names: the place of its name, and its position in its struct, from 0.
#[derive(Clone, Copy)]
pub struct FieldPlace {
    pub place: u32,
    pub position: usize,
}
