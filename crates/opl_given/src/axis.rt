//! The index set of one dimension.
ghost use Rattle.std.specs.Prelude.{[], ◌∷◌};
ghost use Rattle.opl_value.specs.Keyed.{AreSorted-prop};
ghost use Rattle.opl_value.specs.Places.{AreSorted};

use crate::form::Form;
use opl_value::Dimension;

/// The index set of one dimension, and the form of its elements.
#[derive(Drop)]
pub struct Axis {
    pub dimension: Dimension,
    pub form: Form,
    pub ghost is_sorted: { AreSorted (dimension ∷ []) } by { AreSorted-prop (dimension ∷ []) },
}
