//! Laws of the definitions, as contracts of functions without effect.
ghost use Rattle.opl_bound_fields.specs.Laws.{ModelValuesFit, PositionsSuit};

/// The positions of the fields that declarations name, as they are found, suit the declarations.
pub fn positions_suit()
    ensures { PositionsSuit }
{}

/// So in a model that has types each value that binding gives has the form of its declared type, where binding is called with the positions of fields that are found in the model.
pub fn model_values_fit()
    ensures { ModelValuesFit }
{}
