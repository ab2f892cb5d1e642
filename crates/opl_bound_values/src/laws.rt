//! Laws of the definitions, as contracts of functions without effect.
ghost use Rattle.opl_bound_values.specs.Laws.{BoundNamesAreOfTheirSorts, BoundValuesFit};

/// Where declarations have types, and the positions of fields and the values that are assigned suit them, each value that binding gives has the form of its declared type, whether a data file
/// gives it or the model writes it.
pub fn bound_values_fit()
    ensures { BoundValuesFit }
{}

/// So behind the declarations the value of each name of data is of the type that typing knows of it.
pub fn bound_names_are_of_their_sorts()
    ensures { BoundNamesAreOfTheirSorts }
{}
