//! Laws of the definitions, as contracts of functions without effect.
ghost use Rattle.opl_read_fields.specs.Laws.{LoadedModelValuesFit, NamesOfTextsDiffer, PositionsAreTold, ReadModelValuesFit};

/// In a model that has types each field that the model names has its position, if no two names of fields stand at the same place.
pub fn positions_are_told()
    ensures { PositionsAreTold }
{}

/// In the tree of a text's tokens no two names of fields stand at the same place.
pub fn names_of_texts_differ()
    ensures { NamesOfTextsDiffer }
{}

/// So in a model that has types and was read from a text each value that binding gives has the form of its declared type.
pub fn read_model_values_fit()
    ensures { ReadModelValuesFit }
{}

/// So has each value of the data that the program makes of the files that it reads.
pub fn loaded_model_values_fit()
    ensures { LoadedModelValuesFit }
{}
