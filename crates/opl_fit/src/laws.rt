//! Laws of the definitions, as contracts of functions without effect.
ghost use Rattle.opl_fit.specs.Laws.{CellsStandByTheirKeys, GivenValuesFit, QuotientsAreCutOff, TypedValuesFit, WrittenCellsStandByTheirKeys, WrittenKeysAreElements, WrittenValuesFit};

/// Each item whose value a data file gives, or is assigned, has a value of the form of its type: its numbers lie within their ranges, its names are those of their
/// enumerations, its records have a part for each field, the elements of its sets differ, and an array has a cell for each key of its index sets.
pub fn given_values_fit()
    ensures { GivenValuesFit }
{}

/// Each item whose value the model itself gives has a value of the form of its type, where the value is of the kind of the type, as typing tells it: then its numbers lie
/// within their ranges. An array has a cell for each key of its index sets, whatever the kinds of its cells.
pub fn written_values_fit()
    ensures { WrittenValuesFit }
{}

/// A value that the model writes for an item without dimensions, or for a cell, has the form of the declared type, where typing takes its expression as data of that type, the visible names
/// have values of their types, and the fields of which the value is made have their positions.
pub fn typed_values_fit()
    ensures { TypedValuesFit }
{}

/// Of an array that a data file gives, the cell at a key's place is what the array says for that key: in `#[..]#` the value behind it, in `[..]` that at its place.
pub fn cells_stand_by_their_keys()
    ensures { CellsStandByTheirKeys }
{}

/// Of an array that the model writes as `[..]` and `#[..]#`, over any number of index sets without names, the cell at a key's place is the value of the expression that stands for the key: in
/// `#[..]#` the one behind it, in `[..]` that at its place.
pub fn written_cells_stand_by_their_keys()
    ensures { WrittenCellsStandByTheirKeys }
{}

/// Each key in such an array has a value, which is an element of its index set.
pub fn written_keys_are_elements()
    ensures { WrittenKeysAreElements }
{}

/// A quotient is cut off towards 0, and the remainder has the sign of the number that is divided.
pub fn quotients_are_cut_off()
    ensures { QuotientsAreCutOff }
{}
