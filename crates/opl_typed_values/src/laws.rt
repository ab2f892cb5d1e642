//! Laws of the definitions, as contracts of functions without effect.
ghost use Rattle.opl_typed_values.specs.Laws.{ValuesAreOfTheirSorts};

/// Where typing takes an expression as data, the visible names have values of their types, and the fields of which its value is made have their positions, its value is of the type that
/// typing finds.
pub fn values_are_of_their_sorts()
    ensures { ValuesAreOfTheirSorts }
{}
