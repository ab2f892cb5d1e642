//! Laws of what conditions come to under an assignment, as contracts of functions without effect.
ghost use Rattle.opl_held.specs.Laws.{ComesToAnswer, ComesToConstraint, DataStays, MadeIsFound, MetIsTrue, RefusedIsFault, WorthMeans};

/// An unrolled condition is worth what evaluation of it comes to, and undefined where evaluation finds a fault.
pub fn worth_means()
    ensures { WorthMeans }
{}

/// No assignment changes whether a decision variable is left in an unrolled condition, what it comes to where none is, and its first fault
/// without variables.
pub fn data_stays()
    ensures { DataStays }
{}

/// A condition comes to its first fault without variables, and else to what evaluation finds.
pub fn comes_to_answer()
    ensures { ComesToAnswer }
{}

/// A condition is met under an assignment exactly where it comes to true.
pub fn met_is_true()
    ensures { MetIsTrue }
{}

/// Where a ground form is made of an unrolled condition, that has no fault without variables; a decision variable is left in both, or the
/// same value.
pub fn made_is_found()
    ensures { MadeIsFound }
{}

/// Where the constraint of a condition is made, the condition comes to whether the constraint holds, and to nothing where that is undefined,
/// under each assignment of the declared sets.
pub fn comes_to_constraint()
    ensures { ComesToConstraint }
{}

/// Where no ground form is made because of a fault of data, that is the first fault without variables. `OutOfIndex` is left out, since a form
/// has it also at variables, arrays and subscripts that typing rules out.
pub fn refused_is_fault()
    ensures { RefusedIsFault }
{}
