//! Laws of `alldifferent` over parts. Each law is the contract of a function without effect.
ghost use Rattle.opl_all_different.specs.Laws.{DifferentByEnds, DifferentByParts};

/// A family refutes that expressions of one variable each differ, where two of them have one value each, and the same.
pub fn different_by_parts()
    ensures { DifferentByParts }
{}

/// Families with the same ends refute alike that such expressions differ.
pub fn different_by_ends()
    ensures { DifferentByEnds }
{}
