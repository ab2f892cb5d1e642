//! What the definitions of this crate promise, as functions without effect whose contracts are the laws.
ghost use Rattle.opl_token.specs.Laws.{OneScan, NoFault, OneFault, Total, FewTokens, PlacesWithin, PlacesRise, NumbersFit};

/// A text has at most one token list.
pub fn one_scan()
    ensures { OneScan }
{}

/// A text that has a token list has no fault.
pub fn no_fault()
    ensures { NoFault }
{}

/// A text has at most one fault.
pub fn one_fault()
    ensures { OneFault }
{}

/// A text has a token list or a fault.
pub fn total()
    ensures { Total }
{}

/// A text has no more tokens than bytes.
pub fn few_tokens()
    ensures { FewTokens }
{}

/// Each token begins within its text.
pub fn places_within()
    ensures { PlacesWithin }
{}

/// Each token begins behind the one before it.
pub fn places_rise()
    ensures { PlacesRise }
{}

/// Each number of a token is from 0 to `2^127 - 1`.
pub fn numbers_fit()
    ensures { NumbersFit }
{}
