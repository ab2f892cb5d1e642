//! The turns of a search: where it is, what is still to come by the places that are open, and what one turn makes of that.
//!
//! A search that keeps its places itself stands on it. Each law is the contract of a function without effect.
#![tactic(auto)]

ghost use Rattle.opl_turns.specs.Laws.{TurnsAtMoments, TurnsAtPlaces, Beginnings};

/// What a turn makes before a moment and at it.
pub fn moments_turn()
    ensures { TurnsAtMoments }
{}

/// What a turn makes where alternatives are tried, and behind a path.
pub fn places_turn()
    ensures { TurnsAtPlaces }
{}

/// A search begins with no place open.
pub fn searches_begin()
    ensures { Beginnings }
{}
