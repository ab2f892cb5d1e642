//! What holds of places. Each law is the contract of a function without effect.
ghost use Rattle.opl_choices.specs.Places.{PlacesAreElements};

/// The elements at the places that are taken are those that are taken, and in the same order.
pub fn places_are_elements()
    ensures { PlacesAreElements }
{}
