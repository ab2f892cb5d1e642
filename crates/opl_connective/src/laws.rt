//! Laws of filters of connectives. Each law is the contract of a function without effect.
ghost use Rattle.opl_connective.specs.Ends.{EndsDecide};

/// Where the ends of sets alone decide each comparison, families with the same ends refute the constraint of the filter alike.
pub fn ends_decide()
    ensures { EndsDecide }
{}
