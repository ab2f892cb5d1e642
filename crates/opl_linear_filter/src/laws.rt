//! Laws of linear filters. Each law is the contract of a function without effect.
ghost use Rattle.opl_linear_filter.specs.Ends.{EndsDecide};

/// Where the ends of sets alone decide what a filter removes, families with the same ends refute its constraint alike.
pub fn ends_decide()
    ensures { EndsDecide }
{}
