//! Laws of filters of objectives. Each law is the contract of a function without effect.
ghost use Rattle.opl_objective_filter.specs.ObjectiveFilters.{EndsDecide};

/// Families with the same ends refute the bound on a linear objective alike, whatever the best value.
pub fn ends_decide()
    ensures { EndsDecide }
{}
