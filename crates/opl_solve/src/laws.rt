//! Laws of the definitions, as contracts of functions without effect.
ghost use Rattle.opl_solve.specs.Laws.{UnreachedLimit};

/// Where a search has fewer solutions than its limit, the same is shown as without a limit.
#[tactic(auto, using(crate::proofs::Unreached::unreached_limit))]
pub fn unreached_limit()
    ensures { UnreachedLimit }
{}
