//! Laws of propagation. Each law is the contract of a function without effect.
ghost use Rattle.opl_closure.specs.Laws.{BoundIsMember};

/// The bound on the objective is one more member.
pub fn bound_is_member()
    ensures { BoundIsMember }
{}
