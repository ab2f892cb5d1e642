//! Laws of sets that hold every stable family. Each law is the contract of a function without effect.
ghost use Rattle.opl_engine.specs.Laws.{DeclaredHoldAll, PostingHoldsAll, BetterHoldsAll, MomentHoldsAll};

/// The declared sets hold every stable family.
pub fn declared_sets_hold_all()
    ensures { DeclaredHoldAll }
{}

/// Posting more leaves fewer stable families.
pub fn posting_holds_all()
    ensures { PostingHoldsAll }
{}

/// A better best value leaves fewer stable families.
pub fn better_values_hold_all()
    ensures { BetterHoldsAll }
{}

/// The sets of a moment hold every stable family.
pub fn moments_hold_all()
    ensures { MomentHoldsAll }
{}
