//! Laws of removals, for every filter. Each law is the contract of a function without effect.
ghost use Rattle.opl_filter.specs.Laws.{RemovalsLoseNone, RemovalsJoin, RemovalsWiden, RunsCanGo, OthersDontMatter};

/// A stable family within the first one lies within what removals leave of it.
pub fn removals_lose_none()
    ensures { RemovalsLoseNone }
{}

/// Removals that go on where others have stopped are removals from the first family.
pub fn removals_join()
    ensures { RemovalsJoin }
{}

/// What one constraint removes may go for every list that has it.
pub fn removals_widen()
    ensures { RemovalsWiden }
{}

/// Dead values that follow one another may be cut at once.
pub fn runs_can_go()
    ensures { RunsCanGo }
{}

/// The range of a constraint depends on the variables alone that it mentions.
pub fn others_dont_matter()
    ensures { OthersDontMatter }
{}
