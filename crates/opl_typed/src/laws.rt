//! Laws of the relation, as contracts of functions without effect.
ghost use Rattle.opl_typed.specs.Laws.{Complete, OneType, ParamsComplete, ParamsSound, SetsComplete, SetsSound, Sound};

/// What typing finds of an expression in its place, the relation has.
pub fn sound()
    ensures { Sound }
{}

/// What the relation has of an expression that fits its place, typing finds: so typing has an answer exactly there.
pub fn complete()
    ensures { Complete }
{}

/// An expression has one type at most.
pub fn one_type()
    ensures { OneType }
{}

/// What typing finds of a set of parameters, the relation has.
pub fn sets_sound()
    ensures { SetsSound }
{}

/// And the other way round.
pub fn sets_complete()
    ensures { SetsComplete }
{}

/// The scope that typing lets parameters open, the relation lets them open.
pub fn params_sound()
    ensures { ParamsSound }
{}

/// And the other way round.
pub fn params_complete()
    ensures { ParamsComplete }
{}
