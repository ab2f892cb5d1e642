//! Laws of stable families, of the closure, of searches and of cores. Each law is the contract of a function without effect.
ghost use Rattle.opl_trace.specs.ClosureLaws.{UnionIsStable, ClosureIsGreatest, ClosureIsUnion, NoneLost};
ghost use Rattle.opl_trace.specs.EngineLaws.{StableForFewer, StableUnderWorse, KeptCloses, SolutionsSatisfy, BaseIsSound};
ghost use Rattle.opl_trace.specs.GroundLaws.{PlainSections, MarksAreSolutions};
ghost use Rattle.opl_trace.specs.SearchLaws.{Prefix, Counted, Enough, RefutingIsMonotone, MomentIsClosure, SolutionsStay, SinglesHold, SweepsClose, SweepsTrace, PostingNarrows, PostedIsSingle, AllFound, BestFound};

/// The union of any stable families of the same variables is stable.
pub fn unions_are_stable()
    ensures { UnionIsStable }
{}

/// A family is the union of all stable families exactly where it is the greatest of them.
pub fn closures_are_greatest()
    ensures { ClosureIsGreatest }
{}

/// The closure is the union of all stable families, and it has failed exactly where there is none.
pub fn closures_are_unions()
    ensures { ClosureIsUnion }
{}

/// An assignment that the test spares lies in the closure.
pub fn closures_lose_none()
    ensures { NoneLost }
{}

/// The marks with some choices, without a Cut, are the first of those with one choice more.
pub fn marks_are_prefixes()
    ensures { Prefix }
{}

/// Each choice that a search makes is one less that is left.
pub fn choices_are_counted()
    ensures { Counted }
{}

/// Default search makes at most as many choices as the assignments of the declared sets have non-empty prefixes.
pub fn prefixes_are_enough()
    ensures { Enough }
{}

/// A family below one that refutes a constraint or the bound refutes one too.
pub fn refuting_is_monotone()
    ensures { RefutingIsMonotone }
{}

/// The sets of a moment are the union of all families that are stable for the constraints and the bound.
pub fn moments_are_closures()
    ensures { MomentIsClosure }
{}

/// An assignment on which all constraints and the bound hold lies in the sets of the moment.
pub fn solutions_stay()
    ensures { SolutionsStay }
{}

/// Where each variable has one value, all constraints and the bound hold on these values.
pub fn single_values_hold()
    ensures { SinglesHold }
{}

/// Sweeps give the closure.
pub fn sweeps_close()
    ensures { SweepsClose }
{}

/// A search by sweeps makes what the search makes.
pub fn sweeps_trace()
    ensures { SweepsTrace }
{}

/// More constraints leave fewer values.
pub fn posting_narrows()
    ensures { PostingNarrows }
{}

/// Once `x = v` is posted, `x` has no other value.
pub fn posted_values_are_single()
    ensures { PostedIsSingle }
{}

/// Without an objective, default search without a Cut makes exactly the solutions, in lexicographic order.
pub fn default_search_finds_all()
    ensures { AllFound }
{}

/// With an objective, default search without a Cut makes exactly the solutions that are better than all before them.
pub fn default_search_finds_the_best()
    ensures { BestFound }
{}

/// A family that is stable for some constraints is stable for the first of them.
pub fn stable_for_fewer()
    ensures { StableForFewer }
{}

/// A family that is stable under a best value is stable under one that is no better.
pub fn stable_under_worse()
    ensures { StableUnderWorse }
{}

/// Removing dead values one after another leads to the closure, or to a family that shows that there is none.
pub fn removals_close()
    ensures { KeptCloses }
{}

/// The solutions of a core are the assignments of its declared sets on which its constraints hold.
pub fn solutions_satisfy()
    ensures { SolutionsSatisfy }
{}

/// A sound core has sound constraints to begin with.
pub fn bases_are_sound()
    ensures { BaseIsSound }
{}

/// Of a plain section the Solution marks are the solutions that its paths reach, or the better ones of them.
pub fn plain_sections_are_reached()
    ensures { PlainSections }
{}

/// Each Solution mark of a search is a solution.
pub fn marks_are_solutions()
    ensures { MarksAreSolutions }
{}
