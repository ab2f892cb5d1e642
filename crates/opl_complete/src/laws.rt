//! Laws of the search of a whole model, as contracts of functions without effect.
ghost use Rattle.opl_complete.specs.Complete.{CoreIsGround, CoreMeans, EnvironmentsAreKeyed, SearchBegins, SearchFindsAll, ValuesMean};

/// The core of an accepted model is a ground core.
pub fn core_is_ground()
    ensures { CoreIsGround }
{}

/// The objective of the core of an accepted model has the value of the model's objective, on each assignment of the declared sets.
pub fn values_mean()
    ensures { ValuesMean }
{
    opl_optimum::laws::goal_means();
}

/// The solutions of the core of an accepted model are those of the model, in the same order. With an objective these are the assignments on
/// which it comes to a value.
pub fn core_means()
    ensures { CoreMeans }
{
    opl_draft::laws::instances_clean();
    opl_draft::laws::solutions_unrolled();
    values_mean();
}

/// Default search without a Cut finds all solutions of the model that are better than all before them, in lexicographic order; without an
/// objective all solutions.
pub fn search_finds_all()
    ensures { SearchFindsAll }
{
    core_means();
    values_mean();
}

/// Default search with some choices finds the first of these, and no others.
pub fn search_begins()
    ensures { SearchBegins }
{
    core_means();
    values_mean();
}

/// Places can be found in the index spaces of all arrays of an environment.
pub fn environments_are_keyed()
    ensures { EnvironmentsAreKeyed }
{}
