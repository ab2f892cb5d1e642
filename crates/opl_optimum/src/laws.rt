//! Laws of objectives, as contracts of functions without effect.
ghost use Rattle.opl_optimum.specs.Laws.{BestIsBest, GoalIsSound, GoalMeans, ImprovingAgrees, LastIsBest, SolutionsAre, SolutionsHaveValues, SolutionsInOrder, SomeIsBest};

/// Under each assignment of the declared sets, the expression that an objective becomes in a ground core has the value of the objective, and
/// none where the objective has none.
pub fn goal_means()
    ensures { GoalMeans }
{
    opl_draft::laws::unrolled_means();
}

/// The expression of an objective in a ground core is sound, twice its magnitude is below 2^127, it is at most 2,048 deep and has at most
/// 4,194,304 nodes.
pub fn goal_is_sound()
    ensures { GoalIsSound }
{}

/// Where an expression has the value of an objective on each assignment of a list, those of the list that are better than all before them are
/// the same by both.
pub fn improving_agrees()
    ensures { ImprovingAgrees }
{}

/// The last of those assignments of an ordered list that are better than all before them is the best of the list: none has a better value,
/// and all others of its value stand behind it.
pub fn last_is_best()
    ensures { LastIsBest }
{}

/// An assignment stands in the list of a problem's solutions exactly where it has one number for each declared set, none below its low end
/// or above its high end, every condition holds, and the objective, if there is one, is defined.
pub fn solutions_are()
    ensures { SolutionsAre }
{}

/// The solutions of a problem are in lexicographic order, so each of them stands there once.
pub fn solutions_in_order()
    ensures { SolutionsInOrder }
{}

/// The last of the better solutions of a problem with an objective is a solution, no solution has a better value, and it is the first in
/// lexicographic order of those with its value.
pub fn best_is_best()
    ensures { BestIsBest }
{}

/// The objective of a problem has a value on each of its solutions.
pub fn solutions_have_values()
    ensures { SolutionsHaveValues }
{}

/// A problem with a solution has a best one.
pub fn some_is_best()
    ensures { SomeIsBest }
{}
