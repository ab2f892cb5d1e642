//! Laws of unrolling, as contracts of functions without effect.
ghost use Rattle.opl_draft.specs.Laws.{InstanceMeans, InstancesClean, SettledFaults, SettledInstances, SettledValues, SolutionsUnrolled, StepByForm, UnrolledByForm, UnrolledMeans};

/// Under an assignment an unrolled expression comes to what the expression does where the decision variables have its values, be it a
/// value or a fault with its place. The variables stand only where typing lets them.
pub fn unrolled_means()
    ensures { UnrolledMeans }
{}

/// An instance holds under an assignment exactly where its draft comes to a value that is true.
pub fn instance_means()
    ensures { InstanceMeans }
{}

/// The solutions of a model are the assignments of the declared sets, in lexicographic order, on which the drafts of all instances
/// come to values that are true.
pub fn solutions_unrolled()
    ensures { SolutionsUnrolled }
{}

/// Where decision variables stand in the items of a model only where typing lets them, they do so in each instance: what the laws above
/// ask of instances is a question on the text.
pub fn instances_clean()
    ensures { InstancesClean }
{}

/// Each form of expressions is unrolled by its parts, or evaluated as a whole where it names no decision variable.
pub fn unrolled_by_form()
    ensures { UnrolledByForm }
{}

/// Each form of steps is unrolled by its operand.
pub fn step_by_form()
    ensures { StepByForm }
{}

/// A draft in which a fault depends on no decision variable comes to no value under any assignment.
pub fn settled_faults()
    ensures { SettledFaults }
{}

/// A draft in which no decision variable is left comes to its one value under every assignment, or to none.
pub fn settled_values()
    ensures { SettledValues }
{}

/// An instance in which a fault depends on no decision variable holds under no assignment.
pub fn settled_instances()
    ensures { SettledInstances }
{}
