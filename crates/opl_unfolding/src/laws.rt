//! Laws of forms made part by part, as contracts of functions without effect.
ghost use Rattle.opl_unfolding.specs.Laws.{AggregatesByChoice, BodiesByChoice, BodiesStop, DraftsOfForms, DraftsOfSteps, ForAllByChoice, LiveDrafts, MadeOnto, MadeSame, MadeSteps, OntoAppend, OntoEnd, OntoNext, PostedAppend, PostedByChoice, PostedInTurn, PostedStop, ValueDrafts};

/// Drafts behind drafts are made behind their forms.
pub fn onto_append()
    ensures { OntoAppend }
{}

/// Of the drafts of terms, the next one is made behind those before.
pub fn onto_next()
    ensures { OntoNext }
{}

/// Behind the last of them the forms are those that were made.
pub fn onto_end()
    ensures { OntoEnd }
{}

/// The forms of drafts are made one behind another, in arithmetic places too; their places are those of the drafts.
pub fn made_onto()
    ensures { MadeOnto }
{}

/// An equivalence takes up its first part as a truth, and then one part after another.
pub fn made_same()
    ensures { MadeSame }
{}

/// A chain takes up one step after another.
pub fn made_steps()
    ensures { MadeSteps }
{}

/// An expression that names a decision variable is unrolled by its form.
pub fn live_drafts()
    ensures { LiveDrafts }
{
    opl_draft::laws::unrolled_by_form();
}

/// An expression that names no decision variable is evaluated.
pub fn value_drafts()
    ensures { ValueDrafts }
{
    opl_draft::laws::unrolled_by_form();
}

/// What each of the forms of expressions is unrolled to.
pub fn drafts_of_forms()
    ensures { DraftsOfForms }
{}

/// What each of the forms of steps is unrolled to.
pub fn drafts_of_steps()
    ensures { DraftsOfSteps }
{
    opl_draft::laws::step_by_form();
}

/// The bodies of an aggregate are those of the choices of its groups, one after another.
pub fn bodies_by_choice()
    ensures { BodiesByChoice }
{}

/// The form of an aggregate is made of those of its body under these choices, one behind another.
pub fn aggregates_by_choice()
    ensures { AggregatesByChoice }
{}

/// Where the choices stop with a fault, that is the fault of the bodies.
pub fn bodies_stop()
    ensures { BodiesStop }
{}

/// What `forall` gives, it gives under one choice after another.
pub fn for_all_by_choice()
    ensures { ForAllByChoice }
{}

/// Conditions behind conditions are posted behind their constraints.
pub fn posted_append()
    ensures { PostedAppend }
{}

/// What stands under `forall` is posted for one choice after another.
pub fn posted_by_choice()
    ensures { PostedByChoice }
{}

/// Items are posted one after another.
pub fn posted_in_turn()
    ensures { PostedInTurn }
{}

/// Where the choices stop with a fault, that is the fault of what is posted.
pub fn posted_stop()
    ensures { PostedStop }
{}
