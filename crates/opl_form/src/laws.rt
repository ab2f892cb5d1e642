//! Laws of ground forms, as contracts of functions without effect.
ghost use Rattle.opl_form.specs.Laws.{FormsAreSound, FormsMean, MadeIsSound, MadeIsWorth, SolutionsMean, ValuesAreSmall};

/// Under an assignment of the declared sets, no value of an expression is greater than its magnitude.
pub fn values_are_small()
    ensures { ValuesAreSmall }
{}

/// Under each assignment of the declared sets, a ground form has the value that its draft comes to, and none where the draft comes to a fault.
pub fn made_is_worth()
    ensures { MadeIsWorth }
{}

/// A ground form is sound as a number, by its ranks and as a condition, at most 2048 deep, and there are at most 4,194,304 nodes with it.
pub fn made_is_sound()
    ensures { MadeIsSound }
{}

/// Under each assignment of the declared sets, all conditions are met exactly where all their constraints hold.
pub fn forms_mean()
    ensures { FormsMean }
{}

/// The constraints of conditions are sound, at most 2048 deep, and have at most 4,194,304 nodes together.
pub fn forms_are_sound()
    ensures { FormsAreSound }
{}

/// The solutions of a model are the assignments of the declared sets, in lexicographic order, on which the constraints of all conditions hold.
pub fn solutions_mean()
    ensures { SolutionsMean }
{
    opl_draft::laws::solutions_unrolled();
}
