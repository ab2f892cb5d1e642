//! Laws of names and of where they stand, as contracts of functions without effect.
ghost use Rattle.opl_runs.specs.Laws.{CleanByForm, NamesAreDeclared};

/// The names that a model's text declares for decision variables are those of the variables that the declarations come to, and the plain
/// ones among them are those that are no arrays.
pub fn names_are_declared()
    ensures { NamesAreDeclared }
{}

/// A term is clean where it names no decision variable, and else by its form.
pub fn clean_by_form()
    ensures { CleanByForm }
{
    opl_draft::laws::unrolled_by_form();
}
