//! Terms that are names.
ghost use Rattle.std.specs.Prelude.{◌≡◌};
ghost use Rattle.std.specs.Option.{option_copied};
ghost use Rattle.opl_eval.specs.Evaluation.{Environment};
ghost use Rattle.opl_draft.specs.Forms as forms;
ghost use Rattle.opl_declared.specs.Kept.{names_in};
ghost use Rattle.opl_declared.specs.Lookups as lookups;

use crate::declared::Declared;
use opl_term::Term;

/// The name that a term is, in brackets or not.
#[tactic(auto, using(crate::proofs::TermNames::array_names, crate::proofs::TermNames::cells_names))]
pub fn name_of<'t>(declared: &Declared<'_>, term: &'t Term) -> Option<&'t [u8]>
    ensures array { (env : Environment) → forms.array_in declared.now.items.now (names_in declared.now) term.now env ≡ lookups.array_named declared.now.items.now (option_copied result) env }
    ensures cells { (env : Environment) → forms.cells_in declared.now.items.now (names_in declared.now) term.now env ≡ lookups.cells_named declared.now.items.now (option_copied result) env }
{
    match term {
        Term::Named(_, name) => Some(name.as_slice()),
        Term::Bracket(_, inner) => name_of(declared, inner.get()),
        Term::Number(..)
        | Term::Negative(..)
        | Term::Chain(..)
        | Term::Related(..)
        | Term::Member(..)
        | Term::Equivalent(..)
        | Term::Implied(..)
        | Term::Or(..)
        | Term::And(..)
        | Term::Not(..)
        | Term::Aggregate(..)
        | Term::Call(..)
        | Term::AllDifferent(..)
        | Term::Question(..)
        | Term::Element(..)
        | Term::Fields(..)
        | Term::Record(..)
        | Term::Listed(..)
        | Term::Described(..)
        | Term::Array(..)
        | Term::KeyedArray(..) => None,
    }
}
