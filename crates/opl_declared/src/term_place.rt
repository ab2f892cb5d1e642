//! The places of expressions.
ghost use Rattle.std.specs.Prelude.{◌≡◌};
ghost use Rattle.opl_draft.specs.Forms as forms;
ghost use Rattle.opl_declared.specs.Kept.{names_in};

use crate::declared::Declared;
use opl_term::Term;

/// The place of a term's first token, which for a bracket is that of the expression inside.
#[tactic(auto, using(crate::proofs::TermPlaces::places))]
pub fn place(declared: &Declared<'_>, term: &Term) -> u32
    ensures { result ≡ forms.place declared.now.items.now (names_in declared.now) term.now }
{
    match term {
        Term::Number(at, _) => *at,
        Term::Named(at, _) => *at,
        Term::Bracket(_, inner) => place(declared, inner.get()),
        Term::Negative(at, _) => *at,
        Term::Chain(at, ..) => *at,
        Term::Related(at, ..) => *at,
        Term::Member(at, ..) => *at,
        Term::Equivalent(at, _) => *at,
        Term::Implied(at, ..) => *at,
        Term::Or(at, _) => *at,
        Term::And(at, _) => *at,
        Term::Not(at, _) => *at,
        Term::Aggregate(at, ..) => *at,
        Term::Call(at, ..) => *at,
        Term::AllDifferent(at, _) => *at,
        Term::Question(at, ..) => *at,
        Term::Element(at, ..) => *at,
        Term::Fields(at, ..) => *at,
        Term::Record(at, _) => *at,
        Term::Listed(at, _) => *at,
        Term::Described(at, ..) => *at,
        Term::Array(at, _) => *at,
        Term::KeyedArray(at, ..) => *at,
    }
}
