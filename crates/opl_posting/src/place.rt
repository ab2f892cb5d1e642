//! The places of expressions.
ghost use Rattle.std.specs.Prelude.{◌≡◌};
ghost use Rattle.opl_meaning.specs.Uses.{place_of};

use opl_term::Term;

/// The place of a term's first token.
#[tactic(auto, using(opl_meaning::proofs::Named::places))]
pub(crate) fn place(term: &Term) -> u32
    ensures { result ≡ place_of term.now }
{
    match term {
        Term::Number(at, _) => *at,
        Term::Named(at, _) => *at,
        Term::Bracket(at, _) => *at,
        Term::Negative(at, _) => *at,
        Term::Chain(at, ..) => *at,
        Term::Related(at, ..) => *at,
        Term::Member(at, ..) => *at,
        Term::Equivalent(at, _) => *at,
        Term::Implied(at, ..) => *at,
        Term::Or(at, _) => *at,
        Term::And(at, _) => *at,
        Term::Not(at, _) => *at,
        Term::Aggregate(at, ..) => *at,
        Term::Call(at, ..) => *at,
        Term::AllDifferent(at, _) => *at,
        Term::Question(at, ..) => *at,
        Term::Element(at, ..) => *at,
        Term::Fields(at, ..) => *at,
        Term::Record(at, _) => *at,
        Term::Listed(at, _) => *at,
        Term::Described(at, ..) => *at,
        Term::Array(at, _) => *at,
        Term::KeyedArray(at, ..) => *at,
    }
}
