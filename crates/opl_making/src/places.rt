//! The places of operands.
ghost use Rattle.std.specs.Prelude.{◌≡◌, ℕ, IfOk};
ghost use Rattle.opl_eval.specs.Evaluation as evaluation;
ghost use Rattle.opl_draft.specs.Unrolled.{unrolled};
ghost use Rattle.opl_unfolding.specs.Unrolling.{live_draft};
ghost use Rattle.opl_declared.specs.Kept.{names_in};
ghost use Rattle.opl_making.specs.Places.{AreAt, place_or, term_drafts};

use opl_declared::{Declared, is_mentioned, place};
use opl_term::Term;
use smallvec::SmallVec;
use std::alloc::{AllocError, Global};

/// The place of what an expression is unrolled to, where that is no fault. For what typing lets no variable stand in it is 0.
#[cycle(places)]
pub fn draft_place(declared: &Declared<'_>, term: &Term) -> u32
    ensures { (env : evaluation.Environment) → place_or result (unrolled declared.now.items.now (names_in declared.now) term.now env) ≡ result }
{
    opl_unfolding::laws::live_drafts();
    opl_unfolding::laws::value_drafts();
    if is_mentioned(declared, term) {
        live_place(declared, term)
    } else {
        place(declared, term)
    }
}

/// The same of an expression in which a decision variable is named.
#[tactic(auto, using(crate::proofs::DraftPlaces::live_places))]
#[cycle(places)]
fn live_place(declared: &Declared<'_>, term: &Term) -> u32
    ensures { (env : evaluation.Environment) → place_or result (live_draft declared.now.items.now (names_in declared.now) term.now env) ≡ result }
{
    match term {
        Term::Number(at, _) => *at,
        Term::Named(at, _) => *at,
        Term::Bracket(_, inner) => draft_place(declared, inner.get()),
        Term::Negative(at, _) => *at,
        Term::Chain(at, ..) => *at,
        Term::Related(at, ..) => *at,
        Term::Equivalent(at, _) => *at,
        Term::Implied(at, ..) => *at,
        Term::Or(at, _) => *at,
        Term::And(at, _) => *at,
        Term::Not(at, _) => *at,
        Term::Aggregate(at, ..) => *at,
        Term::Call(at, ..) => *at,
        Term::AllDifferent(at, _) => *at,
        Term::Element(at, ..) => *at,
        Term::Member(..)
        | Term::Question(..)
        | Term::Fields(..)
        | Term::Record(..)
        | Term::Listed(..)
        | Term::Described(..)
        | Term::Array(..)
        | Term::KeyedArray(..) => 0,
    }
}

/// The places of what expressions are unrolled to, one after another. Of one or two expressions they take no memory.
pub fn places_of(
    alloc: Global,
    declared: &Declared<'_>,
    terms: &[Term],
) -> Result<SmallVec<u32, 2>, AllocError>
    ensures { IfOk result (λ places. (env : evaluation.Environment) → AreAt (term_drafts declared.now.items.now (names_in declared.now) env terms.now) places.items) }
{
    let mut places = SmallVec::new(alloc);
    for term in terms {
        places.push(draft_place(declared, term))?;
    }
    Ok(places)
}
