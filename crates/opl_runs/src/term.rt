//! Whether decision variables stand in expressions only where they may.
ghost use Rattle.std.specs.Prelude.{◌≡◌};
ghost use Rattle.std.specs.List.{list_all};
ghost use Rattle.opl_declared.specs.Kept.{names_in};
ghost use Rattle.opl_draft.specs.Forms as forms;
ghost use Rattle.opl_draft.specs.Unrolled as spec;
ghost use Rattle.opl_runs.specs.Scopes as scopes;

use crate::data::are_data;
use crate::laws::clean_by_form;
use crate::scope::Scope;
use opl_declared::is_mentioned;
use opl_term::{Step, Term};
use opl_tree::CallOp;

/// Whether a term is a name, in brackets or not.
#[tactic(auto, using(crate::proofs::NameTerms::name_terms))]
fn is_name(scope: &Scope<'_>, term: &Term) -> bool
    ensures { result ≡ forms.is_name scope.now.items.now (names_in scope.now.declared) term.now }
{
    match term {
        Term::Named(..) => true,
        Term::Bracket(_, inner) => is_name(scope, inner.get()),
        Term::Number(..)
        | Term::Negative(..)
        | Term::Chain(..)
        | Term::Related(..)
        | Term::Member(..)
        | Term::Equivalent(..)
        | Term::Implied(..)
        | Term::Or(..)
        | Term::And(..)
        | Term::Not(..)
        | Term::Aggregate(..)
        | Term::Call(..)
        | Term::AllDifferent(..)
        | Term::Question(..)
        | Term::Element(..)
        | Term::Fields(..)
        | Term::Record(..)
        | Term::Listed(..)
        | Term::Described(..)
        | Term::Array(..)
        | Term::KeyedArray(..) => false,
    }
}

/// Whether a call is that of `abs`.
fn is_absolute(op: CallOp) -> bool
    ensures { result ≡ spec.is_absolute op }
{
    match op {
        CallOp::Absolute => true,
        CallOp::Cardinality => false,
    }
}

/// Whether decision variables stand in a term only where they may. The nesting of the term is the depth of the recursion. It takes no
/// memory.
#[cycle(clean)]
pub(crate) fn is_clean(scope: &Scope<'_>, term: &Term) -> bool
    ensures { result ≡ spec.is_clean scope.now.items.now (names_in scope.now.declared) term.now }
{
    clean_by_form();
    !is_mentioned(&scope.declared, term) || has_clean_form(scope, term)
}

/// The same of a term in which a decision variable is named.
#[tactic(auto, using(crate::proofs::CleanForms::clean_forms))]
#[cycle(clean)]
fn has_clean_form(scope: &Scope<'_>, term: &Term) -> bool
    ensures { result ≡ scopes.clean_by_form scope.now.items.now (names_in scope.now.declared) term.now }
{
    match term {
        Term::Number(..) => true,
        Term::Named(_, name) => scope.is_plain(name.as_slice()),
        Term::Bracket(_, inner) => is_clean(scope, inner.get()),
        Term::Negative(_, operand) => is_clean(scope, operand.get()),
        Term::Chain(_, first, steps) => {
            is_clean(scope, first.get()) && are_clean_steps(scope, steps.as_slice())
        }
        Term::Related(_, left, _, right) => {
            is_clean(scope, left.get()) && is_clean(scope, right.get())
        }
        Term::Equivalent(_, terms) => are_clean(scope, terms.as_slice()),
        Term::Implied(_, premise, conclusion) => {
            is_clean(scope, premise.get()) && is_clean(scope, conclusion.get())
        }
        Term::Or(_, terms) => are_clean(scope, terms.as_slice()),
        Term::And(_, terms) => are_clean(scope, terms.as_slice()),
        Term::Not(_, operand) => is_clean(scope, operand.get()),
        Term::Aggregate(_, _, groups, condition, body) => {
            are_data(scope, groups.as_slice(), condition) && is_clean(scope, body.get())
        }
        Term::Call(_, op, operand) => is_absolute(*op) && is_clean(scope, operand.get()),
        Term::AllDifferent(_, array) => is_name(scope, array.get()),
        Term::Element(_, base, subscripts) => {
            is_name(scope, base.get()) && are_clean(scope, subscripts.as_slice())
        }
        Term::Member(..)
        | Term::Question(..)
        | Term::Fields(..)
        | Term::Record(..)
        | Term::Listed(..)
        | Term::Described(..)
        | Term::Array(..)
        | Term::KeyedArray(..) => false,
    }
}

/// The same of terms.
#[cycle(clean)]
fn are_clean(scope: &Scope<'_>, terms: &[Term]) -> bool
    ensures { result ≡ list_all (spec.is_clean scope.now.items.now (names_in scope.now.declared)) terms.now }
{
    for term in terms {
        if !is_clean(scope, term) {
            return false;
        }
    }
    true
}

/// The same of the steps of a chain.
#[cycle(clean)]
fn are_clean_steps(scope: &Scope<'_>, steps: &[Step]) -> bool
    ensures { result ≡ list_all (forms.is_clean_step scope.now.items.now (names_in scope.now.declared)) steps.now }
{
    for step in steps {
        if !is_clean_step(scope, step) {
            return false;
        }
    }
    true
}

/// The same of a step of a chain.
#[tactic(auto, using(crate::proofs::CleanTerms::clean_steps))]
#[cycle(clean)]
fn is_clean_step(scope: &Scope<'_>, step: &Step) -> bool
    ensures { result ≡ forms.is_clean_step scope.now.items.now (names_in scope.now.declared) step.now }
{
    match step {
        Step::Plus(operand) => is_clean(scope, operand),
        Step::Minus(operand) => is_clean(scope, operand),
        Step::Times(operand) => is_clean(scope, operand),
        Step::Quotient(operand) => is_clean(scope, operand),
        Step::Remainder(operand) => is_clean(scope, operand),
    }
}
