//! Expressions as initial values: each taken by the form of its type.
ghost use Rattle.std.specs.Prelude.{◌≡◌, [], map};
ghost use Rattle.opl_eval.specs.Evaluation.{meaning};
ghost use Rattle.opl_given.specs.Faults.{Binds};
ghost use Rattle.opl_given.specs.Readings.{known_of};
ghost use Rattle.opl_bind.specs.Scopes.{names_in};
ghost use Rattle.opl_given.specs.Values.{all_by_form, each_by_form};
ghost use Rattle.opl_bind.specs.Written as spec;

use crate::scope::{Scope, evaluated};
use opl_given::{BindFault, Form, Types, element_of, is_inside, parts_of, set_of};
use opl_list::Seq;
use opl_term::Term;
use opl_value::Value;
use std::alloc::Global;

/// The place of an expression's first token.
#[tactic(auto, using(crate::proofs::WrittenLayers::first_tokens))]
pub(crate) fn first_token(term: &Term) -> u32
    ensures { result ≡ spec.first_token term.now }
{
    match term {
        Term::Number(at, _) => *at,
        Term::Named(at, _) => *at,
        Term::Bracket(at, _) => *at,
        Term::Negative(at, _) => *at,
        Term::Chain(at, _, _) => *at,
        Term::Related(at, _, _, _) => *at,
        Term::Member(at, _, _) => *at,
        Term::Equivalent(at, _) => *at,
        Term::Implied(at, _, _) => *at,
        Term::Or(at, _) => *at,
        Term::And(at, _) => *at,
        Term::Not(at, _) => *at,
        Term::Aggregate(at, _, _, _, _) => *at,
        Term::Call(at, _, _) => *at,
        Term::AllDifferent(at, _) => *at,
        Term::Question(at, _, _) => *at,
        Term::Element(at, _, _) => *at,
        Term::Fields(at, _, _) => *at,
        Term::Record(at, _) => *at,
        Term::Listed(at, _) => *at,
        Term::Described(at, _, _, _) => *at,
        Term::Array(at, _) => *at,
        Term::KeyedArray(at, _, _) => *at,
    }
}

/// An expression evaluated as a whole, then tested.
fn whole(
    alloc: Global,
    types: &Types<'_>,
    scope: Scope<'_>,
    form: &Form,
    term: &Term,
) -> Result<Value, BindFault>
    ensures { Binds (spec.whole (known_of types.now) (spec.first_token term.now) (meaning term.now) form.now (names_in scope.entry)) result }
{
    let value = evaluated(alloc, scope, term)?;
    if !is_inside(types, &value, form) {
        return Err(BindFault::Outside(0, first_token(term)));
    }
    Ok(value)
}

/// The value that an expression is by a form. Records and sets that are written out are taken part by part.
#[cycle(fitting)]
#[tactic(auto, using(crate::proofs::WrittenLayers::fits))]
pub(crate) fn fitted(
    alloc: Global,
    types: &Types<'_>,
    scope: Scope<'_>,
    form: &Form,
    term: &Term,
) -> Result<Value, BindFault>
    ensures { Binds ((spec.written (known_of types.now) term.now).fit form.now (names_in scope.entry)) result }
{
    match term {
        Term::Record(_, parts) => match parts_of(&*types, &*form) {
            Some(forms) => {
                let parts = parts_fitted(alloc, types, scope, parts.as_slice(), forms)?;
                Ok(Value::Record(parts))
            }
            None => whole(alloc, types, scope, form, term),
        },
        Term::Listed(_, elements) => match element_of(form) {
            Some(element) => {
                let elements = elements_fitted(alloc, types, scope, elements.as_slice(), element)?;
                Ok(set_of(alloc, elements)?)
            }
            None => whole(alloc, types, scope, form, term),
        },
        // one arm of all of these takes seconds to prove
        Term::Number(..)
        | Term::Named(..)
        | Term::Bracket(..)
        | Term::Negative(..)
        | Term::Chain(..)
        | Term::Related(..)
        | Term::Member(..) => whole(alloc, types, scope, form, term),
        Term::Equivalent(..)
        | Term::Implied(..)
        | Term::Or(..)
        | Term::And(..)
        | Term::Not(..)
        | Term::Aggregate(..)
        | Term::Call(..) => whole(alloc, types, scope, form, term),
        Term::AllDifferent(..)
        | Term::Question(..)
        | Term::Element(..)
        | Term::Fields(..)
        | Term::Described(..)
        | Term::Array(..)
        | Term::KeyedArray(..) => whole(alloc, types, scope, form, term),
    }
}

/// The parts of a record, each by its form.
#[cycle(fitting)]
#[tactic(auto, using(crate::proofs::WrittenLayers::weights_of_parts))]
fn parts_fitted(
    alloc: Global,
    types: &Types<'_>,
    scope: Scope<'_>,
    parts: &[Term],
    forms: &[Form],
) -> Result<Seq<Value>, BindFault>
    ensures { Binds (each_by_form [] (spec.under (names_in scope.entry) (map (spec.written (known_of types.now)) parts.now)) forms.now) result }
{
    let mut found = Seq::new(alloc);
    let mut left = forms;
    for part in parts {
        let Some((form, others)) = left.split_first() else {
            return Ok(found);
        };
        found.push(fitted(alloc, types, scope, form, part)?)?;
        left = others;
    }
    Ok(found)
}

/// The elements of a set, in the order in which they are written.
#[cycle(fitting)]
#[tactic(auto, using(crate::proofs::WrittenLayers::weights_of_parts))]
fn elements_fitted(
    alloc: Global,
    types: &Types<'_>,
    scope: Scope<'_>,
    elements: &[Term],
    form: &Form,
) -> Result<Seq<Value>, BindFault>
    ensures { Binds (all_by_form [] (spec.under (names_in scope.entry) (map (spec.written (known_of types.now)) elements.now)) form.now) result }
{
    let mut found = Seq::new(alloc);
    for element in elements {
        found.push(fitted(alloc, types, scope, form, element)?)?;
    }
    Ok(found)
}
