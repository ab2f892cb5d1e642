//! The ends of declared sets.
ghost use Rattle.std.specs.Prelude.{◌≡◌, ℕ, IfOk};
ghost use Rattle.std.specs.Option.{option_map};
ghost use Rattle.opl_value.specs.declared.value.Dimension.TheViews.{out-Value};
ghost use Rattle.opl_eval.specs.Evaluation.{item_named};
ghost use Rattle.opl_eval.specs.Visible.{seen};
ghost use Rattle.opl_meaning.specs.EachSet.{ends_by, set_by, terms_of};
ghost use Rattle.opl_meaning.specs.Faults.{Does, Makes, found};
ghost use Rattle.opl_meaning.specs.VariableReadings.{reach, sees, whole};
ghost use Rattle.opl_meaning.specs.Variables as spec;

use crate::fault::MeaningFault;
use crate::totals::size_of;
use crate::variable::{DeclaredSet, Kind};
use crate::visible::{Visible, end_in, is_hidden};
use opl_eval::{Environment, eval_set};
use opl_list::Boxed;
use opl_term::{SetTerm, Term, add_term};
use opl_token::Name;
use opl_tree::{BoundsTree, NameTree, VariableTree, VariableTypeTree};
use opl_value::Value;
use std::alloc::{AllocError, Global};

/// The greatest absolute value of an end of a declared set: 2^62.
const FARTHEST: u128 = 4611686018427387904;

/// The greatest number of values of a declared set.
const MOST_VALUES: u128 = 1048576;

/// The greatest number of values of all declared sets together.
const MOST_VALUES_TOGETHER: u128 = 33554432;

/// The ends of a declared set, before it is known that they are near enough.
#[derive(Clone, Copy)]
pub(crate) struct Ends {
    pub(crate) low: i128,
    pub(crate) high: i128,
}

/// The ends of the empty set.
fn no_ends() -> Ends
    ensures { result ≡ reach spec.no_ends }
{
    Ends { low: 1, high: 0 }
}

/// The ends of a range, and of the positions of an enumeration.
#[tactic(auto, using(crate::proofs::VariableTypes::reaches))]
fn value_ends(value: &Value) -> Ends
    ensures { (declaration : ℕ) → result ≡ reach (spec.type_layer declaration (out-Value value.now)) }
{
    match value {
        Value::Range(low, high) => Ends {
            low: *low,
            high: *high,
        },
        Value::Names(names) => Ends {
            low: 0,
            high: names.len() as i128 - 1,
        },
        Value::Int(_)
        | Value::Bool(_)
        | Value::Enum(..)
        | Value::Record(_)
        | Value::Set(_)
        | Value::Array(..) => no_ends(),
    }
}

/// The ends of the type with that name.
fn named_ends(visible: Visible<'_>, name: &[u8]) -> Ends
    ensures { result ≡ reach (spec.type_ends (item_named name.now (sees visible.entry))) }
{
    if is_hidden(visible.parameters, name) {
        return no_ends();
    }
    match visible.environment.value(name) {
        Some(value) => value_ends(value),
        None => no_ends(),
    }
}

/// The ends of a type: a named range or an enumeration.
fn ends_of_type(visible: Visible<'_>, kind: &VariableTypeTree) -> Ends
    ensures { result ≡ reach (spec.ends_of_type (sees visible.entry) kind.now) }
{
    match kind {
        VariableTypeTree::Int(_) => no_ends(),
        VariableTypeTree::Named(name) => named_ends(visible, name.text.as_slice()),
    }
}

/// The expressions of ends that are written.
#[derive(Drop)]
pub(crate) struct EndTerms {
    low: Boxed<Term>,
    high: Boxed<Term>,
}

/// The expressions of the ends, if they are written.
pub(crate) fn end_terms(
    alloc: Global,
    bounds: &Option<BoundsTree>,
) -> Result<Option<EndTerms>, AllocError>
    ensures { IfOk result (λ ends. ends ≡ option_map terms_of bounds.now) }
{
    match bounds {
        None => Ok(None),
        Some(bounds) => {
            let low = add_term(alloc, &bounds.low)?;
            let high = add_term(alloc, &bounds.high)?;
            Ok(Some(EndTerms { low, high }))
        }
    }
}

/// The ends that are written, else those of the type.
fn ends_by(
    alloc: Global,
    visible: Visible<'_>,
    kind: &VariableTypeTree,
    ends: &Option<EndTerms>,
) -> Result<Ends, MeaningFault>
    ensures { Makes (found reach (ends_by (sees visible.entry) kind.now ends.now)) result }
{
    match ends {
        None => Ok(ends_of_type(visible, kind)),
        Some(ends) => {
            let low = end_in(alloc, visible, ends.low.get())?;
            let high = end_in(alloc, visible, ends.high.get())?;
            Ok(Ends { low, high })
        }
    }
}

/// The end, if it is from -2^62 to 2^62.
fn near(at: u32, end: &i128) -> Result<i64, MeaningFault>
    ensures { Makes (spec.near at end.now) result }
{
    if end.unsigned_abs() > FARTHEST {
        return Err(MeaningFault::TooFar(at));
    }
    Ok(*end as i64)
}

/// The declared set with these ends.
fn near_set(at: u32, ends: &Ends) -> Result<DeclaredSet, MeaningFault>
    ensures { Makes (spec.near_set at (whole ends.now)) result }
{
    let low = near(at, &ends.low)?;
    let high = near(at, &ends.high)?;
    Ok(DeclaredSet { low, high })
}

/// The declared set, if it has not too many values, and those before, which have so many, not too many with it.
fn few_values(at: u32, before: u128, set: DeclaredSet) -> Result<DeclaredSet, MeaningFault>
    ensures { Makes (spec.few_values at before set) result }
{
    let size = size_of(&set);
    if size > MOST_VALUES {
        return Err(MeaningFault::TooWide(at));
    }
    match before.checked_add(size) {
        None => Err(MeaningFault::TooManyValues(at)),
        Some(together) => {
            if together > MOST_VALUES_TOGETHER {
                return Err(MeaningFault::TooManyValues(at));
            }
            Ok(set)
        }
    }
}

/// The declared set with these ends, within the limits.
fn limited_set(at: u32, before: u128, ends: &Ends) -> Result<DeclaredSet, MeaningFault>
    ensures { Makes (spec.limited_set at before (whole ends.now)) result }
{
    let set = near_set(at, ends)?;
    few_values(at, before, set)
}

/// The declared set of a variable, or of one element of an array of them, by the expressions of its ends. Those before have so many values.
pub(crate) fn set_by(
    alloc: Global,
    visible: Visible<'_>,
    t: &VariableTree,
    ends: &Option<EndTerms>,
    before: u128,
) -> Result<DeclaredSet, MeaningFault>
    ensures { Makes (set_by t.now ends.now before (sees visible.entry)) result }
{
    let ends = ends_by(alloc, visible, &t.kind, ends)?;
    limited_set(t.at, before, &ends)
}

/// The declared set of a variable. Those before have so many values.
pub(crate) fn set_in(
    alloc: Global,
    visible: Visible<'_>,
    t: &VariableTree,
    before: u128,
) -> Result<DeclaredSet, MeaningFault>
    ensures { Makes (spec.set_in t.now before (sees visible.entry)) result }
{
    let ends = end_terms(alloc, &t.bounds)?;
    set_by(alloc, visible, t, &ends, before)
}

/// What the values of a type are, where an enumeration has this number of its declaration.
#[tactic(auto, using(crate::proofs::VariableTypes::kinds))]
fn value_kind(value: &Value, declaration: u32) -> Kind
    ensures { result ≡ (spec.type_layer declaration (out-Value value.now)).kind }
{
    match value {
        Value::Names(_) => Kind::Enumeration(declaration),
        Value::Int(_)
        | Value::Bool(_)
        | Value::Enum(..)
        | Value::Record(_)
        | Value::Set(_)
        | Value::Range(..)
        | Value::Array(..) => Kind::Number,
    }
}

/// A name as a set.
fn set_named(alloc: Global, name: &NameTree) -> Result<SetTerm, AllocError>
    ensures { IfOk result (λ set. set ≡ SetTerm.Whole (Term.Named name.now.at name.now.text)) }
{
    let text = Name::from_slice(alloc, name.text.as_slice())?;
    let term = Boxed::new(alloc, Term::Named(name.at, text))?;
    Ok(SetTerm::Whole(term))
}

/// What the values of the type with that name are.
fn named_kind(
    alloc: Global,
    environment: &Environment<'_>,
    name: &NameTree,
) -> Result<Kind, MeaningFault>
    ensures { Does (λ kind. kind ≡ (spec.type_ends (item_named name.now.text (seen environment.now))).kind) result }
{
    let set = set_named(alloc, name)?;
    match eval_set(alloc, environment, &[], &set) {
        Ok((value, declaration)) => Ok(value_kind(&value, declaration)),
        Err(_) => Err(MeaningFault::OutOfMemory),
    }
}

/// What the values of the variables of a declaration are.
pub(crate) fn kind_of(
    alloc: Global,
    environment: &Environment<'_>,
    t: &VariableTree,
) -> Result<Kind, MeaningFault>
    ensures { Does (λ kind. kind ≡ spec.kind_of (seen environment.now) t.now.kind t.now.bounds) result }
{
    if t.bounds.is_some() {
        return Ok(Kind::Number);
    }
    match &t.kind {
        VariableTypeTree::Int(_) => Ok(Kind::Number),
        VariableTypeTree::Named(name) => named_kind(alloc, environment, name),
    }
}
