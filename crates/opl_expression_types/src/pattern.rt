//! The names that patterns give to the elements of a set.
ghost use Rattle.std.specs.Prelude.{◌≡◌, ◌++◌, ◌∷◌, [], map, Some};
ghost use Rattle.std.specs.List.{flat_map};
ghost use Rattle.opl_type_rules.specs.Expressions as spec;
ghost use Rattle.opl_type_rules.specs.Forms.{form_group, form_group_step, form_params};
ghost use Rattle.opl_type_rules.specs.Scope as scope;
ghost use Rattle.opl_type_rules.specs.Scope.Thing.{value};
ghost use Rattle.opl_type_rules.specs.Steps as step;
ghost use Rattle.opl_type_rules.specs.Types.{sort, sorts_of};
ghost use Rattle.opl_type_rules.specs.Types.Sort.{anything};
ghost use Rattle.opl_type_rules.specs.Values.{Does, Gives, field_sort_of, within};

use opl_list::{Boxed, Seq};
use opl_tree::{GroupStep, GroupTree, NameTree, ParamsTree, PatternTree};
use opl_type_rules::fault::TypeFault;
use opl_type_rules::kind::Ty;
use opl_type_rules::names::{Field, Locals, Names, add_local, copied, fresh_beside};
use std::alloc::Global;

/// The name is visible neither outside nor among those that are declared together with it, to which it belongs from then on.
#[tactic(auto, using(opl_type_rules::proofs::Sorts::sorts, crate::proofs::Patterns::names_beside))]
fn take_name(
    alloc: Global,
    model: &Names<'_>,
    locals: &Locals,
    taken: &mut Locals,
    name: &NameTree,
) -> Result<(), TypeFault>
    ensures { Gives (λ u. within model.now (locals.now ++ taken.new)) (step.taken (within model.now (locals.now ++ taken.old)) (name.now ∷ [])) result }
{
    fresh_beside(model, locals, taken, name)?;
    let ty = Boxed::new(alloc, Ty::Any)?;
    add_local(alloc, taken, name.text.as_slice(), ty)?;
    Ok(())
}

/// Each of the names, beside those before.
#[tactic(auto, using(crate::proofs::Patterns::names_taken))]
fn take_names(
    alloc: Global,
    model: &Names<'_>,
    locals: &Locals,
    taken: &mut Locals,
    names: &[NameTree],
) -> Result<(), TypeFault>
    ensures { Gives (λ u. within model.now (locals.now ++ taken.new)) (step.taken (within model.now (locals.now ++ taken.old)) names.now) result }
{
    for name in names {
        take_name(alloc, model, locals, taken, name)?;
    }
    Ok(())
}

/// The names of a pattern.
#[tactic(auto, using(crate::proofs::Patterns::names_taken))]
fn take_pattern(
    alloc: Global,
    model: &Names<'_>,
    locals: &Locals,
    taken: &mut Locals,
    pattern: &PatternTree,
) -> Result<(), TypeFault>
    ensures { Gives (λ u. within model.now (locals.now ++ taken.new)) (step.taken (within model.now (locals.now ++ taken.old)) (spec.pattern_names pattern.now)) result }
{
    match pattern {
        PatternTree::Single(name) => take_name(alloc, model, locals, taken, name),
        PatternTree::Record(_, first, rest) => {
            take_name(alloc, model, locals, taken, first)?;
            take_names(alloc, model, locals, taken, rest.as_slice())
        }
    }
}

/// The names of patterns.
#[tactic(auto, using(crate::proofs::Patterns::names_taken))]
fn take_patterns(
    alloc: Global,
    model: &Names<'_>,
    locals: &Locals,
    taken: &mut Locals,
    patterns: &[PatternTree],
) -> Result<(), TypeFault>
    ensures { Gives (λ u. within model.now (locals.now ++ taken.new)) (step.taken (within model.now (locals.now ++ taken.old)) (flat_map spec.pattern_names patterns.now)) result }
{
    for pattern in patterns {
        take_pattern(alloc, model, locals, taken, pattern)?;
    }
    Ok(())
}

/// The names of the patterns of a group are visible neither outside nor twice.
#[tactic(auto, using(crate::proofs::Patterns::names_taken))]
pub(crate) fn all_fresh(
    alloc: Global,
    model: &Names<'_>,
    locals: &Locals,
    first: &PatternTree,
    rest: &[PatternTree],
) -> Result<(), TypeFault>
    ensures { Gives (λ u. u) (scope.all_fresh (within model.now locals.now) (flat_map spec.pattern_names (first.now ∷ rest.now))) result }
{
    let mut taken = Locals::new(alloc);
    take_pattern(alloc, model, locals, &mut taken, first)?;
    take_patterns(alloc, model, locals, &mut taken, rest)?;
    Ok(())
}

/// These names stand for values of these types, as many as there are of both.
#[tactic(auto, using(crate::proofs::Patterns::names_added))]
fn bind_names(
    alloc: Global,
    model: &Names<'_>,
    locals: &mut Locals,
    names: &[NameTree],
    types: &[Ty],
) -> Result<(), TypeFault>
    ensures { Does (λ u. within model.now locals.new ≡ scope.with_values names.now (map sort types.now) (within model.now locals.old)) result }
{
    let mut left = types;
    for name in names {
        let Some((ty, rest)) = left.split_first() else {
            return Ok(());
        };
        add_local(alloc, locals, name.text.as_slice(), ty.copy(alloc)?)?;
        left = rest;
    }
    Ok(())
}

/// The names of a record's parts.
#[tactic(auto, using(crate::proofs::Patterns::parts_bound))]
fn bind_parts(
    alloc: Global,
    model: &Names<'_>,
    locals: &mut Locals,
    at: u32,
    first: &NameTree,
    rest: &[NameTree],
    parts: &[Ty],
) -> Result<(), TypeFault>
    ensures { Gives (λ u. within model.now locals.new) (spec.bind_parts (within model.now locals.old) at (first.now ∷ rest.now) (Some (sorts_of (map sort parts.now)))) result }
{
    let Some((ty, others)) = parts.split_first() else {
        return Err(TypeFault::Mismatch(at));
    };
    if others.len() != rest.len() {
        return Err(TypeFault::Mismatch(at));
    }
    add_local(alloc, locals, first.text.as_slice(), ty.copy(alloc)?)?;
    bind_names(alloc, model, locals, rest, others)?;
    Ok(())
}

/// The types of the fields.
fn field_types(alloc: Global, fields: &[Field]) -> Result<Seq<Ty>, TypeFault>
    ensures { Does (λ r. map sort r ≡ map field_sort_of fields.now) result }
{
    let mut types = Seq::new(alloc);
    for field in fields {
        types.push(field.ty.get().copy(alloc)?.into_inner())?;
    }
    Ok(types)
}

/// The names of a pattern for the elements of a set.
#[tactic(auto, using(opl_type_rules::proofs::Sorts::sorts, crate::proofs::Patterns::patterns_bound))]
pub(crate) fn bind_pattern(
    alloc: Global,
    model: &Names<'_>,
    locals: &mut Locals,
    element: &Ty,
    pattern: &PatternTree,
) -> Result<(), TypeFault>
    ensures { Gives (λ u. within model.now locals.new) (spec.bind_pattern (within model.now locals.old) (sort element.now) pattern.now) result }
{
    match pattern {
        PatternTree::Single(name) => {
            add_local(alloc, locals, name.text.as_slice(), element.copy(alloc)?)?;
            Ok(())
        }
        PatternTree::Record(at, first, rest) => {
            bind_record(alloc, model, locals, *at, first, rest.as_slice(), element)
        }
    }
}

/// The names of a record's parts, if the type is one of records. What ranges over `{}` has as many parts as are asked for.
#[tactic(auto, using(opl_type_rules::proofs::Sorts::sorts, crate::proofs::Patterns::patterns_bound))]
fn bind_record(
    alloc: Global,
    model: &Names<'_>,
    locals: &mut Locals,
    at: u32,
    first: &NameTree,
    rest: &[NameTree],
    element: &Ty,
) -> Result<(), TypeFault>
    ensures { Gives (λ u. within model.now locals.new) (spec.bind_record (within model.now locals.old) at (first.now ∷ rest.now) (sort element.now)) result }
{
    match element {
        Ty::Any => {
            unknown_name(alloc, model, locals, first)?;
            unknown_names(alloc, model, locals, rest)?;
            Ok(())
        }
        Ty::Record(k) => {
            let parts = field_types(alloc, model.fields(*k))?;
            bind_parts(alloc, model, locals, at, first, rest, parts.as_slice())
        }
        Ty::Row(parts) => bind_parts(alloc, model, locals, at, first, rest, parts.as_slice()),
        Ty::Int
        | Ty::Bool
        | Ty::Enum(_)
        | Ty::Set(_)
        | Ty::EmptySet
        | Ty::Array(..)
        | Ty::Act
        | Ty::Unary
        | Ty::Discrete
        | Ty::Index(_)
        | Ty::Structure => Err(TypeFault::Mismatch(at)),
    }
}

/// A name, as what may be anything.
#[tactic(auto, using(opl_type_rules::proofs::Sorts::sorts, crate::proofs::Patterns::names_added))]
fn unknown_name(
    alloc: Global,
    model: &Names<'_>,
    locals: &mut Locals,
    name: &NameTree,
) -> Result<(), TypeFault>
    ensures { Does (λ u. within model.now locals.new ≡ scope.declared name.now.text (value anything) (within model.now locals.old)) result }
{
    let ty = Boxed::new(alloc, Ty::Any)?;
    add_local(alloc, locals, name.text.as_slice(), ty)
}

/// Names, as what may be anything.
fn unknown_names(
    alloc: Global,
    model: &Names<'_>,
    locals: &mut Locals,
    names: &[NameTree],
) -> Result<(), TypeFault>
    ensures { Does (λ u. within model.now locals.new ≡ step.unknown names.now (within model.now locals.old)) result }
{
    for name in names {
        unknown_name(alloc, model, locals, name)?;
    }
    Ok(())
}

/// The names of a pattern, as what may be anything.
fn unknown_pattern(
    alloc: Global,
    model: &Names<'_>,
    locals: &mut Locals,
    pattern: &PatternTree,
) -> Result<(), TypeFault>
    ensures { Does (λ u. within model.now locals.new ≡ step.unknown (spec.pattern_names pattern.now) (within model.now locals.old)) result }
{
    match pattern {
        PatternTree::Single(name) => unknown_name(alloc, model, locals, name),
        PatternTree::Record(_, first, rest) => {
            unknown_name(alloc, model, locals, first)?;
            unknown_names(alloc, model, locals, rest.as_slice())
        }
    }
}

/// The names of patterns, as what may be anything.
#[tactic(auto, using(crate::proofs::Patterns::names_unknown))]
fn unknown_patterns(
    alloc: Global,
    model: &Names<'_>,
    locals: &mut Locals,
    patterns: &[PatternTree],
) -> Result<(), TypeFault>
    ensures { Does (λ u. within model.now locals.new ≡ step.unknown (flat_map spec.pattern_names patterns.now) (within model.now locals.old)) result }
{
    for pattern in patterns {
        unknown_pattern(alloc, model, locals, pattern)?;
    }
    Ok(())
}

/// The names of a group, as what may be anything.
#[tactic(auto, using(crate::proofs::Patterns::names_unknown, opl_type_rules::proofs::Forms::group_forms))]
fn unknown_group(
    alloc: Global,
    model: &Names<'_>,
    locals: &mut Locals,
    group: &GroupTree,
) -> Result<(), TypeFault>
    ensures { Does (λ u. within model.now locals.new ≡ step.unknown (step.group_names (form_group group.now)) (within model.now locals.old)) result }
{
    unknown_pattern(alloc, model, locals, &group.first)?;
    unknown_patterns(alloc, model, locals, group.rest.as_slice())
}

/// The names of groups, as what may be anything.
#[tactic(auto, using(crate::proofs::Patterns::names_unknown, opl_type_rules::proofs::Forms::group_step_forms))]
fn unknown_groups(
    alloc: Global,
    model: &Names<'_>,
    locals: &mut Locals,
    steps: &[GroupStep],
) -> Result<(), TypeFault>
    ensures { Does (λ u. within model.now locals.new ≡ step.unknown (flat_map step.group_names (map form_group_step steps.now)) (within model.now locals.old)) result }
{
    for step in steps {
        unknown_group(alloc, model, locals, &step.group)?;
    }
    Ok(())
}

/// The names of parameters that have a fault, as what may be anything.
#[tactic(auto, using(crate::proofs::Patterns::params_unknown))]
pub(crate) fn unknown_params(
    alloc: Global,
    model: &Names<'_>,
    locals: &Locals,
    params: &ParamsTree,
) -> Result<Locals, TypeFault>
    ensures { Does (λ r. within model.now r ≡ scope.with_values (spec.names_of_params (form_params params.now)) (map (λ n. anything) (spec.names_of_params (form_params params.now))) (within model.now locals.now)) result }
{
    let mut found = copied(alloc, locals)?;
    unknown_group(alloc, model, &mut found, &params.first)?;
    unknown_groups(alloc, model, &mut found, params.rest.as_slice())?;
    Ok(found)
}
