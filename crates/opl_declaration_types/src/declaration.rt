//! The types of declarations.
ghost use Rattle.std.specs.Option.{option_map};
ghost use Rattle.std.specs.Prelude.{◌≡◌, ◌++◌, ◌∷◌, [], Ok, is_some, map};
ghost use Rattle.opl_declaration_types.specs.Declarations as spec;
ghost use Rattle.opl_declaration_types.specs.DeclarationSteps as step;
ghost use Rattle.opl_type_rules.specs.Expressions as expressions;
ghost use Rattle.opl_type_rules.specs.Forms.{form_add, form_keyed, forms_of};
ghost use Rattle.opl_type_rules.specs.Scope as scope;
ghost use Rattle.opl_type_rules.specs.Steps.{front, behind};
ghost use Rattle.opl_type_rules.specs.Types.{sort};
ghost use Rattle.opl_type_rules.specs.Values.{Does, Gives, field_of, scope_of, within};

use opl_expression_types::{Cells, add, cells_of, set};
use opl_list::{Boxed, Seq};
use opl_tree::{
    ActivityTree, AddTree, BoundsTree, DataDeclTree, DeclTree, DimTree, DimsTree, DiscreteTree,
    EnumNamesTree, EnumTree, FieldTree, InitialTree, KeyedTree, NameTree, RangeTree, ScheduleEnd,
    ScheduleTree, StructTree, TypeTree, UnaryTree, VariableTree, VariableTypeTree,
};
use opl_type_rules::fault::TypeFault;
use opl_type_rules::fit::fits;
use opl_type_rules::kind::{Ty, copies};
use opl_type_rules::names::{Fields, Locals, Names, Thing, add_local, fresh, fresh_outside};
use opl_type_rules::node::{Need, Node};
use opl_type_rules::rules::{Range, add_kinds, append, kinds_in};
use std::alloc::Global;

/// The type that a name stands for.
fn named_type(alloc: Global, model: &Names<'_>, name: &NameTree) -> Result<Boxed<Ty>, TypeFault>
    ensures { Gives sort (spec.named_type (scope_of model.now) name.now) result }
{
    let found = match model.lookup(name.text.as_slice()) {
        Some(thing) => thing.named_type(),
        None => None,
    };
    match found {
        Some(ty) => Ok(Boxed::new(alloc, ty)?),
        None => Err(TypeFault::Unknown(name.at)),
    }
}

/// The type that is written.
#[tactic(auto, using(crate::proofs::Declared::written, opl_type_rules::proofs::Sorts::sorts))]
#[cycle(types)]
fn written_type(alloc: Global, model: &Names<'_>, t: &TypeTree) -> Result<Boxed<Ty>, TypeFault>
    ensures { Gives sort (spec.written_type t.now (scope_of model.now)) result }
{
    match t {
        TypeTree::Int(_) => Ok(Boxed::new(alloc, Ty::Int)?),
        TypeTree::Named(name) => named_type(alloc, model, name),
        TypeTree::Set(_, inner) => {
            let element = written_type(alloc, model, inner.get())?;
            Ok(Boxed::new(alloc, Ty::Set(element))?)
        }
    }
}

/// The dimensions of an item: the types of the indices, the names that are visible behind them, and the types of their
/// expressions.
#[derive(Drop)]
struct Dimensions {
    indices: Seq<Ty>,
    names: Locals,
    kinds: Seq<Ty>,
}

/// A dimension's name differs from those before it.
fn fresh_name(model: &Names<'_>, locals: &Locals, name: &Option<NameTree>) -> Result<(), TypeFault>
    ensures { Gives (λ u. u) (step.fresh_name (within model.now locals.now) name.now) result }
{
    match name {
        Some(name) => fresh(model, locals, name),
        None => Ok(()),
    }
}

/// The type of the elements of a set; what ranges over nothing may be anything.
#[tactic(auto, using(opl_type_rules::proofs::Sorts::sorts))]
fn or_anything(alloc: Global, element: Option<Boxed<Ty>>) -> Result<Boxed<Ty>, TypeFault>
    ensures { Does (λ r. sort r ≡ expressions.or_anything (option_map sort element)) result }
{
    match element {
        Some(ty) => Ok(ty),
        None => Ok(Boxed::new(alloc, Ty::Any)?),
    }
}

/// Keeps the index of a dimension, and the types of its expressions.
fn keep_index(found: &mut Dimensions, element: Boxed<Ty>, kinds: Seq<Ty>) -> Result<(), TypeFault>
    ensures { Does (λ u. found.new ≡ record { indices = found.old.indices ++ element ∷ []; names = found.old.names; kinds = found.old.kinds ++ kinds }) result }
{
    found.indices.push(element.into_inner())?;
    append(&mut found.kinds, kinds)?;
    Ok(())
}

/// Keeps a dimension behind those before it.
#[tactic(auto, using(crate::proofs::Declared::dimensions_kept))]
fn keep_dimension(
    alloc: Global,
    model: &Names<'_>,
    found: &mut Dimensions,
    name: &Option<NameTree>,
    element: Boxed<Ty>,
    kinds: Seq<Ty>,
) -> Result<(), TypeFault>
    ensures { Does (λ u. step.seen_in model.now found.new ≡ step.seen_more name.now (sort element) (map sort kinds) (step.seen_in model.now found.old)) result }
{
    match name {
        None => {
            keep_index(found, element, kinds)?;
            Ok(())
        }
        Some(name) => {
            let ty = element.get().copy(alloc)?;
            add_local(alloc, &mut found.names, name.text.as_slice(), ty)?;
            keep_index(found, element, kinds)?;
            Ok(())
        }
    }
}

/// A dimension behind those before it. Its set sees none of their names.
#[tactic(auto, using(crate::proofs::Declared::names_within))]
fn add_dimension(
    alloc: Global,
    model: &Names<'_>,
    found: &mut Dimensions,
    t: &DimTree,
) -> Result<(), TypeFault>
    ensures { Gives (λ u. step.seen_in model.now found.new) (step.see_one (scope_of model.now) (step.seen_in model.now found.old) t.now) result }
{
    fresh_name(model, &found.names, &t.name)?;
    let outside = Locals::new(alloc);
    let Range { nodes, element } = set(alloc, model, &outside, &t.set)?;
    let kinds = kinds_in(alloc, nodes)?;
    let element = or_anything(alloc, element)?;
    keep_dimension(alloc, model, found, &t.name, element, kinds)?;
    Ok(())
}

/// Dimensions behind those before them.
fn add_dimensions(
    alloc: Global,
    model: &Names<'_>,
    found: &mut Dimensions,
    dims: &[DimTree],
) -> Result<(), TypeFault>
    ensures { Gives (λ u. step.seen_in model.now found.new) (step.see_each (scope_of model.now) (step.seen_in model.now found.old) dims.now) result }
{
    for dim in dims {
        add_dimension(alloc, model, found, dim)?;
    }
    Ok(())
}

/// The dimensions of an item; none where it is single.
#[tactic(auto, using(crate::proofs::Declared::names_within))]
fn dims_of(
    alloc: Global,
    model: &Names<'_>,
    dims: &Option<DimsTree>,
) -> Result<Dimensions, TypeFault>
    ensures { Gives (step.seen_in model.now) (step.seen (scope_of model.now) dims.now) result }
{
    let mut found = Dimensions {
        indices: Seq::new(alloc),
        names: Locals::new(alloc),
        kinds: Seq::new(alloc),
    };
    if let Some(dims) = dims {
        add_dimension(alloc, model, &mut found, &dims.first)?;
        add_dimensions(alloc, model, &mut found, dims.rest.as_slice())?;
    }
    Ok(found)
}

/// The indices of the cells of a value. Where a dimension has a name, the value is that of an element.
fn cell_indices<'a>(names: &Locals, indices: &'a [Ty]) -> &'a [Ty]
    ensures { map sort result.now ≡ step.cells_seen (step.is_any names.now) (map sort indices.now) }
{
    if names.is_empty() { indices } else { &[] }
}

/// An item, or an array of such with these indices.
#[tactic(auto, using(crate::proofs::Declared::shapes, opl_type_rules::proofs::Sorts::sorts))]
fn shaped(alloc: Global, indices: &[Ty], element: &Ty) -> Result<Boxed<Ty>, TypeFault>
    ensures { Gives sort (Ok (spec.shaped (map sort indices.now) (sort element.now))) result }
{
    let element = element.copy(alloc)?;
    match indices.split_first() {
        None => Ok(element),
        Some(_) => {
            let indices = copies(alloc, indices)?;
            Ok(Boxed::new(alloc, Ty::Array(indices, element))?)
        }
    }
}

/// Whether a value of the type `have` may stand where `want` is declared, also among these parameters.
fn fits_within(model: &Names<'_>, locals: &Locals, have: &Ty, want: &Ty) -> bool
    ensures { result ≡ scope.fits_in (within model.now locals.now) (sort want.now) (sort have.now) }
{
    fits(model, have, want)
}

/// Data of a type.
fn data_of(
    alloc: Global,
    model: &Names<'_>,
    locals: &Locals,
    want: &Ty,
    t: &AddTree,
    kinds: &mut Seq<Ty>,
) -> Result<(), TypeFault>
    ensures { Gives (λ u. map sort kinds.new) (front (map sort kinds.old) (step.plain_value (within model.now locals.now) (sort want.now) [] (form_add t.now))) result }
{
    let node = add(alloc, model, locals, t)?;
    let is_taken = fits_within(model, locals, node.ty.get(), want);
    let node = node.settled(Need::DataAlone, is_taken)?;
    add_kinds(kinds, node)?;
    Ok(())
}

/// An initial value that is no array of cells.
fn plain_value(
    alloc: Global,
    model: &Names<'_>,
    locals: &Locals,
    element: &Ty,
    indices: &[Ty],
    t: &AddTree,
    kinds: &mut Seq<Ty>,
) -> Result<(), TypeFault>
    ensures { Gives (λ u. map sort kinds.new) (front (map sort kinds.old) (step.plain_value (within model.now locals.now) (sort element.now) (map sort indices.now) (form_add t.now))) result }
{
    let want = shaped(alloc, indices, element)?;
    data_of(alloc, model, locals, want.get(), t, kinds)?;
    Ok(())
}

/// The initial value of an array with these indices, or of a single item where there are none.
#[tactic(auto, using(crate::proofs::Declared::initial_values))]
#[cycle(initials)]
fn initial(
    alloc: Global,
    model: &Names<'_>,
    locals: &Locals,
    element: &Ty,
    indices: &[Ty],
    t: &AddTree,
    kinds: &mut Seq<Ty>,
) -> Result<(), TypeFault>
    ensures { Gives (λ u. map sort kinds.new) (front (map sort kinds.old) (spec.initial (within model.now locals.now) (sort element.now) (map sort indices.now) (form_add t.now))) result }
{
    match indices.split_first() {
        None => {
            plain_value(alloc, model, locals, element, indices, t, kinds)?;
            Ok(())
        }
        Some((first, rest)) => match cells_of(t) {
            Cells::Listed(cells) => {
                kinds.push(shaped(alloc, indices, element)?.into_inner())?;
                initial_cells(alloc, model, locals, element, rest, cells, kinds)?;
                Ok(())
            }
            Cells::Keyed(cells) => {
                kinds.push(shaped(alloc, indices, element)?.into_inner())?;
                initial_pairs(alloc, model, locals, element, first, rest, cells, kinds)?;
                Ok(())
            }
            Cells::Other => {
                plain_value(alloc, model, locals, element, indices, t, kinds)?;
                Ok(())
            }
        },
    }
}

/// The cells of an array, each with these indices.
#[cycle(initials)]
fn initial_cells(
    alloc: Global,
    model: &Names<'_>,
    locals: &Locals,
    element: &Ty,
    indices: &[Ty],
    cells: &[AddTree],
    kinds: &mut Seq<Ty>,
) -> Result<(), TypeFault>
    ensures { Gives (λ u. map sort kinds.new) (step.cells_behind (map sort kinds.old) (within model.now locals.now) (sort element.now) (map sort indices.now) (forms_of (map form_add cells.now))) result }
{
    for cell in cells {
        initial(alloc, model, locals, element, indices, cell, kinds)?;
    }
    Ok(())
}

/// A cell of an array with its key.
#[tactic(auto, using(crate::proofs::Declared::keyed_parts))]
#[cycle(initials)]
fn initial_pair(
    alloc: Global,
    model: &Names<'_>,
    locals: &Locals,
    element: &Ty,
    index: &Ty,
    indices: &[Ty],
    t: &KeyedTree,
    kinds: &mut Seq<Ty>,
) -> Result<(), TypeFault>
    ensures { Gives (λ u. map sort kinds.new) (step.pair_behind (map sort kinds.old) (within model.now locals.now) (sort element.now) (sort index.now) (map sort indices.now) (form_keyed t.now)) result }
{
    data_of(alloc, model, locals, index, &t.key, kinds)?;
    initial(alloc, model, locals, element, indices, &t.value, kinds)?;
    Ok(())
}

/// The cells of an array with their keys, each with these indices.
#[cycle(initials)]
fn initial_pairs(
    alloc: Global,
    model: &Names<'_>,
    locals: &Locals,
    element: &Ty,
    index: &Ty,
    indices: &[Ty],
    cells: &[KeyedTree],
    kinds: &mut Seq<Ty>,
) -> Result<(), TypeFault>
    ensures { Gives (λ u. map sort kinds.new) (step.pairs_behind (map sort kinds.old) (within model.now locals.now) (sort element.now) (sort index.now) (map sort indices.now) (map form_keyed cells.now)) result }
{
    for cell in cells {
        initial_pair(alloc, model, locals, element, index, indices, cell, kinds)?;
    }
    Ok(())
}

/// A number that is data.
fn number(
    alloc: Global,
    model: &Names<'_>,
    locals: &Locals,
    t: &AddTree,
    kinds: &mut Seq<Ty>,
) -> Result<(), TypeFault>
    ensures { Gives (λ u. map sort kinds.new) (front (map sort kinds.old) (spec.number_kinds (within model.now locals.now) t.now)) result }
{
    let node = add(alloc, model, locals, t)?.data_number()?;
    add_kinds(kinds, node)?;
    Ok(())
}

/// The bounds of a variable, where it has such.
fn bounds(
    alloc: Global,
    model: &Names<'_>,
    locals: &Locals,
    t: &Option<BoundsTree>,
    kinds: &mut Seq<Ty>,
) -> Result<(), TypeFault>
    ensures { Gives (λ u. map sort kinds.new) (step.front_bounds (map sort kinds.old) (within model.now locals.now) t.now) result }
{
    if let Some(bounds) = t {
        number(alloc, model, locals, &bounds.low, kinds)?;
        number(alloc, model, locals, &bounds.high, kinds)?;
    }
    Ok(())
}

/// A number that is data, where there is one.
fn maybe_number(
    alloc: Global,
    model: &Names<'_>,
    locals: &Locals,
    t: &Option<AddTree>,
    kinds: &mut Seq<Ty>,
) -> Result<(), TypeFault>
    ensures { Gives (λ u. map sort kinds.new) (step.front_number (map sort kinds.old) (within model.now locals.now) t.now) result }
{
    match t {
        Some(t) => number(alloc, model, locals, t, kinds),
        None => Ok(()),
    }
}

/// The initial value of an item with these dimensions, where it stands in the model.
fn initial_value(
    alloc: Global,
    model: &Names<'_>,
    names: &Locals,
    element: &Ty,
    indices: &[Ty],
    t: &InitialTree,
    kinds: &mut Seq<Ty>,
) -> Result<(), TypeFault>
    ensures { Gives (λ u. map sort kinds.new) (step.front_initial (map sort kinds.old) (within model.now names.now) (sort element.now) (step.cells_seen (step.is_any names.now) (map sort indices.now)) t.now) result }
{
    match t {
        InitialTree::Written(value) => {
            let indices = cell_indices(names, indices);
            initial(alloc, model, names, element, indices, value, kinds)?;
            Ok(())
        }
        InitialTree::External(_) => Ok(()),
    }
}

/// `TYPE NAME [DIMS] = INITIAL;`
#[tactic(auto, using(crate::proofs::Declared::names_within))]
fn data<'a>(
    alloc: Global,
    model: &mut Names<'a>,
    t: &'a DataDeclTree,
    kinds: &mut Seq<Ty>,
) -> Result<(), TypeFault>
    ensures { Gives (λ u. record { scope = scope_of model.new; kinds = map sort kinds.new }) (step.data_behind (map sort kinds.old) (scope_of model.old) t.now) result }
{
    let element = written_type(alloc, model, &t.kind)?;
    fresh_outside(model, &t.name)?;
    let Dimensions {
        indices,
        names,
        kinds: inner,
    } = dims_of(alloc, model, &t.dims)?;
    append(kinds, inner)?;
    let types = indices.as_slice();
    initial_value(
        alloc,
        model,
        &names,
        element.get(),
        types,
        &t.initial,
        kinds,
    )?;
    let ty = shaped(alloc, types, element.get())?;
    model.declare(alloc, t.name.text.as_slice(), Thing::Value(ty))?;
    Ok(())
}

/// `range NAME ADD..ADD;`
#[tactic(auto, using(crate::proofs::Declared::names_within))]
fn range<'a>(
    alloc: Global,
    model: &mut Names<'a>,
    t: &'a RangeTree,
    kinds: &mut Seq<Ty>,
) -> Result<(), TypeFault>
    ensures { Gives (λ u. record { scope = scope_of model.new; kinds = map sort kinds.new }) (step.range_behind (map sort kinds.old) (scope_of model.old) t.now) result }
{
    fresh_outside(model, &t.name)?;
    let outside = Locals::new(alloc);
    number(alloc, model, &outside, &t.low, kinds)?;
    number(alloc, model, &outside, &t.high, kinds)?;
    model.declare(alloc, t.name.text.as_slice(), Thing::Range)?;
    Ok(())
}

/// A name of the enumeration with that number.
#[tactic(auto, using(crate::proofs::Declared::names_within))]
fn enum_name<'a>(
    alloc: Global,
    model: &mut Names<'a>,
    number: u32,
    name: &'a NameTree,
) -> Result<(), TypeFault>
    ensures { Gives (λ u. scope_of model.new) (step.name_one number (scope_of model.old) name.now) result }
{
    fresh_outside(model, name)?;
    model.declare(alloc, name.text.as_slice(), Thing::EnumName(number))?;
    Ok(())
}

/// Names of the enumeration with that number, in their order.
fn all_enum_names<'a>(
    alloc: Global,
    model: &mut Names<'a>,
    number: u32,
    names: &'a [NameTree],
) -> Result<(), TypeFault>
    ensures { Gives (λ u. scope_of model.new) (step.name_each number (scope_of model.old) names.now) result }
{
    for name in names {
        enum_name(alloc, model, number, name)?;
    }
    Ok(())
}

/// `enum NAME NAMES;`
#[tactic(auto, using(crate::proofs::Declared::names_within))]
fn enumeration<'a>(
    alloc: Global,
    model: &mut Names<'a>,
    number: u32,
    t: &'a EnumTree,
) -> Result<(), TypeFault>
    ensures { Gives (λ u. scope_of model.new) (step.enum_steps number (scope_of model.old) t.now) result }
{
    fresh_outside(model, &t.name)?;
    model.declare(alloc, t.name.text.as_slice(), Thing::EnumType(number))?;
    match &t.names {
        EnumNamesTree::Listed(_, first, rest) => {
            enum_name(alloc, model, number, first)?;
            all_enum_names(alloc, model, number, rest.as_slice())
        }
        EnumNamesTree::External(..) => Ok(()),
    }
}

/// A field behind those before it, which have other names.
fn field(
    alloc: Global,
    model: &Names<'_>,
    fields: &mut Fields,
    t: &FieldTree,
) -> Result<(), TypeFault>
    ensures { Gives (λ u. map field_of fields.new) (step.field_one (scope_of model.now) (map field_of fields.old) t.now) result }
{
    let ty = written_type(alloc, model, &t.kind)?;
    if !fields.insert(alloc, t.name.text.as_slice(), ty)? {
        return Err(TypeFault::Duplicate(t.name.at));
    }
    Ok(())
}

/// Fields behind those before them.
fn all_fields(
    alloc: Global,
    model: &Names<'_>,
    fields: &mut Fields,
    others: &[FieldTree],
) -> Result<(), TypeFault>
    ensures { Gives (λ u. map field_of fields.new) (step.field_each (scope_of model.now) (map field_of fields.old) others.now) result }
{
    for other in others {
        field(alloc, model, fields, other)?;
    }
    Ok(())
}

/// `struct NAME {FIELD FIELD ..};`
#[tactic(auto, using(crate::proofs::Declared::names_within))]
fn structure<'a>(
    alloc: Global,
    model: &mut Names<'a>,
    number: u32,
    t: &'a StructTree,
) -> Result<(), TypeFault>
    ensures { Gives (λ u. scope_of model.new) (step.struct_steps number (scope_of model.old) t.now) result }
{
    fresh_outside(model, &t.name)?;
    let mut fields = Fields::new(alloc);
    field(alloc, model, &mut fields, &t.first)?;
    all_fields(alloc, model, &mut fields, t.rest.as_slice())?;
    let thing = Thing::StructType(number, fields);
    model.declare(alloc, t.name.text.as_slice(), thing)?;
    Ok(())
}

/// The type of a variable.
#[tactic(auto, using(opl_type_rules::proofs::Sorts::sorts))]
fn variable_type(
    alloc: Global,
    model: &Names<'_>,
    t: &VariableTypeTree,
) -> Result<Boxed<Ty>, TypeFault>
    ensures { Gives sort (spec.variable_type (scope_of model.now) t.now) result }
{
    match t {
        VariableTypeTree::Int(_) => Ok(Boxed::new(alloc, Ty::Int)?),
        VariableTypeTree::Named(name) => named_type(alloc, model, name),
    }
}

/// Whether a variable has a type and bounds that go together.
fn is_decidable(t: &VariableTypeTree, bounds: &Option<BoundsTree>, element: &Ty) -> bool
    ensures { result ≡ spec.is_decidable t.now bounds.now (sort element.now) }
{
    match t {
        VariableTypeTree::Int(_) => bounds.is_some(),
        VariableTypeTree::Named(_) => bounds.is_none() && element.is_single(),
    }
}

/// `var TYPE NAME [DIMS] [in ADD..ADD];`
#[tactic(auto, using(crate::proofs::Declared::names_within))]
fn variable<'a>(
    alloc: Global,
    model: &mut Names<'a>,
    t: &'a VariableTree,
    kinds: &mut Seq<Ty>,
) -> Result<(), TypeFault>
    ensures { Gives (λ u. record { scope = scope_of model.new; kinds = map sort kinds.new }) (step.variable_behind (map sort kinds.old) (scope_of model.old) t.now) result }
{
    let element = variable_type(alloc, model, &t.kind)?;
    fresh_outside(model, &t.name)?;
    let Dimensions {
        indices,
        names,
        kinds: inner,
    } = dims_of(alloc, model, &t.dims)?;
    append(kinds, inner)?;
    bounds(alloc, model, &names, &t.bounds, kinds)?;
    if !is_decidable(&t.kind, &t.bounds, element.get()) {
        return Err(TypeFault::Mismatch(t.at));
    }
    let ty = shaped(alloc, indices.as_slice(), element.get())?;
    model.declare(alloc, t.name.text.as_slice(), Thing::Variable(ty))?;
    Ok(())
}

/// `Activity NAME [DIMS] (ADD..ADD);`
#[tactic(auto, using(crate::proofs::Declared::names_within, opl_type_rules::proofs::Sorts::sorts))]
fn activity<'a>(
    alloc: Global,
    model: &mut Names<'a>,
    t: &'a ActivityTree,
    kinds: &mut Seq<Ty>,
) -> Result<(), TypeFault>
    ensures { Gives (λ u. record { scope = scope_of model.new; kinds = map sort kinds.new }) (step.activity_behind (map sort kinds.old) (scope_of model.old) t.now) result }
{
    fresh_outside(model, &t.name)?;
    let Dimensions {
        indices,
        names,
        kinds: inner,
    } = dims_of(alloc, model, &t.dims)?;
    append(kinds, inner)?;
    number(alloc, model, &names, &t.shortest, kinds)?;
    maybe_number(alloc, model, &names, &t.longest, kinds)?;
    let ty = shaped(alloc, indices.as_slice(), &Ty::Act)?;
    model.declare(alloc, t.name.text.as_slice(), Thing::Activities(ty))?;
    Ok(())
}

/// `UnaryResource NAME [DIMS];`
#[tactic(auto, using(crate::proofs::Declared::names_within, opl_type_rules::proofs::Sorts::sorts))]
fn unary<'a>(
    alloc: Global,
    model: &mut Names<'a>,
    t: &'a UnaryTree,
    kinds: &mut Seq<Ty>,
) -> Result<(), TypeFault>
    ensures { Gives (λ u. record { scope = scope_of model.new; kinds = map sort kinds.new }) (step.unary_behind (map sort kinds.old) (scope_of model.old) t.now) result }
{
    fresh_outside(model, &t.name)?;
    let Dimensions {
        indices,
        kinds: inner,
        ..
    } = dims_of(alloc, model, &t.dims)?;
    append(kinds, inner)?;
    let ty = shaped(alloc, indices.as_slice(), &Ty::Unary)?;
    model.declare(alloc, t.name.text.as_slice(), Thing::Resource(ty))?;
    Ok(())
}

/// `DiscreteResource NAME [DIMS] (ADD);`
#[tactic(auto, using(crate::proofs::Declared::names_within, opl_type_rules::proofs::Sorts::sorts))]
fn discrete<'a>(
    alloc: Global,
    model: &mut Names<'a>,
    t: &'a DiscreteTree,
    kinds: &mut Seq<Ty>,
) -> Result<(), TypeFault>
    ensures { Gives (λ u. record { scope = scope_of model.new; kinds = map sort kinds.new }) (step.discrete_behind (map sort kinds.old) (scope_of model.old) t.now) result }
{
    fresh_outside(model, &t.name)?;
    let Dimensions {
        indices,
        names,
        kinds: inner,
    } = dims_of(alloc, model, &t.dims)?;
    append(kinds, inner)?;
    number(alloc, model, &names, &t.capacity, kinds)?;
    let ty = shaped(alloc, indices.as_slice(), &Ty::Discrete)?;
    model.declare(alloc, t.name.text.as_slice(), Thing::Resource(ty))?;
    Ok(())
}

/// Whether that end of the schedule has been given.
#[tactic(auto, using(crate::proofs::Declared::ends_given))]
fn is_given(model: &Names<'_>, end: ScheduleEnd) -> bool
    ensures { result ≡ spec.is_given end (scope_of model.now) }
{
    match end {
        ScheduleEnd::Origin => model.has_origin,
        ScheduleEnd::Horizon => model.has_horizon,
    }
}

/// Gives that end of the schedule.
fn give(model: &mut Names<'_>, end: ScheduleEnd)
    ensures { scope_of model.new ≡ spec.given end (scope_of model.old) }
{
    match end {
        ScheduleEnd::Origin => model.has_origin = true,
        ScheduleEnd::Horizon => model.has_horizon = true,
    }
}

/// `scheduleOrigin = ADD;` and `scheduleHorizon = ADD;`, each at most once.
#[tactic(auto, using(crate::proofs::Declared::names_within))]
fn schedule<'a>(
    alloc: Global,
    model: &mut Names<'a>,
    t: &'a ScheduleTree,
    kinds: &mut Seq<Ty>,
) -> Result<(), TypeFault>
    ensures { Gives (λ u. record { scope = scope_of model.new; kinds = map sort kinds.new }) (step.schedule_behind (map sort kinds.old) (scope_of model.old) t.now) result }
{
    let outside = Locals::new(alloc);
    number(alloc, model, &outside, &t.value, kinds)?;
    if is_given(model, t.end) {
        return Err(TypeFault::Duplicate(t.at));
    }
    give(model, t.end);
    Ok(())
}

/// The declaration with that number.
#[tactic(auto, using(crate::proofs::Declared::declarations))]
fn decl<'a>(
    alloc: Global,
    model: &mut Names<'a>,
    number: u32,
    t: &'a DeclTree,
    kinds: &mut Seq<Ty>,
) -> Result<(), TypeFault>
    ensures { Gives (λ u. record { scope = scope_of model.new; kinds = map sort kinds.new }) (behind (map sort kinds.old) (spec.decl number (scope_of model.old) t.now)) result }
{
    match t {
        DeclTree::Data(t) => data(alloc, model, t, kinds),
        DeclTree::Range(t) => range(alloc, model, t, kinds),
        DeclTree::Enumeration(t) => enumeration(alloc, model, number, t),
        DeclTree::Structure(t) => structure(alloc, model, number, t),
        DeclTree::Variable(t) => variable(alloc, model, t, kinds),
        DeclTree::Activity(t) => activity(alloc, model, t, kinds),
        DeclTree::Unary(t) => unary(alloc, model, t, kinds),
        DeclTree::Discrete(t) => discrete(alloc, model, t, kinds),
        DeclTree::Schedule(t) => schedule(alloc, model, t, kinds),
    }
}

/// Declarations behind others, in their order, from that number on.
fn add_decls<'a>(
    alloc: Global,
    model: &mut Names<'a>,
    first: u32,
    decls: &'a [DeclTree],
    kinds: &mut Seq<Ty>,
) -> Result<(), TypeFault>
    ensures { Gives (λ u. record { scope = scope_of model.new; kinds = map sort kinds.new }) (step.decls_behind first (map sort kinds.old) (scope_of model.old) decls.now) result }
{
    let mut number = first;
    for t in decls {
        decl(alloc, model, number, t, kinds)?;
        number = number.saturating_add(1);
    }
    Ok(())
}

/// All declarations, in their order.
#[tactic(auto, using(crate::proofs::Declared::all_declarations))]
pub fn all_decls<'a>(
    alloc: Global,
    model: &mut Names<'a>,
    decls: &'a [DeclTree],
    kinds: &mut Seq<Ty>,
) -> Result<(), TypeFault>
    ensures { Gives (λ u. record { scope = scope_of model.new; kinds = map sort kinds.new }) (behind (map sort kinds.old) (spec.all_decls 0 (scope_of model.old) decls.now)) result }
{
    add_decls(alloc, model, 0, decls, kinds)?;
    Ok(())
}
