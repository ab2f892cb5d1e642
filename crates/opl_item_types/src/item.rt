//! The types of the items of an instruction.
ghost use Rattle.std.specs.Prelude.{◌≡◌, map};
ghost use Rattle.std.specs.Option.{option_map};
ghost use Rattle.opl_expression_types.specs.Numbers.{maybe_number};
ghost use Rattle.opl_item_types.specs.Items as spec;
ghost use Rattle.opl_item_types.specs.Resources.{or_range};
ghost use Rattle.opl_item_types.specs.Resources as step;
ghost use Rattle.opl_type_rules.specs.Scope.{lookup};
ghost use Rattle.opl_type_rules.specs.Steps.{front};
ghost use Rattle.opl_type_rules.specs.Types.{sort};
ghost use Rattle.opl_type_rules.specs.Values.{Gives, need_of, node_of, scope_of, thing_of, within};

use opl_expression_types::{add, expr, open_params, post, subscripts};
use opl_list::Seq;
use opl_tree::{
    AddTree, BlockTree, ExprTree, InstrTree, ItemTree, ItemsTree, NameTree, PostTree, RequiresTree,
    SubscriptsTree,
};
use opl_type_rules::fault::TypeFault;
use opl_type_rules::fit::fits_subscripts;
use opl_type_rules::kind::Ty;
use opl_type_rules::names::{Locals, Names, Thing, local_type};
use opl_type_rules::node::{Need, Node};
use opl_type_rules::rules::{add_kinds, all_data, append, kinds_in};
use std::alloc::Global;

/// A condition in its place.
pub(crate) fn condition(
    alloc: Global,
    model: &Names<'_>,
    locals: &Locals,
    need: Need,
    t: &ExprTree,
    kinds: &mut Seq<Ty>,
) -> Result<(), TypeFault>
    ensures { Gives (λ u. map sort kinds.new) (front (map sort kinds.old) (spec.condition (need_of need) t.now (within model.now locals.now))) result }
{
    let node = expr(alloc, model, locals, t)?;
    let is_taken = node.ty.get().is_truth();
    add_kinds(kinds, node.settled(need, is_taken)?)
}

/// `a precedes b`
#[tactic(auto, using(crate::proofs::Items::fronts))]
pub(crate) fn precedes(
    alloc: Global,
    model: &Names<'_>,
    locals: &Locals,
    at: u32,
    first: &PostTree,
    second: &PostTree,
    kinds: &mut Seq<Ty>,
) -> Result<(), TypeFault>
    ensures { Gives (λ u. map sort kinds.new) (front (map sort kinds.old) (spec.precedes at first.now second.now (within model.now locals.now))) result }
{
    let first = post(alloc, model, locals, first)?.part()?;
    let second = post(alloc, model, locals, second)?.part()?;
    if !(first.ty.get().is_activity() && second.ty.get().is_activity()) {
        return Err(TypeFault::Mismatch(at));
    }
    add_kinds(kinds, first)?;
    add_kinds(kinds, second)?;
    Ok(())
}

/// Whether the type is that of a resource that may be required: unary without a demand, discrete with one.
fn is_demanded(demand: &Option<AddTree>, ty: &Ty) -> bool
    ensures { result ≡ spec.is_demanded demand.now (sort ty.now) }
{
    match demand {
        None => ty.is_unary(),
        Some(_) => ty.is_discrete(),
    }
}

/// Whether the resource, or its element with these subscripts, may be required.
#[tactic(auto, using(opl_type_rules::proofs::Sorts::sorts))]
fn is_resource(model: &Names<'_>, t: &RequiresTree, subscripts: &[Node], thing: &Thing) -> bool
    ensures { result ≡ spec.is_resource (scope_of model.now) t.now (map node_of subscripts.now) (thing_of thing.now) }
{
    let Thing::Resource(ty) = thing else {
        return false;
    };
    match &t.subscripts {
        None => is_demanded(&t.demand, ty.get()),
        Some(_) => match ty.get() {
            Ty::Array(indices, element) => {
                fits_subscripts(model, indices.as_slice(), subscripts)
                    && all_data(subscripts)
                    && is_demanded(&t.demand, element.get())
            }
            Ty::Int
            | Ty::Bool
            | Ty::Enum(_)
            | Ty::Record(_)
            | Ty::Row(_)
            | Ty::Set(_)
            | Ty::EmptySet
            | Ty::Act
            | Ty::Unary
            | Ty::Discrete
            | Ty::Index(_)
            | Ty::Structure
            | Ty::Any => false,
        },
    }
}

/// The resource's name is visible.
#[tactic(auto, using(crate::proofs::Resources::names_known))]
fn known(model: &Names<'_>, locals: &Locals, name: &NameTree) -> Result<(), TypeFault>
    ensures { Gives (λ u. or_range (lookup (within model.now locals.now) name.now.text)) (spec.known name.now (lookup (within model.now locals.now) name.now.text)) result }
{
    match local_type(locals, name.text.as_slice()) {
        Some(_) => Ok(()),
        None => match model.lookup(name.text.as_slice()) {
            Some(_thing) => Ok(()),
            None => Err(TypeFault::Unknown(name.at)),
        },
    }
}

/// Whether what its name stands for may be required with these subscripts.
#[tactic(auto, using(crate::proofs::Resources::names_required))]
fn is_required(model: &Names<'_>, locals: &Locals, t: &RequiresTree, subscripts: &[Node]) -> bool
    ensures { result ≡ spec.is_resource (within model.now locals.now) t.now (map node_of subscripts.now) (or_range (lookup (within model.now locals.now) t.now.resource.text)) }
{
    match local_type(locals, t.resource.text.as_slice()) {
        Some(_) => false,
        None => match model.lookup(t.resource.text.as_slice()) {
            Some(thing) => is_resource(model, t, subscripts, thing),
            None => false,
        },
    }
}

/// The types of a demand.
fn demanded(
    alloc: Global,
    model: &Names<'_>,
    locals: &Locals,
    demand: &Option<AddTree>,
) -> Result<Seq<Ty>, TypeFault>
    ensures { Gives (map sort) (maybe_number (within model.now locals.now) demand.now) result }
{
    let mut kinds = Seq::new(alloc);
    if let Some(t) = demand {
        add_kinds(&mut kinds, add(alloc, model, locals, t)?.data_number()?)?;
    }
    Ok(kinds)
}

/// The subscripts of a resource.
fn parts_of(
    alloc: Global,
    model: &Names<'_>,
    locals: &Locals,
    t: &Option<SubscriptsTree>,
) -> Result<Seq<Node>, TypeFault>
    ensures { Gives (map node_of) (spec.subscript_nodes (within model.now locals.now) t.now) result }
{
    match t {
        None => Ok(Seq::new(alloc)),
        Some(t) => subscripts(alloc, model, locals, t),
    }
}

/// `a requires r`
#[tactic(auto, using(crate::proofs::Items::fronts))]
fn required(
    alloc: Global,
    model: &Names<'_>,
    locals: &Locals,
    t: &RequiresTree,
    kinds: &mut Seq<Ty>,
) -> Result<(), TypeFault>
    ensures { Gives (λ u. map sort kinds.new) (front (map sort kinds.old) (spec.requires t.now (within model.now locals.now))) result }
{
    let activity = post(alloc, model, locals, &t.activity)?.part()?;
    let demand = demanded(alloc, model, locals, &t.demand)?;
    known(model, locals, &t.resource)?;
    let parts = parts_of(alloc, model, locals, &t.subscripts)?;
    if !(activity.ty.get().is_activity() && is_required(model, locals, t, parts.as_slice())) {
        return Err(TypeFault::Mismatch(t.at));
    }
    add_kinds(kinds, activity)?;
    append(kinds, demand)?;
    append(kinds, kinds_in(alloc, parts)?)?;
    Ok(())
}

/// An item.
#[tactic(auto, using(crate::proofs::Items::item_kinds))]
#[cycle(items)]
fn item(
    alloc: Global,
    model: &Names<'_>,
    locals: &Locals,
    t: &ItemTree,
    kinds: &mut Seq<Ty>,
) -> Result<(), TypeFault>
    ensures { Gives (λ u. map sort kinds.new) (front (map sort kinds.old) (spec.item t.now (within model.now locals.now))) result }
{
    match t {
        ItemTree::Block(inner) => block(alloc, model, locals, inner, kinds),
        ItemTree::ForAll(_, params, body) => {
            let opened = open_params(alloc, model, locals, Need::DataAlone, params)?;
            append(kinds, opened.kinds)?;
            item(alloc, model, &opened.locals, body.get(), kinds)?;
            Ok(())
        }
        ItemTree::If(_, test, holds, fails) => {
            condition(alloc, model, locals, Need::DataAlone, test, kinds)?;
            items(alloc, model, locals, holds, kinds)?;
            if_written(alloc, model, locals, fails, kinds)?;
            Ok(())
        }
        ItemTree::Precedes(at, first, second) => {
            precedes(alloc, model, locals, *at, first, second, kinds)
        }
        ItemTree::Requires(t) => required(alloc, model, locals, t, kinds),
        ItemTree::Constraint(t) => condition(alloc, model, locals, Need::Nothing, t, kinds),
    }
}

/// Items, if they are written.
#[tactic(auto, using(crate::proofs::Items::fronts))]
#[cycle(items)]
fn if_written(
    alloc: Global,
    model: &Names<'_>,
    locals: &Locals,
    t: &Option<ItemsTree>,
    kinds: &mut Seq<Ty>,
) -> Result<(), TypeFault>
    ensures { Gives (λ u. map sort kinds.new) (front (map sort kinds.old) (spec.if_written (option_map spec.items t.now) (within model.now locals.now))) result }
{
    match t {
        None => Ok(()),
        Some(t) => items(alloc, model, locals, t, kinds),
    }
}

/// Items in their order.
#[tactic(auto, using(crate::proofs::Items::items_kinds))]
#[cycle(items)]
fn items(
    alloc: Global,
    model: &Names<'_>,
    locals: &Locals,
    t: &ItemsTree,
    kinds: &mut Seq<Ty>,
) -> Result<(), TypeFault>
    ensures { Gives (λ u. map sort kinds.new) (front (map sort kinds.old) (spec.items t.now (within model.now locals.now))) result }
{
    match t {
        ItemsTree::Empty(_) => Ok(()),
        ItemsTree::Several(_, first, rest, _) => {
            item(alloc, model, locals, first.get(), kinds)?;
            others(alloc, model, locals, rest.as_slice(), kinds)?;
            Ok(())
        }
    }
}

/// The items behind the first.
#[tactic(auto, using(crate::proofs::Items::each_item))]
#[cycle(items)]
fn others(
    alloc: Global,
    model: &Names<'_>,
    locals: &Locals,
    rest: &[ItemTree],
    kinds: &mut Seq<Ty>,
) -> Result<(), TypeFault>
    ensures { Gives (λ u. map sort kinds.new) (front (map sort kinds.old) (spec.each (map spec.item rest.now) (within model.now locals.now))) result }
{
    for other in rest {
        item(alloc, model, locals, other, kinds)?;
    }
    Ok(())
}

/// A block of items.
#[tactic(auto, using(crate::proofs::Items::block_kinds))]
#[cycle(items)]
fn block(
    alloc: Global,
    model: &Names<'_>,
    locals: &Locals,
    t: &BlockTree,
    kinds: &mut Seq<Ty>,
) -> Result<(), TypeFault>
    ensures { Gives (λ u. map sort kinds.new) (front (map sort kinds.old) (spec.block t.now (within model.now locals.now))) result }
{
    items(alloc, model, locals, &t.items, kinds)
}

/// A block of items outside of all parameters.
#[tactic(auto, using(crate::proofs::Items::outside))]
fn outer_block(
    alloc: Global,
    model: &Names<'_>,
    t: &BlockTree,
    kinds: &mut Seq<Ty>,
) -> Result<(), TypeFault>
    ensures { Gives (λ u. map sort kinds.new) (front (map sort kinds.old) (spec.block t.now (scope_of model.now))) result }
{
    let outside = Locals::new(alloc);
    block(alloc, model, &outside, t, kinds)
}

/// The instruction, with its objective before its items.
#[tactic(auto, using(crate::proofs::Items::outside))]
pub fn instr(
    alloc: Global,
    model: &Names<'_>,
    t: &InstrTree,
    kinds: &mut Seq<Ty>,
) -> Result<(), TypeFault>
    ensures { Gives (λ u. map sort kinds.new) (front (map sort kinds.old) (spec.instr t.now (scope_of model.now))) result }
{
    match t {
        InstrTree::Solve(_, inner) => outer_block(alloc, model, inner, kinds),
        InstrTree::Optimize(_, _, objective, inner) => {
            optimized(alloc, model, objective, kinds)?;
            outer_block(alloc, model, inner, kinds)?;
            Ok(())
        }
    }
}

/// The objective, which is a number.
#[tactic(auto, using(crate::proofs::Items::outside))]
fn optimized(
    alloc: Global,
    model: &Names<'_>,
    objective: &ExprTree,
    kinds: &mut Seq<Ty>,
) -> Result<(), TypeFault>
    ensures { Gives (λ u. map sort kinds.new) (front (map sort kinds.old) (step.objective objective.now (scope_of model.now))) result }
{
    let outside = Locals::new(alloc);
    let node = expr(alloc, model, &outside, objective)?;
    let is_taken = node.ty.get().is_number();
    add_kinds(kinds, node.settled(Need::Nothing, is_taken)?)
}
