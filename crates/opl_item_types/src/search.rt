//! The types of the statements of a search section.
ghost use Rattle.std.specs.Prelude.{◌≡◌, ◌∷◌, [], map};
ghost use Rattle.std.specs.Option.{option_map};
ghost use Rattle.opl_item_types.specs.Items as spec;
ghost use Rattle.opl_type_rules.specs.Steps.{front};
ghost use Rattle.opl_type_rules.specs.Types.{sort};
ghost use Rattle.opl_type_rules.specs.Values.{Gives, within};

use crate::item::{condition, precedes};
use opl_expression_types::{add, open_params, post};
use opl_list::Seq;
use opl_tree::{LabelOp, OrderTree, PostTree, SearchBlockTree, StatementTree, StatementsTree};
use opl_type_rules::fault::TypeFault;
use opl_type_rules::kind::Ty;
use opl_type_rules::names::{Locals, Names};
use opl_type_rules::node::Need;
use opl_type_rules::rules::{add_kinds, append};
use std::alloc::Global;

/// `generate (POST)` or `rank (POST)`
fn label(
    alloc: Global,
    model: &Names<'_>,
    locals: &Locals,
    at: u32,
    op: LabelOp,
    t: &PostTree,
    kinds: &mut Seq<Ty>,
) -> Result<(), TypeFault>
    ensures { Gives (λ u. map sort kinds.new) (front (map sort kinds.old) (spec.label at op t.now (within model.now locals.now))) result }
{
    let node = post(alloc, model, locals, t)?.part()?;
    let is_right = match op {
        LabelOp::Generate => node.is_whole,
        LabelOp::Rank => node.ty.get().is_unary(),
    };
    if !is_right {
        return Err(TypeFault::Mismatch(at));
    }
    add_kinds(kinds, node)
}

/// The key of an order.
#[tactic(auto, using(crate::proofs::Items::fronts))]
fn order(
    alloc: Global,
    model: &Names<'_>,
    locals: &Locals,
    t: &Option<OrderTree>,
    kinds: &mut Seq<Ty>,
) -> Result<(), TypeFault>
    ensures { Gives (λ u. map sort kinds.new) (front (map sort kinds.old) (spec.order t.now (within model.now locals.now))) result }
{
    match t {
        None => Ok(()),
        Some(t) => {
            let node = add(alloc, model, locals, &t.key)?;
            let is_taken = node.ty.get().is_number();
            add_kinds(kinds, node.settled(Need::DataOrQuestions, is_taken)?)
        }
    }
}

/// A statement.
#[tactic(auto, using(crate::proofs::Items::statement_kinds))]
#[cycle(statements)]
fn statement(
    alloc: Global,
    model: &Names<'_>,
    locals: &Locals,
    t: &StatementTree,
    kinds: &mut Seq<Ty>,
) -> Result<(), TypeFault>
    ensures { Gives (λ u. map sort kinds.new) (front (map sort kinds.old) (spec.statement t.now (within model.now locals.now))) result }
{
    match t {
        StatementTree::Block(inner) => search_block(alloc, model, locals, inner, kinds),
        StatementTree::Try(_, first, second, others) => {
            statements(alloc, model, locals, first, kinds)?;
            statements(alloc, model, locals, second, kinds)?;
            alternatives(alloc, model, locals, others.as_slice(), kinds)?;
            Ok(())
        }
        StatementTree::Branch(_, _, params, body) => {
            let opened = open_params(alloc, model, locals, Need::DataOrQuestions, &params.params)?;
            append(kinds, opened.kinds)?;
            let locals = &opened.locals;
            ordered(alloc, model, locals, &params.order, body.get(), kinds)?;
            Ok(())
        }
        StatementTree::Once(_, body) => statement(alloc, model, locals, body.get(), kinds),
        StatementTree::While(_, test, body) => {
            condition(alloc, model, locals, Need::DataOrQuestions, test, kinds)?;
            statement(alloc, model, locals, body.get(), kinds)?;
            Ok(())
        }
        StatementTree::If(_, test, holds, fails) => {
            condition(alloc, model, locals, Need::DataOrQuestions, test, kinds)?;
            statements(alloc, model, locals, holds, kinds)?;
            if_written(alloc, model, locals, fails, kinds)?;
            Ok(())
        }
        StatementTree::Label(at, op, t) => label(alloc, model, locals, *at, *op, t, kinds),
        StatementTree::Precedes(at, first, second) => {
            precedes(alloc, model, locals, *at, first, second, kinds)
        }
        StatementTree::Constraint(t) => condition(alloc, model, locals, Need::Nothing, t, kinds),
    }
}

/// A statement behind an order.
#[cycle(statements)]
fn ordered(
    alloc: Global,
    model: &Names<'_>,
    locals: &Locals,
    key: &Option<OrderTree>,
    body: &StatementTree,
    kinds: &mut Seq<Ty>,
) -> Result<(), TypeFault>
    ensures { Gives (λ u. map sort kinds.new) (front (map sort kinds.old) (spec.each (spec.order key.now ∷ spec.statement body.now ∷ []) (within model.now locals.now))) result }
{
    order(alloc, model, locals, key, kinds)?;
    statement(alloc, model, locals, body, kinds)?;
    Ok(())
}

/// Lists of statements, one after the other.
#[tactic(auto, using(crate::proofs::Items::each_statements))]
#[cycle(statements)]
fn alternatives(
    alloc: Global,
    model: &Names<'_>,
    locals: &Locals,
    others: &[StatementsTree],
    kinds: &mut Seq<Ty>,
) -> Result<(), TypeFault>
    ensures { Gives (λ u. map sort kinds.new) (front (map sort kinds.old) (spec.each (map spec.statements others.now) (within model.now locals.now))) result }
{
    for other in others {
        statements(alloc, model, locals, other, kinds)?;
    }
    Ok(())
}

/// Statements, if they are written.
#[tactic(auto, using(crate::proofs::Items::fronts))]
#[cycle(statements)]
fn if_written(
    alloc: Global,
    model: &Names<'_>,
    locals: &Locals,
    t: &Option<StatementsTree>,
    kinds: &mut Seq<Ty>,
) -> Result<(), TypeFault>
    ensures { Gives (λ u. map sort kinds.new) (front (map sort kinds.old) (spec.if_written (option_map spec.statements t.now) (within model.now locals.now))) result }
{
    match t {
        None => Ok(()),
        Some(t) => statements(alloc, model, locals, t, kinds),
    }
}

/// Statements in their order.
#[tactic(auto, using(crate::proofs::Items::statements_kinds))]
#[cycle(statements)]
fn statements(
    alloc: Global,
    model: &Names<'_>,
    locals: &Locals,
    t: &StatementsTree,
    kinds: &mut Seq<Ty>,
) -> Result<(), TypeFault>
    ensures { Gives (λ u. map sort kinds.new) (front (map sort kinds.old) (spec.statements t.now (within model.now locals.now))) result }
{
    match t {
        StatementsTree::Empty(_) => Ok(()),
        StatementsTree::Several(_, first, rest, _) => {
            statement(alloc, model, locals, first.get(), kinds)?;
            others(alloc, model, locals, rest.as_slice(), kinds)?;
            Ok(())
        }
    }
}

/// The statements behind the first.
#[tactic(auto, using(crate::proofs::Items::each_statement))]
#[cycle(statements)]
fn others(
    alloc: Global,
    model: &Names<'_>,
    locals: &Locals,
    rest: &[StatementTree],
    kinds: &mut Seq<Ty>,
) -> Result<(), TypeFault>
    ensures { Gives (λ u. map sort kinds.new) (front (map sort kinds.old) (spec.each (map spec.statement rest.now) (within model.now locals.now))) result }
{
    for other in rest {
        statement(alloc, model, locals, other, kinds)?;
    }
    Ok(())
}

/// A block of statements.
#[tactic(auto, using(crate::proofs::Items::search_block_kinds))]
#[cycle(statements)]
pub fn search_block(
    alloc: Global,
    model: &Names<'_>,
    locals: &Locals,
    t: &SearchBlockTree,
    kinds: &mut Seq<Ty>,
) -> Result<(), TypeFault>
    ensures { Gives (λ u. map sort kinds.new) (front (map sort kinds.old) (spec.search_block t.now (within model.now locals.now))) result }
{
    statements(alloc, model, locals, &t.statements, kinds)
}
