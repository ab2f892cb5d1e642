//! Comparisons of two parts.
ghost use Rattle.std.specs.Prelude.{◌≡◌, ◌∷◌, [], IfOk};
ghost use Rattle.opl_form.specs.Nodes as nodes;
ghost use Rattle.opl_form.specs.Parts as parts;
ghost use Rattle.opl_nodes.specs.Contexts.{arrays, sets};
ghost use Rattle.opl_nodes.specs.Pieces as pieces;
ghost use Rattle.opl_elements.specs.Comparisons as spec;
ghost use Rattle.opl_elements.specs.Ranks.{HasMeasures, IsMeasured};

use crate::measures::{CAP, greater};
use crate::ranks::{Ranked, by_rank};
use crate::sorts::{are_alike, sort_of};
use opl_eval::relates;
use opl_expr::{Cons, Expr, Op};
use opl_list::{Boxed, Seq};
use opl_nodes::{Context, FormFault, Part, both_values, condition_node, truth_node};
use opl_tree::Relation;
use std::alloc::{AllocError, Global};

/// `a = b` and the like. A comparison subtracts one side from the other, so the magnitudes of both together are tested, at this place.
pub fn compared(
    alloc: Global,
    context: &Context<'_>,
    at: u32,
    before: u64,
    relation: Relation,
    left: Part,
    right: Part,
) -> Result<Part, FormFault>
    requires left { pieces.IsPart context.now left }
    requires right { pieces.IsPart context.now right }
    ensures { pieces.Makes context.now (nodes.compared (sets context.now) (arrays context.now) context.now.item at before relation (pieces.form left) (pieces.form right)) result }
{
    let known = related(relation, &left, &right);
    match known {
        Some(holds) => truth_node(alloc, context, before, holds),
        None => live_comparison(alloc, context, at, before, relation, left, right),
    }
}

/// Whether a relation holds between two parts, where a variable is left in neither.
fn related(relation: Relation, left: &Part, right: &Part) -> Option<bool>
    ensures { result ≡ spec.related relation (pieces.form left.now) (pieces.form right.now) }
{
    match both_values(left, right) {
        Some(values) => Some(relates(relation, values.0, values.1)),
        None => None,
    }
}

/// A comparison of two parts of which one has a variable.
fn live_comparison(
    alloc: Global,
    context: &Context<'_>,
    at: u32,
    before: u64,
    relation: Relation,
    left: Part,
    right: Part,
) -> Result<Part, FormFault>
    requires left { pieces.IsPart context.now left }
    requires right { pieces.IsPart context.now right }
    ensures { pieces.Makes context.now (spec.live_comparison context.now at before relation (pieces.form left) (pieces.form right)) result }
{
    if left.size + right.size >= CAP {
        return Err(FormFault::TooLarge(at));
    }
    let alike = are_alike(sort_of(&left), sort_of(&right));
    by_kind(alloc, context, before, alike, relation, left, right)
}

/// A comparison by ranks. Parts of unlike kinds are never equal, wherever they have values.
fn by_kind(
    alloc: Global,
    context: &Context<'_>,
    before: u64,
    alike: bool,
    relation: Relation,
    left: Part,
    right: Part,
) -> Result<Part, FormFault>
    requires left { HasMeasures left }
    requires right { HasMeasures right }
    ensures { pieces.Makes context.now (nodes.condition_node context.now.item before (nodes.by_kind alike (nodes.op_of relation) (parts.ranked (pieces.form left)) (parts.ranked (pieces.form right)))) result }
{
    let left = by_rank(alloc, left)?;
    let right = by_rank(alloc, right)?;
    match unlike(alike, relation) {
        Some(op) => apart(alloc, context, before, op, left, right),
        None => comparison(alloc, context, before, op_of(relation), left, right),
    }
}

/// What parts of unlike kinds are asked in place of an equation or its contrary.
fn unlike(alike: bool, relation: Relation) -> Option<Op>
    ensures { result ≡ spec.unlike alike relation }
{
    if alike {
        return None;
    }
    match relation {
        Relation::Equal => Some(Op::Ne),
        Relation::NotEqual => Some(Op::Eq),
        Relation::Less | Relation::LessOrEqual | Relation::Greater | Relation::GreaterOrEqual =>
            None,
    }
}

/// The sign of a comparison in a constraint.
fn op_of(relation: Relation) -> Op
    ensures { result ≡ nodes.op_of relation }
{
    match relation {
        Relation::Equal => Op::Eq,
        Relation::NotEqual => Op::Ne,
        Relation::Less => Op::Lt,
        Relation::LessOrEqual => Op::Le,
        Relation::Greater => Op::Gt,
        Relation::GreaterOrEqual => Op::Ge,
    }
}

/// A comparison of two expressions.
#[tactic(auto, using(crate::proofs::Measured::constraints))]
fn comparison(
    alloc: Global,
    context: &Context<'_>,
    before: u64,
    op: Op,
    left: Ranked,
    right: Ranked,
) -> Result<Part, FormFault>
    requires left { IsMeasured left }
    requires right { IsMeasured right }
    ensures { pieces.Makes context.now (nodes.condition_node context.now.item before (Cons.Cmp op left.expr right.expr)) result }
{
    let depth = greater(left.depth, right.depth) + 1;
    let nodes = u64::from(left.nodes) + u64::from(right.nodes) + 1;
    condition_node(
        alloc,
        context,
        before,
        Cons::Cmp(op, left.expr, right.expr),
        depth,
        nodes,
    )
}

/// Whether both expressions have values, and each stands to itself as it is asked.
#[tactic(auto, using(crate::proofs::Measured::constraints))]
fn apart(
    alloc: Global,
    context: &Context<'_>,
    before: u64,
    op: Op,
    left: Ranked,
    right: Ranked,
) -> Result<Part, FormFault>
    requires left { IsMeasured left }
    requires right { IsMeasured right }
    ensures { pieces.Makes context.now (nodes.condition_node context.now.item before (spec.apart op left.expr right.expr)) result }
{
    let depth = greater(1, greater(left.depth, right.depth)) + 3;
    let nodes = 2 * (u64::from(left.nodes) + u64::from(right.nodes)) + 11;
    let first = to_itself(alloc, op, left.expr.get())?;
    let second = to_itself(alloc, op, right.expr.get())?;
    let both = pair(alloc, first, second)?;
    condition_node(alloc, context, before, Cons::And(both), depth, nodes)
}

/// A comparison of 0 with itself, wherever an expression has a value.
fn to_itself(alloc: Global, op: Op, expr: &Expr) -> Result<Boxed<Cons>, AllocError>
    ensures { IfOk result (λ c. c ≡ Cons.Cmp op (parts.nothing expr.now) (parts.nothing expr.now)) }
{
    let left = nothing(alloc, expr)?;
    let right = nothing(alloc, expr)?;
    Boxed::new(alloc, Cons::Cmp(op, left, right))
}

/// 0 wherever an expression has a value.
fn nothing(alloc: Global, expr: &Expr) -> Result<Boxed<Expr>, AllocError>
    ensures { IfOk result (λ e. e ≡ parts.nothing expr.now) }
{
    let zero = Boxed::new(alloc, Expr::Const(0))?;
    let copy = copied(alloc, expr)?;
    Boxed::new(alloc, Expr::Mul(zero, copy))
}

/// An equal expression.
fn copied(alloc: Global, expr: &Expr) -> Result<Boxed<Expr>, AllocError>
    ensures { IfOk result (λ e. e ≡ expr.now) }
{
    match expr.copy(alloc) {
        Ok(copy) => Boxed::new(alloc, copy),
        Err(_) => Err(AllocError),
    }
}

/// Two constraints, one behind the other.
fn pair(alloc: Global, first: Boxed<Cons>, second: Boxed<Cons>) -> Result<Seq<Cons>, AllocError>
    ensures { IfOk result (λ cs. cs ≡ first ∷ second ∷ []) }
{
    let mut both = Seq::new(alloc);
    both.push(first.into_inner())?;
    both.push(second.into_inner())?;
    Ok(both)
}
