//! Parts in the order of values, where a name stands at its position.
ghost use Rattle.std.specs.Prelude.{◌≡◌, ◌≤◌, IfOk};
ghost use Rattle.opl_eval.specs.Compare as compare;
ghost use Rattle.opl_form.specs.Measures as measures;
ghost use Rattle.opl_form.specs.Parts as parts;
ghost use Rattle.opl_nodes.specs.Pieces as pieces;
ghost use Rattle.opl_elements.specs.Ranks.{HasMeasures, IsMeasured};

use opl_expr::Expr;
use opl_list::Boxed;
use opl_nodes::{Form, Part, rank};
use opl_value::Value;
use std::alloc::{AllocError, Global};

/// An expression with its depth and its nodes.
#[derive(Drop)]
pub struct Ranked {
    pub expr: Boxed<Expr>,
    pub depth: u32,
    pub nodes: u32,
}

/// The rank of a value.
fn constant(alloc: Global, value: &Value) -> Result<Boxed<Expr>, AllocError>
    ensures { IfOk result (λ e. e ≡ Expr.Const (compare.rank value.now)) }
{
    Boxed::new(alloc, Expr::Const(rank(value)))
}

/// A part in the order of values.
pub fn by_rank(alloc: Global, part: Part) -> Result<Ranked, AllocError>
    requires { HasMeasures part }
    ensures expr { IfOk result (λ r. r.expr ≡ parts.ranked (pieces.form part)) }
    ensures measured { IfOk result IsMeasured }
{
    let depth = depth_by_rank(&part);
    let nodes = nodes_by_rank(&part);
    let expr = expr_by_rank(alloc, part)?;
    Ok(Ranked { expr, depth, nodes })
}

/// How deep a part nests in the order of values.
#[tactic(auto, using(crate::proofs::Measured::leaves))]
pub fn depth_by_rank(part: &Part) -> u32
    requires { HasMeasures part.now }
    ensures depth { result ≡ measures.depth (parts.ranked (pieces.form part.now)) }
    ensures small { result ≤ 2049 }
{
    match &part.form {
        Form::Condition(_) => part.depth + 1,
        Form::Known(_) | Form::Number(_) | Form::Name(..) | Form::Truth(_) => part.depth,
    }
}

/// How many nodes a part has in the order of values.
#[tactic(auto, using(crate::proofs::Measured::leaves))]
pub fn nodes_by_rank(part: &Part) -> u32
    requires { HasMeasures part.now }
    ensures nodes { result ≡ measures.nodes (parts.ranked (pieces.form part.now)) }
    ensures small { result ≤ 4194305 }
{
    match &part.form {
        Form::Condition(_) => part.nodes + 1,
        Form::Known(_) | Form::Number(_) | Form::Name(..) | Form::Truth(_) => part.nodes,
    }
}

/// A part in the order of values, without its measures.
pub fn expr_by_rank(alloc: Global, part: Part) -> Result<Boxed<Expr>, AllocError>
    ensures { IfOk result (λ e. e ≡ parts.ranked (pieces.form part)) }
{
    match part.form {
        Form::Known(value) => constant(alloc, value.get()),
        Form::Number(expr) => Ok(expr),
        Form::Name(_, expr) => Ok(expr),
        Form::Condition(cons) => Boxed::new(alloc, Expr::Truth(cons)),
        Form::Truth(cons) => Boxed::new(alloc, Expr::Truth(cons)),
    }
}
