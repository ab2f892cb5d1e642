//! How many nodes expressions, constraints and statements have.
ghost use Rattle.std.specs.Prelude.{◌≡◌, Some};
ghost use Rattle.opl_trace.specs.GroundCores.{expr_nodes, cons_nodes, key_nodes, step_nodes, section_nodes, goal_nodes, resource_nodes};
ghost use Rattle.opl_sound.specs.Measures.{small, added};
ghost use Rattle.opl_sound.specs.Ground.{count, branch_nodes, node_count};

use crate::numbers;
use opl_expr::{Branch, Cons, Core, Expr, Resource, Step};

/// The node of two parts, and theirs.
fn of_two(first: Option<u128>, second: Option<u128>) -> Option<u128>
    ensures { result ≡ added (Some 1) (added first second) }
{
    numbers::added(Some(1), numbers::added(first, second))
}

/// The nodes of an expression.
#[cycle(nodes)]
#[tactic(auto, using(crate::proofs::NodeForms::expressions))]
fn expression_nodes(e: &Expr) -> Option<u128>
    ensures { result ≡ small (expr_nodes e.now) }
{
    match e {
        Expr::Const(_k) => Some(1),
        Expr::Var(_x) => Some(1),
        Expr::Sum(parts) => numbers::added(Some(1), all_expression_nodes(parts.as_slice())),
        Expr::Neg(a) => numbers::added(Some(1), expression_nodes(a.get())),
        Expr::Mul(a, b) => of_two(expression_nodes(a.get()), expression_nodes(b.get())),
        Expr::Div(a, b) => of_two(expression_nodes(a.get()), expression_nodes(b.get())),
        Expr::Rem(a, b) => of_two(expression_nodes(a.get()), expression_nodes(b.get())),
        Expr::Abs(a) => numbers::added(Some(1), expression_nodes(a.get())),
        Expr::Min(parts) => numbers::added(Some(1), all_expression_nodes(parts.as_slice())),
        Expr::Max(parts) => numbers::added(Some(1), all_expression_nodes(parts.as_slice())),
        Expr::At(_table, parts) => numbers::added(Some(1), all_expression_nodes(parts.as_slice())),
        Expr::Truth(c) => numbers::added(Some(1), constraint_nodes(c.get())),
        Expr::Ask(_ask, _x) => Some(1),
    }
}

/// The nodes of all expressions.
#[cycle(nodes)]
fn all_expression_nodes(parts: &[Expr]) -> Option<u128>
    ensures { result ≡ count expr_nodes parts.now }
{
    let mut found = Some(0);
    let mut left = parts.len();
    while left > 0 {
        left -= 1;
        found = numbers::added(expression_nodes(&parts[left]), found);
    }
    found
}

/// The nodes of a constraint.
#[cycle(nodes)]
#[tactic(auto, using(crate::proofs::NodeForms::constraints))]
fn constraint_nodes(c: &Cons) -> Option<u128>
    ensures { result ≡ small (cons_nodes c.now) }
{
    match c {
        Cons::Fixed(_b) => Some(1),
        Cons::Cmp(_op, a, b) => of_two(expression_nodes(a.get()), expression_nodes(b.get())),
        Cons::And(parts) => numbers::added(Some(1), all_constraint_nodes(parts.as_slice())),
        Cons::Or(parts) => numbers::added(Some(1), all_constraint_nodes(parts.as_slice())),
        Cons::Imp(a, b) => of_two(constraint_nodes(a.get()), constraint_nodes(b.get())),
        Cons::Iff(a, b) => of_two(constraint_nodes(a.get()), constraint_nodes(b.get())),
        Cons::Not(a) => numbers::added(Some(1), constraint_nodes(a.get())),
        Cons::AllDifferent(parts) => {
            numbers::added(Some(1), all_expression_nodes(parts.as_slice()))
        }
        Cons::Capacity(_resource, _time) => Some(1),
        Cons::Bound(_x) => Some(1),
    }
}

/// The nodes of all constraints.
#[cycle(nodes)]
fn all_constraint_nodes(parts: &[Cons]) -> Option<u128>
    ensures { result ≡ count cons_nodes parts.now }
{
    let mut found = Some(0);
    let mut left = parts.len();
    while left > 0 {
        left -= 1;
        found = numbers::added(constraint_nodes(&parts[left]), found);
    }
    found
}

/// The nodes of a key, if there is one.
fn key_nodes(key: &Option<Expr>) -> Option<u128>
    ensures { result ≡ small (key_nodes key.now) }
{
    match key {
        None => numbers::small(0),
        Some(key) => expression_nodes(key),
    }
}

/// The nodes of a statement.
#[cycle(step_nodes)]
#[tactic(auto, using(crate::proofs::StepForms::counted))]
fn statement_nodes(s: &Step) -> Option<u128>
    ensures { result ≡ small (step_nodes s.now) }
{
    match s {
        Step::Post(c) => numbers::added(Some(1), constraint_nodes(c)),
        Step::Block(parts) => numbers::added(Some(1), all_statement_nodes(parts.as_slice())),
        Step::Try(parts) => numbers::added(Some(1), all_statement_nodes(parts.as_slice())),
        Step::TryAll(elements) => numbers::added(Some(1), all_element_nodes(elements.as_slice())),
        Step::ForAll(elements) => numbers::added(Some(1), all_element_nodes(elements.as_slice())),
        Step::Select(elements) => numbers::added(Some(1), all_element_nodes(elements.as_slice())),
        Step::Once(s) => numbers::added(Some(1), statement_nodes(s.get())),
        Step::While(c, s) => of_two(constraint_nodes(c), statement_nodes(s.get())),
        Step::If(c, s, t) => of_two(
            constraint_nodes(c),
            numbers::added(statement_nodes(s.get()), statement_nodes(t.get())),
        ),
        Step::Generate(_variables) => Some(1),
        Step::Rank(_pairs) => Some(1),
    }
}

/// The nodes of all statements.
#[cycle(step_nodes)]
fn all_statement_nodes(parts: &[Step]) -> Option<u128>
    ensures { result ≡ count step_nodes parts.now }
{
    let mut found = Some(0);
    let mut left = parts.len();
    while left > 0 {
        left -= 1;
        found = numbers::added(statement_nodes(&parts[left]), found);
    }
    found
}

/// The nodes of an element: those of its condition, its key and its body.
#[cycle(step_nodes)]
#[tactic(auto, using(crate::proofs::StepForms::counted))]
fn element_nodes(b: &Branch) -> Option<u128>
    ensures { result ≡ small (branch_nodes b.now) }
{
    numbers::added(
        constraint_nodes(&b.when),
        numbers::added(key_nodes(&b.key), statement_nodes(&b.body)),
    )
}

/// The nodes of all elements.
#[cycle(step_nodes)]
fn all_element_nodes(elements: &[Branch]) -> Option<u128>
    ensures { result ≡ count branch_nodes elements.now }
{
    let mut found = Some(0);
    let mut left = elements.len();
    while left > 0 {
        left -= 1;
        found = numbers::added(element_nodes(&elements[left]), found);
    }
    found
}

/// The nodes of a search section, if there is one.
fn section_nodes(core: &Core) -> Option<u128>
    ensures { result ≡ small (section_nodes core.now.search) }
{
    match &core.search {
        None => numbers::small(0),
        Some(section) => statement_nodes(section),
    }
}

/// The nodes of the objective, if there is one.
fn goal_nodes(core: &Core) -> Option<u128>
    ensures { result ≡ small (goal_nodes core.now.goal) }
{
    match &core.goal {
        None => numbers::small(0),
        Some(goal) => expression_nodes(&goal.value),
    }
}

/// A resource counts its uses, where its capacity is asked at all.
fn resource_nodes(resource: &Resource) -> Option<u128>
    ensures { result ≡ small (resource_nodes resource.now) }
{
    if resource.from < resource.to {
        numbers::small(resource.uses.len() as u128)
    } else {
        numbers::small(0)
    }
}

/// The nodes of all resources.
fn all_resource_nodes(resources: &[Resource]) -> Option<u128>
    ensures { result ≡ count resource_nodes resources.now }
{
    let mut found = Some(0);
    let mut left = resources.len();
    while left > 0 {
        left -= 1;
        found = numbers::added(resource_nodes(&resources[left]), found);
    }
    found
}

/// The nodes of a core; none where there are too many to be told.
pub fn core_nodes(core: &Core) -> Option<u128>
    ensures { result ≡ node_count core.now }
{
    let others = numbers::added(
        section_nodes(core),
        all_resource_nodes(core.resources.as_slice()),
    );
    numbers::added(
        all_constraint_nodes(core.cons.as_slice()),
        numbers::added(goal_nodes(core), others),
    )
}
