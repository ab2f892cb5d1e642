//! Expressions and constraints in prefix form.
ghost use Rattle.std.specs.Prelude.{◌≡◌, ◌∷◌, ◌++◌, [], codes, map, slice_get, OnOk};
ghost use Rattle.opl_ground_text.specs.Texts.{chain, cons_text, expr_text, node, spaced, table_name, variable_name};

use crate::names::{
    ask_word, op_word, push_capacity, push_number, push_table, push_variable, truth_word,
};
use opl_expr::{Cons, Core, Expr};
use std::alloc::AllocError;

/// Adds what opens a node.
fn push_opening(text: &mut Vec<u8>, word: &[u8]) -> Result<(), AllocError>
    ensures { OnOk result (text.new.items ≡ text.old.items ++ (codes "(" ++ word.now)) }
{
    text.extend_from_slice(b"(")?;
    text.extend_from_slice(word)?;
    Ok(())
}

/// Adds a node over one variable.
fn push_question(text: &mut Vec<u8>, core: &Core, word: &[u8], x: u32) -> Result<(), AllocError>
    ensures { OnOk result (text.new.items ≡ text.old.items ++ node word.now (variable_name core.now x ∷ [])) }
{
    push_opening(text, word)?;
    text.extend_from_slice(b" ")?;
    push_variable(text, core, x as usize)?;
    text.extend_from_slice(b")")?;
    Ok(())
}

/// Adds the text of an expression.
#[cycle(texts)]
pub(crate) fn push_expr(text: &mut Vec<u8>, core: &Core, e: &Expr) -> Result<(), AllocError>
    ensures { OnOk result (text.new.items ≡ text.old.items ++ expr_text core.now e.now) }
{
    match e {
        Expr::Const(k) => push_number(text, *k),
        Expr::Var(x) => push_variable(text, core, *x as usize),
        Expr::Sum(parts) => push_sum(text, core, parts.as_slice()),
        Expr::Neg(a) => push_one(text, core, b"-", a.get()),
        Expr::Mul(a, b) => {
            push_first(text, core, b"*", a.get())?;
            push_last(text, core, b.get())
        }
        Expr::Div(a, b) => {
            push_first(text, core, b"div", a.get())?;
            push_last(text, core, b.get())
        }
        Expr::Rem(a, b) => {
            push_first(text, core, b"mod", a.get())?;
            push_last(text, core, b.get())
        }
        Expr::Abs(a) => push_one(text, core, b"abs", a.get()),
        Expr::Min(parts) => push_node(text, core, b"min", parts.as_slice()),
        Expr::Max(parts) => push_node(text, core, b"max", parts.as_slice()),
        Expr::At(table, subscripts) => push_cell(text, core, *table, subscripts.as_slice()),
        Expr::Truth(c) => push_cons(text, core, c.get()),
        Expr::Ask(ask, x) => push_question(text, core, ask_word(*ask), *x),
    }
}

/// Adds an expression behind a blank.
#[cycle(texts)]
fn push_behind(text: &mut Vec<u8>, core: &Core, e: &Expr) -> Result<(), AllocError>
    ensures { OnOk result (text.new.items ≡ text.old.items ++ (codes " " ++ expr_text core.now e.now)) }
{
    text.extend_from_slice(b" ")?;
    push_expr(text, core, e)?;
    Ok(())
}

/// Adds expressions, each behind a blank.
#[cycle(texts)]
fn push_spaced(text: &mut Vec<u8>, core: &Core, parts: &[Expr]) -> Result<(), AllocError>
    ensures { OnOk result (text.new.items ≡ text.old.items ++ spaced (map (expr_text core.now) parts.now)) }
{
    for part in parts {
        push_behind(text, core, part)?;
    }
    Ok(())
}

/// Adds a node over one expression.
#[cycle(texts)]
fn push_one(text: &mut Vec<u8>, core: &Core, word: &[u8], a: &Expr) -> Result<(), AllocError>
    ensures { OnOk result (text.new.items ≡ text.old.items ++ node word.now (expr_text core.now a.now ∷ [])) }
{
    push_opening(text, word)?;
    push_behind(text, core, a)?;
    text.extend_from_slice(b")")?;
    Ok(())
}

/// Adds what opens a node over two expressions, and the first of them.
#[cycle(texts)]
fn push_first(text: &mut Vec<u8>, core: &Core, word: &[u8], a: &Expr) -> Result<(), AllocError>
    ensures { OnOk result (text.new.items ≡ text.old.items ++ (codes "(" ++ word.now ++ (codes " " ++ expr_text core.now a.now))) }
{
    push_opening(text, word)?;
    push_behind(text, core, a)?;
    Ok(())
}

/// Adds the second of two expressions, and what closes their node.
#[cycle(texts)]
fn push_last(text: &mut Vec<u8>, core: &Core, b: &Expr) -> Result<(), AllocError>
    ensures { OnOk result (text.new.items ≡ text.old.items ++ (codes " " ++ expr_text core.now b.now ++ codes ")")) }
{
    push_behind(text, core, b)?;
    text.extend_from_slice(b")")?;
    Ok(())
}

/// Adds a node over expressions.
#[cycle(texts)]
fn push_node(text: &mut Vec<u8>, core: &Core, word: &[u8], parts: &[Expr]) -> Result<(), AllocError>
    ensures { OnOk result (text.new.items ≡ text.old.items ++ node word.now (map (expr_text core.now) parts.now)) }
{
    push_opening(text, word)?;
    push_spaced(text, core, parts)?;
    text.extend_from_slice(b")")?;
    Ok(())
}

/// Adds a sum; one part alone stands for itself.
#[cycle(texts)]
fn push_sum(text: &mut Vec<u8>, core: &Core, parts: &[Expr]) -> Result<(), AllocError>
    ensures { OnOk result (text.new.items ≡ text.old.items ++ chain (codes "+") (map (expr_text core.now) parts.now)) }
{
    if parts.len() == 1 {
        push_expr(text, core, &parts[0])
    } else {
        push_node(text, core, b"+", parts)
    }
}

/// Adds a cell of a table.
#[cycle(texts)]
fn push_cell(
    text: &mut Vec<u8>,
    core: &Core,
    table: u32,
    subscripts: &[Expr],
) -> Result<(), AllocError>
    ensures { OnOk result (text.new.items ≡ text.old.items ++ node (codes "at") (table_name (slice_get core.now.tables table) ∷ map (expr_text core.now) subscripts.now)) }
{
    text.extend_from_slice(b"(at ")?;
    push_table(text, core, table)?;
    push_spaced(text, core, subscripts)?;
    text.extend_from_slice(b")")?;
    Ok(())
}

/// Adds the text of a constraint.
#[cycle(texts)]
pub(crate) fn push_cons(text: &mut Vec<u8>, core: &Core, c: &Cons) -> Result<(), AllocError>
    ensures { OnOk result (text.new.items ≡ text.old.items ++ cons_text core.now c.now) }
{
    match c {
        Cons::Fixed(holds) => text.extend_from_slice(truth_word(*holds)),
        Cons::Cmp(op, a, b) => {
            push_first(text, core, op_word(*op), a.get())?;
            push_last(text, core, b.get())
        }
        Cons::And(parts) => push_chain(text, core, b"&", parts.as_slice()),
        Cons::Or(parts) => push_chain(text, core, b"\\/", parts.as_slice()),
        Cons::Imp(a, b) => {
            push_cons_first(text, core, b"=>", a.get())?;
            push_cons_last(text, core, b.get())
        }
        Cons::Iff(a, b) => {
            push_cons_first(text, core, b"<=>", a.get())?;
            push_cons_last(text, core, b.get())
        }
        Cons::Not(a) => push_not(text, core, a.get()),
        Cons::AllDifferent(parts) => push_node(text, core, b"alldifferent", parts.as_slice()),
        Cons::Capacity(resource, time) => push_capacity(text, core, *resource, *time),
        Cons::Bound(x) => push_question(text, core, b"bound", *x),
    }
}

/// Adds a constraint behind a blank.
#[cycle(texts)]
fn push_cons_behind(text: &mut Vec<u8>, core: &Core, c: &Cons) -> Result<(), AllocError>
    ensures { OnOk result (text.new.items ≡ text.old.items ++ (codes " " ++ cons_text core.now c.now)) }
{
    text.extend_from_slice(b" ")?;
    push_cons(text, core, c)?;
    Ok(())
}

/// Adds constraints, each behind a blank.
#[cycle(texts)]
fn push_cons_spaced(text: &mut Vec<u8>, core: &Core, parts: &[Cons]) -> Result<(), AllocError>
    ensures { OnOk result (text.new.items ≡ text.old.items ++ spaced (map (cons_text core.now) parts.now)) }
{
    for part in parts {
        push_cons_behind(text, core, part)?;
    }
    Ok(())
}

/// Adds the opposite of a constraint.
#[cycle(texts)]
fn push_not(text: &mut Vec<u8>, core: &Core, a: &Cons) -> Result<(), AllocError>
    ensures { OnOk result (text.new.items ≡ text.old.items ++ node (codes "not") (cons_text core.now a.now ∷ [])) }
{
    push_opening(text, b"not")?;
    push_cons_behind(text, core, a)?;
    text.extend_from_slice(b")")?;
    Ok(())
}

/// Adds what opens a node over two constraints, and the first of them.
#[cycle(texts)]
fn push_cons_first(text: &mut Vec<u8>, core: &Core, word: &[u8], a: &Cons) -> Result<(), AllocError>
    ensures { OnOk result (text.new.items ≡ text.old.items ++ (codes "(" ++ word.now ++ (codes " " ++ cons_text core.now a.now))) }
{
    push_opening(text, word)?;
    push_cons_behind(text, core, a)?;
    Ok(())
}

/// Adds the second of two constraints, and what closes their node.
#[cycle(texts)]
fn push_cons_last(text: &mut Vec<u8>, core: &Core, b: &Cons) -> Result<(), AllocError>
    ensures { OnOk result (text.new.items ≡ text.old.items ++ (codes " " ++ cons_text core.now b.now ++ codes ")")) }
{
    push_cons_behind(text, core, b)?;
    text.extend_from_slice(b")")?;
    Ok(())
}

/// Adds a node over constraints; one part alone stands for itself.
#[cycle(texts)]
fn push_chain(
    text: &mut Vec<u8>,
    core: &Core,
    word: &[u8],
    parts: &[Cons],
) -> Result<(), AllocError>
    ensures { OnOk result (text.new.items ≡ text.old.items ++ chain word.now (map (cons_text core.now) parts.now)) }
{
    if parts.len() == 1 {
        return push_cons(text, core, &parts[0]);
    }
    push_opening(text, word)?;
    push_cons_spaced(text, core, parts)?;
    text.extend_from_slice(b")")?;
    Ok(())
}
