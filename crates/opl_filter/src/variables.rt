//! The variables that a constraint mentions.
ghost use Rattle.std.specs.Prelude.{◌≡◌, IfOk, map, slice_get, nat_eq};
ghost use Rattle.opl_expr.specs.Forms.{term, fact, terms_of, facts_of};
ghost use Rattle.opl_filter.specs.Mentions.{cell_mentions, cells_mention, use_mentions, uses_mention, table_mentions, resource_mentions, term_mentions, terms_mention, mentions, facts_mention, Adds, AreVariables};

use opl_domain::OutOfMemory;
use opl_expr::{Cell, Cons, Core, Expr, Use};
use opl_list::Seq;
use std::alloc::Global;

/// Adds a variable, unless it is there.
fn add(found: &mut Seq<u32>, x: u32) -> Result<(), OutOfMemory>
    ensures { IfOk result (λ u. Adds (λ y. nat_eq y x) found.old found.new) }
{
    if !found.as_slice().contains(&x) {
        found.push(x)?;
    }
    Ok(())
}

/// Adds the variable of a cell, if it has one.
fn add_cell(cell: Cell, found: &mut Seq<u32>) -> Result<(), OutOfMemory>
    ensures { IfOk result (λ u. Adds (cell_mentions cell) found.old found.new) }
{
    match cell {
        Cell::Const(_k) => Ok(()),
        Cell::Var(x) => add(found, x),
    }
}

/// Adds the variables of cells.
fn add_cells(cells: &[Cell], found: &mut Seq<u32>) -> Result<(), OutOfMemory>
    ensures { IfOk result (λ u. Adds (cells_mention cells.now) found.old found.new) }
{
    for cell in cells {
        add_cell(*cell, found)?;
    }
    Ok(())
}

/// Adds the variables of the cells of a table.
fn add_table(core: &Core, table: u32, found: &mut Seq<u32>) -> Result<(), OutOfMemory>
    ensures { IfOk result (λ u. Adds (table_mentions (slice_get core.now.tables table)) found.old found.new) }
{
    match core.tables.get(table as usize) {
        None => Ok(()),
        Some(t) => add_cells(t.cells.as_slice(), found),
    }
}

/// Adds the start and the duration of a use.
fn add_use(u: Use, found: &mut Seq<u32>) -> Result<(), OutOfMemory>
    ensures { IfOk result (λ r. Adds (use_mentions u) found.old found.new) }
{
    add(found, u.start)?;
    add(found, u.duration)
}

/// Adds the starts and the durations of uses.
fn add_uses(uses: &[Use], found: &mut Seq<u32>) -> Result<(), OutOfMemory>
    ensures { IfOk result (λ r. Adds (uses_mention uses.now) found.old found.new) }
{
    for u in uses {
        add_use(*u, found)?;
    }
    Ok(())
}

/// Adds the starts and the durations of the uses of a resource.
fn add_resource(core: &Core, resource: u32, found: &mut Seq<u32>) -> Result<(), OutOfMemory>
    ensures { IfOk result (λ u. Adds (resource_mentions (slice_get core.now.resources resource)) found.old found.new) }
{
    match core.resources.get(resource as usize) {
        None => Ok(()),
        Some(r) => add_uses(r.uses.as_slice(), found),
    }
}

/// Adds the variables of an expression.
#[cycle(variables)]
fn add_term(core: &Core, e: &Expr, found: &mut Seq<u32>) -> Result<(), OutOfMemory>
    ensures { IfOk result (λ u. Adds (term_mentions (term core.now.tables core.now.resources e.now)) found.old found.new) }
{
    match e {
        Expr::Const(_k) => Ok(()),
        Expr::Var(x) => add(found, *x),
        Expr::Sum(parts) => add_terms(core, parts.as_slice(), found),
        Expr::Neg(a) => add_term(core, a.get(), found),
        Expr::Mul(a, b) => {
            add_term(core, a.get(), found)?;
            add_term(core, b.get(), found)
        }
        Expr::Div(a, b) => {
            add_term(core, a.get(), found)?;
            add_term(core, b.get(), found)
        }
        Expr::Rem(a, b) => {
            add_term(core, a.get(), found)?;
            add_term(core, b.get(), found)
        }
        Expr::Abs(a) => add_term(core, a.get(), found),
        Expr::Min(parts) => add_terms(core, parts.as_slice(), found),
        Expr::Max(parts) => add_terms(core, parts.as_slice(), found),
        Expr::At(table, parts) => {
            add_table(core, *table, found)?;
            add_terms(core, parts.as_slice(), found)
        }
        Expr::Truth(c) => add_fact(core, c.get(), found),
        Expr::Ask(_ask, x) => add(found, *x),
    }
}

/// Adds the variables of expressions.
#[cycle(variables)]
fn add_terms(core: &Core, parts: &[Expr], found: &mut Seq<u32>) -> Result<(), OutOfMemory>
    ensures { IfOk result (λ u. Adds (terms_mention (terms_of (map (term core.now.tables core.now.resources) parts.now))) found.old found.new) }
{
    for part in parts {
        add_term(core, part, found)?;
    }
    Ok(())
}

/// Adds the variables of a constraint.
#[cycle(variables)]
fn add_fact(core: &Core, c: &Cons, found: &mut Seq<u32>) -> Result<(), OutOfMemory>
    ensures { IfOk result (λ u. Adds (mentions (fact core.now.tables core.now.resources c.now)) found.old found.new) }
{
    match c {
        Cons::Fixed(_b) => Ok(()),
        Cons::Cmp(_op, a, b) => {
            add_term(core, a.get(), found)?;
            add_term(core, b.get(), found)
        }
        Cons::And(parts) => add_facts(core, parts.as_slice(), found),
        Cons::Or(parts) => add_facts(core, parts.as_slice(), found),
        Cons::Imp(a, b) => {
            add_fact(core, a.get(), found)?;
            add_fact(core, b.get(), found)
        }
        Cons::Iff(a, b) => {
            add_fact(core, a.get(), found)?;
            add_fact(core, b.get(), found)
        }
        Cons::Not(a) => add_fact(core, a.get(), found),
        Cons::AllDifferent(parts) => add_terms(core, parts.as_slice(), found),
        Cons::Capacity(resource, _time) => add_resource(core, *resource, found),
        Cons::Bound(x) => add(found, *x),
    }
}

/// Adds the variables of constraints.
#[cycle(variables)]
fn add_facts(core: &Core, parts: &[Cons], found: &mut Seq<u32>) -> Result<(), OutOfMemory>
    ensures { IfOk result (λ u. Adds (facts_mention (facts_of (map (fact core.now.tables core.now.resources) parts.now))) found.old found.new) }
{
    for part in parts {
        add_fact(core, part, found)?;
    }
    Ok(())
}

/// The variables that a constraint mentions, each once.
pub fn variables_of(alloc: Global, core: &Core, c: &Cons) -> Result<Seq<u32>, OutOfMemory>
    ensures { IfOk result (λ xs. AreVariables xs (fact core.now.tables core.now.resources c.now)) }
{
    let mut found = Seq::new(alloc);
    add_fact(core, c, &mut found)?;
    Ok(found)
}
