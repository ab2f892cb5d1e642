//! Whether expressions and constraints are not too deep, and stand where they may.
ghost use Rattle.std.specs.Prelude.{◌≡◌, suc, slice_get};
ghost use Rattle.std.specs.List.{list_all};
ghost use Rattle.opl_trace.specs.GroundCores.{is_constant, has_constants, is_time_of, expr_fits, cons_fits};

use opl_expr::{Cell, Cons, Core, Expr};

/// Whether a cell is a number.
fn is_constant(cell: Cell) -> bool
    ensures { result ≡ is_constant cell }
{
    match cell {
        Cell::Const(_k) => true,
        Cell::Var(_x) => false,
    }
}

/// Whether all cells are numbers.
fn are_constant(cells: &[Cell]) -> bool
    ensures { result ≡ list_all is_constant cells.now }
{
    for cell in cells {
        if !is_constant(*cell) {
            return false;
        }
    }
    true
}

/// Whether a table is there and has numbers alone.
fn has_constants(core: &Core, table: u32) -> bool
    ensures { result ≡ has_constants (slice_get core.now.tables table) }
{
    match core.tables.get(table as usize) {
        None => false,
        Some(t) => are_constant(t.cells.as_slice()),
    }
}

/// Whether a resource is there, and its capacity is asked at the time.
fn is_time_of(core: &Core, resource: u32, time: &i64) -> bool
    ensures { result ≡ is_time_of (slice_get core.now.resources resource) time.now }
{
    match core.resources.get(resource as usize) {
        None => false,
        Some(r) => r.from <= *time && *time < r.to,
    }
}

/// The same of an expression, where its parts are at most `below` deep.
#[cycle(fitting)]
#[tactic(auto, using(crate::proofs::FittingForms::expressions))]
fn node_fits(core: &Core, decides: bool, below: u32, e: &Expr) -> bool
    ensures { result ≡ expr_fits core.now.tables core.now.resources decides (suc below) e.now }
{
    match e {
        Expr::Const(_k) => true,
        Expr::Var(_x) => !decides,
        Expr::Sum(parts) => expressions_fit(core, decides, below, parts.as_slice()),
        Expr::Neg(a) => expression_fits(core, decides, below, a.get()),
        Expr::Mul(a, b) => {
            expression_fits(core, decides, below, a.get())
                && expression_fits(core, decides, below, b.get())
        }
        Expr::Div(a, b) => {
            expression_fits(core, decides, below, a.get())
                && expression_fits(core, decides, below, b.get())
        }
        Expr::Rem(a, b) => {
            expression_fits(core, decides, below, a.get())
                && expression_fits(core, decides, below, b.get())
        }
        Expr::Abs(a) => expression_fits(core, decides, below, a.get()),
        Expr::Min(parts) => expressions_fit(core, decides, below, parts.as_slice()),
        Expr::Max(parts) => expressions_fit(core, decides, below, parts.as_slice()),
        Expr::At(table, parts) => {
            (!decides || has_constants(core, *table))
                && expressions_fit(core, decides, below, parts.as_slice())
        }
        Expr::Truth(c) => constraint_fits(core, decides, below, c.get()),
        Expr::Ask(_ask, _x) => true,
    }
}

/// Whether an expression is at most `depth` deep, and may stand. Where it `decides`, as in a condition or a key, it may have no
/// variable, no capacity, and no table with variables.
#[cycle(fitting)]
pub fn expression_fits(core: &Core, decides: bool, depth: u32, e: &Expr) -> bool
    ensures { result ≡ expr_fits core.now.tables core.now.resources decides depth e.now }
{
    if depth == 0 {
        return false;
    }
    node_fits(core, decides, depth - 1, e)
}

/// The same of all expressions.
#[cycle(fitting)]
fn expressions_fit(core: &Core, decides: bool, depth: u32, parts: &[Expr]) -> bool
    ensures { result ≡ list_all (expr_fits core.now.tables core.now.resources decides depth) parts.now }
{
    for part in parts {
        if !expression_fits(core, decides, depth, part) {
            return false;
        }
    }
    true
}

/// The same of a constraint, where its parts are at most `below` deep.
#[cycle(fitting)]
#[tactic(auto, using(crate::proofs::FittingForms::constraints))]
fn condition_fits(core: &Core, decides: bool, below: u32, c: &Cons) -> bool
    ensures { result ≡ cons_fits core.now.tables core.now.resources decides (suc below) c.now }
{
    match c {
        Cons::Fixed(_b) => true,
        Cons::Cmp(_op, a, b) => {
            expression_fits(core, decides, below, a.get())
                && expression_fits(core, decides, below, b.get())
        }
        Cons::And(parts) => constraints_fit(core, decides, below, parts.as_slice()),
        Cons::Or(parts) => constraints_fit(core, decides, below, parts.as_slice()),
        Cons::Imp(a, b) => {
            constraint_fits(core, decides, below, a.get())
                && constraint_fits(core, decides, below, b.get())
        }
        Cons::Iff(a, b) => {
            constraint_fits(core, decides, below, a.get())
                && constraint_fits(core, decides, below, b.get())
        }
        Cons::Not(a) => constraint_fits(core, decides, below, a.get()),
        Cons::AllDifferent(parts) => expressions_fit(core, decides, below, parts.as_slice()),
        Cons::Capacity(resource, time) => !decides && is_time_of(core, *resource, time),
        Cons::Bound(_x) => true,
    }
}

/// Whether a constraint is at most `depth` deep, and may stand. A capacity is asked at a time of its resource; where the
/// constraint `decides` there may be none, nor a variable, nor a table with variables.
#[cycle(fitting)]
pub fn constraint_fits(core: &Core, decides: bool, depth: u32, c: &Cons) -> bool
    ensures { result ≡ cons_fits core.now.tables core.now.resources decides depth c.now }
{
    if depth == 0 {
        return false;
    }
    condition_fits(core, decides, depth - 1, c)
}

/// The same of all constraints.
#[cycle(fitting)]
pub fn constraints_fit(core: &Core, decides: bool, depth: u32, parts: &[Cons]) -> bool
    ensures { result ≡ list_all (cons_fits core.now.tables core.now.resources decides depth) parts.now }
{
    for part in parts {
        if !constraint_fits(core, decides, depth, part) {
            return false;
        }
    }
    true
}
