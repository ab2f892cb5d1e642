//! Which statements of a search section are sound.
ghost use Rattle.std.specs.Prelude.{◌≡◌, suc, length, map, nat_lt};
ghost use Rattle.std.specs.List.{list_all};
ghost use Rattle.opl_expr.specs.Forms.{term};
ghost use Rattle.opl_expr.specs.Options.{lift1};
ghost use Rattle.opl_trace.specs.Statements.{statement, statements_of, branches_of};
ghost use Rattle.opl_sound.specs.Cores.{fits_pair, fits_key, fits_statement, fit_statements, fits_branch, fit_branches, element};

use crate::{measures, numbers, variables};
use opl_expr::{Branch, Core, Expr, Step};

/// Whether all numbers are those of variables.
fn are_variables(core: &Core, variables: &[u32]) -> bool
    ensures { result ≡ list_all (λ x. nat_lt x (length core.now.sets)) variables.now }
{
    for x in variables {
        if !variables::is_variable(core, *x) {
            return false;
        }
    }
    true
}

/// Whether there is a variable behind another.
fn has_duration(core: &Core, start: u32) -> bool
    ensures { result ≡ nat_lt (suc start) (length core.now.sets) }
{
    start as usize + 1 < core.sets.len()
}

/// Whether both starts have their durations behind them.
fn fits_pair(core: &Core, first: u32, second: u32) -> bool
    ensures { result ≡ fits_pair core.now.sets (first, second) }
{
    has_duration(core, first) && has_duration(core, second)
}

/// Whether all starts have their durations behind them.
fn fit_pairs(core: &Core, pairs: &[(u32, u32)]) -> bool
    ensures { result ≡ list_all (fits_pair core.now.sets) pairs.now }
{
    for (first, second) in pairs {
        if !fits_pair(core, *first, *second) {
            return false;
        }
    }
    true
}

/// Whether a key is sound, if there is one.
fn fits_key(core: &Core, key: &Option<Expr>) -> bool
    ensures { result ≡ fits_key core.now.sets (lift1 (term core.now.tables core.now.resources) key.now) }
{
    match key {
        None => true,
        Some(key) => numbers::is_there(measures::measure(core, true, key)),
    }
}

/// Whether all constraints, conditions and keys of a statement are sound.
#[cycle(steps)]
#[tactic(auto, using(crate::proofs::StatementForms::statements))]
pub fn fits_statement(core: &Core, s: &Step) -> bool
    ensures { result ≡ fits_statement core.now.sets (statement core.now.tables core.now.resources s.now) }
{
    match s {
        Step::Post(c) => measures::fits(core, true, c),
        Step::Block(parts) => fit_statements(core, parts.as_slice()),
        Step::Try(parts) => fit_statements(core, parts.as_slice()),
        Step::TryAll(elements) => fit_branches(core, elements.as_slice()),
        Step::ForAll(elements) => fit_branches(core, elements.as_slice()),
        Step::Select(elements) => fit_branches(core, elements.as_slice()),
        Step::Once(s) => fits_statement(core, s.get()),
        Step::While(c, s) => measures::fits(core, true, c) && fits_statement(core, s.get()),
        Step::If(c, s, t) => {
            measures::fits(core, true, c)
                && (fits_statement(core, s.get()) && fits_statement(core, t.get()))
        }
        Step::Generate(variables) => are_variables(core, variables.as_slice()),
        Step::Rank(pairs) => fit_pairs(core, pairs.as_slice()),
    }
}

/// Whether all statements are sound.
#[cycle(steps)]
fn fit_statements(core: &Core, parts: &[Step]) -> bool
    ensures { result ≡ fit_statements core.now.sets (statements_of (map (statement core.now.tables core.now.resources) parts.now)) }
{
    let mut left = parts.len();
    while left > 0 {
        left -= 1;
        if !fits_statement(core, &parts[left]) {
            return false;
        }
    }
    true
}

/// Whether the condition, the key and the body of an element are sound.
#[cycle(steps)]
#[tactic(auto, using(crate::proofs::StatementForms::statements))]
fn fits_branch(core: &Core, b: &Branch) -> bool
    ensures { result ≡ fits_branch core.now.sets (element core.now.tables core.now.resources b.now) }
{
    measures::fits(core, true, &b.when) && (fits_key(core, &b.key) && fits_statement(core, &b.body))
}

/// Whether all elements are sound.
#[cycle(steps)]
fn fit_branches(core: &Core, parts: &[Branch]) -> bool
    ensures { result ≡ fit_branches core.now.sets (branches_of (map (element core.now.tables core.now.resources) parts.now)) }
{
    let mut left = parts.len();
    while left > 0 {
        left -= 1;
        if !fits_branch(core, &parts[left]) {
            return false;
        }
    }
    true
}
