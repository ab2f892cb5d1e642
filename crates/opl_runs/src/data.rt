//! What names no decision variable.
ghost use Rattle.std.specs.Prelude.{◌≡◌, ◌&&◌, not};
ghost use Rattle.std.specs.List.{list_all};
ghost use Rattle.opl_meaning.specs.Runs.{group_use, set_use};
ghost use Rattle.opl_declared.specs.Kept.{names_in};
ghost use Rattle.opl_draft.specs.Unrolled as spec;

use crate::scope::Scope;
use opl_declared::{Declared, is_mentioned};
use opl_list::Boxed;
use opl_term::{GroupTerm, SetTerm, Term};

/// Whether a decision variable is named in a set.
#[tactic(auto, using(opl_meaning::proofs::Named::mentions))]
fn in_set(declared: &Declared<'_>, set: &SetTerm) -> bool
    ensures { result ≡ set_use (names_in declared.now) set.now }
{
    match set {
        SetTerm::Whole(term) => is_mentioned(declared, term.get()),
        SetTerm::Between(low, high) => {
            is_mentioned(declared, low.get()) || is_mentioned(declared, high.get())
        }
    }
}

/// Whether a decision variable is named in the set of a group of parameters.
#[tactic(auto, using(opl_meaning::proofs::Named::mentions))]
fn in_group(declared: &Declared<'_>, group: &GroupTerm) -> bool
    ensures { result ≡ group_use (names_in declared.now) group.now }
{
    match group {
        GroupTerm::Unordered(_, over) => in_set(declared, over),
        GroupTerm::Ordered(_, over) => in_set(declared, over),
    }
}

/// Whether groups of parameters name no decision variable.
fn name_no_variable(declared: &Declared<'_>, groups: &[GroupTerm]) -> bool
    ensures { result ≡ list_all (λ g. not (group_use (names_in declared.now) g)) groups.now }
{
    for group in groups {
        if in_group(declared, group) {
            return false;
        }
    }
    true
}

/// Whether a condition, if there is one, names no decision variable.
fn is_data(scope: &Scope<'_>, condition: &Option<Boxed<Term>>) -> bool
    ensures { result ≡ spec.has_no_variable scope.now.items.now (names_in scope.now.declared) condition.now }
{
    match condition {
        None => true,
        Some(condition) => !is_mentioned(&scope.declared, condition.get()),
    }
}

/// Whether groups of parameters and their condition, if there is one, name no decision variable. It takes no memory.
pub(crate) fn are_data(
    scope: &Scope<'_>,
    groups: &[GroupTerm],
    condition: &Option<Boxed<Term>>,
) -> bool
    ensures { result ≡ (list_all (λ g. not (group_use (names_in scope.now.declared) g)) groups.now && spec.has_no_variable scope.now.items.now (names_in scope.now.declared) condition.now) }
{
    name_no_variable(&scope.declared, groups) && is_data(scope, condition)
}
