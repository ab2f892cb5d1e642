//! Whether decision variables stand in an objective and in items only where they may.
ghost use Rattle.std.specs.Prelude.{◌≡◌, not, IfOk, map};
ghost use Rattle.std.specs.Option.{option_map};
ghost use Rattle.opl_term.specs.Terms.{expr_term, params_term};
ghost use Rattle.opl_declared.specs.Kept.{declared_names, names_in};
ghost use Rattle.opl_draft.specs.Clean as spec;
ghost use Rattle.opl_draft.specs.Unrolled as unrolled;
ghost use Rattle.opl_optimum.specs.Clean.{is_clean_whole};
ghost use Rattle.opl_runs.specs.Items as items;

use crate::data::are_data;
use crate::scope::Scope;
use crate::term;
use opl_declared::is_mentioned;
use opl_meaning::VariableItem;
use opl_term::{expr_term, params_term};
use opl_tree::{BlockTree, ExprTree, InstrTree, ItemTree, ItemsTree, ParamsTree};
use std::alloc::{AllocError, Global};

/// Of an objective, or of a condition that is posted
fn expression(alloc: Global, scope: &Scope<'_>, t: &ExprTree) -> Result<bool, AllocError>
    ensures { IfOk result (λ holds. holds ≡ unrolled.is_clean scope.now.items.now (names_in scope.now.declared) (expr_term t.now)) }
{
    let term = expr_term(alloc, t)?;
    Ok(term::is_clean(scope, term.get()))
}

/// Whether the condition of `if` names no decision variable
fn condition(alloc: Global, scope: &Scope<'_>, t: &ExprTree) -> Result<bool, AllocError>
    ensures { IfOk result (λ holds. holds ≡ not (unrolled.is_mentioned scope.now.items.now (names_in scope.now.declared) (expr_term t.now))) }
{
    let term = expr_term(alloc, t)?;
    Ok(!is_mentioned(&scope.declared, term.get()))
}

/// Whether the parameters of `forall` and their condition name no decision variable
fn params(alloc: Global, scope: &Scope<'_>, t: &ParamsTree) -> Result<bool, AllocError>
    ensures { IfOk result (λ holds. holds ≡ spec.are_data scope.now.items.now (names_in scope.now.declared) (params_term t.now)) }
{
    let params = params_term(alloc, t)?;
    let groups = params.groups.as_slice();
    Ok(are_data(scope, groups, &params.condition))
}

/// Of an item
#[tactic(auto, using(crate::proofs::CleanItems::clean_items))]
#[cycle(items)]
fn item(alloc: Global, scope: &Scope<'_>, t: &ItemTree) -> Result<bool, AllocError>
    ensures { IfOk result (λ holds. holds ≡ items.item_clean scope.now.items.now (names_in scope.now.declared) t.now) }
{
    match t {
        ItemTree::Block(inner) => block(alloc, scope, inner),
        ItemTree::ForAll(_, groups, body) => {
            if !params(alloc, scope, groups)? {
                return Ok(false);
            }
            item(alloc, scope, body.get())
        }
        ItemTree::If(_, test, holds, fails) => {
            if !condition(alloc, scope, test)? || !items(alloc, scope, holds)? {
                return Ok(false);
            }
            otherwise(alloc, scope, fails)
        }
        ItemTree::Precedes(..) | ItemTree::Requires(_) => Ok(true),
        ItemTree::Constraint(t) => expression(alloc, scope, t),
    }
}

/// Of what stands behind `else`, where it is written
#[cycle(items)]
fn otherwise(alloc: Global, scope: &Scope<'_>, t: &Option<ItemsTree>) -> Result<bool, AllocError>
    ensures { IfOk result (λ holds. holds ≡ spec.or_clean (option_map (items.items_clean scope.now.items.now (names_in scope.now.declared)) t.now)) }
{
    match t {
        None => Ok(true),
        Some(fails) => items(alloc, scope, fails),
    }
}

/// Of each of these items
#[cycle(items)]
fn each(alloc: Global, scope: &Scope<'_>, parts: &[ItemTree]) -> Result<bool, AllocError>
    ensures { IfOk result (λ holds. holds ≡ spec.all_clean (map (items.item_clean scope.now.items.now (names_in scope.now.declared)) parts.now)) }
{
    for part in parts {
        if !item(alloc, scope, part)? {
            return Ok(false);
        }
    }
    Ok(true)
}

/// Of a list of items
#[tactic(auto, using(crate::proofs::CleanItems::clean_items))]
#[cycle(items)]
fn items(alloc: Global, scope: &Scope<'_>, t: &ItemsTree) -> Result<bool, AllocError>
    ensures { IfOk result (λ holds. holds ≡ items.items_clean scope.now.items.now (names_in scope.now.declared) t.now) }
{
    match t {
        ItemsTree::Empty(_) => Ok(true),
        ItemsTree::Several(_, first, rest, _) => {
            if !item(alloc, scope, first.get())? {
                return Ok(false);
            }
            each(alloc, scope, rest.as_slice())
        }
    }
}

/// Of a block
#[tactic(auto, using(crate::proofs::CleanItems::clean_items))]
#[cycle(items)]
fn block(alloc: Global, scope: &Scope<'_>, t: &BlockTree) -> Result<bool, AllocError>
    ensures { IfOk result (λ holds. holds ≡ spec.is_clean_block scope.now.items.now (names_in scope.now.declared) t.now) }
{
    items(alloc, scope, &t.items)
}

/// Of an instruction, its objective included
fn instr(alloc: Global, scope: &Scope<'_>, t: &InstrTree) -> Result<bool, AllocError>
    ensures { IfOk result (λ holds. holds ≡ is_clean_whole scope.now.items.now (names_in scope.now.declared) t.now) }
{
    match t {
        InstrTree::Solve(_, inner) => block(alloc, scope, inner),
        InstrTree::Optimize(_, _, objective, inner) => {
            if !expression(alloc, scope, objective)? {
                return Ok(false);
            }
            block(alloc, scope, inner)
        }
    }
}

/// Whether decision variables stand in a model's instruction only where they may: as numbers, names and truths in its objective and its
/// conditions, and in no set of parameters and no condition of `forall` and `if`. These are the model's variables.
pub fn is_clean(
    alloc: Global,
    items: &[VariableItem],
    instruction: &InstrTree,
) -> Result<bool, AllocError>
    ensures { IfOk result (λ holds. holds ≡ is_clean_whole items.now (declared_names items.now) instruction.now) }
{
    let scope = Scope::new(alloc, items)?;
    instr(alloc, &scope, instruction)
}
