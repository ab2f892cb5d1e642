//! Where the first form of a model stands that does not run yet.
ghost use Rattle.std.specs.Prelude.{◌≡◌, IfOk, map};
ghost use Rattle.std.specs.Option.{option_map};
ghost use Rattle.opl_meaning.specs.Runs.{decl_unrun, first_of, search_unrun};
ghost use Rattle.opl_runs.specs.Items as items;
ghost use Rattle.opl_runs.specs.Runs as spec;

use opl_tree::{BlockTree, DeclTree, InstrTree, ItemTree, ItemsTree, ModelTree, SearchTree};
use std::alloc::{AllocError, Global};

/// In an item
#[tactic(auto, using(crate::proofs::UnrunItems::unrun_items))]
#[cycle(items)]
fn item(t: &ItemTree) -> Option<u32>
    ensures { result ≡ items.item_unrun t.now }
{
    match t {
        ItemTree::Block(inner) => block(inner),
        ItemTree::ForAll(_, _, body) => item(body.get()),
        ItemTree::If(_, _, holds, fails) => match items(holds) {
            Some(at) => Some(at),
            None => otherwise(fails),
        },
        ItemTree::Precedes(at, ..) => Some(*at),
        ItemTree::Requires(t) => Some(t.at),
        ItemTree::Constraint(_) => None,
    }
}

/// Behind `else`, where it is written
#[cycle(items)]
fn otherwise(t: &Option<ItemsTree>) -> Option<u32>
    ensures { result ≡ spec.else_unrun (option_map items.items_unrun t.now) }
{
    match t {
        None => None,
        Some(fails) => items(fails),
    }
}

/// In items, in their order
#[cycle(items)]
fn each(parts: &[ItemTree]) -> Option<u32>
    ensures { result ≡ first_of (map items.item_unrun parts.now) }
{
    for part in parts {
        if let Some(at) = item(part) {
            return Some(at);
        }
    }
    None
}

/// In a list of items
#[tactic(auto, using(crate::proofs::UnrunItems::unrun_items))]
#[cycle(items)]
fn items(t: &ItemsTree) -> Option<u32>
    ensures { result ≡ items.items_unrun t.now }
{
    match t {
        ItemsTree::Empty(_) => None,
        ItemsTree::Several(_, first, rest, _) => match item(first.get()) {
            Some(at) => Some(at),
            None => each(rest.as_slice()),
        },
    }
}

/// In a block
#[tactic(auto, using(crate::proofs::UnrunItems::unrun_items))]
#[cycle(items)]
fn block(t: &BlockTree) -> Option<u32>
    ensures { result ≡ spec.block_unrun t.now }
{
    items(&t.items)
}

/// In a declaration
fn decl(t: &DeclTree) -> Option<u32>
    ensures { result ≡ decl_unrun t.now }
{
    match t {
        DeclTree::Data(_) => None,
        DeclTree::Range(_) => None,
        DeclTree::Enumeration(_) => None,
        DeclTree::Structure(_) => None,
        DeclTree::Variable(_) => None,
        DeclTree::Activity(t) => Some(t.at),
        DeclTree::Unary(t) => Some(t.at),
        DeclTree::Discrete(t) => Some(t.at),
        DeclTree::Schedule(t) => Some(t.at),
    }
}

/// In declarations, in their order
fn decls(parts: &[DeclTree]) -> Option<u32>
    ensures { result ≡ first_of (map decl_unrun parts.now) }
{
    for part in parts {
        if let Some(at) = decl(part) {
            return Some(at);
        }
    }
    None
}

/// In the instruction
fn instr(t: &InstrTree) -> Option<u32>
    ensures { result ≡ spec.instr_unrun t.now }
{
    match t {
        InstrTree::Solve(_, inner) => block(inner),
        InstrTree::Optimize(_, _, _, inner) => block(inner),
    }
}

/// In the search section
fn search(t: &Option<SearchTree>) -> Option<u32>
    ensures { result ≡ search_unrun t.now }
{
    match t {
        None => None,
        Some(search) => Some(search.at),
    }
}

/// In a model
#[tactic(auto, unfolding(crate::specs::Runs::not_yet))]
fn model(t: &ModelTree) -> Option<u32>
    ensures { result ≡ spec.not_yet t.now }
{
    if let Some(at) = decls(t.decls.as_slice()) {
        return Some(at);
    }
    match instr(&t.instr) {
        Some(at) => Some(at),
        None => search(&t.search),
    }
}

/// The place of the first form of a model, in the order of the text, that does not run yet; None exactly where all of it runs. The
/// nesting of the items is the depth of the recursion. It takes no memory.
pub fn not_yet(_alloc: Global, tree: &ModelTree) -> Result<Option<u32>, AllocError>
    ensures { IfOk result (λ at. at ≡ spec.not_yet tree.now) }
{
    Ok(model(tree))
}
