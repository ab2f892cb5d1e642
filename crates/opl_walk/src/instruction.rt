//! The walk over the instruction, its block and its items.
ghost use Rattle.std.specs.Prelude.{◌≡◌, ◌++◌, ◌∷◌, []};
ghost use Rattle.opl_tree.specs.Marks as marks;
ghost use Rattle.opl_walk.specs.Told.{Follows, told};

use crate::expression::{walk_add, walk_expr, walk_params, walk_post, walk_subscripts};
use crate::visitor::{Visitor, open, open_word, walk_name};
use crate::words::optimum_word;
use opl_token::Sign;
use opl_tree::{BlockTree, InstrTree, ItemTree, ItemsTree, Keyword, PostTree, RequiresTree};

/// Tells an instruction.
#[tactic(auto, using(opl_tree::proofs::Marks::instr_marks, crate::proofs::Telling::telling))]
pub(crate) fn walk_instr<V: Visitor>(level: u32, t: &InstrTree, visitor: &mut V)
    ensures { Follows V.is_whole visitor.old (told V.token V.opens level (marks.marks_instr t.now)) visitor.new }
{
    match t {
        InstrTree::Solve(_, block) => {
            visitor.word(Keyword::Solve);
            walk_block(level, block, visitor);
            visitor.sign(Sign::Semicolon)
        }
        InstrTree::Optimize(_, optimum, objective, block) => {
            visitor.word(optimum_word(*optimum));
            walk_expr(level, objective, visitor);
            visitor.word(Keyword::Subject);
            visitor.word(Keyword::To);
            walk_block(level, block, visitor);
            visitor.sign(Sign::Semicolon)
        }
    }
}

/// Tells a block.
#[cycle(items)]
#[tactic(auto, using(opl_tree::proofs::Marks::block_marks, crate::proofs::Telling::telling))]
fn walk_block<V: Visitor>(level: u32, t: &BlockTree, visitor: &mut V)
    ensures { Follows V.is_whole visitor.old (told V.token V.opens level (marks.marks_block t.now)) visitor.new }
{
    let inner = open(level, Sign::OpenBrace, visitor);
    walk_items(inner, &t.items, visitor);
    visitor.sign(Sign::CloseBrace)
}

/// Tells a list of items.
#[cycle(items)]
#[tactic(auto, using(opl_tree::proofs::Marks::items_marks, crate::proofs::Telling::telling, crate::proofs::Telling::lists))]
fn walk_items<V: Visitor>(level: u32, t: &ItemsTree, visitor: &mut V)
    ensures { Follows V.is_whole visitor.old (told V.token V.opens level (marks.marks_items t.now)) visitor.new }
{
    match t {
        ItemsTree::Empty(_) => {}
        ItemsTree::Several(_, head, rest, is_closed) => {
            walk_item(level, head.get(), visitor);
            for item in rest.as_slice() {
                visitor.sign(Sign::Semicolon);
                walk_item(level, item, visitor);
            }
            if *is_closed {
                visitor.sign(Sign::Semicolon);
            }
        }
    }
}

/// Tells an item.
#[cycle(items)]
#[tactic(auto, using(opl_tree::proofs::Marks::item_marks, crate::proofs::Telling::telling))]
fn walk_item<V: Visitor>(level: u32, t: &ItemTree, visitor: &mut V)
    ensures { Follows V.is_whole visitor.old (told V.token V.opens level (marks.marks_item t.now)) visitor.new }
{
    match t {
        ItemTree::Block(block) => walk_block(level, block, visitor),
        ItemTree::ForAll(_, params, body) => {
            let inner = open_word(level, Keyword::ForAll, visitor);
            let innermost = open(inner, Sign::OpenParenthesis, visitor);
            walk_params(innermost, params, visitor);
            visitor.sign(Sign::CloseParenthesis);
            walk_item(inner, body.get(), visitor)
        }
        ItemTree::If(_, condition, holds, fails) => {
            let inner = open_word(level, Keyword::If, visitor);
            walk_expr(inner, condition, visitor);
            visitor.word(Keyword::Then);
            walk_items(inner, holds, visitor);
            if let Some(fails) = fails {
                visitor.word(Keyword::Else);
                walk_items(inner, fails, visitor);
            }
            visitor.word(Keyword::EndIf)
        }
        ItemTree::Precedes(_, earlier, later) => walk_precedence(level, earlier, later, visitor),
        ItemTree::Requires(requirement) => walk_requires(level, requirement, visitor),
        ItemTree::Constraint(constraint) => walk_expr(level, constraint, visitor),
    }
}

/// Tells a precedence.
#[tactic(auto, using(crate::proofs::Telling::telling))]
pub(crate) fn walk_precedence<V: Visitor>(
    level: u32,
    earlier: &PostTree,
    later: &PostTree,
    visitor: &mut V,
)
    ensures { Follows V.is_whole visitor.old (told V.token V.opens level (marks.marks_post earlier.now ++ marks.token (marks.word Keyword.Precedes) ∷ marks.marks_post later.now)) visitor.new }
{
    walk_post(level, earlier, visitor);
    visitor.word(Keyword::Precedes);
    walk_post(level, later, visitor)
}

/// Tells a requirement.
#[tactic(auto, using(opl_tree::proofs::Marks::requires_marks, crate::proofs::Telling::telling))]
fn walk_requires<V: Visitor>(level: u32, t: &RequiresTree, visitor: &mut V)
    ensures { Follows V.is_whole visitor.old (told V.token V.opens level (marks.marks_requires t.now)) visitor.new }
{
    walk_post(level, &t.activity, visitor);
    visitor.word(Keyword::Requires);
    if let Some(demand) = &t.demand {
        let inner = open(level, Sign::OpenParenthesis, visitor);
        walk_add(inner, demand, visitor);
        visitor.sign(Sign::CloseParenthesis);
    }
    walk_name(level, &t.resource, visitor);
    if let Some(subscripts) = &t.subscripts {
        walk_subscripts(level, subscripts, visitor);
    }
}
