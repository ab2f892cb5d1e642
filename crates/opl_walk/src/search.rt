//! The walk over the search section.
ghost use Rattle.std.specs.Prelude.{◌≡◌};
ghost use Rattle.opl_tree.specs.Marks as marks;
ghost use Rattle.opl_walk.specs.Told.{Follows, told};

use crate::expression::{walk_add, walk_expr, walk_params, walk_post};
use crate::instruction::walk_precedence;
use crate::visitor::{Visitor, open, open_word};
use crate::words::{branch_word, direction_word, label_word};
use opl_token::Sign;
use opl_tree::{
    Keyword, OrderTree, OrderedParamsTree, SearchBlockTree, SearchTree, StatementTree,
    StatementsTree,
};

/// Tells a search section.
#[tactic(auto, using(opl_tree::proofs::Marks::search_marks, crate::proofs::Telling::telling))]
pub(crate) fn walk_search<V: Visitor>(level: u32, t: &SearchTree, visitor: &mut V)
    ensures { Follows V.is_whole visitor.old (told V.token V.opens level (marks.marks_search t.now)) visitor.new }
{
    visitor.word(Keyword::Search);
    walk_search_block(level, &t.block, visitor);
    visitor.sign(Sign::Semicolon)
}

/// Tells a block of statements.
#[cycle(statements)]
#[tactic(auto, using(opl_tree::proofs::Marks::search_block_marks, crate::proofs::Telling::telling))]
fn walk_search_block<V: Visitor>(level: u32, t: &SearchBlockTree, visitor: &mut V)
    ensures { Follows V.is_whole visitor.old (told V.token V.opens level (marks.marks_search_block t.now)) visitor.new }
{
    let inner = open(level, Sign::OpenBrace, visitor);
    walk_statements(inner, &t.statements, visitor);
    visitor.sign(Sign::CloseBrace)
}

/// Tells a list of statements.
#[cycle(statements)]
#[tactic(auto, using(opl_tree::proofs::Marks::statements_marks, crate::proofs::Telling::telling, crate::proofs::Telling::lists))]
fn walk_statements<V: Visitor>(level: u32, t: &StatementsTree, visitor: &mut V)
    ensures { Follows V.is_whole visitor.old (told V.token V.opens level (marks.marks_statements t.now)) visitor.new }
{
    match t {
        StatementsTree::Empty(_) => {}
        StatementsTree::Several(_, head, rest, is_closed) => {
            walk_statement(level, head.get(), visitor);
            for statement in rest.as_slice() {
                visitor.sign(Sign::Semicolon);
                walk_statement(level, statement, visitor);
            }
            if *is_closed {
                visitor.sign(Sign::Semicolon);
            }
        }
    }
}

/// Tells a statement.
#[cycle(statements)]
#[tactic(auto, using(opl_tree::proofs::Marks::statement_marks, crate::proofs::Telling::telling, crate::proofs::Telling::lists))]
fn walk_statement<V: Visitor>(level: u32, t: &StatementTree, visitor: &mut V)
    ensures { Follows V.is_whole visitor.old (told V.token V.opens level (marks.marks_statement t.now)) visitor.new }
{
    match t {
        StatementTree::Block(block) => walk_search_block(level, block, visitor),
        StatementTree::Try(_, head, second, rest) => {
            let inner = open_word(level, Keyword::Try, visitor);
            walk_statements(inner, head, visitor);
            visitor.sign(Sign::Bar);
            walk_statements(inner, second, visitor);
            for alternative in rest.as_slice() {
                visitor.sign(Sign::Bar);
                walk_statements(inner, alternative, visitor);
            }
            visitor.word(Keyword::EndTry)
        }
        StatementTree::Branch(_, op, params, body) => {
            let inner = open_word(level, branch_word(*op), visitor);
            let innermost = open(inner, Sign::OpenParenthesis, visitor);
            walk_ordered_params(innermost, params, visitor);
            visitor.sign(Sign::CloseParenthesis);
            walk_statement(inner, body.get(), visitor)
        }
        StatementTree::Once(_, body) => {
            let inner = open_word(level, Keyword::Once, visitor);
            walk_statement(inner, body.get(), visitor)
        }
        StatementTree::While(_, condition, body) => {
            let inner = open_word(level, Keyword::While, visitor);
            walk_expr(inner, condition, visitor);
            visitor.word(Keyword::Do);
            walk_statement(inner, body.get(), visitor)
        }
        StatementTree::If(_, condition, holds, fails) => {
            let inner = open_word(level, Keyword::If, visitor);
            walk_expr(inner, condition, visitor);
            visitor.word(Keyword::Then);
            walk_statements(inner, holds, visitor);
            if let Some(fails) = fails {
                visitor.word(Keyword::Else);
                walk_statements(inner, fails, visitor);
            }
            visitor.word(Keyword::EndIf)
        }
        StatementTree::Label(_, op, argument) => {
            visitor.word(label_word(*op));
            let inner = open(level, Sign::OpenParenthesis, visitor);
            walk_post(inner, argument, visitor);
            visitor.sign(Sign::CloseParenthesis)
        }
        StatementTree::Precedes(_, earlier, later) => walk_precedence(
            level, earlier, later, visitor,
        ),
        StatementTree::Constraint(constraint) => walk_expr(level, constraint, visitor),
    }
}

/// Tells parameters and their order.
#[tactic(auto, using(opl_tree::proofs::Marks::ordered_params_marks, crate::proofs::Telling::telling))]
fn walk_ordered_params<V: Visitor>(level: u32, t: &OrderedParamsTree, visitor: &mut V)
    ensures { Follows V.is_whole visitor.old (told V.token V.opens level (marks.marks_ordered_params t.now)) visitor.new }
{
    walk_params(level, &t.params, visitor);
    if let Some(order) = &t.order {
        walk_order(level, order, visitor);
    }
}

/// Tells an order.
#[tactic(auto, using(opl_tree::proofs::Marks::order_marks, crate::proofs::Telling::telling))]
fn walk_order<V: Visitor>(level: u32, t: &OrderTree, visitor: &mut V)
    ensures { Follows V.is_whole visitor.old (told V.token V.opens level (marks.marks_order t.now)) visitor.new }
{
    visitor.word(Keyword::Ordered);
    visitor.word(Keyword::By);
    visitor.word(direction_word(t.is_increasing));
    walk_add(level, &t.key, visitor)
}
