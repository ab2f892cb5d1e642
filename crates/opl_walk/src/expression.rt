//! The walk over expressions.
ghost use Rattle.std.specs.Prelude.{◌≡◌, map};
ghost use Rattle.opl_tree.specs.Marks as marks;
ghost use Rattle.opl_walk.specs.Told.{Follows, told, listed};

use crate::visitor::{Visitor, between, open, open_word, walk_name};
use crate::words::{
    add_sign, aggregate_word, call_word, question_word, relation_sign, separator_sign,
};
use opl_token::Sign;
use opl_tree::{
    AddStep, AddTree, AndTree, CompareTree, ExprTree, GroupStep, GroupTree, ImpTree, KeyedTree,
    Keyword, LastStep, MulOp, MulStep, MulTree, NameTree, NegTree, OpenTree, OrTree, ParamsTree,
    PatternTree, PostTree, PrimTree, SetTree, SignTree, SubscriptsTree, SuffixTree,
};

/// Tells the sign or the word of a step of a product.
fn walk_mul_op<V: Visitor>(op: MulOp, visitor: &mut V)
    ensures { Follows V.is_whole visitor.old (V.token (marks.mul_part op)) visitor.new }
{
    match op {
        MulOp::Times => visitor.sign(Sign::Times),
        MulOp::Quotient => visitor.word(Keyword::Div),
        MulOp::Remainder => visitor.word(Keyword::Mod),
    }
}

/// Tells an expression.
#[cycle(expressions)]
#[tactic(auto, using(opl_tree::proofs::Marks::expr_marks, crate::proofs::Telling::telling, crate::proofs::Telling::lists))]
pub(crate) fn walk_expr<V: Visitor>(level: u32, t: &ExprTree, visitor: &mut V)
    ensures { Follows V.is_whole visitor.old (told V.token V.opens level (marks.marks_expr t.now)) visitor.new }
{
    walk_imp(level, &t.first, visitor);
    for imp in t.rest.as_slice() {
        visitor.sign(Sign::Equivalent);
        walk_imp(level, imp, visitor);
    }
}

/// Tells an implication.
#[cycle(expressions)]
#[tactic(auto, using(opl_tree::proofs::Marks::imp_marks, crate::proofs::Telling::telling))]
fn walk_imp<V: Visitor>(level: u32, t: &ImpTree, visitor: &mut V)
    ensures { Follows V.is_whole visitor.old (told V.token V.opens level (marks.marks_imp t.now)) visitor.new }
{
    walk_or(level, &t.premise, visitor);
    if let Some(conclusion) = &t.conclusion {
        let inner = open(level, Sign::Implies, visitor);
        walk_imp(inner, conclusion.get(), visitor);
    }
}

/// Tells a disjunction.
#[cycle(expressions)]
#[tactic(auto, using(opl_tree::proofs::Marks::or_marks, crate::proofs::Telling::telling, crate::proofs::Telling::lists))]
fn walk_or<V: Visitor>(level: u32, t: &OrTree, visitor: &mut V)
    ensures { Follows V.is_whole visitor.old (told V.token V.opens level (marks.marks_or t.now)) visitor.new }
{
    walk_and(level, &t.first, visitor);
    for and in t.rest.as_slice() {
        visitor.sign(Sign::Or);
        walk_and(level, and, visitor);
    }
}

/// Tells a conjunction.
#[cycle(expressions)]
#[tactic(auto, using(opl_tree::proofs::Marks::and_marks, crate::proofs::Telling::telling, crate::proofs::Telling::lists))]
fn walk_and<V: Visitor>(level: u32, t: &AndTree, visitor: &mut V)
    ensures { Follows V.is_whole visitor.old (told V.token V.opens level (marks.marks_and t.now)) visitor.new }
{
    walk_neg(level, &t.first, visitor);
    for neg in t.rest.as_slice() {
        visitor.sign(Sign::And);
        walk_neg(level, neg, visitor);
    }
}

/// Tells a negation.
#[cycle(expressions)]
#[tactic(auto, using(opl_tree::proofs::Marks::neg_marks, crate::proofs::Telling::telling))]
fn walk_neg<V: Visitor>(level: u32, t: &NegTree, visitor: &mut V)
    ensures { Follows V.is_whole visitor.old (told V.token V.opens level (marks.marks_neg t.now)) visitor.new }
{
    match t {
        NegTree::Not(_, negated) => {
            let inner = open_word(level, Keyword::Not, visitor);
            walk_neg(inner, negated.get(), visitor)
        }
        NegTree::Compare(comparison) => walk_compare(level, comparison, visitor),
    }
}

/// Tells a comparison.
#[cycle(expressions)]
#[tactic(auto, using(opl_tree::proofs::Marks::compare_marks, crate::proofs::Telling::telling))]
fn walk_compare<V: Visitor>(level: u32, t: &CompareTree, visitor: &mut V)
    ensures { Follows V.is_whole visitor.old (told V.token V.opens level (marks.marks_compare t.now)) visitor.new }
{
    match t {
        CompareTree::Single(_, only) => walk_add(level, only.get(), visitor),
        CompareTree::Related(_, left, relation, right) => {
            walk_add(level, left.get(), visitor);
            visitor.sign(relation_sign(*relation));
            walk_add(level, right.get(), visitor)
        }
        CompareTree::Member(_, element, set) => {
            walk_add(level, element.get(), visitor);
            visitor.word(Keyword::In);
            walk_set(level, set.get(), visitor)
        }
    }
}

/// Tells a sum.
#[cycle(expressions)]
#[tactic(auto, using(opl_tree::proofs::Marks::add_marks, crate::proofs::Telling::telling, crate::proofs::Telling::lists))]
pub(crate) fn walk_add<V: Visitor>(level: u32, t: &AddTree, visitor: &mut V)
    ensures { Follows V.is_whole visitor.old (told V.token V.opens level (marks.marks_add t.now)) visitor.new }
{
    walk_mul(level, &t.first, visitor);
    for step in t.rest.as_slice() {
        walk_add_step(level, step, visitor);
    }
}

/// Tells a step of a sum.
#[cycle(expressions)]
#[tactic(auto, using(opl_tree::proofs::Marks::add_step_marks, crate::proofs::Telling::telling))]
fn walk_add_step<V: Visitor>(level: u32, t: &AddStep, visitor: &mut V)
    ensures { Follows V.is_whole visitor.old (told V.token V.opens level (marks.marks_add_step t.now)) visitor.new }
{
    visitor.sign(add_sign(t.op));
    walk_mul(level, &t.term, visitor)
}

/// Tells sums, with a comma between, and one before the first if it is not the first of all.
#[cycle(expressions)]
#[tactic(auto, using(crate::proofs::Telling::separated))]
fn walk_adds<V: Visitor>(level: u32, is_first: bool, adds: &[AddTree], visitor: &mut V)
    ensures { Follows V.is_whole visitor.old (told V.token V.opens level (listed is_first Sign.Comma (map marks.marks_add adds.now))) visitor.new }
{
    let mut is_first = is_first;
    for add in adds {
        between(level, Sign::Comma, is_first, visitor);
        walk_add(level, add, visitor);
        is_first = false;
    }
}

/// Tells a product.
#[cycle(expressions)]
#[tactic(auto, using(opl_tree::proofs::Marks::mul_marks, crate::proofs::Telling::telling, crate::proofs::Telling::lists))]
fn walk_mul<V: Visitor>(level: u32, t: &MulTree, visitor: &mut V)
    ensures { Follows V.is_whole visitor.old (told V.token V.opens level (marks.marks_mul t.now)) visitor.new }
{
    match t {
        MulTree::Opened(operand) => walk_open(level, operand, visitor),
        MulTree::Product(_, head, rest, last) => {
            walk_sign(level, head, visitor);
            for step in rest.as_slice() {
                walk_mul_step(level, step, visitor);
            }
            if let Some(last) = last {
                walk_last_step(level, last, visitor);
            }
        }
    }
}

/// Tells a step of a product.
#[cycle(expressions)]
#[tactic(auto, using(opl_tree::proofs::Marks::mul_step_marks, crate::proofs::Telling::telling))]
fn walk_mul_step<V: Visitor>(level: u32, t: &MulStep, visitor: &mut V)
    ensures { Follows V.is_whole visitor.old (told V.token V.opens level (marks.marks_mul_step t.now)) visitor.new }
{
    walk_mul_op(t.op, visitor);
    walk_sign(level, &t.factor, visitor)
}

/// Tells the last step of a product.
#[cycle(expressions)]
#[tactic(auto, using(opl_tree::proofs::Marks::last_step_marks, crate::proofs::Telling::telling))]
fn walk_last_step<V: Visitor>(level: u32, t: &LastStep, visitor: &mut V)
    ensures { Follows V.is_whole visitor.old (told V.token V.opens level (marks.marks_last_step t.now)) visitor.new }
{
    walk_mul_op(t.op, visitor);
    walk_open(level, &t.factor, visitor)
}

/// Tells an aggregate.
#[cycle(expressions)]
#[tactic(auto, using(opl_tree::proofs::Marks::open_marks, crate::proofs::Telling::telling))]
fn walk_open<V: Visitor>(level: u32, t: &OpenTree, visitor: &mut V)
    ensures { Follows V.is_whole visitor.old (told V.token V.opens level (marks.marks_open t.now)) visitor.new }
{
    match t {
        OpenTree::NegativeOpen(_, negated) => {
            let inner = open(level, Sign::Minus, visitor);
            walk_open(inner, negated.get(), visitor)
        }
        OpenTree::Aggregate(_, op, params, body) => {
            let inner = open_word(level, aggregate_word(*op), visitor);
            let innermost = open(inner, Sign::OpenParenthesis, visitor);
            walk_params(innermost, params.get(), visitor);
            visitor.sign(Sign::CloseParenthesis);
            walk_mul(inner, body.get(), visitor)
        }
    }
}

/// Tells a signed operand.
#[cycle(expressions)]
#[tactic(auto, using(opl_tree::proofs::Marks::sign_marks, crate::proofs::Telling::telling))]
fn walk_sign<V: Visitor>(level: u32, t: &SignTree, visitor: &mut V)
    ensures { Follows V.is_whole visitor.old (told V.token V.opens level (marks.marks_sign t.now)) visitor.new }
{
    match t {
        SignTree::Negative(_, negated) => {
            let inner = open(level, Sign::Minus, visitor);
            walk_sign(inner, negated.get(), visitor)
        }
        SignTree::Postfix(operand) => walk_post(level, operand, visitor),
    }
}

/// Tells an operand.
#[cycle(expressions)]
#[tactic(auto, using(opl_tree::proofs::Marks::post_marks, crate::proofs::Telling::telling, crate::proofs::Telling::lists))]
pub(crate) fn walk_post<V: Visitor>(level: u32, t: &PostTree, visitor: &mut V)
    ensures { Follows V.is_whole visitor.old (told V.token V.opens level (marks.marks_post t.now)) visitor.new }
{
    walk_prim(level, &t.prim, visitor);
    for suffix in t.suffixes.as_slice() {
        walk_suffix(level, suffix, visitor);
    }
}

/// Tells a suffix.
#[cycle(expressions)]
#[tactic(auto, using(opl_tree::proofs::Marks::suffix_marks, crate::proofs::Telling::telling))]
fn walk_suffix<V: Visitor>(level: u32, t: &SuffixTree, visitor: &mut V)
    ensures { Follows V.is_whole visitor.old (told V.token V.opens level (marks.marks_suffix t.now)) visitor.new }
{
    match t {
        SuffixTree::Subscripts(subscripts) => walk_subscripts(level, subscripts, visitor),
        SuffixTree::Field(_, field) => {
            visitor.sign(Sign::Dot);
            visitor.field(field.text.as_slice())
        }
    }
}

/// Tells subscripts.
#[cycle(expressions)]
#[tactic(auto, using(opl_tree::proofs::Marks::subscripts_marks, crate::proofs::Telling::telling))]
pub(crate) fn walk_subscripts<V: Visitor>(level: u32, t: &SubscriptsTree, visitor: &mut V)
    ensures { Follows V.is_whole visitor.old (told V.token V.opens level (marks.marks_subscripts t.now)) visitor.new }
{
    let inner = open(level, Sign::OpenBracket, visitor);
    walk_add(inner, t.first.get(), visitor);
    walk_adds(inner, false, t.rest.as_slice(), visitor);
    visitor.sign(Sign::CloseBracket)
}

/// Tells what an operand begins with.
#[cycle(expressions)]
#[tactic(auto, using(opl_tree::proofs::Marks::prim_marks, crate::proofs::Telling::telling))]
fn walk_prim<V: Visitor>(level: u32, t: &PrimTree, visitor: &mut V)
    ensures { Follows V.is_whole visitor.old (told V.token V.opens level (marks.marks_prim t.now)) visitor.new }
{
    match t {
        PrimTree::Number(_, number) => visitor.number(*number),
        PrimTree::Named(named) => walk_name(level, named, visitor),
        PrimTree::Bracket(_, bracketed) => {
            let inner = open(level, Sign::OpenParenthesis, visitor);
            walk_expr(inner, bracketed.get(), visitor);
            visitor.sign(Sign::CloseParenthesis)
        }
        PrimTree::Record(_, head, rest) => {
            let inner = open(level, Sign::Less, visitor);
            walk_add(inner, head.get(), visitor);
            walk_adds(inner, false, rest.as_slice(), visitor);
            visitor.sign(Sign::Greater)
        }
        PrimTree::Listed(_, elements) => {
            let inner = open(level, Sign::OpenBrace, visitor);
            walk_adds(inner, true, elements.as_slice(), visitor);
            visitor.sign(Sign::CloseBrace)
        }
        PrimTree::Described(_, element, params) => {
            let inner = open(level, Sign::OpenBrace, visitor);
            walk_add(inner, element.get(), visitor);
            visitor.sign(Sign::Bar);
            walk_params(inner, params.get(), visitor);
            visitor.sign(Sign::CloseBrace)
        }
        PrimTree::Array(_, elements) => {
            let inner = open(level, Sign::OpenBracket, visitor);
            walk_adds(inner, true, elements.as_slice(), visitor);
            visitor.sign(Sign::CloseBracket)
        }
        PrimTree::KeyedArray(_, elements) => {
            let inner = open(level, Sign::OpenAssociation, visitor);
            walk_pairs(inner, elements.as_slice(), visitor);
            visitor.sign(Sign::CloseAssociation)
        }
        PrimTree::Call(_, op, argument) => {
            visitor.word(call_word(*op));
            let inner = open(level, Sign::OpenParenthesis, visitor);
            walk_expr(inner, argument.get(), visitor);
            visitor.sign(Sign::CloseParenthesis)
        }
        PrimTree::AllDifferent(_, argument) => {
            visitor.word(Keyword::AllDifferent);
            let inner = open(level, Sign::OpenParenthesis, visitor);
            walk_add(inner, argument.get(), visitor);
            visitor.sign(Sign::CloseParenthesis)
        }
        PrimTree::Question(_, op, argument) => {
            visitor.word(question_word(*op));
            let inner = open(level, Sign::OpenParenthesis, visitor);
            walk_post(inner, argument.get(), visitor);
            visitor.sign(Sign::CloseParenthesis)
        }
    }
}

/// Tells pairs, with a comma between.
#[cycle(expressions)]
#[tactic(auto, using(crate::proofs::Telling::separated))]
fn walk_pairs<V: Visitor>(level: u32, pairs: &[KeyedTree], visitor: &mut V)
    ensures { Follows V.is_whole visitor.old (told V.token V.opens level (marks.several Sign.Comma (map marks.marks_keyed pairs.now))) visitor.new }
{
    let mut is_first = true;
    for pair in pairs {
        between(level, Sign::Comma, is_first, visitor);
        walk_keyed(level, pair, visitor);
        is_first = false;
    }
}

/// Tells a key and its value.
#[cycle(expressions)]
#[tactic(auto, using(opl_tree::proofs::Marks::keyed_marks, crate::proofs::Telling::telling))]
fn walk_keyed<V: Visitor>(level: u32, t: &KeyedTree, visitor: &mut V)
    ensures { Follows V.is_whole visitor.old (told V.token V.opens level (marks.marks_keyed t.now)) visitor.new }
{
    walk_add(level, &t.key, visitor);
    visitor.sign(Sign::Colon);
    walk_add(level, &t.value, visitor)
}

/// Tells a set.
#[cycle(expressions)]
#[tactic(auto, using(opl_tree::proofs::Marks::set_marks, crate::proofs::Telling::telling))]
pub(crate) fn walk_set<V: Visitor>(level: u32, t: &SetTree, visitor: &mut V)
    ensures { Follows V.is_whole visitor.old (told V.token V.opens level (marks.marks_set t.now)) visitor.new }
{
    walk_add(level, &t.low, visitor);
    if let Some(high) = &t.high {
        visitor.sign(Sign::Range);
        walk_add(level, high.get(), visitor);
    }
}

/// Tells parameters.
#[cycle(expressions)]
#[tactic(auto, using(opl_tree::proofs::Marks::params_marks, crate::proofs::Telling::telling, crate::proofs::Telling::lists))]
pub(crate) fn walk_params<V: Visitor>(level: u32, t: &ParamsTree, visitor: &mut V)
    ensures { Follows V.is_whole visitor.old (told V.token V.opens level (marks.marks_params t.now)) visitor.new }
{
    walk_group(level, &t.first, visitor);
    for step in t.rest.as_slice() {
        walk_group_step(level, step, visitor);
    }
    if let Some(condition) = &t.condition {
        visitor.sign(Sign::Colon);
        walk_expr(level, condition.get(), visitor);
    }
}

/// Tells a further group of parameters.
#[cycle(expressions)]
#[tactic(auto, using(opl_tree::proofs::Marks::group_step_marks, crate::proofs::Telling::telling))]
fn walk_group_step<V: Visitor>(level: u32, t: &GroupStep, visitor: &mut V)
    ensures { Follows V.is_whole visitor.old (told V.token V.opens level (marks.marks_group_step t.now)) visitor.new }
{
    visitor.sign(separator_sign(t.separator));
    walk_group(level, &t.group, visitor)
}

/// Tells a group of parameters.
#[cycle(expressions)]
#[tactic(auto, using(opl_tree::proofs::Marks::group_marks, crate::proofs::Telling::telling, crate::proofs::Telling::lists))]
fn walk_group<V: Visitor>(level: u32, t: &GroupTree, visitor: &mut V)
    ensures { Follows V.is_whole visitor.old (told V.token V.opens level (marks.marks_group t.now)) visitor.new }
{
    if t.is_ordered {
        visitor.word(Keyword::Ordered);
    }
    walk_pattern(level, &t.first, visitor);
    for pattern in t.rest.as_slice() {
        visitor.sign(Sign::Comma);
        walk_pattern(level, pattern, visitor);
    }
    visitor.word(Keyword::In);
    walk_set(level, &t.set, visitor)
}

/// Tells a pattern.
#[tactic(auto, using(opl_tree::proofs::Marks::pattern_marks, crate::proofs::Telling::telling))]
fn walk_pattern<V: Visitor>(level: u32, t: &PatternTree, visitor: &mut V)
    ensures { Follows V.is_whole visitor.old (told V.token V.opens level (marks.marks_pattern t.now)) visitor.new }
{
    match t {
        PatternTree::Single(named) => walk_name(level, named, visitor),
        PatternTree::Record(_, head, rest) => {
            let inner = open(level, Sign::Less, visitor);
            walk_name(inner, head, visitor);
            walk_more_names(inner, rest.as_slice(), visitor);
            visitor.sign(Sign::Greater)
        }
    }
}

/// Tells names, each behind a comma.
#[tactic(auto, using(crate::proofs::Telling::lists))]
pub(crate) fn walk_more_names<V: Visitor>(level: u32, names: &[NameTree], visitor: &mut V)
    ensures { Follows V.is_whole visitor.old (told V.token V.opens level (marks.behind Sign.Comma (map marks.marks_name names.now))) visitor.new }
{
    for name in names {
        visitor.sign(Sign::Comma);
        walk_name(level, name, visitor);
    }
}
