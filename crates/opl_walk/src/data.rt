//! The walk over data files' trees.
ghost use Rattle.std.specs.Prelude.{◌≡◌, map};
ghost use Rattle.opl_tree.specs.Marks as marks;
ghost use Rattle.opl_data.specs.Marks.{number_marks, marks_value, marks_pair, marks_item, marks_file};
ghost use Rattle.opl_walk.specs.Told.{Follows, told, listed};

use crate::visitor::{Visitor, between, open, walk_name};
use opl_data::{DataItem, DataPair, DataTree, DataValue};
use opl_token::Sign;

/// Tells a number.
#[tactic(auto, using(crate::proofs::Telling::telling))]
fn walk_number<V: Visitor>(level: u32, is_negative: bool, number: i128, visitor: &mut V)
    ensures { Follows V.is_whole visitor.old (told V.token V.opens level (number_marks is_negative number)) visitor.new }
{
    if is_negative {
        open(level, Sign::Minus, visitor);
    }
    visitor.number(number)
}

/// Tells a value.
#[cycle(values)]
#[tactic(auto, using(opl_data::proofs::Trees::value_marks, crate::proofs::Telling::telling))]
fn walk_value<V: Visitor>(level: u32, t: &DataValue, visitor: &mut V)
    ensures { Follows V.is_whole visitor.old (told V.token V.opens level (marks_value t.now)) visitor.new }
{
    match t {
        DataValue::Number(_, is_negative, number) => walk_number(
            level,
            *is_negative,
            *number,
            visitor,
        ),
        DataValue::Named(named) => walk_name(level, named, visitor),
        DataValue::Record(_, head, rest) => {
            let inner = open(level, Sign::Less, visitor);
            walk_value(inner, head.get(), visitor);
            walk_values(inner, false, rest.as_slice(), visitor);
            visitor.sign(Sign::Greater)
        }
        DataValue::Set(_, elements) => {
            let inner = open(level, Sign::OpenBrace, visitor);
            walk_values(inner, true, elements.as_slice(), visitor);
            visitor.sign(Sign::CloseBrace)
        }
        DataValue::Array(_, elements) => {
            let inner = open(level, Sign::OpenBracket, visitor);
            walk_values(inner, true, elements.as_slice(), visitor);
            visitor.sign(Sign::CloseBracket)
        }
        DataValue::KeyedArray(_, elements) => {
            let inner = open(level, Sign::OpenAssociation, visitor);
            walk_pairs(inner, elements.as_slice(), visitor);
            visitor.sign(Sign::CloseAssociation)
        }
    }
}

/// Tells values, with a comma between, and one before the first if there is one before them.
#[cycle(values)]
#[tactic(auto, using(crate::proofs::Telling::separated))]
fn walk_values<V: Visitor>(level: u32, is_first: bool, values: &[DataValue], visitor: &mut V)
    ensures { Follows V.is_whole visitor.old (told V.token V.opens level (listed is_first Sign.Comma (map marks_value values.now))) visitor.new }
{
    let mut is_first = is_first;
    for value in values {
        between(level, Sign::Comma, is_first, visitor);
        walk_value(level, value, visitor);
        is_first = false;
    }
}

/// Tells pairs, with a comma between.
#[cycle(values)]
#[tactic(auto, using(crate::proofs::Telling::separated))]
fn walk_pairs<V: Visitor>(level: u32, pairs: &[DataPair], visitor: &mut V)
    ensures { Follows V.is_whole visitor.old (told V.token V.opens level (marks.several Sign.Comma (map marks_pair pairs.now))) visitor.new }
{
    let mut is_first = true;
    for pair in pairs {
        between(level, Sign::Comma, is_first, visitor);
        walk_pair(level, pair, visitor);
        is_first = false;
    }
}

/// Tells a pair.
#[cycle(values)]
#[tactic(auto, using(opl_data::proofs::Trees::pair_marks, crate::proofs::Telling::telling))]
fn walk_pair<V: Visitor>(level: u32, t: &DataPair, visitor: &mut V)
    ensures { Follows V.is_whole visitor.old (told V.token V.opens level (marks_pair t.now)) visitor.new }
{
    walk_value(level, &t.key, visitor);
    visitor.sign(Sign::Colon);
    walk_value(level, &t.value, visitor)
}

/// Tells an item.
#[tactic(auto, using(opl_data::proofs::Trees::item_marks, crate::proofs::Telling::telling))]
fn walk_item<V: Visitor>(level: u32, t: &DataItem, visitor: &mut V)
    ensures { Follows V.is_whole visitor.old (told V.token V.opens level (marks_item t.now)) visitor.new }
{
    walk_name(level, &t.name, visitor);
    visitor.sign(Sign::Equal);
    walk_value(level, &t.value, visitor);
    visitor.sign(Sign::Semicolon)
}

/// Tells a data file.
#[tactic(auto, using(opl_data::proofs::Trees::file_marks, crate::proofs::Telling::lists))]
pub(crate) fn walk_data<V: Visitor>(t: &DataTree, visitor: &mut V)
    ensures { Follows V.is_whole visitor.old (told V.token V.opens 0 (marks_file t.now)) visitor.new }
{
    for item in t.items.as_slice() {
        walk_item(0, item, visitor);
    }
}
