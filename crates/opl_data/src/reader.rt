//! The reader of whole data files.
ghost use Rattle.opl_grammar.specs.Input.{Reads, is_name};
ghost use Rattle.opl_grammar.specs.Model.{ReadsAll, start};
ghost use Rattle.opl_data.specs.Answers.{ParseAnswers};
ghost use Rattle.opl_data.specs.Grammar as rules;
ghost use Rattle.opl_tree.specs.Depth.{max_nesting};
ghost use Rattle.std.specs.Prelude.{◌≡◌, ⊤};

use crate::tree::{DataItem, DataTree};
use crate::value::{name, read_value};
use opl_grammar::Cursor;
use opl_grammar::keeping::keep;
use opl_grammar::list::{Part, many};
use opl_token::{Sign, Token};
use opl_tree::{MAX_NESTING, SyntaxFault};
use std::alloc::Global;

/// The rule of an item.
#[derive(Drop)]
struct ItemRule {
    alloc: Global,
}

impl Part<DataItem> for ItemRule {
    ghost begins = { λ _. is_name };

    ghost part = { λ _. rules.item (rules.value_within max_nesting) };

    ghost is_ready = { λ _. ⊤ };

    fn starts(&self, cursor: &Cursor<'_>) -> bool {
        cursor.sees_name()
    }

    #[tactic(auto, unfolding(crate::specs::Grammar::item))]
    fn read(&self, cursor: &mut Cursor<'_>) -> Result<DataItem, SyntaxFault> {
        let at = cursor.place();
        let name = name(self.alloc, cursor)?;
        cursor.expect_sign(Sign::Equal)?;
        let value = read_value(self.alloc, cursor, MAX_NESTING)?;
        let (value, ()) = keep(value, cursor.expect_sign(Sign::Semicolon))?;
        Ok(DataItem { at, name, value })
    }
}

/// The items of a data file.
#[tactic(auto, unfolding(crate::specs::Grammar::file))]
fn file(alloc: Global, cursor: &mut Cursor<'_>) -> Result<DataTree, SyntaxFault>
    ensures { Reads (rules.file (rules.value_within max_nesting) cursor.old) result cursor.new }
{
    let at = cursor.place();
    let items = many(alloc, cursor, &ItemRule { alloc })?;
    Ok(DataTree { at, items })
}

/// A data file, and nothing behind it.
#[tactic(auto, unfolding(crate::specs::Grammar::whole_within))]
fn whole(alloc: Global, cursor: &mut Cursor<'_>) -> Result<DataTree, SyntaxFault>
    ensures { Reads (rules.whole cursor.old) result cursor.new }
{
    let tree = file(alloc, cursor)?;
    cursor.finish()?;
    Ok(tree)
}

/// The tree of the tokens of a text with `end` bytes, by the rules of the grammar. `Syntax` holds the place of the first
/// token that does not fit, or `end` where more tokens are wanted; `TooDeep` the place of the token that opens a level too many.
fn read_data(alloc: Global, tokens: &[Token], end: u32) -> Result<DataTree, SyntaxFault>
    ensures { ReadsAll (rules.whole (start tokens.now end)) result }
{
    let mut cursor = Cursor::new(tokens, end);
    whole(alloc, &mut cursor)
}

/// The tree of the tokens of a text with `end` bytes. `TooDeep` holds the place of the first token that opens a level
/// beyond `MAX_NESTING`. `Syntax` comes where there is no such token; it holds the place of the token that follows the longest
/// beginning of the tokens that a data file begins with, or `end` if none follows.
#[tactic(auto, using(crate::proofs::TreeLaws::read_answers))]
pub fn parse_data(alloc: Global, tokens: &[Token], end: u32) -> Result<DataTree, SyntaxFault>
    ensures { ParseAnswers tokens.now end result }
{
    read_data(alloc, tokens, end)
}
