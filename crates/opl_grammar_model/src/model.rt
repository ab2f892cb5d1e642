//! Whole models.
ghost use Rattle.std.specs.Prelude.{◌≡◌};
ghost use Rattle.opl_grammar.specs.Input as steps;
ghost use Rattle.opl_grammar.specs.Input.{Input, Reads};
ghost use Rattle.opl_grammar.specs.Items as items;
ghost use Rattle.opl_grammar.specs.Model as rules;
ghost use Rattle.opl_grammar.specs.Model.{ReadsAll, start};
ghost use Rattle.opl_grammar.specs.Rules as phrases;
ghost use Rattle.opl_grammar.specs.Search as statements;

use opl_grammar::Cursor;
use opl_grammar::keeping::keep;
use opl_grammar_declaration::decls;
use opl_grammar_item::instr;
use opl_grammar_statement::search_section;
use opl_level::Level;
use opl_phrase::Phrases;
use opl_token::Token;
use opl_tree::{Keyword, MAX_NESTING, ModelTree, SearchTree, SyntaxFault};
use std::alloc::Global;

/// `SEARCH` or nothing, where so many levels may be opened
fn optional_search(
    alloc: Global,
    levels: u32,
    cursor: &mut Cursor<'_>,
) -> Result<Option<SearchTree>, SyntaxFault>
    ensures { Reads (steps.maybe (steps.is_word Keyword.Search) (statements.search_section (phrases.rules levels) (statements.statement_rules levels)) cursor.old) result cursor.new }
{
    if cursor.sees_word(Keyword::Search) {
        Ok(Some(search_section(alloc, levels, cursor)?))
    } else {
        Ok(None)
    }
}

/// `DECL* INSTR [SEARCH]`, where so many levels may be opened
#[tactic(auto, unfolding(opl_grammar::specs::Model::model))]
fn model(alloc: Global, levels: u32, cursor: &mut Cursor<'_>) -> Result<ModelTree, SyntaxFault>
    ensures { Reads (rules.model (phrases.rules levels) (items.item_rules levels) (statements.statement_rules levels) cursor.old) result cursor.new }
{
    let level = Level {
        alloc,
        below: Phrases { alloc, levels },
    };
    let at = cursor.place();
    let decls = decls(&level, cursor)?;
    let parts = keep(decls, instr(alloc, levels, cursor))?;
    let ((decls, instr), search) = keep(parts, optional_search(alloc, levels, cursor))?;
    Ok(ModelTree {
        at,
        decls,
        instr,
        search,
    })
}

/// A model, and nothing behind it.
#[tactic(auto, unfolding(opl_grammar::specs::Model::whole_within))]
fn whole(alloc: Global, cursor: &mut Cursor<'_>) -> Result<ModelTree, SyntaxFault>
    ensures { Reads (rules.whole cursor.old) result cursor.new }
{
    let tree = model(alloc, MAX_NESTING, cursor)?;
    let (tree, ()) = keep(tree, cursor.finish())?;
    Ok(tree)
}

/// The tree of the tokens of a text with `end` bytes, by the rules of the grammar. `Syntax` holds the place of the first
/// token that does not fit, or `end` where more tokens are wanted; `TooDeep` the place of the token that opens a level too many.
pub fn read_model(alloc: Global, tokens: &[Token], end: u32) -> Result<ModelTree, SyntaxFault>
    ensures { ReadsAll (rules.whole (start tokens.now end)) result }
{
    let mut cursor = Cursor::new(tokens, end);
    whole(alloc, &mut cursor)
}
