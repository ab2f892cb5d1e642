//! Names.
ghost use Rattle.std.specs.Prelude.{◌≡◌};
ghost use Rattle.opl_grammar.specs.Input.{Reads};
ghost use Rattle.opl_grammar.specs.Input as steps;
ghost use Rattle.opl_grammar.specs.Rules as rules;

use opl_grammar::Cursor;
use opl_grammar::keeping::keep;
use opl_grammar::list::{Phrase, after_each};
use opl_list::Seq;
use opl_token::Sign;
use opl_tree::{NameTree, SyntaxFault};
use std::alloc::Global;

/// `NAME`
#[tactic(auto, unfolding(opl_grammar::specs::Rules::name))]
pub fn name(alloc: Global, cursor: &mut Cursor<'_>) -> Result<NameTree, SyntaxFault>
    ensures { Reads (rules.name cursor.old) result cursor.new }
{
    let at = cursor.place();
    let text = cursor.take_name(alloc)?;
    Ok(NameTree { at, text })
}

/// Any word, behind a dot.
#[tactic(auto, unfolding(opl_grammar::specs::Rules::field_name))]
pub fn field_name(alloc: Global, cursor: &mut Cursor<'_>) -> Result<NameTree, SyntaxFault>
    ensures { Reads (rules.field_name cursor.old) result cursor.new }
{
    let at = cursor.place();
    let text = cursor.take_any(alloc)?;
    Ok(NameTree { at, text })
}

/// The rule of a name.
#[derive(Drop)]
struct NameRule {
    alloc: Global,
}

impl Phrase<NameTree> for NameRule {
    ghost phrase = { λ _. rules.name };

    ghost is_ready = { λ _. Unit {0} };

    fn phrase(&self, cursor: &mut Cursor<'_>) -> Result<NameTree, SyntaxFault> {
        name(self.alloc, cursor)
    }
}

/// `NAME, NAME, ..`
#[tactic(auto, unfolding(opl_grammar::specs::Rules::names))]
pub fn names(
    alloc: Global,
    cursor: &mut Cursor<'_>,
) -> Result<(NameTree, Seq<NameTree>), SyntaxFault>
    ensures { Reads (rules.names cursor.old) result cursor.new }
{
    let first = name(alloc, cursor)?;
    keep(
        first,
        after_each(alloc, cursor, Sign::Comma, &NameRule { alloc }),
    )
}
