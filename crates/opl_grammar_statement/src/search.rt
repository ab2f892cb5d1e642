//! The search section with statements on every level, closed.
ghost use Rattle.std.specs.Prelude.{◌≡◌};
ghost use Rattle.opl_grammar.specs.Input.{Reads};
ghost use Rattle.opl_grammar.specs.Rules as phrases;
ghost use Rattle.opl_grammar.specs.Search as rules;

use crate::next_statements::{NextStatements, read_statements};
use crate::statement::Statements;
use opl_grammar::Cursor;
use opl_level::Level;
use opl_phrase::Phrases;
use opl_tree::{SearchTree, SyntaxFault};
use std::alloc::Global;

/// The search section, where so many levels may be opened.
pub fn search_section(
    alloc: Global,
    levels: u32,
    cursor: &mut Cursor<'_>,
) -> Result<SearchTree, SyntaxFault>
    ensures { Reads (rules.search_section (phrases.rules levels) (rules.statement_rules levels) cursor.old) result cursor.new }
{
    let level = Level {
        alloc,
        below: Phrases { alloc, levels },
    };
    let inner = NextStatements {
        alloc,
        levels,
        read: read_statements,
    };
    Statements { level, inner }.search_section(cursor)
}
