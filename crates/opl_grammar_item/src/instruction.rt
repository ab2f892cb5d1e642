//! The instruction with items on every level, closed.
ghost use Rattle.std.specs.Prelude.{◌≡◌};
ghost use Rattle.opl_grammar.specs.Input.{Reads};
ghost use Rattle.opl_grammar.specs.Items as rules;
ghost use Rattle.opl_grammar.specs.Rules as phrases;

use crate::item::Items;
use crate::next_items::{NextItems, read_items};
use opl_grammar::Cursor;
use opl_level::Level;
use opl_phrase::Phrases;
use opl_tree::{InstrTree, SyntaxFault};
use std::alloc::Global;

/// The instruction, where so many levels may be opened.
pub fn instr(alloc: Global, levels: u32, cursor: &mut Cursor<'_>) -> Result<InstrTree, SyntaxFault>
    ensures { Reads (rules.instr (phrases.rules levels) (rules.item_rules levels) cursor.old) result cursor.new }
{
    let level = Level {
        alloc,
        below: Phrases { alloc, levels },
    };
    let inner = NextItems {
        alloc,
        levels,
        read: read_items,
    };
    Items { level, inner }.instr(cursor)
}
