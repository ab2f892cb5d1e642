//! The rules of items closed: one function that is passed to itself reads every level.
ghost use Rattle.std.specs.Prelude.{◌≡◌};
ghost use Rattle.opl_grammar.specs.Input.{Reads};
ghost use Rattle.opl_grammar.specs.Items as rules;
ghost use Rattle.opl_grammar_item.specs.ItemNests as spec;
ghost use Rattle.opl_grammar_item.specs.ItemNests.{ItemsNest};

use crate::item::{Inner, Items};
use crate::wanted_items::{FoundItems, WantedItems};
use opl_grammar::Cursor;
use opl_level::{Below, Level};
use opl_list::Boxed;
use opl_phrase::Phrases;
use opl_tree::{ExprTree, ItemTree, ItemsTree, ParamsTree, SyntaxFault};
use std::alloc::Global;

/// What is read with so many levels left, by a function that reads one level.
#[derive(Drop)]
pub struct NextItems<F> {
    pub alloc: Global,
    pub levels: u32,
    pub read: F,
}

impl<
    F: Fn(Global, &mut Cursor<'_>, u32, u32, WantedItems) -> Result<FoundItems, SyntaxFault>,
> NextItems<F> {
    /// What is wanted behind the token at this place.
    fn ask(
        &self,
        cursor: &mut Cursor<'_>,
        at: u32,
        wanted: WantedItems,
    ) -> Result<FoundItems, SyntaxFault>
        requires { ItemsNest self.now.levels (F.pre self.now.read) (F.post self.now.read) }
        ensures { Reads (spec.read self.now.levels at wanted cursor.old) result cursor.new }
    {
        (self.read)(self.alloc, cursor, self.levels, at, wanted)
    }
}

impl<F: Fn(Global, &mut Cursor<'_>, u32, u32, WantedItems) -> Result<FoundItems, SyntaxFault>> Inner
    for NextItems<F> {
    ghost rules = { λ n. rules.item_rules n.levels };

    ghost is_ready = { λ n. ItemsNest n.levels (F.pre n.read) (F.post n.read) };

    #[tactic(auto, unfolding(crate::specs::ItemNests::read))]
    fn items(&self, cursor: &mut Cursor<'_>, at: u32) -> Result<ItemsTree, SyntaxFault> {
        match self.ask(cursor, at, WantedItems::Items)? {
            FoundItems::Items(found) => Ok(found),
            _ => unreachable!(),
        }
    }

    #[tactic(auto, unfolding(crate::specs::ItemNests::read))]
    fn for_all(
        &self,
        cursor: &mut Cursor<'_>,
        at: u32,
    ) -> Result<(Boxed<ParamsTree>, Boxed<ItemTree>), SyntaxFault> {
        match self.ask(cursor, at, WantedItems::ForAll)? {
            FoundItems::ForAll(first, second) => Ok((first, second)),
            _ => unreachable!(),
        }
    }

    #[tactic(auto, unfolding(crate::specs::ItemNests::read))]
    fn branches(
        &self,
        cursor: &mut Cursor<'_>,
        at: u32,
    ) -> Result<(Boxed<ExprTree>, ItemsTree, Option<ItemsTree>), SyntaxFault> {
        match self.ask(cursor, at, WantedItems::Branches)? {
            FoundItems::Branches(first, second, third) => Ok((first, second, third)),
            _ => unreachable!(),
        }
    }
}

impl<B: Below, I: Inner> Items<B, I> {
    /// What is wanted behind the token at this place.
    #[tactic(auto, unfolding(opl_grammar::specs::Items::item_level))]
    fn one_of(
        &self,
        cursor: &mut Cursor<'_>,
        wanted: WantedItems,
        at: u32,
    ) -> Result<FoundItems, SyntaxFault>
        requires level { B.is_ready self.now.level.below }
        requires inner { I.is_ready self.now.inner }
        ensures { Reads (spec.one_of (rules.item_level (B.rules self.now.level.below) (I.rules self.now.inner)) at wanted cursor.old) result cursor.new }
    {
        match wanted {
            WantedItems::Items => Ok(FoundItems::Items(self.items(cursor)?)),
            WantedItems::ForAll => {
                let (params, body) = self.quantified(cursor)?;
                Ok(FoundItems::ForAll(params, body))
            }
            WantedItems::Branches => {
                let (condition, body, other) = self.branches(cursor)?;
                Ok(FoundItems::Branches(condition, body, other))
            }
        }
    }
}

/// What is wanted behind the token at this place, with so many levels left.
#[tactic(auto, using(crate::proofs::Levels::items_refuse, crate::proofs::Levels::items_level), unfolding(crate::specs::ItemNests::read))]
pub fn read_items(
    alloc: Global,
    cursor: &mut Cursor<'_>,
    levels: u32,
    at: u32,
    wanted: WantedItems,
) -> Result<FoundItems, SyntaxFault>
    ensures { Reads (spec.read levels at wanted cursor.old) result cursor.new }
{
    if levels == 0 {
        return Err(SyntaxFault::TooDeep(at));
    }
    let levels = levels - 1;
    let level = Level {
        alloc,
        below: Phrases { alloc, levels },
    };
    let inner = NextItems {
        alloc,
        levels,
        read: read_items,
    };
    Items { level, inner }.one_of(cursor, wanted, at)
}
