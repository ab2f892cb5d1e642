//! Items, their lists and the instruction.
ghost use Rattle.std.specs.Prelude.{◌≡◌};
ghost use Rattle.opl_grammar.specs.Input as steps;
ghost use Rattle.opl_grammar.specs.Input.{Reads};
ghost use Rattle.opl_grammar.specs.Items as rules;
ghost use Rattle.opl_grammar.specs.Items.{ItemRules};
ghost use Rattle.opl_grammar.specs.Rules as phrases;
ghost use Rattle.opl_grammar.specs.Tables as tables;
ghost use Rattle.opl_grammar_item.specs.Blocks.{block_item};

use opl_grammar::Cursor;
use opl_grammar::keeping::{boxed, keep};
use opl_grammar::list::{Part, behind};
use opl_grammar::tables::{optimum, starts_item};
use opl_level::{Below, Level, into_post, name};
use opl_list::Boxed;
use opl_token::Sign;
use opl_tree::{
    AddTree, BlockTree, ExprTree, InstrTree, ItemTree, ItemsTree, Keyword, ParamsTree, PostTree,
    RequiresTree, SubscriptsTree, SyntaxFault,
};

/// The phrases that stand behind a token that opens a level. Each is given the place of that token.
pub trait Inner {
    ghost rules: { Self → ItemRules };

    ghost is_ready: { Self → Type 0 };

    /// Behind `{`.
    fn items(&self, cursor: &mut Cursor<'_>, at: u32) -> Result<ItemsTree, SyntaxFault>
        requires { is_ready self.now }
        ensures { Reads ((rules self.now).items at cursor.old) result cursor.new };

    /// Behind `forall`.
    fn for_all(
        &self,
        cursor: &mut Cursor<'_>,
        at: u32,
    ) -> Result<(Boxed<ParamsTree>, Boxed<ItemTree>), SyntaxFault>
        requires { is_ready self.now }
        ensures { Reads ((rules self.now).for_all at cursor.old) result cursor.new };

    /// Behind `if`.
    fn branches(
        &self,
        cursor: &mut Cursor<'_>,
        at: u32,
    ) -> Result<(Boxed<ExprTree>, ItemsTree, Option<ItemsTree>), SyntaxFault>
        requires { is_ready self.now }
        ensures { Reads ((rules self.now).branches at cursor.old) result cursor.new };
}

/// The rules of items of one level. Each form of an item is read by a function that is not inlined, so that a level of
/// nesting takes the stack of one form and not that of all.
#[derive(Drop)]
pub struct Items<B, I> {
    pub level: Level<B>,
    /// The rules of items one level deeper.
    pub inner: I,
}

impl<B: Below, I: Inner> Items<B, I> {
    /// `{ITEMS}`
    #[tactic(auto, unfolding(opl_grammar::specs::Items::block))]
    pub fn block(&self, cursor: &mut Cursor<'_>) -> Result<BlockTree, SyntaxFault>
        requires level { B.is_ready self.now.level.below }
        requires inner { I.is_ready self.now.inner }
        ensures { Reads (rules.block (B.rules self.now.level.below) (I.rules self.now.inner) cursor.old) result cursor.new }
    {
        let at = cursor.place();
        cursor.expect_sign(Sign::OpenBrace)?;
        let items = self.inner.items(cursor, at)?;
        let (items, ()) = keep(items, cursor.expect_sign(Sign::CloseBrace))?;
        Ok(BlockTree { at, items })
    }

    /// `{ITEMS}` as an item
    #[inline(never)]
    fn block_item(&self, cursor: &mut Cursor<'_>) -> Result<Boxed<ItemTree>, SyntaxFault>
        requires level { B.is_ready self.now.level.below }
        requires inner { I.is_ready self.now.inner }
        ensures { Reads (block_item (B.rules self.now.level.below) (I.rules self.now.inner) cursor.old) result cursor.new }
    {
        let item = ItemTree::Block(self.block(cursor)?);
        Ok(boxed(self.level.alloc, item)?)
    }

    /// `forall (PARAMS) ITEM`
    #[tactic(auto, unfolding(opl_grammar::specs::Items::for_all))]
    #[inline(never)]
    fn for_all(&self, cursor: &mut Cursor<'_>) -> Result<Boxed<ItemTree>, SyntaxFault>
        requires level { B.is_ready self.now.level.below }
        requires inner { I.is_ready self.now.inner }
        ensures { Reads (rules.for_all (B.rules self.now.level.below) (I.rules self.now.inner) cursor.old) result cursor.new }
    {
        let at = cursor.place();
        cursor.expect_word(Keyword::ForAll)?;
        let (params, body) = self.inner.for_all(cursor, at)?;
        let item = ItemTree::ForAll(at, params.into_inner(), body);
        Ok(boxed(self.level.alloc, item)?)
    }

    /// `if EXPR then ITEMS endif`, or with `else ITEMS` before `endif`
    #[tactic(auto, unfolding(opl_grammar::specs::Items::if_item))]
    #[inline(never)]
    fn if_item(&self, cursor: &mut Cursor<'_>) -> Result<Boxed<ItemTree>, SyntaxFault>
        requires level { B.is_ready self.now.level.below }
        requires inner { I.is_ready self.now.inner }
        ensures { Reads (rules.if_item (B.rules self.now.level.below) (I.rules self.now.inner) cursor.old) result cursor.new }
    {
        let at = cursor.place();
        cursor.expect_word(Keyword::If)?;
        let (condition, body, other) = self.inner.branches(cursor, at)?;
        let item = ItemTree::If(at, condition.into_inner(), body, other);
        Ok(boxed(self.level.alloc, item)?)
    }

    /// `precedes POST`, where what stands before is just a post
    fn precedes(
        &self,
        cursor: &mut Cursor<'_>,
        at: u32,
        before: Option<PostTree>,
    ) -> Result<Boxed<ItemTree>, SyntaxFault>
        requires level { B.is_ready self.now.level.below }
        requires inner { I.is_ready self.now.inner }
        ensures { Reads (rules.precedes (B.rules self.now.level.below) (I.rules self.now.inner) at before cursor.old) result cursor.new }
    {
        let Some(before) = before else {
            return Err(cursor.refuse());
        };
        let (before, ()) = keep(before, cursor.expect_word(Keyword::Precedes))?;
        let (before, after) = keep(before, self.level.post(cursor))?;
        let item = ItemTree::Precedes(at, before, after);
        Ok(boxed(self.level.alloc, item)?)
    }

    /// `(ADD)`
    #[tactic(auto, unfolding(opl_grammar::specs::Items::demand))]
    fn demand(&self, cursor: &mut Cursor<'_>) -> Result<Boxed<AddTree>, SyntaxFault>
        requires level { B.is_ready self.now.level.below }
        requires inner { I.is_ready self.now.inner }
        ensures { Reads (rules.demand (B.rules self.now.level.below) (I.rules self.now.inner) cursor.old) result cursor.new }
    {
        let at = cursor.place();
        cursor.expect_sign(Sign::OpenParenthesis)?;
        let amount = self.level.below.add(cursor, at)?;
        let (amount, ()) = keep(amount, cursor.expect_sign(Sign::CloseParenthesis))?;
        Ok(amount)
    }

    /// `(ADD)` or nothing
    fn optional_demand(&self, cursor: &mut Cursor<'_>) -> Result<Option<AddTree>, SyntaxFault>
        requires level { B.is_ready self.now.level.below }
        requires inner { I.is_ready self.now.inner }
        ensures { Reads (steps.maybe (steps.is_sign Sign.OpenParenthesis) (rules.demand (B.rules self.now.level.below) (I.rules self.now.inner)) cursor.old) result cursor.new }
    {
        if cursor.sees_sign(Sign::OpenParenthesis) {
            Ok(Some(self.demand(cursor)?.into_inner()))
        } else {
            Ok(None)
        }
    }

    /// Subscripts or nothing.
    fn optional_subscripts(
        &self,
        cursor: &mut Cursor<'_>,
    ) -> Result<Option<SubscriptsTree>, SyntaxFault>
        requires level { B.is_ready self.now.level.below }
        requires inner { I.is_ready self.now.inner }
        ensures { Reads (steps.maybe (steps.is_sign Sign.OpenBracket) (phrases.subscripts (B.rules self.now.level.below)) cursor.old) result cursor.new }
    {
        if cursor.sees_sign(Sign::OpenBracket) {
            Ok(Some(self.level.subscripts(cursor)?))
        } else {
            Ok(None)
        }
    }

    /// `requires NAME`, with `(ADD)` before the name and subscripts behind it where they are written
    #[tactic(auto, unfolding(opl_grammar::specs::Items::requires_tree))]
    fn requires_tree(
        &self,
        cursor: &mut Cursor<'_>,
        at: u32,
        activity: PostTree,
    ) -> Result<RequiresTree, SyntaxFault>
        requires level { B.is_ready self.now.level.below }
        requires inner { I.is_ready self.now.inner }
        ensures { Reads (rules.requires_tree (B.rules self.now.level.below) (I.rules self.now.inner) at activity cursor.old) result cursor.new }
    {
        let (activity, ()) = keep(activity, cursor.expect_word(Keyword::Requires))?;
        let parts = keep(activity, self.optional_demand(cursor))?;
        let (parts, resource) = keep(parts, name(self.level.alloc, cursor))?;
        let ((activity, demand), subscripts) = keep(parts, self.optional_subscripts(cursor))?;
        Ok(RequiresTree {
            at,
            activity,
            demand,
            resource,
            subscripts,
        })
    }

    /// The same, where what stands before is just a post.
    fn required(
        &self,
        cursor: &mut Cursor<'_>,
        at: u32,
        activity: Option<PostTree>,
    ) -> Result<Boxed<ItemTree>, SyntaxFault>
        requires level { B.is_ready self.now.level.below }
        requires inner { I.is_ready self.now.inner }
        ensures { Reads (rules.required (B.rules self.now.level.below) (I.rules self.now.inner) at activity cursor.old) result cursor.new }
    {
        match activity {
            Some(activity) => {
                let item = ItemTree::Requires(self.requires_tree(cursor, at, activity)?);
                Ok(boxed(self.level.alloc, item)?)
            }
            None => Err(cursor.refuse()),
        }
    }

    /// What an item that begins with this expression at this place is.
    #[tactic(auto, unfolding(opl_grammar::specs::Items::stated_of))]
    fn stated_of(
        &self,
        cursor: &mut Cursor<'_>,
        at: u32,
        t: Boxed<ExprTree>,
    ) -> Result<Boxed<ItemTree>, SyntaxFault>
        requires level { B.is_ready self.now.level.below }
        requires inner { I.is_ready self.now.inner }
        ensures { Reads (rules.stated_of (B.rules self.now.level.below) (I.rules self.now.inner) at t cursor.old) result cursor.new }
    {
        if cursor.sees_word(Keyword::Precedes) {
            self.precedes(cursor, at, into_post(t.into_inner()))
        } else if cursor.sees_word(Keyword::Requires) {
            self.required(cursor, at, into_post(t.into_inner()))
        } else {
            let item = ItemTree::Constraint(t.into_inner());
            Ok(boxed(self.level.alloc, item)?)
        }
    }

    /// `EXPR`, `POST precedes POST` or `POST requires ..`
    #[tactic(auto, unfolding(opl_grammar::specs::Items::stated))]
    #[inline(never)]
    fn stated(&self, cursor: &mut Cursor<'_>) -> Result<Boxed<ItemTree>, SyntaxFault>
        requires level { B.is_ready self.now.level.below }
        requires inner { I.is_ready self.now.inner }
        ensures { Reads (rules.stated (B.rules self.now.level.below) (I.rules self.now.inner) cursor.old) result cursor.new }
    {
        let at = cursor.place();
        let t = self.level.expr(cursor)?;
        self.stated_of(cursor, at, t)
    }

    /// An item.
    #[tactic(auto, unfolding(opl_grammar::specs::Items::item))]
    fn item(&self, cursor: &mut Cursor<'_>) -> Result<Boxed<ItemTree>, SyntaxFault>
        requires level { B.is_ready self.now.level.below }
        requires inner { I.is_ready self.now.inner }
        ensures { Reads (rules.item (B.rules self.now.level.below) (I.rules self.now.inner) cursor.old) result cursor.new }
    {
        if cursor.sees_sign(Sign::OpenBrace) {
            self.block_item(cursor)
        } else if cursor.sees_word(Keyword::ForAll) {
            self.for_all(cursor)
        } else if cursor.sees_word(Keyword::If) {
            self.if_item(cursor)
        } else {
            self.stated(cursor)
        }
    }

    /// `ITEM (; ITEM)* [;]`
    #[tactic(auto, unfolding(opl_grammar::specs::Items::several_items))]
    fn several_items(&self, cursor: &mut Cursor<'_>) -> Result<ItemsTree, SyntaxFault>
        requires level { B.is_ready self.now.level.below }
        requires inner { I.is_ready self.now.inner }
        ensures { Reads (rules.several_items (B.rules self.now.level.below) (I.rules self.now.inner) cursor.old) result cursor.new }
    {
        let at = cursor.place();
        let first = self.item(cursor)?;
        let more = behind(self.level.alloc, cursor, Sign::Semicolon, self);
        let (first, (rest, is_closed)) = keep(first, more)?;
        Ok(ItemsTree::Several(at, first, rest, is_closed))
    }

    /// Items, or none.
    #[tactic(auto, unfolding(opl_grammar::specs::Items::items))]
    pub fn items(&self, cursor: &mut Cursor<'_>) -> Result<ItemsTree, SyntaxFault>
        requires level { B.is_ready self.now.level.below }
        requires inner { I.is_ready self.now.inner }
        ensures { Reads (rules.items (B.rules self.now.level.below) (I.rules self.now.inner) cursor.old) result cursor.new }
    {
        if starts_item(cursor.look()) {
            self.several_items(cursor)
        } else {
            Ok(ItemsTree::Empty(cursor.place()))
        }
    }

    /// `(PARAMS) ITEM`
    #[tactic(auto, unfolding(opl_grammar::specs::Items::quantified))]
    pub fn quantified(
        &self,
        cursor: &mut Cursor<'_>,
    ) -> Result<(Boxed<ParamsTree>, Boxed<ItemTree>), SyntaxFault>
        requires level { B.is_ready self.now.level.below }
        requires inner { I.is_ready self.now.inner }
        ensures { Reads (rules.quantified (B.rules self.now.level.below) (I.rules self.now.inner) cursor.old) result cursor.new }
    {
        let params = self.level.chosen(cursor)?;
        keep(params, self.item(cursor))
    }

    /// `else ITEMS`
    #[tactic(auto, unfolding(opl_grammar::specs::Items::otherwise))]
    fn otherwise(&self, cursor: &mut Cursor<'_>) -> Result<ItemsTree, SyntaxFault>
        requires level { B.is_ready self.now.level.below }
        requires inner { I.is_ready self.now.inner }
        ensures { Reads (rules.otherwise (B.rules self.now.level.below) (I.rules self.now.inner) cursor.old) result cursor.new }
    {
        cursor.expect_word(Keyword::Else)?;
        self.items(cursor)
    }

    /// `else ITEMS` or nothing
    fn optional_otherwise(&self, cursor: &mut Cursor<'_>) -> Result<Option<ItemsTree>, SyntaxFault>
        requires level { B.is_ready self.now.level.below }
        requires inner { I.is_ready self.now.inner }
        ensures { Reads (steps.maybe (steps.is_word Keyword.Else) (rules.otherwise (B.rules self.now.level.below) (I.rules self.now.inner)) cursor.old) result cursor.new }
    {
        if cursor.sees_word(Keyword::Else) {
            Ok(Some(self.otherwise(cursor)?))
        } else {
            Ok(None)
        }
    }

    /// `EXPR then ITEMS endif`, or with `else ITEMS` before `endif`
    #[tactic(auto, unfolding(opl_grammar::specs::Items::branches))]
    pub fn branches(
        &self,
        cursor: &mut Cursor<'_>,
    ) -> Result<(Boxed<ExprTree>, ItemsTree, Option<ItemsTree>), SyntaxFault>
        requires level { B.is_ready self.now.level.below }
        requires inner { I.is_ready self.now.inner }
        ensures { Reads (rules.branches (B.rules self.now.level.below) (I.rules self.now.inner) cursor.old) result cursor.new }
    {
        let condition = self.level.expr(cursor)?;
        let (condition, ()) = keep(condition, cursor.expect_word(Keyword::Then))?;
        let parts = keep(condition, self.items(cursor))?;
        let parts = keep(parts, self.optional_otherwise(cursor))?;
        let (((condition, body), other), ()) = keep(parts, cursor.expect_word(Keyword::EndIf))?;
        Ok((condition, body, other))
    }

    /// `solve BLOCK;`
    #[tactic(auto, unfolding(opl_grammar::specs::Items::solve))]
    fn solve(&self, cursor: &mut Cursor<'_>) -> Result<InstrTree, SyntaxFault>
        requires level { B.is_ready self.now.level.below }
        requires inner { I.is_ready self.now.inner }
        ensures { Reads (rules.solve (B.rules self.now.level.below) (I.rules self.now.inner) cursor.old) result cursor.new }
    {
        let at = cursor.place();
        cursor.expect_word(Keyword::Solve)?;
        let block = self.block(cursor)?;
        let (block, ()) = keep(block, cursor.expect_sign(Sign::Semicolon))?;
        Ok(InstrTree::Solve(at, block))
    }

    /// `minimize EXPR subject to BLOCK;` or `maximize EXPR subject to BLOCK;`
    #[tactic(auto, unfolding(opl_grammar::specs::Items::optimize))]
    fn optimize(&self, cursor: &mut Cursor<'_>) -> Result<InstrTree, SyntaxFault>
        requires level { B.is_ready self.now.level.below }
        requires inner { I.is_ready self.now.inner }
        ensures { Reads (rules.optimize (B.rules self.now.level.below) (I.rules self.now.inner) cursor.old) result cursor.new }
    {
        let at = cursor.place();
        let best = cursor.take_found(optimum(cursor.look()))?;
        let objective = self.level.expr(cursor)?;
        let (objective, ()) = keep(objective, cursor.expect_word(Keyword::Subject))?;
        let (objective, ()) = keep(objective, cursor.expect_word(Keyword::To))?;
        let parts = keep(objective, self.block(cursor))?;
        let ((objective, block), ()) = keep(parts, cursor.expect_sign(Sign::Semicolon))?;
        Ok(InstrTree::Optimize(at, best, objective.into_inner(), block))
    }

    /// The instruction.
    #[tactic(auto, unfolding(opl_grammar::specs::Items::instr))]
    pub fn instr(&self, cursor: &mut Cursor<'_>) -> Result<InstrTree, SyntaxFault>
        requires level { B.is_ready self.now.level.below }
        requires inner { I.is_ready self.now.inner }
        ensures { Reads (rules.instr (B.rules self.now.level.below) (I.rules self.now.inner) cursor.old) result cursor.new }
    {
        if cursor.sees_word(Keyword::Solve) {
            self.solve(cursor)
        } else {
            self.optimize(cursor)
        }
    }
}

impl<B: Below, I: Inner> Part<ItemTree> for Items<B, I> {
    ghost begins = { λ _. tables.starts_item };

    ghost part = { λ l. rules.item (B.rules l.level.below) (I.rules l.inner) };

    ghost is_ready = { λ l. B.is_ready l.level.below × I.is_ready l.inner };

    fn starts(&self, cursor: &Cursor<'_>) -> bool {
        starts_item(cursor.look())
    }

    fn read(&self, cursor: &mut Cursor<'_>) -> Result<ItemTree, SyntaxFault> {
        Ok(self.item(cursor)?.into_inner())
    }
}
