//! Statements, their lists and the search section.
ghost use Rattle.std.specs.Prelude.{◌≡◌};
ghost use Rattle.opl_grammar.specs.Input as steps;
ghost use Rattle.opl_grammar.specs.Input.{Reads};
ghost use Rattle.opl_grammar.specs.Search as rules;
ghost use Rattle.opl_grammar.specs.Search.{StatementRules};
ghost use Rattle.opl_grammar.specs.Tables as tables;
ghost use Rattle.opl_grammar_statement.specs.Blocks.{block_statement};

use opl_grammar::Cursor;
use opl_grammar::keeping::{boxed, keep};
use opl_grammar::list::{Part, Phrase, after_each, behind};
use opl_grammar::tables::{branch_op, label_op, starts_statement};
use opl_level::{Below, Level, into_post};
use opl_list::{Boxed, Seq};
use opl_token::Sign;
use opl_tree::{
    ExprTree, Keyword, OrderedParamsTree, PostTree, SearchBlockTree, SearchTree, StatementTree,
    StatementsTree, SyntaxFault,
};

/// The phrases that stand behind a token that opens a level. Each is given the place of that token.
pub trait Beneath {
    ghost rules: { Self → StatementRules };

    ghost is_ready: { Self → Type 0 };

    /// Behind `{`.
    fn statements(&self, cursor: &mut Cursor<'_>, at: u32) -> Result<StatementsTree, SyntaxFault>
        requires { is_ready self.now }
        ensures { Reads ((rules self.now).statements at cursor.old) result cursor.new };

    /// Behind `try`.
    fn alternatives(
        &self,
        cursor: &mut Cursor<'_>,
        at: u32,
    ) -> Result<(StatementsTree, StatementsTree, Seq<StatementsTree>), SyntaxFault>
        requires { is_ready self.now }
        ensures { Reads ((rules self.now).alternatives at cursor.old) result cursor.new };

    /// Behind the word of a statement with parameters.
    fn branch(
        &self,
        cursor: &mut Cursor<'_>,
        at: u32,
    ) -> Result<(Boxed<OrderedParamsTree>, Boxed<StatementTree>), SyntaxFault>
        requires { is_ready self.now }
        ensures { Reads ((rules self.now).branch at cursor.old) result cursor.new };

    /// Behind `once`.
    fn statement(
        &self,
        cursor: &mut Cursor<'_>,
        at: u32,
    ) -> Result<Boxed<StatementTree>, SyntaxFault>
        requires { is_ready self.now }
        ensures { Reads ((rules self.now).statement at cursor.old) result cursor.new };

    /// Behind `while`.
    fn repeated(
        &self,
        cursor: &mut Cursor<'_>,
        at: u32,
    ) -> Result<(Boxed<ExprTree>, Boxed<StatementTree>), SyntaxFault>
        requires { is_ready self.now }
        ensures { Reads ((rules self.now).repeated at cursor.old) result cursor.new };

    /// Behind `if`.
    fn choice(
        &self,
        cursor: &mut Cursor<'_>,
        at: u32,
    ) -> Result<(Boxed<ExprTree>, StatementsTree, Option<StatementsTree>), SyntaxFault>
        requires { is_ready self.now }
        ensures { Reads ((rules self.now).choice at cursor.old) result cursor.new };
}

/// The rules of statements of one level. Each form of a statement is read by a function that is not inlined, so that a level
/// of nesting takes the stack of one form and not that of all.
#[derive(Drop)]
pub struct Statements<B, I> {
    pub level: Level<B>,
    /// The rules of statements one level deeper.
    pub inner: I,
}

impl<B: Below, I: Beneath> Statements<B, I> {
    /// `{STATEMENTS}`
    #[tactic(auto, unfolding(opl_grammar::specs::Search::search_block))]
    fn search_block(&self, cursor: &mut Cursor<'_>) -> Result<SearchBlockTree, SyntaxFault>
        requires level { B.is_ready self.now.level.below }
        requires inner { I.is_ready self.now.inner }
        ensures { Reads (rules.search_block (B.rules self.now.level.below) (I.rules self.now.inner) cursor.old) result cursor.new }
    {
        let at = cursor.place();
        cursor.expect_sign(Sign::OpenBrace)?;
        let statements = self.inner.statements(cursor, at)?;
        let (statements, ()) = keep(statements, cursor.expect_sign(Sign::CloseBrace))?;
        Ok(SearchBlockTree { at, statements })
    }

    /// `{STATEMENTS}` as a statement
    #[inline(never)]
    fn block_statement(&self, cursor: &mut Cursor<'_>) -> Result<Boxed<StatementTree>, SyntaxFault>
        requires level { B.is_ready self.now.level.below }
        requires inner { I.is_ready self.now.inner }
        ensures { Reads (block_statement (B.rules self.now.level.below) (I.rules self.now.inner) cursor.old) result cursor.new }
    {
        let tree = StatementTree::Block(self.search_block(cursor)?);
        Ok(boxed(self.level.alloc, tree)?)
    }

    /// `try STATEMENTS | STATEMENTS | .. endtry`
    #[tactic(auto, unfolding(opl_grammar::specs::Search::try_statement))]
    #[inline(never)]
    fn try_statement(&self, cursor: &mut Cursor<'_>) -> Result<Boxed<StatementTree>, SyntaxFault>
        requires level { B.is_ready self.now.level.below }
        requires inner { I.is_ready self.now.inner }
        ensures { Reads (rules.try_statement (B.rules self.now.level.below) (I.rules self.now.inner) cursor.old) result cursor.new }
    {
        let at = cursor.place();
        cursor.expect_word(Keyword::Try)?;
        let (first, second, rest) = self.inner.alternatives(cursor, at)?;
        let tree = StatementTree::Try(at, first, second, rest);
        Ok(boxed(self.level.alloc, tree)?)
    }

    /// `tryall (PARAMS) STATEMENT` and the like
    #[tactic(auto, unfolding(opl_grammar::specs::Search::branch_statement))]
    #[inline(never)]
    fn branch_statement(&self, cursor: &mut Cursor<'_>) -> Result<Boxed<StatementTree>, SyntaxFault>
        requires level { B.is_ready self.now.level.below }
        requires inner { I.is_ready self.now.inner }
        ensures { Reads (rules.branch_statement (B.rules self.now.level.below) (I.rules self.now.inner) cursor.old) result cursor.new }
    {
        let at = cursor.place();
        let op = cursor.take_found(branch_op(cursor.look()))?;
        let (params, body) = self.inner.branch(cursor, at)?;
        let tree = StatementTree::Branch(at, op, params.into_inner(), body);
        Ok(boxed(self.level.alloc, tree)?)
    }

    /// `once STATEMENT`
    #[tactic(auto, unfolding(opl_grammar::specs::Search::once_statement))]
    #[inline(never)]
    fn once_statement(&self, cursor: &mut Cursor<'_>) -> Result<Boxed<StatementTree>, SyntaxFault>
        requires level { B.is_ready self.now.level.below }
        requires inner { I.is_ready self.now.inner }
        ensures { Reads (rules.once_statement (B.rules self.now.level.below) (I.rules self.now.inner) cursor.old) result cursor.new }
    {
        let at = cursor.place();
        cursor.expect_word(Keyword::Once)?;
        let body = self.inner.statement(cursor, at)?;
        Ok(boxed(self.level.alloc, StatementTree::Once(at, body))?)
    }

    /// `while EXPR do STATEMENT`
    #[tactic(auto, unfolding(opl_grammar::specs::Search::while_statement))]
    #[inline(never)]
    fn while_statement(&self, cursor: &mut Cursor<'_>) -> Result<Boxed<StatementTree>, SyntaxFault>
        requires level { B.is_ready self.now.level.below }
        requires inner { I.is_ready self.now.inner }
        ensures { Reads (rules.while_statement (B.rules self.now.level.below) (I.rules self.now.inner) cursor.old) result cursor.new }
    {
        let at = cursor.place();
        cursor.expect_word(Keyword::While)?;
        let (condition, body) = self.inner.repeated(cursor, at)?;
        let tree = StatementTree::While(at, condition.into_inner(), body);
        Ok(boxed(self.level.alloc, tree)?)
    }

    /// `if EXPR then STATEMENTS endif`, or with `else STATEMENTS` before `endif`
    #[tactic(auto, unfolding(opl_grammar::specs::Search::if_statement))]
    #[inline(never)]
    fn if_statement(&self, cursor: &mut Cursor<'_>) -> Result<Boxed<StatementTree>, SyntaxFault>
        requires level { B.is_ready self.now.level.below }
        requires inner { I.is_ready self.now.inner }
        ensures { Reads (rules.if_statement (B.rules self.now.level.below) (I.rules self.now.inner) cursor.old) result cursor.new }
    {
        let at = cursor.place();
        cursor.expect_word(Keyword::If)?;
        let (condition, body, other) = self.inner.choice(cursor, at)?;
        let tree = StatementTree::If(at, condition.into_inner(), body, other);
        Ok(boxed(self.level.alloc, tree)?)
    }

    /// `generate (POST)` or `rank (POST)`
    #[tactic(auto, unfolding(opl_grammar::specs::Search::label))]
    #[inline(never)]
    fn label(&self, cursor: &mut Cursor<'_>) -> Result<Boxed<StatementTree>, SyntaxFault>
        requires level { B.is_ready self.now.level.below }
        requires inner { I.is_ready self.now.inner }
        ensures { Reads (rules.label (B.rules self.now.level.below) (I.rules self.now.inner) cursor.old) result cursor.new }
    {
        let at = cursor.place();
        let op = cursor.take_found(label_op(cursor.look()))?;
        let inner = self.level.asked(cursor)?;
        let tree = StatementTree::Label(at, op, inner.into_inner());
        Ok(boxed(self.level.alloc, tree)?)
    }

    /// `precedes POST`, where what stands before is just a post
    fn posted_precedes(
        &self,
        cursor: &mut Cursor<'_>,
        at: u32,
        before: Option<PostTree>,
    ) -> Result<Boxed<StatementTree>, SyntaxFault>
        requires level { B.is_ready self.now.level.below }
        requires inner { I.is_ready self.now.inner }
        ensures { Reads (rules.posted_precedes (B.rules self.now.level.below) (I.rules self.now.inner) at before cursor.old) result cursor.new }
    {
        let Some(before) = before else {
            return Err(cursor.refuse());
        };
        let (before, ()) = keep(before, cursor.expect_word(Keyword::Precedes))?;
        let (before, after) = keep(before, self.level.post(cursor))?;
        let tree = StatementTree::Precedes(at, before, after);
        Ok(boxed(self.level.alloc, tree)?)
    }

    /// What a statement that begins with this expression at this place is.
    #[tactic(auto, unfolding(opl_grammar::specs::Search::posted_of))]
    fn posted_of(
        &self,
        cursor: &mut Cursor<'_>,
        at: u32,
        t: Boxed<ExprTree>,
    ) -> Result<Boxed<StatementTree>, SyntaxFault>
        requires level { B.is_ready self.now.level.below }
        requires inner { I.is_ready self.now.inner }
        ensures { Reads (rules.posted_of (B.rules self.now.level.below) (I.rules self.now.inner) at t cursor.old) result cursor.new }
    {
        if cursor.sees_word(Keyword::Precedes) {
            self.posted_precedes(cursor, at, into_post(t.into_inner()))
        } else {
            let tree = StatementTree::Constraint(t.into_inner());
            Ok(boxed(self.level.alloc, tree)?)
        }
    }

    /// `EXPR` or `POST precedes POST`
    #[tactic(auto, unfolding(opl_grammar::specs::Search::posted))]
    #[inline(never)]
    fn posted(&self, cursor: &mut Cursor<'_>) -> Result<Boxed<StatementTree>, SyntaxFault>
        requires level { B.is_ready self.now.level.below }
        requires inner { I.is_ready self.now.inner }
        ensures { Reads (rules.posted (B.rules self.now.level.below) (I.rules self.now.inner) cursor.old) result cursor.new }
    {
        let at = cursor.place();
        let t = self.level.expr(cursor)?;
        self.posted_of(cursor, at, t)
    }

    /// A statement that begins with a word of its own, or with an expression.
    #[tactic(auto, unfolding(opl_grammar::specs::Search::word_statement))]
    fn word_statement(&self, cursor: &mut Cursor<'_>) -> Result<Boxed<StatementTree>, SyntaxFault>
        requires level { B.is_ready self.now.level.below }
        requires inner { I.is_ready self.now.inner }
        ensures { Reads (rules.word_statement (B.rules self.now.level.below) (I.rules self.now.inner) cursor.old) result cursor.new }
    {
        if cursor.sees_word(Keyword::Once) {
            self.once_statement(cursor)
        } else if cursor.sees_word(Keyword::While) {
            self.while_statement(cursor)
        } else if cursor.sees_word(Keyword::If) {
            self.if_statement(cursor)
        } else if label_op(cursor.look()).is_some() {
            self.label(cursor)
        } else {
            self.posted(cursor)
        }
    }

    /// A statement.
    #[tactic(auto, unfolding(opl_grammar::specs::Search::statement))]
    pub fn statement(&self, cursor: &mut Cursor<'_>) -> Result<Boxed<StatementTree>, SyntaxFault>
        requires level { B.is_ready self.now.level.below }
        requires inner { I.is_ready self.now.inner }
        ensures { Reads (rules.statement (B.rules self.now.level.below) (I.rules self.now.inner) cursor.old) result cursor.new }
    {
        if cursor.sees_sign(Sign::OpenBrace) {
            self.block_statement(cursor)
        } else if cursor.sees_word(Keyword::Try) {
            self.try_statement(cursor)
        } else if branch_op(cursor.look()).is_some() {
            self.branch_statement(cursor)
        } else {
            self.word_statement(cursor)
        }
    }

    /// `STATEMENT (; STATEMENT)* [;]`
    #[tactic(auto, unfolding(opl_grammar::specs::Search::several_statements))]
    fn several_statements(&self, cursor: &mut Cursor<'_>) -> Result<StatementsTree, SyntaxFault>
        requires level { B.is_ready self.now.level.below }
        requires inner { I.is_ready self.now.inner }
        ensures { Reads (rules.several_statements (B.rules self.now.level.below) (I.rules self.now.inner) cursor.old) result cursor.new }
    {
        let at = cursor.place();
        let first = self.statement(cursor)?;
        let more = behind(self.level.alloc, cursor, Sign::Semicolon, self);
        let (first, (rest, is_closed)) = keep(first, more)?;
        Ok(StatementsTree::Several(at, first, rest, is_closed))
    }

    /// Statements, or none.
    #[tactic(auto, unfolding(opl_grammar::specs::Search::statements))]
    pub fn statements(&self, cursor: &mut Cursor<'_>) -> Result<StatementsTree, SyntaxFault>
        requires level { B.is_ready self.now.level.below }
        requires inner { I.is_ready self.now.inner }
        ensures { Reads (rules.statements (B.rules self.now.level.below) (I.rules self.now.inner) cursor.old) result cursor.new }
    {
        if starts_statement(cursor.look()) {
            self.several_statements(cursor)
        } else {
            Ok(StatementsTree::Empty(cursor.place()))
        }
    }

    /// `| STATEMENTS`
    #[tactic(auto, unfolding(opl_grammar::specs::Search::alternative))]
    fn alternative(&self, cursor: &mut Cursor<'_>) -> Result<StatementsTree, SyntaxFault>
        requires level { B.is_ready self.now.level.below }
        requires inner { I.is_ready self.now.inner }
        ensures { Reads (rules.alternative (B.rules self.now.level.below) (I.rules self.now.inner) cursor.old) result cursor.new }
    {
        cursor.expect_sign(Sign::Bar)?;
        self.statements(cursor)
    }

    /// `STATEMENTS | STATEMENTS | .. endtry`
    #[tactic(auto, unfolding(opl_grammar::specs::Search::alternatives))]
    pub fn alternatives(
        &self,
        cursor: &mut Cursor<'_>,
    ) -> Result<(StatementsTree, StatementsTree, Seq<StatementsTree>), SyntaxFault>
        requires level { B.is_ready self.now.level.below }
        requires inner { I.is_ready self.now.inner }
        ensures { Reads (rules.alternatives (B.rules self.now.level.below) (I.rules self.now.inner) cursor.old) result cursor.new }
    {
        let first = self.statements(cursor)?;
        let parts = keep(first, self.alternative(cursor))?;
        let parts = keep(parts, after_each(self.level.alloc, cursor, Sign::Bar, self))?;
        let (((first, second), rest), ()) = keep(parts, cursor.expect_word(Keyword::EndTry))?;
        Ok((first, second, rest))
    }

    /// `(PARAMS)`
    #[tactic(auto, unfolding(opl_grammar::specs::Search::ordered_chosen))]
    fn ordered_chosen(
        &self,
        cursor: &mut Cursor<'_>,
    ) -> Result<Boxed<OrderedParamsTree>, SyntaxFault>
        requires level { B.is_ready self.now.level.below }
        requires inner { I.is_ready self.now.inner }
        ensures { Reads (rules.ordered_chosen (B.rules self.now.level.below) (I.rules self.now.inner) cursor.old) result cursor.new }
    {
        let at = cursor.place();
        cursor.expect_sign(Sign::OpenParenthesis)?;
        let params = self.level.below.ordered(cursor, at)?;
        let (params, ()) = keep(params, cursor.expect_sign(Sign::CloseParenthesis))?;
        Ok(params)
    }

    /// `(PARAMS) STATEMENT`
    #[tactic(auto, unfolding(opl_grammar::specs::Search::branch))]
    pub fn branch(
        &self,
        cursor: &mut Cursor<'_>,
    ) -> Result<(Boxed<OrderedParamsTree>, Boxed<StatementTree>), SyntaxFault>
        requires level { B.is_ready self.now.level.below }
        requires inner { I.is_ready self.now.inner }
        ensures { Reads (rules.branch (B.rules self.now.level.below) (I.rules self.now.inner) cursor.old) result cursor.new }
    {
        let params = self.ordered_chosen(cursor)?;
        keep(params, self.statement(cursor))
    }

    /// `EXPR do STATEMENT`
    #[tactic(auto, unfolding(opl_grammar::specs::Search::repeated))]
    pub fn repeated(
        &self,
        cursor: &mut Cursor<'_>,
    ) -> Result<(Boxed<ExprTree>, Boxed<StatementTree>), SyntaxFault>
        requires level { B.is_ready self.now.level.below }
        requires inner { I.is_ready self.now.inner }
        ensures { Reads (rules.repeated (B.rules self.now.level.below) (I.rules self.now.inner) cursor.old) result cursor.new }
    {
        let condition = self.level.expr(cursor)?;
        let (condition, ()) = keep(condition, cursor.expect_word(Keyword::Do))?;
        keep(condition, self.statement(cursor))
    }

    /// `else STATEMENTS`
    #[tactic(auto, unfolding(opl_grammar::specs::Search::otherwise))]
    fn otherwise(&self, cursor: &mut Cursor<'_>) -> Result<StatementsTree, SyntaxFault>
        requires level { B.is_ready self.now.level.below }
        requires inner { I.is_ready self.now.inner }
        ensures { Reads (rules.otherwise (B.rules self.now.level.below) (I.rules self.now.inner) cursor.old) result cursor.new }
    {
        cursor.expect_word(Keyword::Else)?;
        self.statements(cursor)
    }

    /// `else STATEMENTS` or nothing
    fn optional_otherwise(
        &self,
        cursor: &mut Cursor<'_>,
    ) -> Result<Option<StatementsTree>, SyntaxFault>
        requires level { B.is_ready self.now.level.below }
        requires inner { I.is_ready self.now.inner }
        ensures { Reads (steps.maybe (steps.is_word Keyword.Else) (rules.otherwise (B.rules self.now.level.below) (I.rules self.now.inner)) cursor.old) result cursor.new }
    {
        if cursor.sees_word(Keyword::Else) {
            Ok(Some(self.otherwise(cursor)?))
        } else {
            Ok(None)
        }
    }

    /// `EXPR then STATEMENTS endif`, or with `else STATEMENTS` before `endif`
    #[tactic(auto, unfolding(opl_grammar::specs::Search::choice))]
    pub fn choice(
        &self,
        cursor: &mut Cursor<'_>,
    ) -> Result<(Boxed<ExprTree>, StatementsTree, Option<StatementsTree>), SyntaxFault>
        requires level { B.is_ready self.now.level.below }
        requires inner { I.is_ready self.now.inner }
        ensures { Reads (rules.choice (B.rules self.now.level.below) (I.rules self.now.inner) cursor.old) result cursor.new }
    {
        let condition = self.level.expr(cursor)?;
        let (condition, ()) = keep(condition, cursor.expect_word(Keyword::Then))?;
        let parts = keep(condition, self.statements(cursor))?;
        let parts = keep(parts, self.optional_otherwise(cursor))?;
        let (((condition, body), other), ()) = keep(parts, cursor.expect_word(Keyword::EndIf))?;
        Ok((condition, body, other))
    }

    /// `search {STATEMENTS};`
    #[tactic(auto, unfolding(opl_grammar::specs::Search::search_section))]
    pub fn search_section(&self, cursor: &mut Cursor<'_>) -> Result<SearchTree, SyntaxFault>
        requires level { B.is_ready self.now.level.below }
        requires inner { I.is_ready self.now.inner }
        ensures { Reads (rules.search_section (B.rules self.now.level.below) (I.rules self.now.inner) cursor.old) result cursor.new }
    {
        let at = cursor.place();
        cursor.expect_word(Keyword::Search)?;
        let block = self.search_block(cursor)?;
        let (block, ()) = keep(block, cursor.expect_sign(Sign::Semicolon))?;
        Ok(SearchTree { at, block })
    }
}

impl<B: Below, I: Beneath> Part<StatementTree> for Statements<B, I> {
    ghost begins = { λ _. tables.starts_statement };

    ghost part = { λ l. rules.statement (B.rules l.level.below) (I.rules l.inner) };

    ghost is_ready = { λ l. B.is_ready l.level.below × I.is_ready l.inner };

    fn starts(&self, cursor: &Cursor<'_>) -> bool {
        starts_statement(cursor.look())
    }

    fn read(&self, cursor: &mut Cursor<'_>) -> Result<StatementTree, SyntaxFault> {
        Ok(self.statement(cursor)?.into_inner())
    }
}

impl<B: Below, I: Beneath> Phrase<StatementsTree> for Statements<B, I> {
    ghost phrase = { λ l. rules.statements (B.rules l.level.below) (I.rules l.inner) };

    ghost is_ready = { λ l. B.is_ready l.level.below × I.is_ready l.inner };

    fn phrase(&self, cursor: &mut Cursor<'_>) -> Result<StatementsTree, SyntaxFault> {
        self.statements(cursor)
    }
}
