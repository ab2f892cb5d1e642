//! The rules of statements closed: one function that is passed to itself reads every level.
ghost use Rattle.std.specs.Prelude.{◌≡◌};
ghost use Rattle.opl_grammar.specs.Input.{Reads};
ghost use Rattle.opl_grammar.specs.Search as rules;
ghost use Rattle.opl_grammar_statement.specs.StatementNests as spec;
ghost use Rattle.opl_grammar_statement.specs.StatementNests.{StatementsNest};

use crate::statement::{Beneath, Statements};
use crate::wanted_statements::{FoundStatements, WantedStatements};
use opl_grammar::Cursor;
use opl_level::{Below, Level};
use opl_list::{Boxed, Seq};
use opl_phrase::Phrases;
use opl_tree::{ExprTree, OrderedParamsTree, StatementTree, StatementsTree, SyntaxFault};
use std::alloc::Global;

/// What is read with so many levels left, by a function that reads one level.
#[derive(Drop)]
pub struct NextStatements<F> {
    pub alloc: Global,
    pub levels: u32,
    pub read: F,
}

impl<
    F: Fn(
        Global,
        &mut Cursor<'_>,
        u32,
        u32,
        WantedStatements,
    ) -> Result<FoundStatements, SyntaxFault>,
> NextStatements<F> {
    /// What is wanted behind the token at this place.
    fn ask(
        &self,
        cursor: &mut Cursor<'_>,
        at: u32,
        wanted: WantedStatements,
    ) -> Result<FoundStatements, SyntaxFault>
        requires { StatementsNest self.now.levels (F.pre self.now.read) (F.post self.now.read) }
        ensures { Reads (spec.read self.now.levels at wanted cursor.old) result cursor.new }
    {
        (self.read)(self.alloc, cursor, self.levels, at, wanted)
    }
}

impl<
    F: Fn(
        Global,
        &mut Cursor<'_>,
        u32,
        u32,
        WantedStatements,
    ) -> Result<FoundStatements, SyntaxFault>,
> Beneath for NextStatements<F> {
    ghost rules = { λ n. rules.statement_rules n.levels };

    ghost is_ready = { λ n. StatementsNest n.levels (F.pre n.read) (F.post n.read) };

    #[tactic(auto, unfolding(crate::specs::StatementNests::read))]
    fn statements(&self, cursor: &mut Cursor<'_>, at: u32) -> Result<StatementsTree, SyntaxFault> {
        match self.ask(cursor, at, WantedStatements::Statements)? {
            FoundStatements::Statements(found) => Ok(found),
            _ => unreachable!(),
        }
    }

    #[tactic(auto, unfolding(crate::specs::StatementNests::read))]
    fn alternatives(
        &self,
        cursor: &mut Cursor<'_>,
        at: u32,
    ) -> Result<(StatementsTree, StatementsTree, Seq<StatementsTree>), SyntaxFault> {
        match self.ask(cursor, at, WantedStatements::Alternatives)? {
            FoundStatements::Alternatives(first, second, third) => Ok((first, second, third)),
            _ => unreachable!(),
        }
    }

    #[tactic(auto, unfolding(crate::specs::StatementNests::read))]
    fn branch(
        &self,
        cursor: &mut Cursor<'_>,
        at: u32,
    ) -> Result<(Boxed<OrderedParamsTree>, Boxed<StatementTree>), SyntaxFault> {
        match self.ask(cursor, at, WantedStatements::Branch)? {
            FoundStatements::Branch(first, second) => Ok((first, second)),
            _ => unreachable!(),
        }
    }

    #[tactic(auto, unfolding(crate::specs::StatementNests::read))]
    fn statement(
        &self,
        cursor: &mut Cursor<'_>,
        at: u32,
    ) -> Result<Boxed<StatementTree>, SyntaxFault> {
        match self.ask(cursor, at, WantedStatements::Statement)? {
            FoundStatements::Statement(found) => Ok(found),
            _ => unreachable!(),
        }
    }

    #[tactic(auto, unfolding(crate::specs::StatementNests::read))]
    fn repeated(
        &self,
        cursor: &mut Cursor<'_>,
        at: u32,
    ) -> Result<(Boxed<ExprTree>, Boxed<StatementTree>), SyntaxFault> {
        match self.ask(cursor, at, WantedStatements::Loop)? {
            FoundStatements::Loop(first, second) => Ok((first, second)),
            _ => unreachable!(),
        }
    }

    #[tactic(auto, unfolding(crate::specs::StatementNests::read))]
    fn choice(
        &self,
        cursor: &mut Cursor<'_>,
        at: u32,
    ) -> Result<(Boxed<ExprTree>, StatementsTree, Option<StatementsTree>), SyntaxFault> {
        match self.ask(cursor, at, WantedStatements::Choice)? {
            FoundStatements::Choice(first, second, third) => Ok((first, second, third)),
            _ => unreachable!(),
        }
    }
}

impl<B: Below, I: Beneath> Statements<B, I> {
    /// What is wanted behind the token at this place.
    #[tactic(auto, unfolding(opl_grammar::specs::Search::statement_level))]
    fn one_of(
        &self,
        cursor: &mut Cursor<'_>,
        wanted: WantedStatements,
        at: u32,
    ) -> Result<FoundStatements, SyntaxFault>
        requires level { B.is_ready self.now.level.below }
        requires inner { I.is_ready self.now.inner }
        ensures { Reads (spec.one_of (rules.statement_level (B.rules self.now.level.below) (I.rules self.now.inner)) at wanted cursor.old) result cursor.new }
    {
        match wanted {
            WantedStatements::Statements => Ok(FoundStatements::Statements(self.statements(
                cursor,
            )?)),
            WantedStatements::Alternatives => {
                let (first, second, rest) = self.alternatives(cursor)?;
                Ok(FoundStatements::Alternatives(first, second, rest))
            }
            WantedStatements::Branch => {
                let (params, body) = self.branch(cursor)?;
                Ok(FoundStatements::Branch(params, body))
            }
            WantedStatements::Statement => {
                let found = self.statement(cursor)?;
                Ok(FoundStatements::Statement(found))
            }
            WantedStatements::Loop => {
                let (condition, body) = self.repeated(cursor)?;
                Ok(FoundStatements::Loop(condition, body))
            }
            WantedStatements::Choice => {
                let (condition, body, other) = self.choice(cursor)?;
                Ok(FoundStatements::Choice(condition, body, other))
            }
        }
    }
}

/// What is wanted behind the token at this place, with so many levels left.
#[tactic(auto, using(crate::proofs::Levels::statements_refuse, crate::proofs::Levels::statements_level), unfolding(crate::specs::StatementNests::read))]
pub fn read_statements(
    alloc: Global,
    cursor: &mut Cursor<'_>,
    levels: u32,
    at: u32,
    wanted: WantedStatements,
) -> Result<FoundStatements, SyntaxFault>
    ensures { Reads (spec.read levels at wanted cursor.old) result cursor.new }
{
    if levels == 0 {
        return Err(SyntaxFault::TooDeep(at));
    }
    let levels = levels - 1;
    let level = Level {
        alloc,
        below: Phrases { alloc, levels },
    };
    let inner = NextStatements {
        alloc,
        levels,
        read: read_statements,
    };
    Statements { level, inner }.one_of(cursor, wanted, at)
}
