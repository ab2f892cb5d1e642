//! Parameters.
ghost use Rattle.std.specs.Prelude.{◌≡◌};
ghost use Rattle.opl_grammar.specs.Input as steps;
ghost use Rattle.opl_grammar.specs.Input.{Reads};
ghost use Rattle.opl_grammar.specs.Rules as rules;
ghost use Rattle.opl_grammar.specs.Tables as tables;

use crate::below::{Below, Level};
use crate::word::name;
use opl_grammar::Cursor;
use opl_grammar::keeping::{boxed, keep};
use opl_grammar::list::{Part, Phrase, after_each, many};
use opl_grammar::tables::{direction, separator};
use opl_list::Boxed;
use opl_token::Sign;
use opl_tree::{
    ExprTree, GroupStep, GroupTree, Keyword, OrderTree, OrderedParamsTree, ParamsTree, PatternTree,
    SyntaxFault,
};

impl<B: Below> Level<B> {
    /// `<NAME, NAME, ..>`
    #[tactic(auto, unfolding(opl_grammar::specs::Rules::record_pattern))]
    fn record_pattern(&self, cursor: &mut Cursor<'_>) -> Result<PatternTree, SyntaxFault>
        requires { B.is_ready self.now.below }
        ensures { Reads (rules.record_pattern (B.rules self.now.below) cursor.old) result cursor.new }
    {
        let at = cursor.place();
        cursor.expect_sign(Sign::Less)?;
        let names = self.below.names(cursor, at)?;
        let ((first, rest), ()) = keep(names, cursor.expect_sign(Sign::Greater))?;
        Ok(PatternTree::Record(at, first, rest))
    }

    /// `NAME` or `<NAME, NAME, ..>`
    #[tactic(auto, unfolding(opl_grammar::specs::Rules::pattern))]
    fn pattern(&self, cursor: &mut Cursor<'_>) -> Result<PatternTree, SyntaxFault>
        requires { B.is_ready self.now.below }
        ensures { Reads (rules.pattern (B.rules self.now.below) cursor.old) result cursor.new }
    {
        if cursor.sees_sign(Sign::Less) {
            self.record_pattern(cursor)
        } else {
            Ok(PatternTree::Single(name(self.alloc, cursor)?))
        }
    }

    /// `PATTERN, PATTERN, .. in SET`, with or without `ordered` before it
    #[tactic(auto, unfolding(opl_grammar::specs::Rules::group))]
    fn group(&self, cursor: &mut Cursor<'_>) -> Result<Boxed<GroupTree>, SyntaxFault>
        requires { B.is_ready self.now.below }
        ensures { Reads (rules.group (B.rules self.now.below) cursor.old) result cursor.new }
    {
        let at = cursor.place();
        let is_ordered = cursor.eat_word(Keyword::Ordered);
        let first = self.pattern(cursor)?;
        let patterns = keep(first, after_each(self.alloc, cursor, Sign::Comma, self))?;
        let (patterns, ()) = keep(patterns, cursor.expect_word(Keyword::In))?;
        let ((first, rest), set) = keep(patterns, self.set(cursor))?;
        let group = GroupTree {
            at,
            is_ordered,
            first,
            rest,
            set: set.into_inner(),
        };
        Ok(boxed(self.alloc, group)?)
    }

    /// `, GROUP` or `& GROUP`
    #[tactic(auto, unfolding(opl_grammar::specs::Rules::group_step))]
    fn group_step(&self, cursor: &mut Cursor<'_>) -> Result<GroupStep, SyntaxFault>
        requires { B.is_ready self.now.below }
        ensures { Reads (rules.group_step (B.rules self.now.below) cursor.old) result cursor.new }
    {
        let separator = cursor.take_found(separator(cursor.look()))?;
        let group = self.group(cursor)?.into_inner();
        Ok(GroupStep { separator, group })
    }

    /// `: EXPR`
    #[tactic(auto, unfolding(opl_grammar::specs::Rules::condition))]
    fn condition(&self, cursor: &mut Cursor<'_>) -> Result<Boxed<ExprTree>, SyntaxFault>
        requires { B.is_ready self.now.below }
        ensures { Reads (rules.condition (B.rules self.now.below) cursor.old) result cursor.new }
    {
        cursor.expect_sign(Sign::Colon)?;
        self.expr(cursor)
    }

    /// `: EXPR` or nothing
    fn optional_condition(
        &self,
        cursor: &mut Cursor<'_>,
    ) -> Result<Option<Boxed<ExprTree>>, SyntaxFault>
        requires { B.is_ready self.now.below }
        ensures { Reads (steps.maybe (steps.is_sign Sign.Colon) (rules.condition (B.rules self.now.below)) cursor.old) result cursor.new }
    {
        if cursor.sees_sign(Sign::Colon) {
            Ok(Some(self.condition(cursor)?))
        } else {
            Ok(None)
        }
    }

    /// `GROUP, GROUP & ..`, with or without `: EXPR`
    #[tactic(auto, unfolding(opl_grammar::specs::Rules::params))]
    pub fn params(&self, cursor: &mut Cursor<'_>) -> Result<Boxed<ParamsTree>, SyntaxFault>
        requires { B.is_ready self.now.below }
        ensures { Reads (rules.params (B.rules self.now.below) cursor.old) result cursor.new }
    {
        let at = cursor.place();
        let first = self.group(cursor)?;
        let groups = keep(first, many(self.alloc, cursor, self))?;
        let ((first, rest), condition) = keep(groups, self.optional_condition(cursor))?;
        let params = ParamsTree {
            at,
            first: first.into_inner(),
            rest,
            condition,
        };
        Ok(boxed(self.alloc, params)?)
    }

    /// `(PARAMS)`
    #[tactic(auto, unfolding(opl_grammar::specs::Rules::chosen))]
    pub fn chosen(&self, cursor: &mut Cursor<'_>) -> Result<Boxed<ParamsTree>, SyntaxFault>
        requires { B.is_ready self.now.below }
        ensures { Reads (rules.chosen (B.rules self.now.below) cursor.old) result cursor.new }
    {
        let at = cursor.place();
        cursor.expect_sign(Sign::OpenParenthesis)?;
        let params = self.below.params(cursor, at)?;
        let (params, ()) = keep(params, cursor.expect_sign(Sign::CloseParenthesis))?;
        Ok(params)
    }

    /// `ordered by increasing ADD` or `ordered by decreasing ADD`
    #[tactic(auto, unfolding(opl_grammar::specs::Rules::order))]
    fn order(&self, cursor: &mut Cursor<'_>) -> Result<OrderTree, SyntaxFault>
        requires { B.is_ready self.now.below }
        ensures { Reads (rules.order (B.rules self.now.below) cursor.old) result cursor.new }
    {
        let at = cursor.place();
        cursor.expect_word(Keyword::Ordered)?;
        cursor.expect_word(Keyword::By)?;
        let is_increasing = cursor.take_found(direction(cursor.look()))?;
        let key = self.add(cursor)?.into_inner();
        Ok(OrderTree {
            at,
            is_increasing,
            key,
        })
    }

    /// `ordered by increasing ADD` and the like, or nothing
    fn optional_order(&self, cursor: &mut Cursor<'_>) -> Result<Option<OrderTree>, SyntaxFault>
        requires { B.is_ready self.now.below }
        ensures { Reads (steps.maybe (steps.is_word Keyword.Ordered) (rules.order (B.rules self.now.below)) cursor.old) result cursor.new }
    {
        if cursor.sees_word(Keyword::Ordered) {
            Ok(Some(self.order(cursor)?))
        } else {
            Ok(None)
        }
    }

    /// `PARAMS` or `PARAMS ORDER`
    #[tactic(auto, unfolding(opl_grammar::specs::Rules::ordered_params))]
    #[inline(never)]
    pub fn ordered_params(
        &self,
        cursor: &mut Cursor<'_>,
    ) -> Result<Boxed<OrderedParamsTree>, SyntaxFault>
        requires { B.is_ready self.now.below }
        ensures { Reads (rules.ordered_params (B.rules self.now.below) cursor.old) result cursor.new }
    {
        let at = cursor.place();
        let params = self.params(cursor)?;
        let (params, order) = keep(params, self.optional_order(cursor))?;
        let ordered = OrderedParamsTree {
            at,
            params: params.into_inner(),
            order,
        };
        Ok(boxed(self.alloc, ordered)?)
    }
}

impl<B: Below> Phrase<PatternTree> for Level<B> {
    ghost phrase = { λ l. rules.pattern (B.rules l.below) };

    ghost is_ready = { λ l. B.is_ready l.below };

    fn phrase(&self, cursor: &mut Cursor<'_>) -> Result<PatternTree, SyntaxFault> {
        self.pattern(cursor)
    }
}

impl<B: Below> Part<GroupStep> for Level<B> {
    ghost begins = { λ _. tables.is_separator };

    ghost part = { λ l. rules.group_step (B.rules l.below) };

    ghost is_ready = { λ l. B.is_ready l.below };

    fn starts(&self, cursor: &Cursor<'_>) -> bool {
        separator(cursor.look()).is_some()
    }

    fn read(&self, cursor: &mut Cursor<'_>) -> Result<GroupStep, SyntaxFault> {
        self.group_step(cursor)
    }
}
