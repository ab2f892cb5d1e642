//! Comparisons and what joins them.
ghost use Rattle.std.specs.Prelude.{◌≡◌};
ghost use Rattle.opl_grammar.specs.Input as steps;
ghost use Rattle.opl_grammar.specs.Input.{Reads};
ghost use Rattle.opl_grammar.specs.Rules as rules;

use crate::below::{Below, Level};
use opl_grammar::Cursor;
use opl_grammar::keeping::{boxed, keep};
use opl_grammar::list::{Phrase, after_each};
use opl_grammar::tables::relation;
use opl_list::Boxed;
use opl_token::Sign;
use opl_tree::{
    AddTree, AndTree, CompareTree, ExprTree, ImpTree, Keyword, NegTree, OrTree, SyntaxFault,
};

impl<B: Below> Level<B> {
    /// `RELATION ADD`
    #[tactic(auto, unfolding(opl_grammar::specs::Rules::related))]
    fn related(
        &self,
        cursor: &mut Cursor<'_>,
        at: u32,
        left: Boxed<AddTree>,
    ) -> Result<CompareTree, SyntaxFault>
        requires { B.is_ready self.now.below }
        ensures { Reads (rules.related (B.rules self.now.below) at left cursor.old) result cursor.new }
    {
        let (left, op) = keep(left, cursor.take_found(relation(cursor.look())))?;
        let (left, right) = keep(left, self.add(cursor))?;
        Ok(CompareTree::Related(at, left, op, right))
    }

    /// `in SET`
    #[tactic(auto, unfolding(opl_grammar::specs::Rules::member))]
    fn member(
        &self,
        cursor: &mut Cursor<'_>,
        at: u32,
        left: Boxed<AddTree>,
    ) -> Result<CompareTree, SyntaxFault>
        requires { B.is_ready self.now.below }
        ensures { Reads (rules.member (B.rules self.now.below) at left cursor.old) result cursor.new }
    {
        let (left, ()) = keep(left, cursor.expect_word(Keyword::In))?;
        let (left, set) = keep(left, self.set(cursor))?;
        Ok(CompareTree::Member(at, left, set))
    }

    /// What a comparison that begins with this sum at this place is.
    #[tactic(auto, unfolding(opl_grammar::specs::Rules::compare_of))]
    fn compare_of(
        &self,
        cursor: &mut Cursor<'_>,
        at: u32,
        left: Boxed<AddTree>,
    ) -> Result<CompareTree, SyntaxFault>
        requires { B.is_ready self.now.below }
        ensures { Reads (rules.compare_of (B.rules self.now.below) at left cursor.old) result cursor.new }
    {
        if relation(cursor.look()).is_some() {
            self.related(cursor, at, left)
        } else if cursor.sees_word(Keyword::In) {
            self.member(cursor, at, left)
        } else {
            Ok(CompareTree::Single(at, left))
        }
    }

    /// `ADD`, `ADD RELATION ADD` or `ADD in SET`
    #[tactic(auto, unfolding(opl_grammar::specs::Rules::compare))]
    fn compare(&self, cursor: &mut Cursor<'_>) -> Result<CompareTree, SyntaxFault>
        requires { B.is_ready self.now.below }
        ensures { Reads (rules.compare (B.rules self.now.below) cursor.old) result cursor.new }
    {
        let at = cursor.place();
        let left = self.add(cursor)?;
        self.compare_of(cursor, at, left)
    }

    /// `not NEG`
    #[tactic(auto, unfolding(opl_grammar::specs::Rules::negation))]
    fn negation(&self, cursor: &mut Cursor<'_>) -> Result<NegTree, SyntaxFault>
        requires { B.is_ready self.now.below }
        ensures { Reads (rules.negation (B.rules self.now.below) cursor.old) result cursor.new }
    {
        let at = cursor.place();
        cursor.expect_word(Keyword::Not)?;
        let inner = self.below.neg(cursor, at)?;
        Ok(NegTree::Not(at, boxed(self.alloc, inner)?))
    }

    /// `not NEG`, or a comparison
    #[tactic(auto, unfolding(opl_grammar::specs::Rules::neg))]
    pub fn neg(&self, cursor: &mut Cursor<'_>) -> Result<NegTree, SyntaxFault>
        requires { B.is_ready self.now.below }
        ensures { Reads (rules.neg (B.rules self.now.below) cursor.old) result cursor.new }
    {
        if cursor.sees_word(Keyword::Not) {
            self.negation(cursor)
        } else {
            Ok(NegTree::Compare(self.compare(cursor)?))
        }
    }

    /// `NEG & NEG & ..`
    #[tactic(auto, unfolding(opl_grammar::specs::Rules::and))]
    fn and(&self, cursor: &mut Cursor<'_>) -> Result<AndTree, SyntaxFault>
        requires { B.is_ready self.now.below }
        ensures { Reads (rules.and (B.rules self.now.below) cursor.old) result cursor.new }
    {
        let at = cursor.place();
        let first = self.neg(cursor)?;
        let (first, rest) = keep(first, after_each(self.alloc, cursor, Sign::And, self))?;
        Ok(AndTree { at, first, rest })
    }

    /// `AND \/ AND \/ ..`
    #[tactic(auto, unfolding(opl_grammar::specs::Rules::or))]
    fn or(&self, cursor: &mut Cursor<'_>) -> Result<OrTree, SyntaxFault>
        requires { B.is_ready self.now.below }
        ensures { Reads (rules.or (B.rules self.now.below) cursor.old) result cursor.new }
    {
        let at = cursor.place();
        let first = self.and(cursor)?;
        let (first, rest) = keep(first, after_each(self.alloc, cursor, Sign::Or, self))?;
        Ok(OrTree { at, first, rest })
    }

    /// `=> IMP`
    #[tactic(auto, unfolding(opl_grammar::specs::Rules::conclusion))]
    fn conclusion(&self, cursor: &mut Cursor<'_>) -> Result<Boxed<ImpTree>, SyntaxFault>
        requires { B.is_ready self.now.below }
        ensures { Reads (rules.conclusion (B.rules self.now.below) cursor.old) result cursor.new }
    {
        let at = cursor.place();
        cursor.expect_sign(Sign::Implies)?;
        self.below.imp(cursor, at)
    }

    /// `=> IMP` or nothing
    fn optional_conclusion(
        &self,
        cursor: &mut Cursor<'_>,
    ) -> Result<Option<Boxed<ImpTree>>, SyntaxFault>
        requires { B.is_ready self.now.below }
        ensures { Reads (steps.maybe (steps.is_sign Sign.Implies) (rules.conclusion (B.rules self.now.below)) cursor.old) result cursor.new }
    {
        if cursor.sees_sign(Sign::Implies) {
            Ok(Some(self.conclusion(cursor)?))
        } else {
            Ok(None)
        }
    }

    /// `OR` or `OR => IMP`
    #[tactic(auto, unfolding(opl_grammar::specs::Rules::imp))]
    pub fn imp(&self, cursor: &mut Cursor<'_>) -> Result<Boxed<ImpTree>, SyntaxFault>
        requires { B.is_ready self.now.below }
        ensures { Reads (rules.imp (B.rules self.now.below) cursor.old) result cursor.new }
    {
        let at = cursor.place();
        let premise = self.or(cursor)?;
        let (premise, conclusion) = keep(premise, self.optional_conclusion(cursor))?;
        let implication = ImpTree {
            at,
            premise,
            conclusion,
        };
        Ok(boxed(self.alloc, implication)?)
    }

    /// `IMP <=> IMP <=> ..`
    #[tactic(auto, unfolding(opl_grammar::specs::Rules::expr))]
    pub fn expr(&self, cursor: &mut Cursor<'_>) -> Result<Boxed<ExprTree>, SyntaxFault>
        requires { B.is_ready self.now.below }
        ensures { Reads (rules.expr (B.rules self.now.below) cursor.old) result cursor.new }
    {
        let at = cursor.place();
        let first = self.imp(cursor)?;
        let (first, rest) = keep(
            first,
            after_each(self.alloc, cursor, Sign::Equivalent, self),
        )?;
        let equivalence = ExprTree {
            at,
            first: first.into_inner(),
            rest,
        };
        Ok(boxed(self.alloc, equivalence)?)
    }
}

impl<B: Below> Phrase<NegTree> for Level<B> {
    ghost phrase = { λ l. rules.neg (B.rules l.below) };

    ghost is_ready = { λ l. B.is_ready l.below };

    fn phrase(&self, cursor: &mut Cursor<'_>) -> Result<NegTree, SyntaxFault> {
        self.neg(cursor)
    }
}

impl<B: Below> Phrase<AndTree> for Level<B> {
    ghost phrase = { λ l. rules.and (B.rules l.below) };

    ghost is_ready = { λ l. B.is_ready l.below };

    fn phrase(&self, cursor: &mut Cursor<'_>) -> Result<AndTree, SyntaxFault> {
        self.and(cursor)
    }
}

impl<B: Below> Phrase<ImpTree> for Level<B> {
    ghost phrase = { λ l. rules.imp (B.rules l.below) };

    ghost is_ready = { λ l. B.is_ready l.below };

    fn phrase(&self, cursor: &mut Cursor<'_>) -> Result<ImpTree, SyntaxFault> {
        Ok(self.imp(cursor)?.into_inner())
    }
}
