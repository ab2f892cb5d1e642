//! Products and sums.
ghost use Rattle.std.specs.Prelude.{◌≡◌, MatchResult};
ghost use Rattle.opl_grammar.specs.Input as steps;
ghost use Rattle.opl_grammar.specs.Input.{Reads};
ghost use Rattle.opl_grammar.specs.Rules as rules;
ghost use Rattle.opl_grammar.specs.Tables as tables;
ghost use Rattle.opl_tree.specs.declared.fault.SyntaxFault.TheVariants.{OutOfMemory};

use crate::below::{Below, Level};
use opl_grammar::keeping::{boxed, keep, with_last};
use opl_grammar::list::{Part, Phrase, after_each, many};
use opl_grammar::tables::{add_op, aggregate_op, mul_op};
use opl_grammar::{Cursor, Operand};
use opl_let_go::LetGo;
use opl_list::{Boxed, Seq};
use opl_token::Sign;
use opl_tree::{
    AddStep, AddTree, LastStep, MulStep, MulTree, OpenTree, SetTree, SignTree, SyntaxFault,
};
use std::alloc::Global;

/// A sign before an operand, whichever it is.
fn negative(alloc: Global, at: u32, operand: Operand) -> Result<Operand, SyntaxFault>
    ensures { MatchResult result (λ t. t ≡ rules.negative at operand) (λ fault. fault ≡ OutOfMemory) }
{
    match operand {
        Operand::Open(inner) => Ok(Operand::Open(boxed(alloc, OpenTree::NegativeOpen(at, inner))?)),
        Operand::Sign(inner) => Ok(Operand::Sign(boxed(alloc, SignTree::Negative(at, inner))?)),
    }
}

impl<B: Below> Level<B> {
    /// `- OPERAND`
    #[tactic(auto, unfolding(opl_grammar::specs::Rules::negated))]
    fn negated(&self, cursor: &mut Cursor<'_>) -> Result<Operand, SyntaxFault>
        requires { B.is_ready self.now.below }
        ensures { Reads (rules.negated (B.rules self.now.below) cursor.old) result cursor.new }
    {
        let at = cursor.place();
        cursor.expect_sign(Sign::Minus)?;
        let inner = self.below.operand(cursor, at)?;
        Ok(negative(self.alloc, at, inner)?)
    }

    /// `sum (PARAMS) MUL` and the like
    #[tactic(auto, unfolding(opl_grammar::specs::Rules::aggregate))]
    fn aggregate(&self, cursor: &mut Cursor<'_>) -> Result<Operand, SyntaxFault>
        requires { B.is_ready self.now.below }
        ensures { Reads (rules.aggregate (B.rules self.now.below) cursor.old) result cursor.new }
    {
        let at = cursor.place();
        let op = cursor.take_found(aggregate_op(cursor.look()))?;
        let (params, body) = self.below.aggregate(cursor, at)?;
        let aggregate = OpenTree::Aggregate(at, op, params, body);
        Ok(Operand::Open(boxed(self.alloc, aggregate)?))
    }

    /// An aggregate or a factor, with signs before it.
    #[tactic(auto, unfolding(opl_grammar::specs::Rules::operand))]
    pub fn operand(&self, cursor: &mut Cursor<'_>) -> Result<Operand, SyntaxFault>
        requires { B.is_ready self.now.below }
        ensures { Reads (rules.operand (B.rules self.now.below) cursor.old) result cursor.new }
    {
        if cursor.sees_sign(Sign::Minus) {
            self.negated(cursor)
        } else if aggregate_op(cursor.look()).is_some() {
            self.aggregate(cursor)
        } else {
            let factor = SignTree::Postfix(self.post(cursor)?);
            Ok(Operand::Sign(boxed(self.alloc, factor)?))
        }
    }

    /// The steps of a product.
    #[tactic(auto, unfolding(opl_grammar::specs::Rules::steps, opl_grammar::specs::Rules::steps_from))]
    fn steps(
        &self,
        cursor: &mut Cursor<'_>,
    ) -> Result<(Seq<MulStep>, Option<LastStep>), SyntaxFault>
        requires { B.is_ready self.now.below }
        ensures { Reads (rules.steps (B.rules self.now.below) cursor.old) result cursor.new }
    {
        let mut found = Seq::new(self.alloc);
        for _turn in 0..cursor.turns() {
            let Some(op) = mul_op(cursor.look()) else {
                return Ok((found, None));
            };
            let (before, op) = keep(found, cursor.take_found(Some(op)))?;
            let (before, operand) = keep(before, self.operand(cursor))?;
            match operand {
                Operand::Open(factor) => {
                    let factor = factor.into_inner();
                    return Ok((before, Some(LastStep { op, factor })));
                }
                Operand::Sign(factor) => {
                    let factor = factor.into_inner();
                    found = with_last(before, MulStep { op, factor })?;
                }
            }
        }
        found.let_go();
        Err(cursor.refuse())
    }

    /// `OPERAND`, or `FACTOR * FACTOR div .. OPERAND`
    #[tactic(auto, unfolding(opl_grammar::specs::Rules::mul))]
    pub fn mul(&self, cursor: &mut Cursor<'_>) -> Result<Boxed<MulTree>, SyntaxFault>
        requires { B.is_ready self.now.below }
        ensures { Reads (rules.mul (B.rules self.now.below) cursor.old) result cursor.new }
    {
        let at = cursor.place();
        match self.operand(cursor)? {
            Operand::Open(inner) => Ok(boxed(self.alloc, MulTree::Opened(inner.into_inner()))?),
            Operand::Sign(first) => {
                let (first, (steps, last)) = keep(first, self.steps(cursor))?;
                let product = MulTree::Product(at, first.into_inner(), steps, last);
                Ok(boxed(self.alloc, product)?)
            }
        }
    }

    /// `+ MUL` or `- MUL`
    #[tactic(auto, unfolding(opl_grammar::specs::Rules::add_step))]
    fn add_step(&self, cursor: &mut Cursor<'_>) -> Result<AddStep, SyntaxFault>
        requires { B.is_ready self.now.below }
        ensures { Reads (rules.add_step (B.rules self.now.below) cursor.old) result cursor.new }
    {
        let op = cursor.take_found(add_op(cursor.look()))?;
        let term = self.mul(cursor)?.into_inner();
        Ok(AddStep { op, term })
    }

    /// `MUL + MUL - ..`
    #[tactic(auto, unfolding(opl_grammar::specs::Rules::add))]
    pub fn add(&self, cursor: &mut Cursor<'_>) -> Result<Boxed<AddTree>, SyntaxFault>
        requires { B.is_ready self.now.below }
        ensures { Reads (rules.add (B.rules self.now.below) cursor.old) result cursor.new }
    {
        let at = cursor.place();
        let first = self.mul(cursor)?;
        let (first, rest) = keep(first, many(self.alloc, cursor, self))?;
        let sum = AddTree {
            at,
            first: first.into_inner(),
            rest,
        };
        Ok(boxed(self.alloc, sum)?)
    }

    /// `ADD, ADD, ..`
    #[tactic(auto, unfolding(opl_grammar::specs::Rules::adds))]
    pub fn adds(
        &self,
        cursor: &mut Cursor<'_>,
    ) -> Result<(Boxed<AddTree>, Seq<AddTree>), SyntaxFault>
        requires { B.is_ready self.now.below }
        ensures { Reads (rules.adds (B.rules self.now.below) cursor.old) result cursor.new }
    {
        let first = self.add(cursor)?;
        keep(first, after_each(self.alloc, cursor, Sign::Comma, self))
    }

    /// `..ADD`
    #[tactic(auto, unfolding(opl_grammar::specs::Rules::upper))]
    pub fn upper(&self, cursor: &mut Cursor<'_>) -> Result<Boxed<AddTree>, SyntaxFault>
        requires { B.is_ready self.now.below }
        ensures { Reads (rules.upper (B.rules self.now.below) cursor.old) result cursor.new }
    {
        cursor.expect_sign(Sign::Range)?;
        self.add(cursor)
    }

    /// `..ADD` or nothing
    pub fn optional_upper(
        &self,
        cursor: &mut Cursor<'_>,
    ) -> Result<Option<Boxed<AddTree>>, SyntaxFault>
        requires { B.is_ready self.now.below }
        ensures { Reads (steps.maybe (steps.is_sign Sign.Range) (rules.upper (B.rules self.now.below)) cursor.old) result cursor.new }
    {
        if cursor.sees_sign(Sign::Range) {
            Ok(Some(self.upper(cursor)?))
        } else {
            Ok(None)
        }
    }

    /// `ADD` or `ADD..ADD`
    #[tactic(auto, unfolding(opl_grammar::specs::Rules::set))]
    pub fn set(&self, cursor: &mut Cursor<'_>) -> Result<Boxed<SetTree>, SyntaxFault>
        requires { B.is_ready self.now.below }
        ensures { Reads (rules.set (B.rules self.now.below) cursor.old) result cursor.new }
    {
        let at = cursor.place();
        let low = self.add(cursor)?;
        let (low, high) = keep(low, self.optional_upper(cursor))?;
        let set = SetTree {
            at,
            low: low.into_inner(),
            high,
        };
        Ok(boxed(self.alloc, set)?)
    }
}

impl<B: Below> Part<AddStep> for Level<B> {
    ghost begins = { λ _. tables.is_add_op };

    ghost part = { λ l. rules.add_step (B.rules l.below) };

    ghost is_ready = { λ l. B.is_ready l.below };

    fn starts(&self, cursor: &Cursor<'_>) -> bool {
        add_op(cursor.look()).is_some()
    }

    fn read(&self, cursor: &mut Cursor<'_>) -> Result<AddStep, SyntaxFault> {
        self.add_step(cursor)
    }
}

impl<B: Below> Phrase<AddTree> for Level<B> {
    ghost phrase = { λ l. rules.add (B.rules l.below) };

    ghost is_ready = { λ l. B.is_ready l.below };

    fn phrase(&self, cursor: &mut Cursor<'_>) -> Result<AddTree, SyntaxFault> {
        Ok(self.add(cursor)?.into_inner())
    }
}
