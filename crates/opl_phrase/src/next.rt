//! The rules closed: one function that is passed to itself reads every level.
ghost use Rattle.std.specs.Prelude.{◌≡◌, true};
ghost use Rattle.opl_grammar.specs.Input.{Reads};
ghost use Rattle.opl_grammar.specs.Rules as rules;
ghost use Rattle.opl_phrase.specs.Nests as spec;
ghost use Rattle.opl_phrase.specs.Nests.{Nests};

use crate::wanted::{Found, Wanted};
use opl_grammar::keeping::{boxed, keep};
use opl_grammar::{Braced, Cursor, Operand};
use opl_level::{Below, Level, names};
use opl_list::{Boxed, Seq};
use opl_tree::{
    AddTree, DimTree, ExprTree, FieldTree, ImpTree, KeyedTree, MulTree, NameTree, NegTree,
    OrderedParamsTree, ParamsTree, PostTree, SyntaxFault, TypeTree,
};
use std::alloc::Global;

/// What is read with so many levels left, by a function that reads one level.
#[derive(Drop)]
pub struct Next<F> {
    pub alloc: Global,
    pub levels: u32,
    pub read: F,
}

impl<F: Fn(Global, &mut Cursor<'_>, u32, u32, Wanted) -> Result<Found, SyntaxFault>> Next<F> {
    /// What is wanted behind the token at this place.
    fn ask(&self, cursor: &mut Cursor<'_>, at: u32, wanted: Wanted) -> Result<Found, SyntaxFault>
        requires { Nests self.now.levels (F.pre self.now.read) (F.post self.now.read) }
        ensures { Reads (spec.read self.now.levels at wanted cursor.old) result cursor.new }
    {
        (self.read)(self.alloc, cursor, self.levels, at, wanted)
    }
}

impl<F: Fn(Global, &mut Cursor<'_>, u32, u32, Wanted) -> Result<Found, SyntaxFault>> Below
    for Next<F> {
    ghost rules = { λ n. rules.rules n.levels };

    ghost is_ready = { λ n. Nests n.levels (F.pre n.read) (F.post n.read) };

    #[tactic(auto, unfolding(crate::specs::Nests::read))]
    fn expr(&self, cursor: &mut Cursor<'_>, at: u32) -> Result<Boxed<ExprTree>, SyntaxFault> {
        match self.ask(cursor, at, Wanted::Expr)? {
            Found::Expr(found) => Ok(found),
            _ => unreachable!(),
        }
    }

    #[tactic(auto, unfolding(crate::specs::Nests::read))]
    fn add(&self, cursor: &mut Cursor<'_>, at: u32) -> Result<Boxed<AddTree>, SyntaxFault> {
        match self.ask(cursor, at, Wanted::Add)? {
            Found::Add(found) => Ok(found),
            _ => unreachable!(),
        }
    }

    #[tactic(auto, unfolding(crate::specs::Nests::read))]
    fn post(&self, cursor: &mut Cursor<'_>, at: u32) -> Result<Boxed<PostTree>, SyntaxFault> {
        match self.ask(cursor, at, Wanted::Post)? {
            Found::Post(found) => Ok(found),
            _ => unreachable!(),
        }
    }

    #[tactic(auto, unfolding(crate::specs::Nests::read))]
    fn params(&self, cursor: &mut Cursor<'_>, at: u32) -> Result<Boxed<ParamsTree>, SyntaxFault> {
        match self.ask(cursor, at, Wanted::Params)? {
            Found::Params(found) => Ok(found),
            _ => unreachable!(),
        }
    }

    #[tactic(auto, unfolding(crate::specs::Nests::read))]
    fn ordered(
        &self,
        cursor: &mut Cursor<'_>,
        at: u32,
    ) -> Result<Boxed<OrderedParamsTree>, SyntaxFault> {
        match self.ask(cursor, at, Wanted::Ordered)? {
            Found::Ordered(found) => Ok(found),
            _ => unreachable!(),
        }
    }

    #[tactic(auto, unfolding(crate::specs::Nests::read))]
    fn ends(
        &self,
        cursor: &mut Cursor<'_>,
        at: u32,
    ) -> Result<(Boxed<AddTree>, Option<Boxed<AddTree>>), SyntaxFault> {
        match self.ask(cursor, at, Wanted::Ends)? {
            Found::Ends(low, high) => Ok((low, high)),
            _ => unreachable!(),
        }
    }

    #[tactic(auto, unfolding(crate::specs::Nests::read))]
    fn imp(&self, cursor: &mut Cursor<'_>, at: u32) -> Result<Boxed<ImpTree>, SyntaxFault> {
        match self.ask(cursor, at, Wanted::Imp)? {
            Found::Imp(found) => Ok(found),
            _ => unreachable!(),
        }
    }

    #[tactic(auto, unfolding(crate::specs::Nests::read))]
    fn neg(&self, cursor: &mut Cursor<'_>, at: u32) -> Result<NegTree, SyntaxFault> {
        match self.ask(cursor, at, Wanted::Neg)? {
            Found::Neg(found) => Ok(found),
            _ => unreachable!(),
        }
    }

    #[tactic(auto, unfolding(crate::specs::Nests::read))]
    fn operand(&self, cursor: &mut Cursor<'_>, at: u32) -> Result<Operand, SyntaxFault> {
        match self.ask(cursor, at, Wanted::Operand)? {
            Found::Operand(found) => Ok(found),
            _ => unreachable!(),
        }
    }

    #[tactic(auto, unfolding(crate::specs::Nests::read))]
    fn aggregate(
        &self,
        cursor: &mut Cursor<'_>,
        at: u32,
    ) -> Result<(Boxed<ParamsTree>, Boxed<MulTree>), SyntaxFault> {
        match self.ask(cursor, at, Wanted::Aggregate)? {
            Found::Aggregate(first, second) => Ok((first, second)),
            _ => unreachable!(),
        }
    }

    #[tactic(auto, unfolding(crate::specs::Nests::read))]
    fn adds(
        &self,
        cursor: &mut Cursor<'_>,
        at: u32,
    ) -> Result<(Boxed<AddTree>, Seq<AddTree>), SyntaxFault> {
        match self.ask(cursor, at, Wanted::Adds)? {
            Found::Adds(first, second) => Ok((first, second)),
            _ => unreachable!(),
        }
    }

    #[tactic(auto, unfolding(crate::specs::Nests::read))]
    fn listed(&self, cursor: &mut Cursor<'_>, at: u32) -> Result<Seq<AddTree>, SyntaxFault> {
        match self.ask(cursor, at, Wanted::Listed)? {
            Found::Listed(found) => Ok(found),
            _ => unreachable!(),
        }
    }

    #[tactic(auto, unfolding(crate::specs::Nests::read))]
    fn keyed(&self, cursor: &mut Cursor<'_>, at: u32) -> Result<Seq<KeyedTree>, SyntaxFault> {
        match self.ask(cursor, at, Wanted::Keyed)? {
            Found::Keyed(found) => Ok(found),
            _ => unreachable!(),
        }
    }

    #[tactic(auto, unfolding(crate::specs::Nests::read))]
    fn braced(&self, cursor: &mut Cursor<'_>, at: u32) -> Result<Braced, SyntaxFault> {
        match self.ask(cursor, at, Wanted::Braced)? {
            Found::Braced(found) => Ok(found),
            _ => unreachable!(),
        }
    }

    #[tactic(auto, unfolding(crate::specs::Nests::read))]
    fn names(
        &self,
        cursor: &mut Cursor<'_>,
        at: u32,
    ) -> Result<(NameTree, Seq<NameTree>), SyntaxFault> {
        match self.ask(cursor, at, Wanted::Names)? {
            Found::Names(first, second) => Ok((first, second)),
            _ => unreachable!(),
        }
    }

    #[tactic(auto, unfolding(crate::specs::Nests::read))]
    fn type_tree(&self, cursor: &mut Cursor<'_>, at: u32) -> Result<TypeTree, SyntaxFault> {
        match self.ask(cursor, at, Wanted::Type)? {
            Found::Type(found) => Ok(found),
            _ => unreachable!(),
        }
    }

    #[tactic(auto, unfolding(crate::specs::Nests::read))]
    fn fields(
        &self,
        cursor: &mut Cursor<'_>,
        at: u32,
    ) -> Result<(FieldTree, Seq<FieldTree>), SyntaxFault> {
        match self.ask(cursor, at, Wanted::Fields)? {
            Found::Fields(first, rest) => Ok((first.into_inner(), rest)),
            _ => unreachable!(),
        }
    }

    #[tactic(auto, unfolding(crate::specs::Nests::read))]
    fn dims(
        &self,
        cursor: &mut Cursor<'_>,
        at: u32,
    ) -> Result<(DimTree, Seq<DimTree>), SyntaxFault> {
        match self.ask(cursor, at, Wanted::Dims)? {
            Found::Dims(first, rest) => Ok((first.into_inner(), rest)),
            _ => unreachable!(),
        }
    }
}

/// What stands behind `(`. Nothing else is asked of it.
#[tactic(auto, unfolding(opl_grammar::specs::Rules::level))]
#[inline(never)]
fn parenthesized<B: Below>(
    level: &Level<B>,
    cursor: &mut Cursor<'_>,
    at: u32,
    wanted: Wanted,
) -> Result<Found, SyntaxFault>
    requires ready { B.is_ready level.now.below }
    requires asked { spec.asks_parenthesized wanted ≡ true }
    ensures { Reads (spec.one_of (rules.level (B.rules level.now.below)) at wanted cursor.old) result cursor.new }
{
    match wanted {
        Wanted::Expr => Ok(Found::Expr(level.expr(cursor)?)),
        Wanted::Add => Ok(Found::Add(level.add(cursor)?)),
        Wanted::Post => {
            let found = level.post(cursor)?;
            Ok(Found::Post(boxed(level.alloc, found)?))
        }
        Wanted::Params => Ok(Found::Params(level.params(cursor)?)),
        Wanted::Ordered => Ok(Found::Ordered(level.ordered_params(cursor)?)),
        Wanted::Ends => {
            let (low, high) = level.ends(cursor)?;
            Ok(Found::Ends(low, high))
        }
        _ => unreachable!(),
    }
}

/// What stands behind an operator or the word of an aggregate. Nothing else is asked of it.
#[tactic(auto, unfolding(opl_grammar::specs::Rules::level))]
#[inline(never)]
fn operated<B: Below>(
    level: &Level<B>,
    cursor: &mut Cursor<'_>,
    at: u32,
    wanted: Wanted,
) -> Result<Found, SyntaxFault>
    requires ready { B.is_ready level.now.below }
    requires asked { spec.asks_operated wanted ≡ true }
    ensures { Reads (spec.one_of (rules.level (B.rules level.now.below)) at wanted cursor.old) result cursor.new }
{
    match wanted {
        Wanted::Imp => Ok(Found::Imp(level.imp(cursor)?)),
        Wanted::Neg => Ok(Found::Neg(level.neg(cursor)?)),
        Wanted::Operand => Ok(Found::Operand(level.operand(cursor)?)),
        Wanted::Aggregate => {
            let (first, second) = level.aggregated(cursor)?;
            Ok(Found::Aggregate(first, second))
        }
        _ => unreachable!(),
    }
}

/// A list of expressions. Nothing else is asked of it.
#[tactic(auto, unfolding(opl_grammar::specs::Rules::level))]
#[inline(never)]
fn listed_in<B: Below>(
    level: &Level<B>,
    cursor: &mut Cursor<'_>,
    at: u32,
    wanted: Wanted,
) -> Result<Found, SyntaxFault>
    requires ready { B.is_ready level.now.below }
    requires asked { spec.asks_listed_in wanted ≡ true }
    ensures { Reads (spec.one_of (rules.level (B.rules level.now.below)) at wanted cursor.old) result cursor.new }
{
    match wanted {
        Wanted::Adds => {
            let (first, second) = level.adds(cursor)?;
            Ok(Found::Adds(first, second))
        }
        Wanted::Listed => Ok(Found::Listed(level.listed(cursor)?)),
        Wanted::Keyed => Ok(Found::Keyed(level.keyed(cursor)?)),
        Wanted::Braced => Ok(Found::Braced(level.braced(cursor)?)),
        _ => unreachable!(),
    }
}

/// What stands in the brackets of declarations. Nothing else is asked of it.
#[tactic(auto, unfolding(opl_grammar::specs::Rules::level))]
#[inline(never)]
fn declared<B: Below>(
    level: &Level<B>,
    cursor: &mut Cursor<'_>,
    at: u32,
    wanted: Wanted,
) -> Result<Found, SyntaxFault>
    requires ready { B.is_ready level.now.below }
    requires asked { spec.asks_declared wanted ≡ true }
    ensures { Reads (spec.one_of (rules.level (B.rules level.now.below)) at wanted cursor.old) result cursor.new }
{
    match wanted {
        Wanted::Names => {
            let (first, rest) = names(level.alloc, cursor)?;
            Ok(Found::Names(first, rest))
        }
        Wanted::Type => Ok(Found::Type(level.type_tree(cursor)?)),
        Wanted::Fields => {
            let (first, rest) = level.fields(cursor)?;
            let (rest, first) = keep(rest, boxed(level.alloc, first))?;
            Ok(Found::Fields(first, rest))
        }
        Wanted::Dims => {
            let (first, rest) = level.dims(cursor)?;
            let (rest, first) = keep(rest, boxed(level.alloc, first))?;
            Ok(Found::Dims(first, rest))
        }
        _ => unreachable!(),
    }
}

/// What is wanted behind the token at this place.
fn one_of<B: Below>(
    level: &Level<B>,
    cursor: &mut Cursor<'_>,
    at: u32,
    wanted: Wanted,
) -> Result<Found, SyntaxFault>
    requires { B.is_ready level.now.below }
    ensures { Reads (spec.one_of (rules.level (B.rules level.now.below)) at wanted cursor.old) result cursor.new }
{
    match wanted {
        Wanted::Expr
        | Wanted::Add
        | Wanted::Post
        | Wanted::Params
        | Wanted::Ordered
        | Wanted::Ends => parenthesized(level, cursor, at, wanted),
        Wanted::Imp | Wanted::Neg | Wanted::Operand | Wanted::Aggregate => operated(
            level, cursor, at, wanted,
        ),
        Wanted::Adds | Wanted::Listed | Wanted::Keyed | Wanted::Braced => listed_in(
            level, cursor, at, wanted,
        ),
        _ => declared(level, cursor, at, wanted),
    }
}

/// What is wanted behind the token at this place, with so many levels left.
#[tactic(auto, using(crate::proofs::Levels::no_level_refuses, crate::proofs::Levels::one_level), unfolding(crate::specs::Nests::read))]
pub fn read(
    alloc: Global,
    cursor: &mut Cursor<'_>,
    levels: u32,
    at: u32,
    wanted: Wanted,
) -> Result<Found, SyntaxFault>
    ensures { Reads (spec.read levels at wanted cursor.old) result cursor.new }
{
    if levels == 0 {
        return Err(SyntaxFault::TooDeep(at));
    }
    let below = Next {
        alloc,
        levels: levels - 1,
        read,
    };
    one_of(&Level { alloc, below }, cursor, at, wanted)
}
