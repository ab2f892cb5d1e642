//! Readers of values, each over what stands one level deeper.
ghost use Rattle.std.specs.Prelude.{◌≡◌, suc, ⊤};
ghost use Rattle.opl_grammar.specs.Input.{Reads};
ghost use Rattle.opl_data.specs.Grammar as rules;
ghost use Rattle.opl_data.specs.Grammar.{Rules};
ghost use Rattle.opl_data.specs.Nests.{Nests};

use crate::tree::{DataPair, DataValue};
use opl_grammar::keeping::{keep, with_first};
use opl_grammar::list::{Phrase, after_each};
use opl_grammar::{Cursor, Look};
use opl_list::{Boxed, Seq};
use opl_token::Sign;
use opl_tree::{NameTree, SyntaxFault};
use std::alloc::Global;

/// Whether a value begins with what is seen.
fn starts_value(look: Look) -> bool
    ensures { result ≡ rules.value_begins look }
{
    matches!(
        look,
        Look::Name
            | Look::Number
            | Look::Sign(
                Sign::Minus
                    | Sign::Less
                    | Sign::OpenBrace
                    | Sign::OpenBracket
                    | Sign::OpenAssociation
            )
    )
}

/// `NAME`
#[tactic(auto, unfolding(crate::specs::Grammar::name))]
pub fn name(alloc: Global, cursor: &mut Cursor<'_>) -> Result<NameTree, SyntaxFault>
    ensures { Reads (rules.name cursor.old) result cursor.new }
{
    let at = cursor.place();
    let text = cursor.take_name(alloc)?;
    Ok(NameTree { at, text })
}

/// `NUMBER`
#[tactic(auto, unfolding(crate::specs::Grammar::number_value))]
fn number_value(cursor: &mut Cursor<'_>) -> Result<DataValue, SyntaxFault>
    ensures { Reads (rules.number_value cursor.old) result cursor.new }
{
    let at = cursor.place();
    let value = cursor.take_number()?;
    Ok(DataValue::Number(at, false, value))
}

/// The phrases that stand behind a token that opens a level. Each is given the place of that token.
pub trait Below {
    ghost rules: { Self → Rules };

    ghost is_ready: { Self → Type 0 };

    /// Behind `-`.
    fn number(&self, cursor: &mut Cursor<'_>, at: u32) -> Result<i128, SyntaxFault>
        requires { is_ready self.now }
        ensures { Reads ((rules self.now).number at cursor.old) result cursor.new };

    /// Behind `<`.
    fn values(
        &self,
        cursor: &mut Cursor<'_>,
        at: u32,
    ) -> Result<(DataValue, Seq<DataValue>), SyntaxFault>
        requires { is_ready self.now }
        ensures { Reads ((rules self.now).values at cursor.old) result cursor.new };

    /// Behind `{` and `[`.
    fn listed(&self, cursor: &mut Cursor<'_>, at: u32) -> Result<Seq<DataValue>, SyntaxFault>
        requires { is_ready self.now }
        ensures { Reads ((rules self.now).listed at cursor.old) result cursor.new };

    /// Behind `#[`.
    fn keyed(&self, cursor: &mut Cursor<'_>, at: u32) -> Result<Seq<DataPair>, SyntaxFault>
        requires { is_ready self.now }
        ensures { Reads ((rules self.now).keyed at cursor.old) result cursor.new };
}

/// No level is left.
#[derive(Drop)]
pub struct NoLevel;

impl Below for NoLevel {
    ghost rules = { λ _. rules.no_level };

    ghost is_ready = { λ _. ⊤ };

    fn number(&self, _cursor: &mut Cursor<'_>, at: u32) -> Result<i128, SyntaxFault> {
        Err(SyntaxFault::TooDeep(at))
    }

    fn values(
        &self,
        _cursor: &mut Cursor<'_>,
        at: u32,
    ) -> Result<(DataValue, Seq<DataValue>), SyntaxFault> {
        Err(SyntaxFault::TooDeep(at))
    }

    fn listed(&self, _cursor: &mut Cursor<'_>, at: u32) -> Result<Seq<DataValue>, SyntaxFault> {
        Err(SyntaxFault::TooDeep(at))
    }

    fn keyed(&self, _cursor: &mut Cursor<'_>, at: u32) -> Result<Seq<DataPair>, SyntaxFault> {
        Err(SyntaxFault::TooDeep(at))
    }
}

/// What is read one level deeper, where so many levels are left there, by a function that reads a value.
#[derive(Drop)]
pub struct Next<F> {
    alloc: Global,
    levels: u32,
    read: F,
}

impl<F: Fn(Global, &mut Cursor<'_>, u32) -> Result<DataValue, SyntaxFault>> Phrase<DataValue>
    for Next<F> {
    ghost phrase = { λ n. rules.value_within n.levels };

    ghost is_ready = { λ n. Nests n.levels (F.pre n.read) (F.post n.read) };

    fn phrase(&self, cursor: &mut Cursor<'_>) -> Result<DataValue, SyntaxFault> {
        (self.read)(self.alloc, cursor, self.levels)
    }
}

/// `VALUE, VALUE, ..`
#[tactic(auto, unfolding(crate::specs::Grammar::values))]
fn values<V: Phrase<DataValue>>(
    alloc: Global,
    cursor: &mut Cursor<'_>,
    value: &V,
) -> Result<(DataValue, Seq<DataValue>), SyntaxFault>
    requires { V.is_ready value.now }
    ensures { Reads (rules.values (V.phrase value.now) cursor.old) result cursor.new }
{
    let first = value.phrase(cursor)?;
    keep(first, after_each(alloc, cursor, Sign::Comma, value))
}

/// `VALUE, VALUE, ..` or nothing
#[tactic(auto, unfolding(crate::specs::Grammar::listed))]
fn listed<V: Phrase<DataValue>>(
    alloc: Global,
    cursor: &mut Cursor<'_>,
    value: &V,
) -> Result<Seq<DataValue>, SyntaxFault>
    requires { V.is_ready value.now }
    ensures { Reads (rules.listed (V.phrase value.now) cursor.old) result cursor.new }
{
    if !starts_value(cursor.look()) {
        return Ok(Seq::new(alloc));
    }
    let (first, rest) = values(alloc, cursor, value)?;
    Ok(with_first(first, rest)?)
}

/// A pair of values.
#[derive(Drop)]
pub struct Pair<'v, V> {
    value: &'v V,
}

impl<'v, V: Phrase<DataValue>> Phrase<DataPair> for Pair<'v, V> {
    ghost phrase = { λ p. rules.pair (V.phrase p.value.now) };

    ghost is_ready = { λ p. V.is_ready p.value.now };

    #[tactic(auto, unfolding(crate::specs::Grammar::pair))]
    fn phrase(&self, cursor: &mut Cursor<'_>) -> Result<DataPair, SyntaxFault> {
        let at = cursor.place();
        let key = self.value.phrase(cursor)?;
        let (key, ()) = keep(key, cursor.expect_sign(Sign::Colon))?;
        let (key, value) = keep(key, self.value.phrase(cursor))?;
        Ok(DataPair { at, key, value })
    }
}

/// `VALUE:VALUE, VALUE:VALUE, ..`
#[tactic(auto, unfolding(crate::specs::Grammar::pairs))]
fn pairs<V: Phrase<DataValue>>(
    alloc: Global,
    cursor: &mut Cursor<'_>,
    value: &V,
) -> Result<Seq<DataPair>, SyntaxFault>
    requires { V.is_ready value.now }
    ensures { Reads (rules.pairs (V.phrase value.now) cursor.old) result cursor.new }
{
    let pair = Pair { value };
    let first = pair.phrase(cursor)?;
    let (first, rest) = keep(first, after_each(alloc, cursor, Sign::Comma, &pair))?;
    Ok(with_first(first, rest)?)
}

/// `VALUE:VALUE, VALUE:VALUE, ..` or nothing
#[tactic(auto, unfolding(crate::specs::Grammar::keyed))]
fn keyed<V: Phrase<DataValue>>(
    alloc: Global,
    cursor: &mut Cursor<'_>,
    value: &V,
) -> Result<Seq<DataPair>, SyntaxFault>
    requires { V.is_ready value.now }
    ensures { Reads (rules.keyed (V.phrase value.now) cursor.old) result cursor.new }
{
    if starts_value(cursor.look()) {
        pairs(alloc, cursor, value)
    } else {
        Ok(Seq::new(alloc))
    }
}

impl<F: Fn(Global, &mut Cursor<'_>, u32) -> Result<DataValue, SyntaxFault>> Below for Next<F> {
    ghost rules = { λ n. rules.level (rules.value_within n.levels) };

    ghost is_ready = { λ n. Nests n.levels (F.pre n.read) (F.post n.read) };

    #[tactic(auto, unfolding(crate::specs::Grammar::level))]
    fn number(&self, cursor: &mut Cursor<'_>, _at: u32) -> Result<i128, SyntaxFault> {
        cursor.take_number()
    }

    #[tactic(auto, unfolding(crate::specs::Grammar::level))]
    fn values(
        &self,
        cursor: &mut Cursor<'_>,
        _at: u32,
    ) -> Result<(DataValue, Seq<DataValue>), SyntaxFault> {
        values(self.alloc, cursor, self)
    }

    #[tactic(auto, unfolding(crate::specs::Grammar::level))]
    fn listed(&self, cursor: &mut Cursor<'_>, _at: u32) -> Result<Seq<DataValue>, SyntaxFault> {
        listed(self.alloc, cursor, self)
    }

    #[tactic(auto, unfolding(crate::specs::Grammar::level))]
    fn keyed(&self, cursor: &mut Cursor<'_>, _at: u32) -> Result<Seq<DataPair>, SyntaxFault> {
        keyed(self.alloc, cursor, self)
    }
}

/// The rules of one level.
#[derive(Drop)]
pub struct Level<B> {
    alloc: Global,
    /// What stands one level deeper.
    below: B,
}

impl<B: Below> Level<B> {
    /// `-NUMBER`
    #[tactic(auto, unfolding(crate::specs::Grammar::negative_value))]
    fn negative_value(&self, cursor: &mut Cursor<'_>) -> Result<DataValue, SyntaxFault>
        requires { B.is_ready self.now.below }
        ensures { Reads (rules.negative_value (B.rules self.now.below) cursor.old) result cursor.new }
    {
        let at = cursor.place();
        cursor.expect_sign(Sign::Minus)?;
        let value = self.below.number(cursor, at)?;
        Ok(DataValue::Number(at, true, value))
    }

    /// `<VALUE, VALUE, ..>`
    #[tactic(auto, unfolding(crate::specs::Grammar::record_value))]
    fn record_value(&self, cursor: &mut Cursor<'_>) -> Result<DataValue, SyntaxFault>
        requires { B.is_ready self.now.below }
        ensures { Reads (rules.record_value (B.rules self.now.below) cursor.old) result cursor.new }
    {
        let at = cursor.place();
        cursor.expect_sign(Sign::Less)?;
        let parts = self.below.values(cursor, at)?;
        let ((first, rest), ()) = keep(parts, cursor.expect_sign(Sign::Greater))?;
        let (rest, first) = keep(rest, Boxed::new(self.alloc, first))?;
        Ok(DataValue::Record(at, first, rest))
    }

    /// `{VALUE, VALUE, ..}`
    #[tactic(auto, unfolding(crate::specs::Grammar::set_value))]
    fn set_value(&self, cursor: &mut Cursor<'_>) -> Result<DataValue, SyntaxFault>
        requires { B.is_ready self.now.below }
        ensures { Reads (rules.set_value (B.rules self.now.below) cursor.old) result cursor.new }
    {
        let at = cursor.place();
        cursor.expect_sign(Sign::OpenBrace)?;
        let parts = self.below.listed(cursor, at)?;
        cursor.expect_sign(Sign::CloseBrace)?;
        Ok(DataValue::Set(at, parts))
    }

    /// `[VALUE, VALUE, ..]`
    #[tactic(auto, unfolding(crate::specs::Grammar::array_value))]
    fn array_value(&self, cursor: &mut Cursor<'_>) -> Result<DataValue, SyntaxFault>
        requires { B.is_ready self.now.below }
        ensures { Reads (rules.array_value (B.rules self.now.below) cursor.old) result cursor.new }
    {
        let at = cursor.place();
        cursor.expect_sign(Sign::OpenBracket)?;
        let parts = self.below.listed(cursor, at)?;
        cursor.expect_sign(Sign::CloseBracket)?;
        Ok(DataValue::Array(at, parts))
    }

    /// `#[VALUE:VALUE, VALUE:VALUE, ..]#`
    #[tactic(auto, unfolding(crate::specs::Grammar::keyed_value))]
    fn keyed_value(&self, cursor: &mut Cursor<'_>) -> Result<DataValue, SyntaxFault>
        requires { B.is_ready self.now.below }
        ensures { Reads (rules.keyed_value (B.rules self.now.below) cursor.old) result cursor.new }
    {
        let at = cursor.place();
        cursor.expect_sign(Sign::OpenAssociation)?;
        let parts = self.below.keyed(cursor, at)?;
        cursor.expect_sign(Sign::CloseAssociation)?;
        Ok(DataValue::KeyedArray(at, parts))
    }

    /// A value that begins with a sign.
    #[tactic(auto, unfolding(crate::specs::Grammar::sign_value))]
    fn sign_value(&self, cursor: &mut Cursor<'_>) -> Result<DataValue, SyntaxFault>
        requires { B.is_ready self.now.below }
        ensures { Reads (rules.sign_value (B.rules self.now.below) cursor.old) result cursor.new }
    {
        if cursor.sees_sign(Sign::Minus) {
            self.negative_value(cursor)
        } else if cursor.sees_sign(Sign::Less) {
            self.record_value(cursor)
        } else if cursor.sees_sign(Sign::OpenBrace) {
            self.set_value(cursor)
        } else if cursor.sees_sign(Sign::OpenBracket) {
            self.array_value(cursor)
        } else {
            self.keyed_value(cursor)
        }
    }

    /// `VALUE`
    #[tactic(auto, unfolding(crate::specs::Grammar::value))]
    fn value(&self, cursor: &mut Cursor<'_>) -> Result<DataValue, SyntaxFault>
        requires { B.is_ready self.now.below }
        ensures { Reads (rules.value (B.rules self.now.below) cursor.old) result cursor.new }
    {
        if cursor.sees_name() {
            Ok(DataValue::Named(name(self.alloc, cursor)?))
        } else if cursor.sees_number() {
            number_value(cursor)
        } else {
            self.sign_value(cursor)
        }
    }
}

/// A value, where so many levels may be opened.
#[tactic(auto, using(crate::proofs::Levels::no_level_left, crate::proofs::Levels::one_level))]
pub fn read_value(
    alloc: Global,
    cursor: &mut Cursor<'_>,
    levels: u32,
) -> Result<DataValue, SyntaxFault>
    ensures { Reads (rules.value_within levels cursor.old) result cursor.new }
{
    if levels == 0 {
        let below = NoLevel;
        return Level { alloc, below }.value(cursor);
    }
    let below = Next {
        alloc,
        levels: levels - 1,
        read: read_value,
    };
    Level { alloc, below }.value(cursor)
}
