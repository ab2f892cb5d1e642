//! Lists of parts, one loop for each of their two forms.
ghost use Rattle.std.specs.Prelude.{◌≡◌, Bool, Option};
ghost use Rattle.opl_grammar.specs.Input as spec;
ghost use Rattle.opl_grammar.specs.Input.{Parser, Reads, kind, ◌>>◌};
ghost use Rattle.opl_token.specs.declared.token.Kind.{Kind};

use crate::cursor::Cursor;
use crate::keeping::{keep, with_last};
use opl_let_go::LetGo;
use opl_list::Seq;
use opl_token::Sign;
use opl_tree::SyntaxFault;
use std::alloc::Global;

/// The parts of a list.
pub trait Part<T> {
    ghost begins: { Self → Option Kind → Bool };

    ghost part: { Self → Parser T };

    ghost is_ready: { Self → Type 0 };

    /// Whether a part begins with the next token.
    fn starts(&self, cursor: &Cursor<'_>) -> bool
        ensures { result ≡ begins self.now (kind cursor.now) };

    /// The next part.
    fn read(&self, cursor: &mut Cursor<'_>) -> Result<T, SyntaxFault>
        requires { is_ready self.now }
        ensures { Reads (part self.now cursor.old) result cursor.new };
}

/// A rule of the grammar.
pub trait Phrase<T> {
    ghost phrase: { Self → Parser T };

    ghost is_ready: { Self → Type 0 };

    /// What the rule reads next.
    fn phrase(&self, cursor: &mut Cursor<'_>) -> Result<T, SyntaxFault>
        requires { is_ready self.now }
        ensures { Reads (phrase self.now cursor.old) result cursor.new };
}

/// A phrase behind a sign.
#[derive(Drop)]
struct After<'p, P> {
    sign: Sign,
    phrase: &'p P,
}

impl<'p, T, P: Phrase<T>> Part<T> for After<'p, P> {
    ghost begins = { λ p. spec.is_sign p.sign };

    ghost part = { λ p. spec.sign p.sign >> P.phrase p.phrase.now };

    ghost is_ready = { λ p. P.is_ready p.phrase.now };

    fn starts(&self, cursor: &Cursor<'_>) -> bool {
        cursor.sees_sign(self.sign)
    }

    fn read(&self, cursor: &mut Cursor<'_>) -> Result<T, SyntaxFault> {
        cursor.expect_sign(self.sign)?;
        self.phrase.phrase(cursor)
    }
}

/// Phrases, each behind the sign.
pub fn after_each<T: LetGo, P: Phrase<T>>(
    alloc: Global,
    cursor: &mut Cursor<'_>,
    sign: Sign,
    phrase: &P,
) -> Result<Seq<T>, SyntaxFault>
    requires { P.is_ready phrase.now }
    ensures { Reads (spec.after_each sign (P.phrase phrase.now) cursor.old) result cursor.new }
{
    many(alloc, cursor, &After { sign, phrase })
}

/// Parts, as long as one begins.
#[tactic(auto, unfolding(crate::specs::Input::many, crate::specs::Input::many_from))]
pub fn many<T: LetGo, P: Part<T>>(
    alloc: Global,
    cursor: &mut Cursor<'_>,
    part: &P,
) -> Result<Seq<T>, SyntaxFault>
    requires { P.is_ready part.now }
    ensures { Reads (spec.many (P.begins part.now) (P.part part.now) cursor.old) result cursor.new }
{
    let mut found = Seq::new(alloc);
    for _turn in 0..cursor.turns() {
        if !part.starts(cursor) {
            return Ok(found);
        }
        let (before, next) = keep(found, part.read(cursor))?;
        found = with_last(before, next)?;
    }
    found.let_go();
    Err(cursor.refuse())
}

/// Parts, each behind the sign, and whether the sign stands once more behind them all.
#[tactic(auto, unfolding(crate::specs::Input::behind, crate::specs::Input::behind_from))]
pub fn behind<T: LetGo, P: Part<T>>(
    alloc: Global,
    cursor: &mut Cursor<'_>,
    sign: Sign,
    part: &P,
) -> Result<(Seq<T>, bool), SyntaxFault>
    requires { P.is_ready part.now }
    ensures { Reads (spec.behind sign (P.begins part.now) (P.part part.now) cursor.old) result cursor.new }
{
    let mut found = Seq::new(alloc);
    for _turn in 0..cursor.turns() {
        if !cursor.eat_sign(sign) {
            return Ok((found, false));
        }
        if !part.starts(cursor) {
            return Ok((found, true));
        }
        let (before, next) = keep(found, part.read(cursor))?;
        found = with_last(before, next)?;
    }
    found.let_go();
    Err(cursor.refuse())
}
