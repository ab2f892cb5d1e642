//! A cursor over the tokens of a text.
ghost use Rattle.std.specs.Prelude.{◌≡◌, ◌+◌, suc};
ghost use Rattle.opl_grammar.specs.Input as spec;
ghost use Rattle.opl_tree.specs.Keywords.{keyword_of};
ghost use Rattle.opl_grammar.specs.Input.{Reads};
ghost use Rattle.opl_grammar.specs.Model as rules;

use crate::look::Look;
use opl_list::Seq;
use opl_token::{Kind, Sign, Token};
use opl_tree::{Keyword, Name, SyntaxFault, keyword_of};
use std::alloc::Global;
use std::marker::Model;

/// The tokens of a text that are not read yet, and the text's length.
#[derive(Drop)]
pub struct Cursor<'a> {
    tokens: &'a [Token],
    end: u32,
    /// What the grammar sees in the next token.
    next: Look,
}

impl<'a> Model for Cursor<'a> {
    ghost use Rattle.std.specs.Prelude.{◌≡◌};
    ghost use Rattle.opl_grammar.specs.Input.{Input, look, first_kind};

    ghost Value = { Input };

    ghost view = { λ c. record { tokens = c.tokens.now; end = c.end } };

    ghost invariant = { λ c. c.next ≡ look (first_kind c.tokens.now) };
}

/// What the grammar sees in a word.
fn look_of_word(text: &[u8]) -> Look
    ensures { result ≡ spec.look_of_word (keyword_of text.now) }
{
    match keyword_of(text) {
        Some(word) => Look::Word(word),
        None => Look::Name,
    }
}

/// What the grammar sees in the first of some tokens.
fn look_of(tokens: &[Token]) -> Look
    ensures { result ≡ spec.look (spec.first_kind tokens.now) }
{
    match tokens {
        [] => Look::Nothing,
        [token, ..] => match &token.kind {
            Kind::Word(text) => look_of_word(text.as_slice()),
            Kind::Number(value) if *value >= 0 => Look::Number,
            Kind::Sign(sign) => Look::Sign(*sign),
            _ => Look::Other,
        },
    }
}

impl<'a> Cursor<'a> {
    /// A cursor before the first token of a text with `end` bytes.
    pub fn new(tokens: &'a [Token], end: u32) -> Cursor<'a>
        ensures { result ≡ record { tokens = tokens.now; end = end } }
    {
        Cursor {
            tokens,
            end,
            next: look_of(tokens),
        }
    }

    /// What the grammar sees in the next token.
    pub fn look(&self) -> Look
        ensures { result ≡ spec.look (spec.kind self.now) }
    {
        self.next
    }

    /// The place of the next token, or the text's length where none is left.
    pub fn place(&self) -> u32
        ensures { result ≡ spec.place self.now }
    {
        match self.tokens {
            [token, ..] => token.at,
            [] => self.end,
        }
    }

    /// One more than the tokens that are left.
    pub fn turns(&self) -> usize
        ensures { result ≡ suc (spec.left self.now) }
    {
        self.tokens.len() + 1
    }

    /// The fault at the next token.
    pub fn refuse(&self) -> SyntaxFault
        ensures { result ≡ SyntaxFault.Syntax (spec.place self.now) }
    {
        SyntaxFault::Syntax(self.place())
    }

    /// Goes behind the next token.
    fn advance(&mut self)
        ensures { self.new ≡ spec.next self.old }
    {
        match self.tokens {
            [_, rest @ ..] => {
                self.tokens = rest;
                self.next = look_of(rest);
            }
            [] => {}
        }
    }

    /// Whether the next token is this sign.
    pub fn sees_sign(&self, sign: Sign) -> bool
        ensures { result ≡ spec.is_sign sign (spec.kind self.now) }
    {
        matches!(self.next, Look::Sign(found) if found == sign)
    }

    /// Whether the next token is this word of the language.
    pub fn sees_word(&self, word: Keyword) -> bool
        ensures { result ≡ spec.is_word word (spec.kind self.now) }
    {
        matches!(self.next, Look::Word(found) if found == word)
    }

    /// Whether the next token is a name.
    pub fn sees_name(&self) -> bool
        ensures { result ≡ spec.is_name (spec.kind self.now) }
    {
        matches!(self.next, Look::Name)
    }

    /// Whether the next token is a number.
    pub fn sees_number(&self) -> bool
        ensures { result ≡ spec.is_number (spec.kind self.now) }
    {
        matches!(self.next, Look::Number)
    }

    /// Takes the next token if something was found for it in a table.
    pub fn take_found<T: Copy>(&mut self, found: Option<T>) -> Result<T, SyntaxFault>
        ensures { Reads (spec.take_found found self.old) result self.new }
    {
        match found {
            Some(value) => {
                self.advance();
                Ok(value)
            }
            None => Err(self.refuse()),
        }
    }

    /// Takes this sign.
    pub fn expect_sign(&mut self, sign: Sign) -> Result<(), SyntaxFault>
        ensures { Reads (spec.sign sign self.old) result self.new }
    {
        if self.sees_sign(sign) {
            self.advance();
            Ok(())
        } else {
            Err(self.refuse())
        }
    }

    /// Takes this word of the language.
    pub fn expect_word(&mut self, word: Keyword) -> Result<(), SyntaxFault>
        ensures { Reads (spec.word word self.old) result self.new }
    {
        if self.sees_word(word) {
            self.advance();
            Ok(())
        } else {
            Err(self.refuse())
        }
    }

    /// Takes the sign, if it comes next, and says whether it did.
    pub fn eat_sign(&mut self, sign: Sign) -> bool
        ensures { spec.flag (spec.is_sign sign) (spec.sign sign) self.old ≡ Ok (result, self.new) }
    {
        let found = self.sees_sign(sign);
        if found {
            self.advance();
        }
        found
    }

    /// Takes the word of the language, if it comes next, and says whether it did.
    pub fn eat_word(&mut self, word: Keyword) -> bool
        ensures { spec.flag (spec.is_word word) (spec.word word) self.old ≡ Ok (result, self.new) }
    {
        let found = self.sees_word(word);
        if found {
            self.advance();
        }
        found
    }

    /// Takes a name, and gives its text.
    pub fn take_name(&mut self, alloc: Global) -> Result<Name, SyntaxFault>
        ensures { Reads (spec.one spec.name_in self.old) result self.new }
    {
        match self.tokens {
            [
                Token {
                    kind: Kind::Word(text),
                    ..
                },
                ..
            ] if self.sees_name() => {
                let text = Seq::from_slice(alloc, text.as_slice())?;
                self.advance();
                Ok(text)
            }
            _ => Err(self.refuse()),
        }
    }

    /// Takes a word of any kind, and gives its text.
    pub fn take_any(&mut self, alloc: Global) -> Result<Name, SyntaxFault>
        ensures { Reads (spec.one spec.any_in self.old) result self.new }
    {
        match self.tokens {
            [
                Token {
                    kind: Kind::Word(text),
                    ..
                },
                ..
            ] => {
                let text = Seq::from_slice(alloc, text.as_slice())?;
                self.advance();
                Ok(text)
            }
            _ => Err(self.refuse()),
        }
    }

    /// Takes a number, and gives its value.
    pub fn take_number(&mut self) -> Result<i128, SyntaxFault>
        ensures { Reads (spec.one spec.number_in self.old) result self.new }
    {
        match self.tokens {
            [
                Token {
                    kind: Kind::Number(value),
                    ..
                },
                ..
            ] if *value >= 0 => {
                let value = *value;
                self.advance();
                Ok(value)
            }
            _ => Err(self.refuse()),
        }
    }

    /// Finds no token left.
    pub fn finish(&mut self) -> Result<(), SyntaxFault>
        ensures { Reads (rules.finish self.old) result self.new }
    {
        match self.tokens {
            [] => Ok(()),
            _ => Err(self.refuse()),
        }
    }
}
