//! A token: what it is, and where in the text it begins.
ghost use Rattle.opl_token.specs.Kinds as spec;
ghost use Rattle.std.specs.Prelude.{◌≡◌, ◌↔◌, IsTrue, IfOk};

use crate::sign::Sign;
use opl_list::Seq;
use std::alloc::{AllocError, Global};

/// A name, as the list of its bytes. Those that the scanner makes are ASCII; a file's name may have other bytes.
pub type Name = Seq<u8>;

/// What a token is.
#[derive(Drop)]
pub enum Kind {
    /// A letter or `_`, and the letters, digits and `_` behind it.
    Word(Name),
    /// A whole number that is not negative.
    Number(i128),
    /// What stands between two `"`.
    Text(Name),
    Sign(Sign),
}

/// A token of a text, with the byte offset, from 0, of its first byte.
#[derive(Drop)]
pub struct Token {
    pub kind: Kind,
    pub at: u32,
}

impl Kind {
    /// Whether this is `sign`.
    pub fn is_sign(&self, sign: Sign) -> bool
        ensures value { result ≡ spec.is_sign self.now sign }
        ensures same { IsTrue result ↔ (self.now ≡ Kind.Sign sign) }
    {
        matches!(self, Kind::Sign(found) if *found == sign)
    }

    /// Whether this is the word with these bytes.
    pub fn is_word(&self, word: &[u8]) -> bool
        ensures value { result ≡ spec.is_word self.now word.now }
        ensures same { IsTrue result ↔ (self.now ≡ Kind.Word word.now) }
    {
        matches!(self, Kind::Word(name) if name.as_slice() == word)
    }

    /// A copy of this kind.
    pub fn copy(&self, alloc: Global) -> Result<Kind, AllocError>
        ensures { IfOk result (λ kind. kind ≡ self.now) }
    {
        match self {
            Kind::Word(name) => Ok(Kind::Word(Name::from_slice(alloc, name.as_slice())?)),
            Kind::Number(value) => Ok(Kind::Number(*value)),
            Kind::Text(text) => Ok(Kind::Text(Name::from_slice(alloc, text.as_slice())?)),
            Kind::Sign(sign) => Ok(Kind::Sign(*sign)),
        }
    }
}
