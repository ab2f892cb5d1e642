//! Whether tokens are the same.
use opl_token::{Kind, Token};

/// Whether two tokens are the same but for their places.
fn is_same(kind: &Kind, other: &Kind) -> bool {
    match other {
        Kind::Word(word) => kind.is_word(word.as_slice()),
        Kind::Sign(sign) => kind.is_sign(*sign),
        Kind::Number(value) => matches!(kind, Kind::Number(found) if found == value),
        Kind::Text(text) =>
            matches!(kind, Kind::Text(found) if found.as_slice() == text.as_slice()),
    }
}

/// Whether a list of tokens is another one but for the places.
pub fn are_same(kinds: &[Kind], tokens: &[Token]) -> bool {
    kinds.len() == tokens.len()
        && kinds
            .iter()
            .zip(tokens)
            .all(|(kind, token)| is_same(kind, &token.kind))
}
