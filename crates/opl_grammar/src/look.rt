//! What the grammar sees in a token.
use opl_token::Sign;
use opl_tree::Keyword;

/// What the grammar sees in the next token. The text of a name and the value of a number decide nothing.
#[derive(Clone, Copy)]
pub enum Look {
    /// No token is left.
    Nothing,
    Sign(Sign),
    /// A word of the language.
    Word(Keyword),
    /// Any other word.
    Name,
    /// A number that is not negative.
    Number,
    /// A token that no model has.
    Other,
}
