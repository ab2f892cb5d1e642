//! The tree of a data file: the call of the parser, passed on. It stands apart from the crate that reads, so that wrong trees are tried
//! over a small crate.
#![tactic(auto)]

ghost use Rattle.opl_data.specs.Answers.{ParseAnswers};

pub use opl_data::DataTree;
use opl_token::Token;
use opl_tree::SyntaxFault;
use std::alloc::Global;

/// The tree of the tokens of a text with `end` bytes. `TooDeep` holds the place of the first token that opens a level
/// beyond `MAX_NESTING`. `Syntax` comes where there is no such token; it holds the place of the token that follows the longest
/// beginning of the tokens that a data file begins with, or `end` if none follows.
pub fn parse_data(alloc: Global, tokens: &[Token], end: u32) -> Result<DataTree, SyntaxFault>
    ensures { ParseAnswers tokens.now end result }
{
    opl_data::parse_data(alloc, tokens, end)
}
