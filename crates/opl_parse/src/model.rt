//! The parser of whole models.
ghost use Rattle.opl_parse.specs.Answers.{ParseAnswers};

use opl_grammar_model::read_model;
use opl_token::Token;
use opl_tree::{ModelTree, SyntaxFault};
use std::alloc::Global;

/// The tree of the tokens of a text with `end` bytes. `TooDeep` holds the place of the first token that opens a level
/// beyond `MAX_NESTING`. `Syntax` comes where there is no such token; it holds the place of the token that follows the longest
/// beginning of the tokens that a model begins with, or `end` if none follows.
#[tactic(auto, using(crate::proofs::TreeLaws::read_answers))]
pub fn parse_model(alloc: Global, tokens: &[Token], end: u32) -> Result<ModelTree, SyntaxFault>
    ensures { ParseAnswers tokens.now end result }
{
    read_model(alloc, tokens, end)
}
