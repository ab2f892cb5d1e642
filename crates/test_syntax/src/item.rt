//! What the first item of a model says.
use crate::stop::Stop;
use crate::term::tell_term;
use crate::token::{end_of, tokens_of};
use crate::word::say;
use opl_let_go::LetGo;
use opl_parse::parse_model;
use opl_term::expr_term;
use opl_token::Token;
use opl_tree::{ExprTree, InstrTree, ItemTree, ItemsTree, ModelTree};
use std::alloc::{AllocError, Global};

/// The first item, where it is an expression.
fn first_item(model: &ModelTree) -> Option<&ExprTree> {
    let InstrTree::Solve(_, block) = &model.instr else {
        return None;
    };
    let ItemsTree::Several(_, first, ..) = &block.items else {
        return None;
    };
    match first.get() {
        ItemTree::Constraint(t) => Some(t),
        _ => None,
    }
}

/// Adds what an expression says.
fn tell_expression(alloc: Global, t: &ExprTree, out: &mut Vec<u8>) -> Result<(), AllocError> {
    let term = expr_term(alloc, t)?;
    tell_term(term.get(), out)
}

/// Adds what the first item of a model says.
fn tell_first(alloc: Global, model: &ModelTree, out: &mut Vec<u8>) -> Result<(), AllocError> {
    match first_item(model) {
        Some(t) => tell_expression(alloc, t, out),
        None => say(out, "no expression"),
    }
}

/// Adds what the first item of the model says that these tokens are.
fn tell_read(alloc: Global, tokens: &[Token], end: u32, out: &mut Vec<u8>) -> Result<(), Stop> {
    match parse_model(alloc, tokens, end) {
        Ok(model) => {
            let told = tell_first(alloc, &model, out);
            model.let_go();
            told.map_err(Stop::from)
        }
        Err(fault) => Err(Stop::from(fault)),
    }
}

/// Adds what the first item of a text's model says.
pub fn tell_item(alloc: Global, text: &[u8], out: &mut Vec<u8>) -> Result<(), Stop> {
    let tokens = tokens_of(alloc, text)?;
    tell_read(alloc, tokens.as_slice(), end_of(text), out)
}
