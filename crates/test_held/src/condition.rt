//! Conditions by their texts.
use opl_grammar::Cursor;
use opl_level::Level;
use opl_list::Boxed;
use opl_phrase::Phrases;
use opl_term::{Term, expr_term};
use opl_token::{Token, scan};
use std::alloc::{AllocError, Global};

/// The most bytes that a text may have here.
const MOST: usize = 1 << 24;

/// How many levels may be opened.
const LEVELS: u32 = 256;

/// The condition of these tokens; None where they begin with none.
fn parsed(alloc: Global, tokens: &[Token], end: u32) -> Result<Option<Boxed<Term>>, AllocError> {
    let level = Level {
        alloc,
        below: Phrases {
            alloc,
            levels: LEVELS,
        },
    };
    let mut cursor = Cursor::new(tokens, end);
    match level.expr(&mut cursor) {
        Ok(tree) => match expr_term(alloc, tree.get()) {
            Ok(term) => Ok(Some(term)),
            Err(e) => Err(e),
        },
        Err(_) => Ok(None),
    }
}

/// The condition of a text; None where it begins with none.
pub fn condition(alloc: Global, text: &[u8]) -> Result<Option<Boxed<Term>>, AllocError> {
    if text.len() > MOST {
        return Ok(None);
    }
    match scan(alloc, text) {
        Ok(tokens) => parsed(alloc, tokens.as_slice(), text.len() as u32),
        Err(_) => Ok(None),
    }
}
