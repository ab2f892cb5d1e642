//! How a text reads, as a model or as a data file.
use crate::same::are_same;
use crate::spelt::text_of;
use crate::stop::Stop;
use crate::token::{end_of, tokens_of};
use opl_data::{DataTree, parse_data};
use opl_let_go::LetGo;
use opl_parse::parse_model;
use opl_token::{Kind, Seq, Token};
use opl_tree::ModelTree;
use opl_walk::{depth_data, depth_model, spell_data, spell_model};
use std::alloc::{AllocError, Global};

/// What a text is read as.
#[derive(Clone, Copy)]
pub enum Language {
    Model,
    Data,
}

/// What is told of a tree.
#[derive(Drop)]
struct Told {
    at: u32,
    depth: u32,
    /// The tokens that it is spelt with.
    kinds: Seq<Kind>,
}

/// A tree, and the tokens that it was read from.
#[derive(Drop)]
struct Reading {
    tokens: Seq<Token>,
    told: Told,
}

/// The place and the depth of a tree, and whether it is spelt as it was read, and what it is spelt as reads the same.
#[derive(Clone, Copy)]
pub struct Measures {
    pub at: u32,
    pub depth: u32,
    pub is_same: bool,
}

fn told_of_model(alloc: Global, tree: &ModelTree, depth: u32) -> Result<Told, Stop> {
    match spell_model(alloc, tree) {
        Ok(kinds) => Ok(Told {
            at: tree.at,
            depth,
            kinds,
        }),
        Err(e) => Err(Stop::from(e)),
    }
}

fn model(alloc: Global, tokens: &[Token], end: u32) -> Result<Told, Stop> {
    match parse_model(alloc, tokens, end) {
        Ok(tree) => {
            let depth = depth_model(&tree);
            let told = told_of_model(alloc, &tree, depth);
            tree.let_go();
            told
        }
        Err(fault) => Err(Stop::from(fault)),
    }
}

fn told_of_data(alloc: Global, tree: &DataTree, depth: u32) -> Result<Told, Stop> {
    match spell_data(alloc, tree) {
        Ok(kinds) => Ok(Told {
            at: tree.at,
            depth,
            kinds,
        }),
        Err(e) => Err(Stop::from(e)),
    }
}

fn data_file(alloc: Global, tokens: &[Token], end: u32) -> Result<Told, Stop> {
    match parse_data(alloc, tokens, end) {
        Ok(tree) => {
            let depth = depth_data(&tree);
            told_of_data(alloc, &tree, depth)
        }
        Err(fault) => Err(Stop::from(fault)),
    }
}

/// What is told of the tree of tokens.
fn told_of_tokens(
    alloc: Global,
    language: Language,
    tokens: &[Token],
    end: u32,
) -> Result<Told, Stop> {
    match language {
        Language::Model => model(alloc, tokens, end),
        Language::Data => data_file(alloc, tokens, end),
    }
}

/// How a text reads.
fn read_text(alloc: Global, language: Language, text: &[u8]) -> Result<Reading, Stop> {
    let tokens = tokens_of(alloc, text)?;
    match told_of_tokens(alloc, language, tokens.as_slice(), end_of(text)) {
        Ok(told) => Ok(Reading { tokens, told }),
        Err(stop) => Err(stop),
    }
}

/// Whether both are spelt as they were read, and the second is read from what the first is spelt as.
fn are_equal(first: &Reading, second: &Reading) -> bool {
    let kinds = first.told.kinds.as_slice();
    are_same(kinds, first.tokens.as_slice())
        && are_same(kinds, second.tokens.as_slice())
        && are_same(second.told.kinds.as_slice(), second.tokens.as_slice())
        && first.told.depth == second.told.depth
}

/// Whether a tree is spelt as it was read, and what it is spelt as reads the same.
fn is_read_again(alloc: Global, language: Language, first: &Reading) -> Result<bool, AllocError> {
    let text = text_of(alloc, first.told.kinds.as_slice())?;
    match read_text(alloc, language, text.as_slice()) {
        Ok(second) => Ok(are_equal(first, &second)),
        Err(Stop::At(..)) => Ok(false),
        Err(Stop::OutOfMemory) => Err(AllocError),
    }
}

/// How a text reads, and whether what its tree is spelt as reads the same.
pub fn measured(alloc: Global, language: Language, text: &[u8]) -> Result<Measures, Stop> {
    let first = read_text(alloc, language, text)?;
    match is_read_again(alloc, language, &first) {
        Ok(is_same) => Ok(Measures {
            at: first.told.at,
            depth: first.told.depth,
            is_same,
        }),
        Err(e) => Err(Stop::from(e)),
    }
}
