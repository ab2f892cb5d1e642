//! What a case comes to: its texts are scanned, parsed, typed and bound.
use crate::case::Case;
use crate::fault::{push_bind_fault, push_scan_fault, push_syntax_fault, push_type_fault};
use crate::text::push_values;
use opl_bind::bind;
use opl_data::{DataTree, parse_data};
use opl_eval::Positions;
use opl_fields::fields;
use opl_list::Seq;
use opl_parse::parse_model;
use opl_token::{Token, scan};
use opl_tree::ModelTree;
use opl_types::{Typed, check};
use std::alloc::{AllocError, Global};

/// The most bytes that a text may have here.
const MOST: usize = 1 << 24;

/// The positions of the fields that a model names.
fn positions_of(alloc: Global, typed: &Typed) -> Result<Positions, AllocError> {
    let found = fields(alloc, typed)?;
    let mut positions = Positions::new(alloc);
    for field in found.as_slice() {
        let position = u32::try_from(field.position).map_err(|_| AllocError)?;
        positions.insert(field.place, position)?;
    }
    Ok(positions)
}

/// Adds what a model with types comes to under these data files.
fn push_bound(
    alloc: Global,
    text: &mut Vec<u8>,
    typed: &Typed,
    files: &[DataTree],
    case: &Case,
) -> Result<(), AllocError> {
    let positions = positions_of(alloc, typed)?;
    let decls = typed.tree.decls.as_slice();
    match bind(alloc, positions, decls, files, case.assigned.as_slice()) {
        Ok(data) => push_values(alloc, text, &data, decls),
        Err(fault) => push_bind_fault(text, &fault),
    }
}

/// Adds the tree of the tokens of a data file to `files`, or its fault to the text. The result is whether there is a tree.
fn read_tokens(
    alloc: Global,
    text: &mut Vec<u8>,
    files: &mut Seq<DataTree>,
    file: u32,
    tokens: &[Token],
    end: u32,
) -> Result<bool, AllocError> {
    match parse_data(alloc, tokens, end) {
        Ok(tree) => files.push(tree).map(|_| true),
        Err(fault) => push_syntax_fault(text, file, &fault).map(|_| false),
    }
}

/// Adds the tree of a data file to `files`, or its fault to the text. The result is whether there is a tree.
fn read_file(
    alloc: Global,
    text: &mut Vec<u8>,
    files: &mut Seq<DataTree>,
    bytes: &[u8],
) -> Result<bool, AllocError> {
    let file = u32::try_from(files.len())
        .map_err(|_| AllocError)?
        .saturating_add(1);
    if bytes.len() > MOST {
        return Err(AllocError);
    }
    match scan(alloc, bytes) {
        Ok(tokens) => read_tokens(
            alloc,
            text,
            files,
            file,
            tokens.as_slice(),
            bytes.len() as u32,
        ),
        Err(fault) => push_scan_fault(text, file, fault).map(|_| false),
    }
}

/// Adds the trees of data files to `files`, up to the first fault, which comes to the text. The result is whether there is none.
fn read_files(
    alloc: Global,
    text: &mut Vec<u8>,
    files: &mut Seq<DataTree>,
    case: &Case,
) -> Result<bool, AllocError> {
    for bytes in case.files.as_slice() {
        if !read_file(alloc, text, files, bytes.as_slice())? {
            return Ok(false);
        }
    }
    Ok(true)
}

/// Adds what a model with types comes to.
fn push_typed(
    alloc: Global,
    text: &mut Vec<u8>,
    typed: &Typed,
    case: &Case,
) -> Result<(), AllocError> {
    let mut files = Seq::new(alloc);
    match read_files(alloc, text, &mut files, case) {
        Ok(are_read) if are_read => push_bound(alloc, text, typed, files.as_slice(), case),
        Ok(_) => Ok(()),
        Err(e) => Err(e),
    }
}

/// Adds what a model comes to.
fn push_parsed(
    alloc: Global,
    text: &mut Vec<u8>,
    tree: ModelTree,
    case: &Case,
) -> Result<(), AllocError> {
    match check(alloc, tree) {
        Ok(typed) => {
            let pushed = push_typed(alloc, text, &typed, case);
            typed.let_go();
            pushed
        }
        Err(fault) => push_type_fault(text, &fault),
    }
}

/// Adds what the tokens of a model come to.
fn push_scanned(
    alloc: Global,
    text: &mut Vec<u8>,
    tokens: &[Token],
    case: &Case,
) -> Result<(), AllocError> {
    let end = u32::try_from(case.model.len()).map_err(|_| AllocError)?;
    match parse_model(alloc, tokens, end) {
        Ok(tree) => push_parsed(alloc, text, tree, case),
        Err(fault) => push_syntax_fault(text, 0, &fault),
    }
}

/// Adds what a case comes to.
pub fn push_outcome(alloc: Global, text: &mut Vec<u8>, case: &Case) -> Result<(), AllocError> {
    if case.model.len() > MOST {
        return Err(AllocError);
    }
    match scan(alloc, case.model.as_slice()) {
        Ok(tokens) => push_scanned(alloc, text, tokens.as_slice(), case),
        Err(fault) => push_scan_fault(text, 0, fault),
    }
}
