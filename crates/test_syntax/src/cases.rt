//! Files of cases: a text a line, and a line for each of what is told of it.
use crate::escape::text_of_line;
use crate::item::tell_item;
use crate::reading::{Language, Measures, measured};
use crate::stop::{Stop, tell_stop};
use crate::token::tell_tokens;
use crate::word::{say, say_bytes, say_numbered};
use std::alloc::{AllocError, Global};

/// What is told of a text.
#[derive(Clone, Copy)]
pub enum Question {
    /// Its tokens.
    Tokens,
    /// How it reads.
    Tree(Language),
    /// What the first item of its model says.
    Item,
}

/// What is told of each text of a file, by the end of the file's name; nothing, where the file is itself a text.
pub fn question_of(name: &str) -> Option<Question> {
    if name.ends_with(".tokens") {
        Some(Question::Tokens)
    } else if name.ends_with(".models") {
        Some(Question::Tree(Language::Model))
    } else if name.ends_with(".data") {
        Some(Question::Tree(Language::Data))
    } else if name.ends_with(".items") {
        Some(Question::Item)
    } else {
        None
    }
}

/// Adds that a tree is not spelt as it was read, if so.
pub fn tell_sameness(found: Measures, out: &mut Vec<u8>) -> Result<(), AllocError> {
    if found.is_same {
        Ok(())
    } else {
        say(out, " otherwise")
    }
}

/// Adds the place and the depth of a tree.
fn tell_measures(found: Measures, out: &mut Vec<u8>) -> Result<(), AllocError> {
    say_numbered(out, "tree at", found.at)?;
    say_numbered(out, ", depth", found.depth)?;
    tell_sameness(found, out)
}

/// Adds how a text reads.
fn tell_tree(
    alloc: Global,
    language: Language,
    text: &[u8],
    out: &mut Vec<u8>,
) -> Result<(), Stop> {
    let found = measured(alloc, language, text)?;
    tell_measures(found, out).map_err(Stop::from)
}

/// Adds the answer to a question on a text.
fn answer(alloc: Global, question: Question, text: &[u8], out: &mut Vec<u8>) -> Result<(), Stop> {
    match question {
        Question::Tokens => tell_tokens(alloc, text, out),
        Question::Tree(language) => tell_tree(alloc, language, text, out),
        Question::Item => tell_item(alloc, text, out),
    }
}

/// Adds a line, and what is told of the text that it stands for. A line that begins with two `%` is a heading.
fn tell_case(
    alloc: Global,
    question: Question,
    line: &[u8],
    out: &mut Vec<u8>,
) -> Result<(), AllocError> {
    say_bytes(out, line)?;
    say(out, "\n")?;
    if line.starts_with(b"%%") {
        return Ok(());
    }
    say(out, "    ")?;
    let text = text_of_line(alloc, line)?;
    tell_stop(answer(alloc, question, text.as_slice(), out), out)?;
    say(out, "\n")
}

/// Adds the lines of a file, each with what is told of it.
pub fn tell_cases(
    alloc: Global,
    question: Question,
    lines: &[u8],
    out: &mut Vec<u8>,
) -> Result<(), AllocError> {
    let lines = lines.strip_suffix(b"\n").unwrap_or(lines);
    for line in lines.split(|byte| *byte == b'\n') {
        tell_case(alloc, question, line, out)?;
    }
    Ok(())
}
