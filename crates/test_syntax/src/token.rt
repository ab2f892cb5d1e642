//! The tokens of a text.
use crate::stop::Stop;
use crate::word::{say, say_bytes, say_number};
use opl_token::{Kind, Seq, Token, scan};
use std::alloc::{AllocError, Global};

/// Words and texts of more bytes are told by how many they are.
const MAX_SHOWN: usize = 100;

/// Longer texts are not read.
const MAX_BYTES: usize = 0x0fff_ffff;

/// The tokens of a text.
pub fn tokens_of(alloc: Global, text: &[u8]) -> Result<Seq<Token>, Stop> {
    if text.len() > MAX_BYTES {
        return Err(Stop::OutOfMemory);
    }
    scan(alloc, text).map_err(Stop::from)
}

/// The place behind a text that is read.
pub fn end_of(text: &[u8]) -> u32 {
    if text.len() > MAX_BYTES {
        u32::MAX
    } else {
        text.len() as u32
    }
}

/// Adds the tokens of a text, each behind its place.
pub fn tell_tokens(alloc: Global, text: &[u8], out: &mut Vec<u8>) -> Result<(), Stop> {
    let tokens = tokens_of(alloc, text)?;
    tell_each(alloc, tokens.as_slice(), out).map_err(Stop::from)
}

/// Adds tokens.
fn tell_each(alloc: Global, tokens: &[Token], out: &mut Vec<u8>) -> Result<(), AllocError> {
    if tokens.is_empty() {
        return say(out, "no token");
    }
    let mut is_first = true;
    for token in tokens {
        if !is_first {
            say(out, ", ")?;
        }
        is_first = false;
        say_number(out, token.at as i128)?;
        say(out, " ")?;
        tell_kind(alloc, &token.kind, out)?;
    }
    Ok(())
}

/// Adds what a token is.
fn tell_kind(alloc: Global, kind: &Kind, out: &mut Vec<u8>) -> Result<(), AllocError> {
    match kind {
        Kind::Word(name) => tell_bytes("word ", name.as_slice(), out),
        Kind::Number(value) => {
            say(out, "number ")?;
            say_number(out, *value)
        }
        Kind::Text(inside) => tell_bytes("text ", inside.as_slice(), out),
        Kind::Sign(sign) => {
            let name = format!(in alloc; "{sign:?}")?;
            say(out, name.as_str())
        }
    }
}

/// Adds a word or a text, in quotes.
fn tell_bytes(what: &str, bytes: &[u8], out: &mut Vec<u8>) -> Result<(), AllocError> {
    say(out, what)?;
    if bytes.len() > MAX_SHOWN {
        say(out, "of ")?;
        say_number(out, bytes.len() as i128)?;
        return say(out, " bytes");
    }
    say(out, "'")?;
    say_bytes(out, bytes)?;
    say(out, "'")
}
