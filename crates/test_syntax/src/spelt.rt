//! A text that is scanned to given tokens.
use itoa::Buffer;
use opl_token::Kind;
use std::alloc::{AllocError, Global};

/// Adds a token, and a blank behind it.
fn push(text: &mut Vec<u8>, kind: &Kind) -> Result<(), AllocError> {
    match kind {
        Kind::Word(word) => text.extend_from_slice(word.as_slice())?,
        Kind::Number(value) => text.extend_from_slice(Buffer::new().format(*value).as_bytes())?,
        Kind::Text(inside) => {
            text.push(b'"')?;
            text.extend_from_slice(inside.as_slice())?;
            text.push(b'"')?;
        }
        Kind::Sign(sign) => text.extend_from_slice(sign.text())?,
    }
    text.push(b' ')?;
    Ok(())
}

/// The tokens one behind the other, with a blank behind each.
pub fn text_of(alloc: Global, kinds: &[Kind]) -> Result<Vec<u8>, AllocError> {
    let mut text = Vec::new(alloc);
    for kind in kinds {
        push(&mut text, kind)?;
    }
    Ok(text)
}
