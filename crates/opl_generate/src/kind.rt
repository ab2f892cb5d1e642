//! What a generated model is called.
ghost use Rattle.std.specs.Prelude.{◌≡◌, IfOk};
ghost use Rattle.opl_generate.specs.Texts as spec;

use crate::number::push_number;
use opl_words::{Generated, Kind};
use std::alloc::{AllocError, Global};

/// The name of a kind of models, which stands as the name of a file in refusals.
pub fn kind_name(kind: Kind) -> &'static str
    ensures { result.now ≡ spec.kind_name kind }
{
    match kind {
        Kind::Queens => "queens",
        Kind::Chain => "chain",
    }
}

/// The first line of the summary of a generated model: its kind, its size and its seed.
pub fn head_text(alloc: Global, generated: &Generated) -> Result<Vec<u8>, AllocError>
    ensures { IfOk result (λ text. text.items ≡ spec.head_text generated.now) }
{
    let mut text = Vec::from_slice(alloc, b"Kind: ")?;
    text.extend_from_slice(kind_name(generated.kind).as_bytes())?;
    text.extend_from_slice(b" ")?;
    push_number(&mut text, generated.size)?;
    text.extend_from_slice(b" ")?;
    push_number(&mut text, generated.seed)?;
    text.extend_from_slice(b"\n")?;
    Ok(text)
}
