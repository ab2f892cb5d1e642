//! The text of a generated model.
ghost use Rattle.std.specs.Prelude.{◌≡◌, IfOk};
ghost use Rattle.opl_generate.specs.Texts as spec;

use crate::chain::push_durations;
use crate::number::push_number;
use opl_words::{Generated, Kind};
use std::alloc::{AllocError, Global};

/// The model of the queens, behind its first line.
const QUEENS: &[u8] =
    b"range R 1..n;\nvar R q[R];\nsolve {\n  forall(ordered i,j in R) {\n    q[i] <> q[j];\n    q[i] + i <> q[j] + j;\n    q[i] - i <> q[j] - j;\n  };\n};\n";

/// The text of the queens on a board of `size` rows and columns.
fn queens_text(alloc: Global, size: u64) -> Result<Vec<u8>, AllocError>
    ensures { IfOk result (λ text. text.items ≡ spec.queens_text size) }
{
    let mut text = Vec::from_slice(alloc, b"int n = ")?;
    push_number(&mut text, size)?;
    text.extend_from_slice(b";\n")?;
    text.extend_from_slice(QUEENS)?;
    Ok(text)
}

/// The text of a chain of `size` activities.
fn chain_text(alloc: Global, size: u64, seed: u64) -> Result<Vec<u8>, AllocError>
    ensures { IfOk result (λ text. text.items ≡ spec.chain_text size seed) }
{
    let mut text = Vec::from_slice(alloc, b"range R 1..")?;
    push_number(&mut text, size)?;
    text.extend_from_slice(b";\nint d[R] = [")?;
    push_durations(&mut text, size, seed)?;
    text.extend_from_slice(b"];\nint s = sum(i in R : i < ")?;
    push_number(&mut text, size)?;
    text.extend_from_slice(b") d[i];\nvar int x[R] in 0..s + 1;\nsolve { forall(i in R : i < ")?;
    push_number(&mut text, size)?;
    text.extend_from_slice(b") x[i] + d[i] <= x[i + 1]; };\n")?;
    Ok(text)
}

/// The text of a generated model. That of the queens doesn't depend on the seed.
pub fn model_text(alloc: Global, generated: &Generated) -> Result<Vec<u8>, AllocError>
    ensures { IfOk result (λ text. text.items ≡ spec.model_text generated.now) }
{
    match generated.kind {
        Kind::Queens => queens_text(alloc, generated.size),
        Kind::Chain => chain_text(alloc, generated.size, generated.seed),
    }
}
