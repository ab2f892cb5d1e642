//! Why a list of tokens is not read.
ghost use Rattle.opl_tree.specs.declared.fault.SyntaxFault.TheVariants.{OutOfMemory};
ghost use Rattle.std.specs.Prelude.{◌≡◌};

use std::alloc::{AllocError, AllocFailed};
use thiserror::Error;

/// Why a parser gives no tree.
#[derive(Debug, Drop, Error)]
pub enum SyntaxFault {
    /// The tokens are no model; the byte offset tells where they stop being the beginning of one.
    #[error("syntax")]
    Syntax(u32),
    /// The tokens nest too many levels; the byte offset is that of the token that opens one too many.
    #[error("too deep")]
    TooDeep(u32),
    #[error("out of memory")]
    OutOfMemory,
}

impl From<AllocError> for SyntaxFault {
    ghost from_gives = { λ _ e. e ≡ OutOfMemory };

    fn from(_e: AllocError) -> SyntaxFault {
        SyntaxFault::OutOfMemory
    }
}

impl<T: Drop> From<AllocFailed<T>> for SyntaxFault {
    ghost from_gives = { λ _ e. e ≡ OutOfMemory };

    fn from(_e: AllocFailed<T>) -> SyntaxFault {
        SyntaxFault::OutOfMemory
    }
}
