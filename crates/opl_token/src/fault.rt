//! Why a text has no tokens.
ghost use Rattle.opl_token.specs.declared.fault.ScanFault.TheVariants.{OutOfMemory};
ghost use Rattle.std.specs.Prelude.{◌≡◌};

use std::alloc::{AllocError, AllocFailed};
use thiserror::Error;

/// Why a text has no tokens. A place is the byte offset, from 0, of the first byte that no token, blank or comment
/// takes.
#[derive(Clone, Copy, Debug, Error)]
pub enum ScanFault {
    /// No lexeme begins with this byte.
    #[error("no lexeme begins at byte {0}")]
    BadByte(u32),
    /// `/*` with no `*/` behind it.
    #[error("the comment at byte {0} has no end")]
    OpenComment(u32),
    /// `"` with no text and further `"` behind it.
    #[error("the text at byte {0} has no end")]
    OpenString(u32),
    /// Digits whose value is greater than `2^127 - 1`.
    #[error("the number at byte {0} is too large")]
    NumberTooLarge(u32),
    #[error("out of memory")]
    OutOfMemory,
}

impl From<AllocError> for ScanFault {
    ghost from_gives = { λ _ e. e ≡ OutOfMemory };

    fn from(_e: AllocError) -> ScanFault {
        ScanFault::OutOfMemory
    }
}

impl<T: Drop> From<AllocFailed<T>> for ScanFault {
    ghost from_gives = { λ _ e. e ≡ OutOfMemory };

    fn from(_e: AllocFailed<T>) -> ScanFault {
        ScanFault::OutOfMemory
    }
}
