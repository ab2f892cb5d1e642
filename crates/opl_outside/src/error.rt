//! Why a call on the outside does not end well.
ghost use Rattle.opl_outside.specs.declared.error.OutsideError.TheVariants.{OutOfMemory};
ghost use Rattle.std.specs.Prelude.{◌≡◌};

use std::alloc::{AllocError, AllocFailed};
use thiserror::Error;

/// Why a call on a shelf or a sink does not end well.
#[derive(Debug, Drop, Error)]
pub enum OutsideError {
    /// The outside did not do it. The count of that kind of call has risen.
    #[error("the outside failed")]
    Failed,
    #[error("out of memory")]
    OutOfMemory,
}

impl From<AllocError> for OutsideError {
    ghost from_gives = { λ _ e. e ≡ OutOfMemory };

    fn from(_e: AllocError) -> OutsideError {
        OutsideError::OutOfMemory
    }
}

impl<T: Drop> From<AllocFailed<T>> for OutsideError {
    ghost from_gives = { λ _ e. e ≡ OutOfMemory };

    fn from(_e: AllocFailed<T>) -> OutsideError {
        OutsideError::OutOfMemory
    }
}
