//! How a call ends.
ghost use Rattle.opl_files.specs.declared.stop.Stop.TheVariants.{OutOfMemory};
ghost use Rattle.std.specs.Prelude.{◌≡◌};

use crate::refusal::{Fault, Refusal};
use std::alloc::{AllocError, AllocFailed};

/// Why a call ends with a line on the sink of errors.
#[derive(Drop)]
pub enum Stop {
    Refused(Refusal),
    /// The whole text is printed, up to where the budget is spent.
    Spent,
    ReadFault,
    WriteFault,
    OutOfMemory,
}

/// The refusal of the file with this number at a place.
pub fn refused(fault: Fault, file: usize, at: u32) -> Stop
    ensures { result ≡ Stop.Refused (Refusal.At fault file at) }
{
    Stop::Refused(Refusal::At(fault, file, at))
}

impl From<AllocError> for Stop {
    ghost from_gives = { λ _ e. e ≡ OutOfMemory };

    fn from(_e: AllocError) -> Stop {
        Stop::OutOfMemory
    }
}

impl<T: Drop> From<AllocFailed<T>> for Stop {
    ghost from_gives = { λ _ e. e ≡ OutOfMemory };

    fn from(_e: AllocFailed<T>) -> Stop {
        Stop::OutOfMemory
    }
}
