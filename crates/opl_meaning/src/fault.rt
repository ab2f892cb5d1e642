//! Why a model has no decision variables.
ghost use Rattle.opl_meaning.specs.declared.fault.MeaningFault.TheVariants.{OutOfMemory};
ghost use Rattle.std.specs.Prelude.{◌≡◌};

use opl_eval::EvalFault;
use std::alloc::{AllocError, AllocFailed};
use thiserror::Error;

/// Why the declarations of a model with data give no decision variables. A place is the byte offset, from 0, of a first token in the model's file.
#[derive(Debug, Drop, Error)]
pub enum MeaningFault {
    /// An end of a declared set, or an index set, has no value.
    #[error("no value")]
    Eval(EvalFault),
    /// With the variables of the declaration at this place there are more than 65,536.
    #[error("too many variables")]
    TooManyVariables(u32),
    /// An end of a declared set is below -2^62 or above 2^62, in the declaration at this place.
    #[error("an end of a declared set is too far from 0")]
    TooFar(u32),
    /// A declared set has more than 1,048,576 values, in the declaration at this place.
    #[error("a declared set has too many values")]
    TooWide(u32),
    /// With the values of a declared set there are more than 33,554,432, in the declaration at this place.
    #[error("declared sets have too many values together")]
    TooManyValues(u32),
    #[error("out of memory")]
    OutOfMemory,
}

impl From<AllocError> for MeaningFault {
    ghost from_gives = { λ _ e. e ≡ OutOfMemory };

    fn from(_e: AllocError) -> MeaningFault {
        MeaningFault::OutOfMemory
    }
}

impl<T: Drop> From<AllocFailed<T>> for MeaningFault {
    ghost from_gives = { λ _ e. e ≡ OutOfMemory };

    fn from(_e: AllocFailed<T>) -> MeaningFault {
        MeaningFault::OutOfMemory
    }
}
