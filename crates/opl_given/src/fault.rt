//! Why a model has no data values.
ghost use Rattle.opl_given.specs.declared.fault.BindFault.TheVariants.{OutOfMemory};
ghost use Rattle.std.specs.Prelude.{◌≡◌};

use opl_eval::EvalFault;
use opl_token::Name;
use std::alloc::{AllocError, AllocFailed};
use thiserror::Error;

/// Why a model has no data values. Files are numbered: 0 is the model, the data files follow from 1. A place is the byte offset,
/// from 0, of the first token of what is meant.
#[derive(Debug, Drop, Error)]
pub enum BindFault {
    /// A data file gives a value to a name that is not declared with `...`.
    #[error("given, but not awaited")]
    Given(Name),
    /// The data files give a second value to a name.
    #[error("given twice")]
    Twice(Name),
    /// No value is given to an item that awaits one.
    #[error("no value is given")]
    Missing(Name),
    /// In this file at this place stands a value that has not the form, the number of elements or the keys of its type.
    #[error("a value of another shape")]
    Shape(u32, u32),
    /// In this file at this place stands a number outside its range type.
    #[error("a number outside its range")]
    Outside(u32, u32),
    /// A value that was assigned to the item has no such element, or is outside its range type.
    #[error("an assigned value that does not fit")]
    Override(Name),
    /// An expression of the model has no value.
    #[error("no value")]
    Eval(EvalFault),
    #[error("out of memory")]
    OutOfMemory,
}

impl From<AllocError> for BindFault {
    ghost from_gives = { λ _ e. e ≡ OutOfMemory };

    fn from(_e: AllocError) -> BindFault {
        BindFault::OutOfMemory
    }
}

impl<T: Drop> From<AllocFailed<T>> for BindFault {
    ghost from_gives = { λ _ e. e ≡ OutOfMemory };

    fn from(_e: AllocFailed<T>) -> BindFault {
        BindFault::OutOfMemory
    }
}
