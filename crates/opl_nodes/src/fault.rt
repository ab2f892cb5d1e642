//! Why no form is made.
ghost use Rattle.opl_nodes.specs.declared.fault.FormFault.TheVariants.{OutOfMemory};
ghost use Rattle.std.specs.Prelude.{◌≡◌};
ghost use Rattle.opl_nodes.specs.Pieces.{told};

use opl_eval::EvalFault;
use std::alloc::{AllocError, AllocFailed};

/// Why no form is made. A place is the byte offset, from 0, of the first token of what is meant.
#[derive(Drop)]
pub enum FormFault {
    /// A fault of data.
    Eval(EvalFault),
    /// A magnitude of 2^127 and more, of the node at this place.
    TooLarge(u32),
    /// A form that nests more than 2048 deep, in the item at this place.
    Depth(u32),
    /// More than 4194304 nodes, in the item at this place.
    Nodes(u32),
    OutOfMemory,
}

impl From<EvalFault> for FormFault {
    ghost from_gives = { λ fault e. e ≡ told fault };

    fn from(fault: EvalFault) -> FormFault {
        match fault {
            EvalFault::OutOfMemory => FormFault::OutOfMemory,
            fault => FormFault::Eval(fault),
        }
    }
}

impl From<AllocError> for FormFault {
    ghost from_gives = { λ _ e. e ≡ OutOfMemory };

    fn from(_e: AllocError) -> FormFault {
        FormFault::OutOfMemory
    }
}

impl<T: Drop> From<AllocFailed<T>> for FormFault {
    ghost from_gives = { λ _ e. e ≡ OutOfMemory };

    fn from(_e: AllocFailed<T>) -> FormFault {
        FormFault::OutOfMemory
    }
}
