//! Why a text is told nothing of but where it stops.
use crate::word::say_numbered;
use opl_token::ScanFault;
use opl_tree::SyntaxFault;
use std::alloc::AllocError;

/// Why a text does not read.
#[derive(Clone, Copy)]
pub enum Stop {
    /// The kind of the fault, and its place.
    At(&'static str, u32),
    OutOfMemory,
}

impl From<AllocError> for Stop {
    fn from(_e: AllocError) -> Stop {
        Stop::OutOfMemory
    }
}

impl From<ScanFault> for Stop {
    fn from(fault: ScanFault) -> Stop {
        match fault {
            ScanFault::BadByte(at) => Stop::At("BadByte", at),
            ScanFault::OpenComment(at) => Stop::At("OpenComment", at),
            ScanFault::OpenString(at) => Stop::At("OpenString", at),
            ScanFault::NumberTooLarge(at) => Stop::At("NumberTooLarge", at),
            ScanFault::OutOfMemory => Stop::OutOfMemory,
        }
    }
}

impl From<SyntaxFault> for Stop {
    fn from(fault: SyntaxFault) -> Stop {
        match fault {
            SyntaxFault::Syntax(at) => Stop::At("Syntax", at),
            SyntaxFault::TooDeep(at) => Stop::At("TooDeep", at),
            SyntaxFault::OutOfMemory => Stop::OutOfMemory,
        }
    }
}

/// Adds the kind and the place of a fault, if that is what came of a text.
pub fn tell_stop(outcome: Result<(), Stop>, out: &mut Vec<u8>) -> Result<(), AllocError> {
    match outcome {
        Ok(()) => Ok(()),
        Err(Stop::At(kind, at)) => say_numbered(out, kind, at),
        Err(Stop::OutOfMemory) => Err(AllocError),
    }
}
