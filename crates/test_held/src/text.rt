//! The lines of outcomes.
use crate::condition::condition;
use crate::site::holds;
use itoa::Buffer;
use opl_eval::EvalFault;
use opl_term::Term;
use std::alloc::{AllocError, Global};

/// `KIND AT`
fn push_placed(text: &mut Vec<u8>, kind: &str, at: u32) -> Result<(), AllocError> {
    text.extend_from_slice(b"  ")?;
    text.extend_from_slice(kind.as_bytes())?;
    text.extend_from_slice(b" ")?;
    text.extend_from_slice(Buffer::new().format(at).as_bytes())?;
    text.extend_from_slice(b"\n")
}

/// The line of a fault without variables.
fn push_fault(text: &mut Vec<u8>, fault: &EvalFault) -> Result<(), AllocError> {
    match fault {
        EvalFault::DivByZero(at) => push_placed(text, "DivByZero", *at),
        EvalFault::OutOfIndex(at) => push_placed(text, "OutOfIndex", *at),
        EvalFault::TooLarge(at) => push_placed(text, "TooLarge", *at),
        EvalFault::EmptyMinMax(at) => push_placed(text, "EmptyMinMax", *at),
        EvalFault::OutOfMemory => Err(AllocError),
    }
}

/// The line of what a condition comes to.
fn push_answer(
    alloc: Global,
    text: &mut Vec<u8>,
    condition: &Term,
    number: i64,
) -> Result<(), AllocError> {
    match holds(alloc, condition, number) {
        Ok(Some(true)) => text.extend_from_slice(b"  holds\n"),
        Ok(Some(false)) => text.extend_from_slice(b"  fails\n"),
        Ok(None) => text.extend_from_slice(b"  undefined\n"),
        Err(fault) => push_fault(text, &fault),
    }
}

/// The line of what the condition of a text comes to where `x` has this number.
pub fn push_outcome(
    alloc: Global,
    text: &mut Vec<u8>,
    number: i64,
    written: &[u8],
) -> Result<(), AllocError> {
    match condition(alloc, written)? {
        Some(condition) => push_answer(alloc, text, condition.get(), number),
        None => text.extend_from_slice(b"  no condition\n"),
    }
}
