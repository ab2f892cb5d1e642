//! The lines of faults: the kind, and the file's number (0 is the model) with the place in it or the name of the item.
use itoa::Buffer;
use opl_bind::BindFault;
use opl_eval::EvalFault;
use opl_token::ScanFault;
use opl_tree::SyntaxFault;
use opl_types::TypeFault;
use std::alloc::AllocError;

/// `KIND FILE AT`
fn push_placed(text: &mut Vec<u8>, kind: &str, file: u32, at: u32) -> Result<(), AllocError> {
    text.extend_from_slice(b"  ")?;
    text.extend_from_slice(kind.as_bytes())?;
    text.extend_from_slice(b" ")?;
    text.extend_from_slice(Buffer::new().format(file).as_bytes())?;
    text.extend_from_slice(b" ")?;
    text.extend_from_slice(Buffer::new().format(at).as_bytes())?;
    text.extend_from_slice(b"\n")
}

/// `KIND NAME`
fn push_named(text: &mut Vec<u8>, kind: &str, name: &[u8]) -> Result<(), AllocError> {
    text.extend_from_slice(b"  ")?;
    text.extend_from_slice(kind.as_bytes())?;
    text.extend_from_slice(b" ")?;
    text.extend_from_slice(name)?;
    text.extend_from_slice(b"\n")
}

/// The line of a fault of scanning.
pub fn push_scan_fault(text: &mut Vec<u8>, file: u32, fault: ScanFault) -> Result<(), AllocError> {
    match fault {
        ScanFault::BadByte(at) => push_placed(text, "BadByte", file, at),
        ScanFault::OpenComment(at) => push_placed(text, "OpenComment", file, at),
        ScanFault::OpenString(at) => push_placed(text, "OpenString", file, at),
        ScanFault::NumberTooLarge(at) => push_placed(text, "NumberTooLarge", file, at),
        ScanFault::OutOfMemory => Err(AllocError),
    }
}

/// The line of a fault of syntax.
pub fn push_syntax_fault(
    text: &mut Vec<u8>,
    file: u32,
    fault: &SyntaxFault,
) -> Result<(), AllocError> {
    match fault {
        SyntaxFault::Syntax(at) => push_placed(text, "Syntax", file, *at),
        SyntaxFault::TooDeep(at) => push_placed(text, "TooDeep", file, *at),
        SyntaxFault::OutOfMemory => Err(AllocError),
    }
}

/// The line of a fault of typing.
pub fn push_type_fault(text: &mut Vec<u8>, fault: &TypeFault) -> Result<(), AllocError> {
    match fault {
        TypeFault::Unknown(at) => push_placed(text, "Unknown", 0, *at),
        TypeFault::Duplicate(at) => push_placed(text, "Duplicate", 0, *at),
        TypeFault::Mismatch(at) => push_placed(text, "Mismatch", 0, *at),
        TypeFault::NotData(at) => push_placed(text, "NotData", 0, *at),
        TypeFault::OutOfMemory => Err(AllocError),
    }
}

/// The line of a fault of evaluation.
fn push_value_fault(text: &mut Vec<u8>, fault: &EvalFault) -> Result<(), AllocError> {
    match fault {
        EvalFault::DivByZero(at) => push_placed(text, "DivByZero", 0, *at),
        EvalFault::OutOfIndex(at) => push_placed(text, "OutOfIndex", 0, *at),
        EvalFault::TooLarge(at) => push_placed(text, "TooLarge", 0, *at),
        EvalFault::EmptyMinMax(at) => push_placed(text, "EmptyMinMax", 0, *at),
        EvalFault::OutOfMemory => Err(AllocError),
    }
}

/// The line of a fault of binding.
pub fn push_bind_fault(text: &mut Vec<u8>, fault: &BindFault) -> Result<(), AllocError> {
    match fault {
        BindFault::Given(name) => push_named(text, "Given", name.as_slice()),
        BindFault::Twice(name) => push_named(text, "Twice", name.as_slice()),
        BindFault::Missing(name) => push_named(text, "Missing", name.as_slice()),
        BindFault::Override(name) => push_named(text, "Override", name.as_slice()),
        BindFault::Shape(file, at) => push_placed(text, "Shape", *file, *at),
        BindFault::Outside(file, at) => push_placed(text, "Outside", *file, *at),
        BindFault::Eval(fault) => push_value_fault(text, fault),
        BindFault::OutOfMemory => Err(AllocError),
    }
}
