//! What a call answers and writes, as text.
use opl_tool::Answer;
use std::alloc::AllocError;

/// The word for an answer.
fn word_of(answer: Answer) -> &'static str {
    match answer {
        Answer::Done => "Done",
        Answer::NoSolution => "NoSolution",
        Answer::Refused => "Refused",
        Answer::Spent => "Spent",
        Answer::ReadFault => "ReadFault",
        Answer::WriteFault => "WriteFault",
        Answer::OutOfMemory => "OutOfMemory",
        Answer::Rejected => "Rejected",
    }
}

/// Adds the line of an answer.
pub fn push_answer(text: &mut Vec<u8>, answer: Answer) -> Result<(), AllocError> {
    text.extend_from_slice(b"  ")?;
    text.extend_from_slice(word_of(answer).as_bytes())?;
    text.extend_from_slice(b"\n")?;
    Ok(())
}

/// Adds the lines that were written, each behind this name and a blank. Behind a last line that does not end stands ` ..`.
pub fn push_written(text: &mut Vec<u8>, name: &[u8], written: &[u8]) -> Result<(), AllocError> {
    let mut is_front = true;
    for byte in written {
        if is_front {
            text.extend_from_slice(name)?;
            text.extend_from_slice(b" ")?;
        }
        text.push(*byte)?;
        is_front = *byte == b'\n';
    }
    if !is_front {
        text.extend_from_slice(b" ..\n")?;
    }
    Ok(())
}
