//! What a call answers.

/// What a call answers. Its line, for every answer but `Done` and `NoSolution`, stands on the sink of errors.
#[derive(Clone, Copy)]
pub enum Answer {
    /// The command ended; of `solve`, with a solution.
    Done,
    /// The search ended without a solution.
    NoSolution,
    /// The words, the file or its text are refused.
    Refused,
    /// The budget is spent.
    Spent,
    /// A file could not be read.
    ReadFault,
    /// The text or a file could not be written.
    WriteFault,
    /// Memory is wanting.
    OutOfMemory,
    /// A certificate is not valid.
    Rejected,
}
