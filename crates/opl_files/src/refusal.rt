//! Why the words, the files or the model of a call are refused.
use opl_list::Seq;

/// What is wrong at a place in a file.
#[derive(Clone, Copy)]
pub enum Fault {
    /// A byte that begins no lexeme.
    BadByte,
    /// A comment without an end.
    OpenComment,
    /// A text without an end.
    OpenString,
    /// A number past the greatest one.
    NumberTooLarge,
    /// The tokens are no model or no data: the first that does not fit, or the text's length.
    Syntax,
    /// A token that opens a level of nesting too many.
    TooDeep,
    /// A name that is not visible where it is used, a field that is not there, or a name that is no type.
    Unknown,
    /// A name is declared that is visible already.
    Duplicate,
    /// A variable, an activity or a question where data is needed.
    NotData,
    /// An expression of a type that does not fit its place.
    Mismatch,
    /// A form that does not run today.
    NotYet,
    /// A value that has not the form, the number of elements or the keys of its type.
    Shape,
    /// A number outside its range type.
    Outside,
    /// A division by 0.
    DivByZero,
    /// A subscript that is in no index set.
    OutOfIndex,
    /// A number whose absolute value is too large.
    TooLarge,
    /// A least or a greatest of no numbers.
    EmptyMinMax,
    /// Too many decision variables.
    LimitVariables,
    /// An end of a declared set that is too far from 0.
    LimitValue,
    /// Too many values in a declared set.
    LimitDomain,
    /// Too many values in all declared sets.
    LimitDomains,
    /// A constraint that nests too deep.
    LimitDepth,
    /// Constraints with too many parts.
    LimitNodes,
}

/// What is wrong with an item of a model's data.
#[derive(Clone, Copy)]
pub enum ItemFault {
    /// Data files give a value to what does not await one.
    Given,
    /// Data files give a second value.
    Twice,
    /// No data file gives a value.
    Missing,
    /// A value that is assigned does not fit.
    Override,
}

/// Why a call is refused. Files are numbered: the model's is 0, the data files follow. A place is the byte offset of a
/// lexeme in its file.
#[derive(Drop)]
pub enum Refusal {
    /// The words are no command.
    Words,
    /// There is no file of this file's name.
    Absent(usize),
    /// The file has more bytes than are read.
    TooLong(usize),
    /// What is wrong, in which file, and at which place.
    At(Fault, usize, u32),
    /// What is wrong with the item of this name.
    Item(ItemFault, Seq<u8>),
}
