//! The line that a call puts on the sink of errors.
ghost use Rattle.std.specs.Prelude.{◌≡◌, ◌∷◌, [], get_or, map, string_bytes, IfOk};
ghost use Rattle.std.specs.Option.{option_map};
ghost use Rattle.opl_generate.specs.Texts.{kind_name as the_kind_name};
ghost use Rattle.opl_words.specs.Readings.{asked_of};
ghost use Rattle.opl_tool.specs.Asked.{budget_in, choices_asked, choices_of, files_asked};
ghost use Rattle.opl_tool.specs.Lines.{named_text, placed_text, word_of as the_word, word_of_item as the_item_word, refusal_line as the_refusal_line, refusal_text, spent_text, stop_text, answer_of as the_answer_of, Tells};

use crate::answer::Answer;
use itoa::Buffer;
use opl_files::{Fault, ItemFault, Refusal, Stop, name_at};
use opl_generate::kind_name;
use opl_outside::{OutsideError, Sink};
use opl_words::{Command, DEFAULT_BUDGET, FilesRequest, Generated, Request, request};
use std::alloc::{AllocError, Global};

/// The name of the file with this number among those of a command: 0 is the model's, the data files follow.
fn name_in<'a>(asked: &FilesRequest<'a>, file: usize) -> &'a [u8]
    ensures { result.now ≡ get_or (asked.now.model.now ∷ map (λ name. name.now) asked.now.files) file [] }
{
    if file == 0 {
        return asked.model.as_bytes();
    }
    name_at(asked.files.as_slice(), file - 1).as_bytes()
}

/// The name of a made model, which is its one file.
fn made_name(generated: &Generated, file: usize) -> &'static [u8]
    ensures { result.now ≡ get_or (the_kind_name generated.now.kind ∷ []) file [] }
{
    if file == 0 {
        return kind_name(generated.kind).as_bytes();
    }
    b""
}

/// The name of the file with this number, where the words ask for files.
fn name_of<'a>(asked: &Option<Request<'a>>, file: usize) -> &'a [u8]
    ensures { result.now ≡ get_or (files_asked (option_map asked_of asked.now)) file [] }
{
    match asked {
        None => b"",
        Some(Request::OverFiles(asked)) => name_in(asked, file),
        Some(Request::Generate(generated)) => made_name(generated, file),
        Some(Request::Help) => b"",
    }
}

/// How many choices a command allows.
fn choices_of(command: Command) -> u64
    ensures { result ≡ choices_of command }
{
    match command {
        Command::Solve(searching) => searching.budget,
        Command::Ground => 0,
    }
}

/// How many choices are asked for.
fn budget_at(asked: &Option<Request<'_>>) -> u64
    ensures { result ≡ choices_asked (option_map asked_of asked.now) }
{
    match asked {
        None => 0,
        Some(Request::OverFiles(asked)) => choices_of(asked.command),
        Some(Request::Generate(_)) => DEFAULT_BUDGET,
        Some(Request::Help) => 0,
    }
}

/// The line of a refusal that names a file or an item.
fn named_line(alloc: Global, kind: &str, name: &[u8]) -> Result<Vec<u8>, AllocError>
    ensures { IfOk result (λ line. line.items ≡ named_text kind.now name.now) }
{
    let mut line = Vec::from_slice(alloc, b"refused: ")?;
    line.extend_from_slice(kind.as_bytes())?;
    line.extend_from_slice(b" ")?;
    line.extend_from_slice(name)?;
    line.extend_from_slice(b"\n")?;
    Ok(line)
}

/// The line of a refusal at a place in a file.
fn placed_line(alloc: Global, kind: &str, file: &[u8], at: u32) -> Result<Vec<u8>, AllocError>
    ensures { IfOk result (λ line. line.items ≡ placed_text kind.now file.now at) }
{
    let mut line = Vec::from_slice(alloc, b"refused: ")?;
    line.extend_from_slice(kind.as_bytes())?;
    line.extend_from_slice(b" ")?;
    line.extend_from_slice(file)?;
    line.extend_from_slice(b" ")?;
    line.extend_from_slice(Buffer::new().format(at).as_bytes())?;
    line.extend_from_slice(b"\n")?;
    Ok(line)
}

/// The word for a fault.
fn word_of(fault: Fault) -> &'static str
    ensures { result.now ≡ the_word fault }
{
    match fault {
        Fault::BadByte => "BadByte",
        Fault::OpenComment => "OpenComment",
        Fault::OpenString => "OpenString",
        Fault::NumberTooLarge => "NumberTooLarge",
        Fault::Syntax => "Syntax",
        Fault::TooDeep => "TooDeep",
        Fault::Unknown => "Unknown",
        Fault::Duplicate => "Duplicate",
        Fault::NotData => "NotData",
        Fault::Mismatch => "Mismatch",
        Fault::NotYet => "NotYet",
        Fault::Shape => "Shape",
        Fault::Outside => "Outside",
        Fault::DivByZero => "DivByZero",
        Fault::OutOfIndex => "OutOfIndex",
        Fault::TooLarge => "TooLarge",
        Fault::EmptyMinMax => "EmptyMinMax",
        Fault::LimitVariables => "Limit Variables",
        Fault::LimitValue => "Limit Value",
        Fault::LimitDomain => "Limit Domain",
        Fault::LimitDomains => "Limit Domains",
        Fault::LimitDepth => "Limit Depth",
        Fault::LimitNodes => "Limit Nodes",
    }
}

/// The word for what is wrong with an item.
fn word_of_item(fault: ItemFault) -> &'static str
    ensures { result.now ≡ the_item_word fault }
{
    match fault {
        ItemFault::Given => "Given",
        ItemFault::Twice => "Twice",
        ItemFault::Missing => "Missing",
        ItemFault::Override => "Override",
    }
}

/// The line of a refusal of a call with these words.
fn refusal_line(alloc: Global, refusal: &Refusal, words: &[String]) -> Result<Vec<u8>, AllocError>
    ensures { IfOk result (λ line. line.items ≡ refusal_text refusal.now (map (λ word. string_bytes word) words.now)) }
{
    match request(alloc, words) {
        Ok(asked) => refusal_line_for(alloc, refusal, &asked),
        Err(error) => Err(error),
    }
}

/// The line of a spent budget in a call with these words.
fn spent_line(alloc: Global, words: &[String]) -> Result<Vec<u8>, AllocError>
    ensures { IfOk result (λ line. line.items ≡ spent_text (budget_in (map (λ word. string_bytes word) words.now))) }
{
    match request(alloc, words) {
        Ok(asked) => budget_line(alloc, budget_at(&asked)),
        Err(error) => Err(error),
    }
}

/// The line of a spent budget.
fn budget_line(alloc: Global, budget: u64) -> Result<Vec<u8>, AllocError>
    ensures { IfOk result (λ line. line.items ≡ spent_text budget) }
{
    let mut line = Vec::from_slice(alloc, b"spent: ")?;
    line.extend_from_slice(Buffer::new().format(budget).as_bytes())?;
    line.extend_from_slice(b"\n")?;
    Ok(line)
}

/// The line of a refusal of a call that asks for this.
fn refusal_line_for(
    alloc: Global,
    refusal: &Refusal,
    asked: &Option<Request<'_>>,
) -> Result<Vec<u8>, AllocError>
    ensures { IfOk result (λ line. line.items ≡ the_refusal_line refusal.now (files_asked (option_map asked_of asked.now))) }
{
    match refusal {
        Refusal::Words => Vec::from_slice(alloc, b"refused: Words\n"),
        Refusal::Absent(file) => named_line(alloc, "Absent", name_of(asked, *file)),
        Refusal::TooLong(file) => named_line(alloc, "TooLong", name_of(asked, *file)),
        Refusal::At(fault, file, at) => {
            placed_line(alloc, word_of(*fault), name_of(asked, *file), *at)
        }
        Refusal::Item(fault, name) => named_line(alloc, word_of_item(*fault), name.as_slice()),
    }
}

/// The answer of a call that ends so.
fn answer_of(stop: &Stop) -> Answer
    ensures { result ≡ the_answer_of stop.now }
{
    match stop {
        Stop::Refused(_) => Answer::Refused,
        Stop::Spent => Answer::Spent,
        Stop::ReadFault => Answer::ReadFault,
        Stop::WriteFault => Answer::WriteFault,
        Stop::OutOfMemory => Answer::OutOfMemory,
    }
}

/// Puts a line. A fault of the sink changes nothing in the answer, want of memory makes it that.
fn put_line<E: Sink>(alloc: Global, err: &mut E, line: &[u8], answer: Answer) -> Answer
    ensures { Tells (E.written err.old) (E.written err.new) (E.faults err.old) (E.faults err.new) line.now answer result }
{
    match err.put(alloc, line) {
        Ok(()) => answer,
        Err(OutsideError::Failed) => answer,
        Err(OutsideError::OutOfMemory) => Answer::OutOfMemory,
    }
}

/// Puts the line of a call that ends so, and gives its answer.
pub fn tell<E: Sink>(alloc: Global, err: &mut E, words: &[String], stop: Stop) -> Answer
    ensures { let given = map (λ word. string_bytes word) words.now in
        Tells (E.written err.old) (E.written err.new) (E.faults err.old) (E.faults err.new) (stop_text stop given) (the_answer_of stop) result }
{
    let answer = answer_of(&stop);
    match stop {
        Stop::Refused(refusal) => match refusal_line(alloc, &refusal, words) {
            Ok(line) => put_line(alloc, err, line.as_slice(), answer),
            Err(_) => Answer::OutOfMemory,
        },
        Stop::Spent => match spent_line(alloc, words) {
            Ok(line) => put_line(alloc, err, line.as_slice(), answer),
            Err(_) => Answer::OutOfMemory,
        },
        Stop::ReadFault => put_line(alloc, err, b"fault: read\n", answer),
        Stop::WriteFault => put_line(alloc, err, b"fault: write\n", answer),
        Stop::OutOfMemory => put_line(alloc, err, b"out of memory\n", answer),
    }
}
