//! The words of a call.
ghost use Rattle.std.specs.Prelude.{◌≡◌, map, string_bytes, IfOk};
ghost use Rattle.std.specs.Option.{option_map};
ghost use Rattle.opl_words.specs.Readings.{asked_of, given_searching};
ghost use Rattle.opl_words.specs.Requests as spec;

use crate::call::{Command, FilesRequest, Generated, Kind, Request, Searching};
use crate::given::{files_alone, solve_words};
use crate::number::{count_of, seed_of, size_of};
use opl_list::Seq;
use std::alloc::{AllocError, Global};

/// How many choices there may be, where no budget is given.
pub const DEFAULT_BUDGET: u64 = 1_000_000;

/// The request of a command over files, the first of which is the model's; none without a file.
fn request_over<'a>(
    alloc: Global,
    command: Command,
    files: &[&'a str],
) -> Result<Option<Request<'a>>, AllocError>
    ensures { IfOk result (λ r. option_map asked_of r ≡ spec.asked command (map (λ file. file.now) files.now)) }
{
    match files {
        [model, rest @ ..] => Ok(Some(Request::OverFiles(FilesRequest {
            command,
            model: *model,
            files: Seq::from_slice(alloc, rest)?,
        }))),
        [] => Ok(None),
    }
}

/// The number of an option that may be left out; none where it is given and its word is no number.
fn number_given(word: Option<&str>) -> Option<Option<u64>>
    ensures { result ≡ spec.number_given (option_map (λ w. w.now) word.entry) }
{
    match word {
        Some(word) => Some(Some(count_of(word)?)),
        None => Some(None),
    }
}

/// What `solve` asks of its search, by its options; none where one of them is no number.
fn searching(limit: Option<&str>, budget: Option<&str>, is_improving: bool) -> Option<Searching>
    ensures { result ≡ given_searching (option_map (λ w. w.now) limit.entry) (option_map (λ w. w.now) budget.entry) is_improving }
{
    let budget = number_given(budget)?.unwrap_or(DEFAULT_BUDGET);
    let limit = number_given(limit)?;
    Some(Searching {
        budget,
        limit,
        is_improving,
    })
}

/// The request of `solve` with these words behind it.
fn solve_request<'a>(alloc: Global, words: &'a [String]) -> Result<Option<Request<'a>>, AllocError>
    ensures { IfOk result (λ r. option_map asked_of r ≡ spec.solve_request (map (λ word. string_bytes word) words.entry.now)) }
{
    match solve_words(alloc, words)? {
        Some(given) => match searching(given.limit, given.budget, given.is_improving) {
            Some(searching) => {
                request_over(alloc, Command::Solve(searching), given.files.as_slice())
            }
            None => Ok(None),
        },
        None => Ok(None),
    }
}

/// The request of `ground` with these words behind it.
fn ground_request<'a>(alloc: Global, words: &'a [String]) -> Result<Option<Request<'a>>, AllocError>
    ensures { IfOk result (λ r. option_map asked_of r ≡ spec.ground_request (map (λ word. string_bytes word) words.entry.now)) }
{
    match files_alone(alloc, words)? {
        Some(files) => request_over(alloc, Command::Ground, files.as_slice()),
        None => Ok(None),
    }
}

/// The kind of models by its name.
fn kind_of(word: &str) -> Option<Kind>
    ensures { result ≡ spec.kind_of word.now }
{
    match word {
        "queens" => Some(Kind::Queens),
        "chain" => Some(Kind::Chain),
        _ => None,
    }
}

/// The model that KIND, N and SEED name; none where the words are not these.
fn generated(words: &[&str]) -> Option<Generated>
    ensures { result ≡ spec.generated (map (λ word. word.now) words.now) }
{
    match words {
        [kind, size, seed] => Some(Generated {
            kind: kind_of(*kind)?,
            size: size_of(*size)?,
            seed: seed_of(*seed)?,
        }),
        _ => None,
    }
}

/// The request of `generate` with these words behind it.
fn generate_request<'a>(
    alloc: Global,
    words: &'a [String],
) -> Result<Option<Request<'a>>, AllocError>
    ensures { IfOk result (λ r. option_map asked_of r ≡ spec.generate_request (map (λ word. string_bytes word) words.entry.now)) }
{
    match files_alone(alloc, words)? {
        Some(words) => match generated(words.as_slice()) {
            Some(generated) => Ok(Some(Request::Generate(generated))),
            None => Ok(None),
        },
        None => Ok(None),
    }
}

/// The request of `help`, which stands alone.
fn help_request<'a>(words: &[String]) -> Option<Request<'a>>
    ensures { option_map asked_of result ≡ spec.help_request (map (λ word. string_bytes word) words.now) }
{
    match words {
        [] => Some(Request::Help),
        _ => None,
    }
}

/// What the words of a call ask for, or none where they are no call: `solve MODEL DATA..` with `--limit N`, `--budget N` and `--improving`,
/// `ground MODEL DATA..`, `generate KIND N SEED`, or `help`. Each option is given at most once, before, between or behind the files, and
/// `--limit=N` is `--limit N`. Behind the first `--` every word is a file; before it `-` alone is one, and no other word that begins with `-`.
/// A number has 1 to 19 decimal digits: a limit and a budget are 1 to `2^63 - 1`, N is 1 to 1,000, SEED at most `2^63 - 1`. KIND is
/// `queens` or `chain`.
pub fn request<'a>(alloc: Global, words: &'a [String]) -> Result<Option<Request<'a>>, AllocError>
    ensures { IfOk result (λ r. option_map asked_of r ≡ spec.request (map (λ word. string_bytes word) words.entry.now)) }
{
    match words {
        [command, rest @ ..] => match command.as_str() {
            "solve" => solve_request(alloc, rest),
            "ground" => ground_request(alloc, rest),
            "generate" => generate_request(alloc, rest),
            "help" => Ok(help_request(rest)),
            _ => Ok(None),
        },
        [] => Ok(None),
    }
}
