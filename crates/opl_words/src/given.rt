//! The words behind a command, read by `clap`.
ghost use Rattle.std.specs.Prelude.{◌≡◌, [], true, codes, map, string_bytes, unwrap_or, IfOk};
ghost use Rattle.std.specs.Option.{option_map};
ghost use Rattle.clap.specs.Words.{all_of, app_of, found_of, is_simple_and_free, rows_of, with_rule};
ghost use Rattle.opl_words.specs.Commands.{Parses, files_app, flag_rule, solve_app, value_rule};
ghost use Rattle.opl_words.specs.Readings.{files_of as the_files, given_of, of_given};
ghost use Rattle.opl_words.specs.Requests.{no_options, nothing, read, solve_options};

use clap::error::ErrorKind;
use clap::{Arg, ArgAction, ArgMatches, Command};
use opl_list::Seq;
use std::alloc::{AllocError, Global};

/// What the words behind `solve` give.
#[derive(Drop)]
pub(crate) struct Given<'a> {
    pub(crate) limit: Option<&'a str>,
    pub(crate) budget: Option<&'a str>,
    pub(crate) is_improving: bool,
    pub(crate) files: Seq<&'a str>,
}

/// A command whose words are files.
fn files_command<'a>(alloc: Global) -> Result<Command<'a>, AllocError>
    ensures { IfOk result (λ command. app_of command ≡ files_app) }
{
    let files = Arg::new(alloc, "file").action(ArgAction::Append);
    Command::new(alloc, "opl")
        .no_binary_name(true)
        .disable_help_flag(true)
        .arg(files)
}

/// A command with one more option, which has a value.
fn with_value<'a>(
    alloc: Global,
    command: Command<'a>,
    name: &'a str,
) -> Result<Command<'a>, AllocError>
    ensures { IfOk result (λ c. app_of c ≡ with_rule (app_of command.entry) (value_rule name.entry.now)) }
{
    command.arg(Arg::new(alloc, name).long(name).action(ArgAction::Set))
}

/// A command with one more flag.
fn with_flag<'a>(
    alloc: Global,
    command: Command<'a>,
    name: &'a str,
) -> Result<Command<'a>, AllocError>
    ensures { IfOk result (λ c. app_of c ≡ with_rule (app_of command.entry) (flag_rule name.entry.now)) }
{
    command.arg(Arg::new(alloc, name).long(name).action(ArgAction::SetTrue))
}

/// The command `solve`: files, and its options.
fn solve_command<'a>(alloc: Global) -> Result<Command<'a>, AllocError>
    ensures { IfOk result (λ command. app_of command ≡ solve_app) }
{
    let command = files_command(alloc)?;
    let command = with_value(alloc, command, "limit")?;
    let command = with_value(alloc, command, "budget")?;
    with_flag(alloc, command, "improving")
}

/// What a command makes of words, or none where it refuses them.
fn parsed<'a>(
    command: Command<'a>,
    words: &'a [String],
) -> Result<Option<ArgMatches<'a>>, AllocError>
    requires { is_simple_and_free (app_of command) ≡ true }
    ensures { IfOk result (Parses (app_of command.entry) (map (λ word. string_bytes word) words.entry.now)) }
{
    match command.try_get_matches_from(words) {
        Ok(matches) => Ok(Some(matches)),
        Err(error) => match error.kind() {
            ErrorKind::OutOfMemory => Err(AllocError),
            _ => Ok(None),
        },
    }
}

/// The files of a call.
fn files_of<'a>(alloc: Global, matches: &ArgMatches<'a>) -> Result<Seq<&'a str>, AllocError>
    ensures { IfOk result (λ files. the_files files ≡ unwrap_or (all_of (codes "file") (rows_of (found_of matches.now))) []) }
{
    match matches.get_strs("file") {
        Some(files) => Seq::from_slice(alloc, files),
        None => Ok(Seq::new(alloc)),
    }
}

/// The files that the words behind a command without options are, or none where they are not files alone.
pub(crate) fn files_alone<'a>(
    alloc: Global,
    words: &'a [String],
) -> Result<Option<Seq<&'a str>>, AllocError>
    ensures { IfOk result (λ files. option_map the_files files ≡ option_map (λ g. g.files) (read no_options nothing (map (λ word. string_bytes word) words.entry.now))) }
{
    match parsed(files_command(alloc)?, words)? {
        Some(matches) => Ok(Some(files_of(alloc, &matches)?)),
        None => Ok(None),
    }
}

/// What the words behind `solve` give, or none where they are refused.
pub(crate) fn solve_words<'a>(
    alloc: Global,
    words: &'a [String],
) -> Result<Option<Given<'a>>, AllocError>
    ensures { IfOk result (λ given. option_map given_of given ≡ option_map of_given (read solve_options nothing (map (λ word. string_bytes word) words.entry.now))) }
{
    match parsed(solve_command(alloc)?, words)? {
        Some(matches) => Ok(Some(Given {
            limit: matches.get_str("limit"),
            budget: matches.get_str("budget"),
            is_improving: matches.get_flag("improving"),
            files: files_of(alloc, &matches)?,
        })),
        None => Ok(None),
    }
}
