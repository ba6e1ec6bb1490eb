//! Reading the words of a command line.

ghost use Rattle.std.specs.Prelude.{◌≡◌, ◌≢◌, ◌↔◌, Some, IsTrue, IfOk, OnOk, IfSome, IfNone, codes, map, option_map};
ghost use Rattle.std.specs.List.{AllPass};
ghost use Rattle.clap.specs.Lexer.{is_digit};
ghost use Rattle.clap.specs.Words.{found_of, rows_of, first_value, matched_of, raw_values};
ghost use Rattle.cli_words.specs.declared.command_line.Subcommand.TheVariants.{Ask, Format, Run};
ghost use Rattle.cli_words.specs.Numbers.{IsPlainNumber, HasPlainNumbers};
ghost use Rattle.cli_words.specs.declared.request.Request.{Request};
ghost use Rattle.cli_words.specs.Requests.{request_name, word_count, HasRequest};
ghost use Rattle.cli_words.specs.Together.{HasSizes, FitsRun};

use crate::command_line::{CommandLine, Subcommand, command_line};
use crate::request::Request;
use crate::{
    AT_ONCE, CHECKPOINT, FINAL_STATUS, FUTURE, GRACE, IDLE, JOURNAL, LEAVE, LOOKUP_SEATS, LOOKUPS,
    NEW, NOW, PEER_SESSIONS, PURGE, PURGE_GRACE, REQUEST, ROWS, SESSIONS, SPARE, TIMEOUT, WAIT,
    WORDS, command, command_of,
};
use clap::error::ErrorKind;
use clap::{ArgMatches, Error};
use std::alloc::{AllocError, Global};

/// What is printed of words with no command of the program.
const NO_COMMAND: &str = "a command of the program is required";

/// What is printed of words with no request.
const NO_REQUEST: &str = "a request is required";

/// What is printed of another request than a purge, where that has to be one command.
const NO_PURGE: &str = "the option '--at-once' is for the request 'purge' alone";

/// What is printed of seats for sessions that only look up, where none are served.
const NO_LOOKUPS: &str = "the option '--lookup-seats' needs '--lookups <ADDR>'";

/// What is printed of a server that is to make its store, without its size, or the other way round.
const NO_ROWS: &str = "the options '--new' and '--rows <N>' need each other";

/// What is printed where a store would be made without its sizes.
const NO_SIZES: &str =
    "the sizes are missing: '--rows <N>', or '--checkpoint <C>' and '--journal <J>'";

/// What the words of a command line ask for. Words with no command of the program are an error, and
/// so is another number of words after the name of a request than it takes, `AT_ONCE` of another
/// request than a purge, and options that lack others: a store to be made without its sizes, for
/// one. A number is decimal digits alone, with no sign: `clap` by itself takes one.
pub fn read<'a>(alloc: Global, words: &'a [String]) -> Result<CommandLine<'a>, Error>
    ensures numbers { IfOk result (λ line. HasPlainNumbers (rows_of (found_of line.options))) }
    ensures request { IfOk result (λ line. line.subcommand ≡ Ask → HasRequest (found_of line.options)) }
    ensures sizes { IfOk result (λ line. line.subcommand ≡ Format → HasSizes (found_of line.options)) }
    ensures run { IfOk result (λ line. line.subcommand ≡ Run → FitsRun (found_of line.options)) }
{
    let mut command = command(alloc)?;
    let matches = command.try_get_matches_from_mut(words)?;
    let Some(line) = command_line(matches) else {
        return Err(command.error(ErrorKind::MissingSubcommand, NO_COMMAND)?);
    };
    check_numbers(alloc, line.subcommand, &line.options)?;
    check_together(alloc, line.subcommand, &line.options)?;
    Ok(line)
}

/// Refuses options of a command of which one needs another, or needs another request.
fn check_together(
    alloc: Global,
    subcommand: Subcommand,
    options: &ArgMatches<'_>,
) -> Result<(), Error>
    ensures request { OnOk result (subcommand ≡ Ask → HasRequest (found_of options.now)) }
    ensures sizes { OnOk result (subcommand ≡ Format → HasSizes (found_of options.now)) }
    ensures run { OnOk result (subcommand ≡ Run → FitsRun (found_of options.now)) }
{
    match subcommand {
        Subcommand::Ask => check_request(alloc, options),
        Subcommand::Format => check_sizes(alloc, options),
        Subcommand::Run => check_run(alloc, options),
        Subcommand::Once
        | Subcommand::Copy
        | Subcommand::Show
        | Subcommand::Status
        | Subcommand::Upgrade => Ok(()),
    }
}

/// An error of the words of a command, with the usage of that command.
fn refusal(alloc: Global, subcommand: Subcommand, kind: ErrorKind, message: &str) -> Error {
    match refusal_with_usage(alloc, subcommand, kind, message) {
        Ok(error) => error,
        Err(error) => Error::from(error),
    }
}

/// The same, or memory was refused.
fn refusal_with_usage(
    alloc: Global,
    subcommand: Subcommand,
    kind: ErrorKind,
    message: &str,
) -> Result<Error, AllocError> {
    command_of(alloc, subcommand)?.error(kind, message)
}

/// Refuses to make a store without its sizes.
fn check_sizes(alloc: Global, options: &ArgMatches<'_>) -> Result<(), Error>
    ensures { OnOk result (HasSizes (found_of options.now)) }
{
    let has_rows = options.contains_id(ROWS);
    let has_sizes = options.contains_id(CHECKPOINT) && options.contains_id(JOURNAL);
    if has_rows || has_sizes {
        return Ok(());
    }
    Err(refusal(
        alloc,
        Subcommand::Format,
        ErrorKind::MissingRequiredArgument,
        NO_SIZES,
    ))
}

/// Refuses `LOOKUP_SEATS` without `LOOKUPS`, and one of `NEW` and `ROWS` without the other.
fn check_run(alloc: Global, options: &ArgMatches<'_>) -> Result<(), Error>
    ensures { OnOk result (FitsRun (found_of options.now)) }
{
    let run = Subcommand::Run;
    if options.contains_id(LOOKUP_SEATS) && !options.contains_id(LOOKUPS) {
        return Err(refusal(alloc, run, ErrorKind::MissingRequiredArgument, NO_LOOKUPS));
    }
    if options.get_flag(NEW) == options.contains_id(ROWS) {
        return Ok(());
    }
    Err(refusal(alloc, run, ErrorKind::MissingRequiredArgument, NO_ROWS))
}

/// Refuses a request with another number of words after its name than it takes, and one with
/// `AT_ONCE` that is no purge.
fn check_request(alloc: Global, options: &ArgMatches<'_>) -> Result<(), Error>
    ensures { OnOk result (HasRequest (found_of options.now)) }
{
    let ask = Subcommand::Ask;
    let Some(request) = request_in(options) else {
        return Err(refusal(alloc, ask, ErrorKind::MissingRequiredArgument, NO_REQUEST));
    };
    if !request.takes(word_count(options)) {
        let usage = request.usage();
        let message = format!(in alloc; "the request has to be '{usage}'")?;
        return Err(refusal(alloc, ask, ErrorKind::WrongNumberOfValues, message.as_str()));
    }
    if request == Request::Purge || !options.get_flag(AT_ONCE) {
        return Ok(());
    }
    Err(refusal(alloc, ask, ErrorKind::ArgumentConflict, NO_PURGE))
}

/// The request of the options.
pub fn request_in(options: &ArgMatches<'_>) -> Option<Request>
    ensures some { IfSome result (λ request. first_value (found_of options.now) (codes "request") ≡ Some (request_name request)) }
    ensures none { IfNone result ((request : Request) → first_value (found_of options.now) (codes "request") ≢ Some (request_name request)) }
{
    Request::named(options.get_str(REQUEST)?)
}

/// The words after the name of the request, or `None` where none are.
pub fn words_in<'m, 'a>(options: &'m ArgMatches<'a>) -> Option<&'m [&'a str]>
    ensures { option_map (λ words. map (λ word. word.now) words.now) result
        ≡ option_map raw_values (matched_of (found_of options.now) (codes "words")) }
{
    options.get_strs(WORDS)
}

/// The number of these words.
fn word_count(options: &ArgMatches<'_>) -> usize
    ensures { result ≡ word_count (found_of options.now) }
{
    match words_in(options) {
        Some(words) => words.len(),
        None => 0,
    }
}

/// Refuses the values of options that are numbers, where one is not decimal digits alone.
fn check_numbers(
    alloc: Global,
    subcommand: Subcommand,
    options: &ArgMatches<'_>,
) -> Result<(), Error>
    ensures { OnOk result (HasPlainNumbers (rows_of (found_of options.now))) }
{
    check_number(alloc, subcommand, options, NOW)?;
    check_number(alloc, subcommand, options, CHECKPOINT)?;
    check_number(alloc, subcommand, options, JOURNAL)?;
    check_number(alloc, subcommand, options, ROWS)?;
    check_number(alloc, subcommand, options, SESSIONS)?;
    check_number(alloc, subcommand, options, PEER_SESSIONS)?;
    check_number(alloc, subcommand, options, IDLE)?;
    check_number(alloc, subcommand, options, LEAVE)?;
    check_number(alloc, subcommand, options, FUTURE)?;
    check_number(alloc, subcommand, options, SPARE)?;
    check_number(alloc, subcommand, options, LOOKUP_SEATS)?;
    check_number(alloc, subcommand, options, PURGE)?;
    check_number(alloc, subcommand, options, PURGE_GRACE)?;
    check_number(alloc, subcommand, options, GRACE)?;
    check_number(alloc, subcommand, options, FINAL_STATUS)?;
    check_number(alloc, subcommand, options, TIMEOUT)?;
    check_number(alloc, subcommand, options, WAIT)
}

/// Refuses the value of an option that is not decimal digits alone.
fn check_number(
    alloc: Global,
    subcommand: Subcommand,
    options: &ArgMatches<'_>,
    name: &str,
) -> Result<(), Error>
    ensures { OnOk result (IsPlainNumber (rows_of (found_of options.now)) name.now) }
{
    let Some(text) = options.get_str(name) else {
        return Ok(());
    };
    if is_digits(text) {
        return Ok(());
    }
    let message = format!(in alloc; "invalid value '{text}' for '--{name}': not decimal digits")?;
    Err(refusal(
        alloc,
        subcommand,
        ErrorKind::ValueValidation,
        message.as_str(),
    ))
}

/// Whether a text is decimal digits.
fn is_digits(text: &str) -> bool
    ensures { IsTrue result ↔ AllPass is_digit text.now }
{
    text.bytes().all(|byte| byte.is_ascii_digit())
}
