//! From the words of a command line to the command, and to the program's end.

ghost use Rattle.std.specs.Prelude.{◌≡◌, codes};
ghost use Rattle.clap.specs.Words.{found_of};
ghost use Rattle.cli_commands.specs.Options.{IsNumberOf};
ghost use Rattle.cli_commands.specs.Failures.{ended_by};
ghost use Rattle.cli_program.specs.Failures.{IsFinalStatusOf, status_by};

use crate::output::Output;
use crate::serving::serve_file;
use crate::system::System;
use clap::error::ErrorKind;
use clap::{ArgMatches, Error};
use cli_commands::{
    Done, Failed, Failure, Priority, answer, ask_server, copy_file, format_file, more_of,
    show_file, status_of, status_of_file, upgrade_file,
};
use cli_words::{CommandLine, FINAL_STATUS, LOG_PRIORITY, Request, Subcommand, read, request_in};
use std::io::{IsTerminal, Read, Write};
use std::{env, io};

/// Runs the command line; prints why it failed; returns the status, as `status_of` says. No clause
/// says what the words do. The contracts of the commands that it calls do.
pub fn carry_out<
    R: System,
    I: Read + IsTerminal + Drop + Send + 'static,
    O: Write + IsTerminal + Drop,
>(rt: &R, input: I, output: O) -> u8 {
    let outcome = run(rt, input, output);
    if let Err(failed) = &outcome {
        let mark = Priority::Error.mark_where(failed.is_marked);
        let _ = eprintln!(rt; "{mark}{}", failed.ended);
    }
    status_of(&outcome)
}

/// Reads the words of the command line, and does what they ask for. Where the words cannot be read,
/// or ask for help, that is printed. Where they are not carried out, a line on standard error says
/// why. No clause says what is returned, nor that the words reach their command.
pub fn run<R: System, I: Read + IsTerminal + Drop + Send + 'static, O: Write + IsTerminal + Drop>(
    rt: &R,
    input: I,
    output: O,
) -> Result<Done, Failed> {
    let words = match env::args(rt) {
        Ok(words) => words,
        Err(error) => return refuse_words(rt, &error),
    };
    let Ok(words) = words.collect::<Vec<String>>(rt.alloc()) else {
        return Err(say_memory(rt));
    };
    let line = match read(rt.alloc(), words.as_slice()) {
        Ok(line) => line,
        Err(error) => return refuse(rt, &error),
    };
    let is_terminal = input.is_terminal() && output.is_terminal();
    let mut output = Output::new(output);
    let outcome = dispatch(rt, &line, input, &mut output, is_terminal);
    match outcome {
        Ok(()) => Ok(Done::Carried),
        Err(failure) => {
            let words = end_words(&line);
            if words.is_of_rows && has_left(&failure, &output) {
                return Ok(Done::Carried);
            }
            let failed = failed_by(words, &failure);
            explain(rt, &failure, &output, failed.is_marked);
            Err(failed)
        }
    }
}

/// What words say of a program that fails.
#[derive(Clone, Copy)]
struct EndWords {
    /// The exit status where a server would fail so again.
    final_status: u8,
    /// Whether the last lines on standard error begin with their priority.
    is_marked: bool,
    /// Whether they ask to print rows alone, of which a reader may want no more.
    is_of_rows: bool,
}

/// What these words say of a program that fails. The options for it are those of a server alone.
fn end_words(line: &CommandLine<'_>) -> EndWords
    ensures { IsFinalStatusOf line.now.subcommand (found_of line.now.options) result.final_status }
{
    match line.subcommand {
        Subcommand::Run => EndWords {
            final_status: final_status(&line.options),
            is_marked: line.options.get_flag(LOG_PRIORITY),
            is_of_rows: false,
        },
        Subcommand::Show => EndWords::of_rows(true),
        Subcommand::Ask => EndWords::of_rows(asks_for_rows(&line.options)),
        Subcommand::Once
        | Subcommand::Format
        | Subcommand::Copy
        | Subcommand::Status
        | Subcommand::Upgrade => EndWords::of_rows(false),
    }
}

impl EndWords {
    /// What the words of a command but `run` say.
    fn of_rows(is_of_rows: bool) -> EndWords
        ensures { result.final_status ≡ 1 }
    {
        EndWords {
            final_status: 1,
            is_marked: false,
            is_of_rows,
        }
    }
}

/// Whether a request is one for rows.
fn asks_for_rows(options: &ArgMatches<'_>) -> bool {
    matches!(request_in(options), Some(Request::Lookup | Request::List))
}

/// Whether the reader of standard output has left.
fn has_left<O>(failure: &Failure<'_>, output: &Output<O>) -> bool {
    match (failure, output.error()) {
        (Failure::Output, Some(error)) => error.kind() == io::ErrorKind::BrokenPipe,
        _ => false,
    }
}

/// How the program ends by a failure of these words.
fn failed_by(words: EndWords, failure: &Failure<'_>) -> Failed
    ensures ended { result.ended ≡ ended_by failure.now }
    ensures status { result.status ≡ status_by words.final_status failure.now }
{
    Failed {
        ended: failure.ended(),
        status: if failure.is_lasting() {
            words.final_status
        } else {
            1
        },
        is_marked: words.is_marked,
    }
}

/// The status of a failure that a server meets again when it is started again: 1, unless the words
/// name another.
fn final_status(words: &ArgMatches<'_>) -> u8
    ensures { IsNumberOf (found_of words.now) (codes "final-status") 8 1 result }
{
    words.get_one::<u8>(FINAL_STATUS).unwrap_or(1)
}

/// Does what a command line asks for, by its command; `is_terminal` says that the input and the
/// output are a terminal, at which a person can be asked.
fn dispatch<'a, R: System, I: Read + Drop + Send + 'static, O: Write>(
    rt: &R,
    line: &CommandLine<'a>,
    mut input: I,
    output: &mut O,
    is_terminal: bool,
) -> Result<(), Failure<'a>> {
    let options = &line.options;
    match line.subcommand {
        Subcommand::Once => answer(rt.alloc(), options, &mut input, output),
        Subcommand::Format => format_file(rt, options, &mut input, output, is_terminal),
        Subcommand::Copy => copy_file(rt, options, output),
        Subcommand::Show => show_file(rt, options, output),
        Subcommand::Status => status_of_file(rt, options, output),
        Subcommand::Upgrade => upgrade_file(rt, options, output),
        Subcommand::Run => serve_file(rt, options, input, output),
        Subcommand::Ask => ask_server(rt, options, &mut input, output),
    }
}

/// Prints a line that says why the words are not carried out. A line that cannot be printed is left
/// out.
fn explain<R: System, O>(rt: &R, failure: &Failure<'_>, output: &Output<O>, is_marked: bool) {
    let mark = Priority::Error.mark_where(is_marked);
    if let (Failure::Output, Some(error)) = (failure, output.error()) {
        let _ = eprintln!(rt; "{mark}pathd: {}: {error}", *failure);
        return;
    }
    let _ = match more_of(rt, failure) {
        Some(more) => eprintln!(rt; "{mark}pathd: {}{more}", *failure),
        None => eprintln!(rt; "{mark}pathd: {}", *failure),
    };
}

/// Prints why the words of the command line are not given.
fn refuse_words<R: System>(rt: &R, error: &io::Error) -> Result<Done, Failed> {
    if error.kind() == io::ErrorKind::InvalidData {
        let _ = eprintln!(rt; "pathd: a word of the command line is not UTF-8");
        return Ok(Done::Refused);
    }
    Err(say_memory(rt))
}

/// Prints that memory was refused before the command was known.
fn say_memory<R: System>(rt: &R) -> Failed {
    let failure = Failure::Memory;
    let _ = eprintln!(rt; "pathd: {failure}");
    Failed::from(failure.ended())
}

/// What `clap` says of a number that has something else than digits.
const NO_DIGIT: &str = "invalid digit found in string";

/// Prints what was wrong with the command line, or the help that it asked for.
fn refuse<R: System>(rt: &R, error: &Error) -> Result<Done, Failed> {
    if error.kind() == ErrorKind::OutOfMemory {
        return Err(say_memory(rt));
    }
    let Ok(text) = format!(in rt.alloc(); "{}", *error) else {
        return Err(say_memory(rt));
    };
    let printed = match text.split_once(NO_DIGIT) {
        Some((front, end)) => eprint!(rt; "{front}not decimal digits{end}"),
        None => error.print(rt),
    };
    if let Err(why) = printed {
        let failure = Failure::Output;
        let _ = eprintln!(rt; "pathd: {failure}: {why}");
        return Err(Failed::from(failure.ended()));
    }
    Ok(if error.exit_code() == 0 {
        Done::Carried
    } else {
        Done::Refused
    })
}
