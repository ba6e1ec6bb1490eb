//! What command lines ask for, and how they are refused. What is printed of refused ones, and the
//! help, are lines of `test_program`.

use crate::checks::assert_same;
use clap::ArgMatches;
use clap::error::ErrorKind;
use cli_words::{
    ASK, AT_ONCE, CHECKPOINT, COPY, CORES, CommandLine, DEVICE, FINAL_STATUS, FORCE, FORMAT,
    FUTURE, GRACE, HEX, IDLE, JOURNAL, JSON, KEY, LAYOUT, LEAVE, LISTEN, LISTS, LOG_PRIORITY,
    LOOKUP_SEATS, LOOKUPS, NEW, NOW, ONCE, PEER_SESSIONS, PURGE, PURGE_GRACE, QUIET, REQUEST,
    RESERVE, ROWS, RUN, SERVER, SESSIONS, SHOW, SPARE, STATUS, STATUS_LISTEN, STOP_ON_END_OF_INPUT,
    Subcommand, TIMEOUT, UPGRADE, WAIT, WORDS, read,
};
use std::alloc::Global;
use std::process::Abort;

/// Appends a word, which is kept as a text.
fn push_word(rt: &impl Abort, alloc: Global, words: &mut Vec<String>, word: &str) {
    let word = word.to_string(alloc).expect(rt, "no memory");
    words.push(word).expect(rt, "no memory");
}

/// The words of a line, which are parted by single spaces, after the program's name.
fn words_of(rt: &impl Abort, alloc: Global, line: &str) -> Vec<String> {
    let mut words = Vec::new(alloc);
    push_word(rt, alloc, &mut words, "pathd");
    for word in line.split(' ') {
        push_word(rt, alloc, &mut words, word);
    }
    words
}

/// The options of a line with these words, which asks for this command.
fn options_of<'a>(
    rt: &impl Abort,
    alloc: Global,
    words: &'a Vec<String>,
    line: &str,
    command: &str,
) -> ArgMatches<'a> {
    let CommandLine {
        subcommand,
        options,
    } = read(alloc, words.as_slice()).expect(rt, line);
    assert_same(rt, &Some(subcommand), &Subcommand::named(command), &line);
    options
}

/// An option of a command line, and its value.
#[derive(Clone, Copy)]
struct Value {
    line: &'static str,
    /// The command that the line asks for.
    command: &'static str,
    option: &'static str,
    value: Option<&'static str>,
}

const ALL_OF_ONCE: &str = "once --cores 1-1,2-2 --now 5 --key 00ff --hex";

const ALL_OF_RUN: &str =
    "run --quiet --new --rows 1048575 --grace 4294967295 --stop-on-end-of-input --peer-sessions 18446744073709551615 --idle 4294967295 --leave 4294967295 --final-status 255 --future 4294967295 --spare 56 --lists --purge 4294967295 --purge-grace 4294967294 --lookup-seats 56 --lookups [::1]:2 --log-priority --sessions 18446744073709551615 --key 00 --cores 1-1 --status [::1]:1 --listen [::1]:0 d";

const ALL_OF_ASK: &str = "ask --timeout 4294967295 --wait 4294967294 a list up --json 1-0 0-0";

#[rattlefmt::skip]
const VALUES: &[Value] = &[
    Value { line: ALL_OF_ONCE, command: ONCE, option: CORES, value: Some("1-1,2-2") },
    Value { line: ALL_OF_ONCE, command: ONCE, option: NOW, value: Some("5") },
    Value { line: ALL_OF_ONCE, command: ONCE, option: KEY, value: Some("00ff") },
    Value { line: "once", command: ONCE, option: CORES, value: None },
    Value { line: "once", command: ONCE, option: NOW, value: None },
    Value { line: "once", command: ONCE, option: KEY, value: None },
    Value { line: "once --key=", command: ONCE, option: KEY, value: Some("") },
    Value { line: "format d --checkpoint 2 --journal 516", command: FORMAT, option: DEVICE, value: Some("d") },
    Value { line: "format --journal=516 --checkpoint=2 d", command: FORMAT, option: DEVICE, value: Some("d") },
    Value { line: "format d --checkpoint 1048576 --journal 516", command: FORMAT, option: CHECKPOINT, value: Some("1048576") },
    Value { line: "format d --checkpoint 2 --journal 1048576", command: FORMAT, option: JOURNAL, value: Some("1048576") },
    Value { line: "show d", command: SHOW, option: DEVICE, value: Some("d") },
    Value { line: "show --layout d", command: SHOW, option: DEVICE, value: Some("d") },
    Value { line: "show -- --layout", command: SHOW, option: DEVICE, value: Some("--layout") },
    Value { line: "status d", command: STATUS, option: DEVICE, value: Some("d") },
    Value { line: "status -- --layout", command: STATUS, option: DEVICE, value: Some("--layout") },
    Value { line: "upgrade d", command: UPGRADE, option: DEVICE, value: Some("d") },
    Value { line: ALL_OF_RUN, command: RUN, option: DEVICE, value: Some("d") },
    Value { line: ALL_OF_RUN, command: RUN, option: LISTEN, value: Some("[::1]:0") },
    Value { line: ALL_OF_RUN, command: RUN, option: STATUS_LISTEN, value: Some("[::1]:1") },
    Value { line: ALL_OF_RUN, command: RUN, option: SESSIONS, value: Some("18446744073709551615") },
    Value { line: ALL_OF_RUN, command: RUN, option: IDLE, value: Some("4294967295") },
    Value { line: ALL_OF_RUN, command: RUN, option: LEAVE, value: Some("4294967295") },
    Value { line: ALL_OF_RUN, command: RUN, option: FINAL_STATUS, value: Some("255") },
    Value { line: ALL_OF_RUN, command: RUN, option: PEER_SESSIONS, value: Some("18446744073709551615") },
    Value { line: ALL_OF_RUN, command: RUN, option: GRACE, value: Some("4294967295") },
    Value { line: ALL_OF_RUN, command: RUN, option: FUTURE, value: Some("4294967295") },
    Value { line: ALL_OF_RUN, command: RUN, option: SPARE, value: Some("56") },
    Value { line: ALL_OF_RUN, command: RUN, option: CORES, value: Some("1-1") },
    Value { line: ALL_OF_RUN, command: RUN, option: KEY, value: Some("00") },
    Value { line: ALL_OF_RUN, command: RUN, option: PURGE, value: Some("4294967295") },
    Value { line: ALL_OF_RUN, command: RUN, option: PURGE_GRACE, value: Some("4294967294") },
    Value { line: ALL_OF_RUN, command: RUN, option: LOOKUPS, value: Some("[::1]:2") },
    Value { line: ALL_OF_RUN, command: RUN, option: LOOKUP_SEATS, value: Some("56") },
    Value { line: "run d --listen a", command: RUN, option: PURGE, value: None },
    Value { line: "run d --listen a", command: RUN, option: PURGE_GRACE, value: None },
    Value { line: "run d --listen a", command: RUN, option: LOOKUPS, value: None },
    Value { line: "run d --listen a", command: RUN, option: LISTEN, value: Some("a") },
    Value { line: "run d --listen a", command: RUN, option: STATUS_LISTEN, value: None },
    Value { line: "run d --listen a", command: RUN, option: SESSIONS, value: None },
    Value { line: "run d --listen a", command: RUN, option: IDLE, value: None },
    Value { line: "run d --listen a", command: RUN, option: LEAVE, value: None },
    Value { line: "run d --listen a", command: RUN, option: FINAL_STATUS, value: None },
    Value { line: "run d --listen a", command: RUN, option: PEER_SESSIONS, value: None },
    Value { line: "run d --listen a", command: RUN, option: GRACE, value: None },
    Value { line: "run d --listen a", command: RUN, option: FUTURE, value: None },
    Value { line: "run d --listen a", command: RUN, option: SPARE, value: None },
    Value { line: ALL_OF_ASK, command: ASK, option: SERVER, value: Some("a") },
    Value { line: ALL_OF_ASK, command: ASK, option: REQUEST, value: Some("list") },
    Value { line: ALL_OF_ASK, command: ASK, option: WORDS, value: Some("up") },
    Value { line: ALL_OF_ASK, command: ASK, option: TIMEOUT, value: Some("4294967295") },
    Value { line: ALL_OF_ASK, command: ASK, option: WAIT, value: Some("4294967294") },
    Value { line: "ask a list", command: ASK, option: WAIT, value: None },
    Value { line: "format d --rows 1048575", command: FORMAT, option: ROWS, value: Some("1048575") },
    Value { line: ALL_OF_RUN, command: RUN, option: ROWS, value: Some("1048575") },
    Value { line: "run d --listen a --lookups b", command: RUN, option: LOOKUP_SEATS, value: None },
    Value { line: "ask a list", command: ASK, option: WORDS, value: None },
    Value { line: "ask a list", command: ASK, option: TIMEOUT, value: None },
    Value { line: "ask --json a register -", command: ASK, option: WORDS, value: Some("-") },
];

/// These values. The prover writes a constant out where it is named, so no loop names it.
fn values() -> &'static [Value] {
    VALUES
}

/// Sees the value of an option.
fn assert_value(rt: &impl Abort, alloc: Global, wanted: Value) {
    let Value { line, option, .. } = wanted;
    let words = words_of(rt, alloc, line);
    let options = options_of(rt, alloc, &words, line, wanted.command);
    let value = options.get_str(option);
    assert_same(rt, &value, &wanted.value, &(line, option));
}

#[test]
fn values_of_options(rt: HostRuntime) {
    for value in values() {
        assert_value(&rt, rt.alloc(), *value);
    }
}

/// A flag of a command line, and whether it is given.
#[derive(Clone, Copy)]
struct Flag {
    line: &'static str,
    /// The command that the line asks for.
    command: &'static str,
    flag: &'static str,
    is_given: bool,
}

#[rattlefmt::skip]
const FLAGS: &[Flag] = &[
    Flag { line: "once", command: ONCE, flag: HEX, is_given: false },
    Flag { line: ALL_OF_ONCE, command: ONCE, flag: HEX, is_given: true },
    Flag { line: "format d --checkpoint 2 --journal 516 --new", command: FORMAT, flag: NEW, is_given: true },
    Flag { line: "format d --checkpoint 2 --journal 516 --new", command: FORMAT, flag: FORCE, is_given: false },
    Flag { line: "format d --force --checkpoint 2 --journal 516", command: FORMAT, flag: FORCE, is_given: true },
    Flag { line: "format d --force --checkpoint 2 --journal 516", command: FORMAT, flag: NEW, is_given: false },
    Flag { line: "format d --force --rows 1", command: FORMAT, flag: RESERVE, is_given: false },
    Flag { line: "format d --reserve --rows 1", command: FORMAT, flag: RESERVE, is_given: true },
    Flag { line: "copy d e --rows 1", command: COPY, flag: RESERVE, is_given: false },
    Flag { line: "copy d e --reserve", command: COPY, flag: RESERVE, is_given: true },
    Flag { line: "show d", command: SHOW, flag: LAYOUT, is_given: false },
    Flag { line: "show d --layout", command: SHOW, flag: LAYOUT, is_given: true },
    Flag { line: "show d --json", command: SHOW, flag: JSON, is_given: true },
    Flag { line: "ask a list", command: ASK, flag: JSON, is_given: false },
    Flag { line: ALL_OF_ASK, command: ASK, flag: JSON, is_given: true },
    Flag { line: "ask a purge 5", command: ASK, flag: AT_ONCE, is_given: false },
    Flag { line: ALL_OF_ASK, command: ASK, flag: AT_ONCE, is_given: false },
    Flag { line: "ask a purge --at-once", command: ASK, flag: AT_ONCE, is_given: true },
    Flag { line: "ask --at-once a purge 5", command: ASK, flag: AT_ONCE, is_given: true },
    Flag { line: "run d --listen a", command: RUN, flag: QUIET, is_given: false },
    Flag { line: ALL_OF_RUN, command: RUN, flag: QUIET, is_given: true },
    Flag { line: "run d --listen a", command: RUN, flag: NEW, is_given: false },
    Flag { line: ALL_OF_RUN, command: RUN, flag: NEW, is_given: true },
    Flag { line: "run d --listen a", command: RUN, flag: LOG_PRIORITY, is_given: false },
    Flag { line: ALL_OF_RUN, command: RUN, flag: LOG_PRIORITY, is_given: true },
    Flag { line: "run d --listen a", command: RUN, flag: LISTS, is_given: false },
    Flag { line: ALL_OF_RUN, command: RUN, flag: LISTS, is_given: true },
    Flag { line: "run d --listen a", command: RUN, flag: STOP_ON_END_OF_INPUT, is_given: false },
    Flag { line: ALL_OF_RUN, command: RUN, flag: STOP_ON_END_OF_INPUT, is_given: true },
];

/// These flags.
fn all_flags() -> &'static [Flag] {
    FLAGS
}

/// Sees whether a flag is given.
fn assert_flag(rt: &impl Abort, alloc: Global, wanted: Flag) {
    let Flag { line, flag, .. } = wanted;
    let words = words_of(rt, alloc, line);
    let options = options_of(rt, alloc, &words, line, wanted.command);
    let is_given = options.get_flag(flag);
    assert_same(rt, &is_given, &wanted.is_given, &(line, flag));
}

#[test]
fn flags(rt: HostRuntime) {
    for flag in all_flags() {
        assert_flag(&rt, rt.alloc(), *flag);
    }
}

/// Lines that are refused, and how.
#[rattlefmt::skip]
const REFUSED: &[(&str, ErrorKind)] = &[
    ("run --version", ErrorKind::UnknownArgument),
    ("once d", ErrorKind::UnknownArgument),
    ("once --now", ErrorKind::InvalidValue),
    ("once --now x", ErrorKind::ValueValidation),
    ("once --hex --hex", ErrorKind::ArgumentConflict),
    ("once --hex=1", ErrorKind::TooManyValues),
    ("once --listen a", ErrorKind::UnknownArgument),
    ("format", ErrorKind::MissingRequiredArgument),
    ("format d", ErrorKind::MissingRequiredArgument),
    ("format d --checkpoint 2", ErrorKind::MissingRequiredArgument),
    ("format d --journal 516", ErrorKind::MissingRequiredArgument),
    ("format --checkpoint 2 --journal 516", ErrorKind::MissingRequiredArgument),
    ("format d --checkpoint 1048577 --journal 516", ErrorKind::ValueValidation),
    ("format d e --checkpoint 2 --journal 516", ErrorKind::UnknownArgument),
    ("show", ErrorKind::MissingRequiredArgument),
    ("show d e", ErrorKind::UnknownArgument),
    ("show d --quiet", ErrorKind::UnknownArgument),
    ("status d --device=d", ErrorKind::UnknownArgument),
    ("upgrade", ErrorKind::MissingRequiredArgument),
    ("upgrade d --layout", ErrorKind::UnknownArgument),
    ("run --listen a", ErrorKind::MissingRequiredArgument),
    ("run d --listen", ErrorKind::InvalidValue),
    ("run d --listen a --listen b", ErrorKind::ArgumentConflict),
    ("run d --status a", ErrorKind::MissingRequiredArgument),
    ("run d --listen a --status", ErrorKind::InvalidValue),
    ("run d --listen a --sessions 18446744073709551616", ErrorKind::ValueValidation),
    ("run d --listen a --idle 4294967296", ErrorKind::ValueValidation),
    ("run d --listen a --idle +1", ErrorKind::ValueValidation),
    ("run d --listen a --leave 4294967296", ErrorKind::ValueValidation),
    ("run d --listen a --leave +1", ErrorKind::ValueValidation),
    ("run d --listen a --final-status 0", ErrorKind::ValueValidation),
    ("run d --listen a --final-status 256", ErrorKind::ValueValidation),
    ("run d --listen a --final-status +3", ErrorKind::ValueValidation),
    ("run d --listen a --peer-sessions +1", ErrorKind::ValueValidation),
    ("run d --listen a --purge-grace 4294967296", ErrorKind::ValueValidation),
    ("run d --listen a --purge-grace +1", ErrorKind::ValueValidation),
    ("run d --listen a --grace +1", ErrorKind::ValueValidation),
    ("run d --listen a --grace 4294967296", ErrorKind::ValueValidation),
    ("run d --listen a --future 4294967296", ErrorKind::ValueValidation),
    ("run d --listen a --future +1", ErrorKind::ValueValidation),
    ("run d --listen a --spare 57", ErrorKind::ValueValidation),
    ("run d --listen a --spare +8", ErrorKind::ValueValidation),
    ("run d --listen a --lookup-seats 8", ErrorKind::MissingRequiredArgument),
    ("run d --listen a --new", ErrorKind::MissingRequiredArgument),
    ("run d --listen a --rows 5", ErrorKind::MissingRequiredArgument),
    ("run d --listen a --new --rows 0", ErrorKind::ValueValidation),
    ("run d --listen a --new --rows +5", ErrorKind::ValueValidation),
    ("ask a list --wait +5", ErrorKind::ValueValidation),
    ("ask a list --wait 4294967296", ErrorKind::ValueValidation),
    ("once --future 1", ErrorKind::UnknownArgument),
    ("ask a lookup 1-1 1-1 --at-once", ErrorKind::ArgumentConflict),
    ("ask a list --at-once", ErrorKind::ArgumentConflict),
    ("ask --at-once a register -", ErrorKind::ArgumentConflict),
    ("ask a remove --at-once up 00", ErrorKind::ArgumentConflict),
    ("ask a purge 1 2 --at-once", ErrorKind::WrongNumberOfValues),
];

/// These lines.
fn refused() -> &'static [(&'static str, ErrorKind)] {
    REFUSED
}

/// Sees how a line is refused.
fn assert_refused(rt: &impl Abort, alloc: Global, line: &str, wanted: ErrorKind) {
    let words = words_of(rt, alloc, line);
    let error = read(alloc, words.as_slice()).err().expect(rt, line);
    assert_same(rt, &error.kind(), &wanted, &line);
    assert_same(rt, &error.exit_code(), &2, &line);
}

#[test]
fn lines_that_are_not_read(rt: HostRuntime) {
    for (line, kind) in refused() {
        assert_refused(&rt, rt.alloc(), *line, *kind);
    }
}
