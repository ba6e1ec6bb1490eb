//! The command that answers one session.

use crate::failure::Failure;
use crate::options::{cores_in, key_in};
use clap::ArgMatches;
use cli_once::{SessionFault, once, once_in_hex};
use cli_words::{HEX, NOW};
use seg_check::{TrustAll, Verifier};
use seg_lookup::Roster;
use session_core::{MOST_READS, Replies};
use std::alloc::Global;
use std::io::{BufWriter, Read, Write};

/// Answers one session, as the options say. No clause says what is printed: those of `once` and
/// `once_in_hex` say it.
pub fn answer<'a, I: Read, O: Write>(
    alloc: Global,
    options: &ArgMatches<'a>,
    input: &mut I,
    output: &mut O,
) -> Result<(), Failure<'a>> {
    let cores = Roster::new(cores_in(alloc, options)?);
    let answered = match key_in(alloc, options)? {
        Some(key) => answer_checked(alloc, options, input, output, &cores, &key),
        None => answer_checked(alloc, options, input, output, &cores, &TrustAll),
    };
    answered.map_err(|fault| Failure::Session(fault))
}

/// Answers one session whose signatures are judged by `checker`.
fn answer_checked<I: Read, O: Write, V: Verifier>(
    alloc: Global,
    options: &ArgMatches<'_>,
    input: &mut I,
    output: &mut O,
    cores: &Roster,
    checker: &V,
) -> Result<(), SessionFault> {
    let now = options.get_one::<u64>(NOW).unwrap_or(0);
    let Ok(output) = BufWriter::new(alloc, output) else {
        return Err(SessionFault::Memory);
    };
    let mut replies = Replies::of(output);
    if options.get_flag(HEX) {
        once_in_hex(alloc, input, &mut replies, cores, checker, now, MOST_READS)?;
    } else {
        once(alloc, input, &mut replies, cores, checker, now, MOST_READS)?;
    }
    Ok(())
}
