//! The standard output of a command line.

use crate::parts::Before;
use std::fs::{File, OpenOptions};
use std::io;
use std::io::{IsTerminal, Stdout, Write};
use std::rt::Files;

/// A file that takes no bytes.
const FULL: &str = "/dev/full";

/// The standard output of a command line: that of this program, which may be taken for that of a
/// terminal, or one without room.
#[derive(Drop)]
pub(crate) enum Output {
    Standard { stdout: Stdout, is_terminal: bool },
    Full(File),
}

impl Output {
    /// The one that is so before a line.
    pub(crate) fn new<R: Files<File = File>>(
        rt: &R,
        stdout: Stdout,
        before: &Before,
    ) -> io::Result<Output> {
        if matches!(before, Before::NoRoom) {
            let file = OpenOptions::new().write(true).open(rt, FULL)?;
            return Ok(Output::Full(file));
        }
        Ok(Output::Standard {
            stdout,
            is_terminal: before.is_terminal(),
        })
    }
}

impl Write for Output {
    fn write(&mut self, bytes: &[u8]) -> io::Result<usize> {
        match self {
            Output::Standard { stdout, .. } => stdout.write(bytes),
            Output::Full(file) => file.write(bytes),
        }
    }

    fn flush(&mut self) -> io::Result<()> {
        match self {
            Output::Standard { stdout, .. } => stdout.flush(),
            Output::Full(file) => file.flush(),
        }
    }
}

impl IsTerminal for Output {
    fn is_terminal(&self) -> bool {
        match self {
            Output::Standard { is_terminal, .. } => *is_terminal,
            Output::Full(_) => false,
        }
    }
}
