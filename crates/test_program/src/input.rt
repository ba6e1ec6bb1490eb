//! The standard input of a command line.

use crate::parts::Before;
use std::collections::VecDeque;
use std::io;
use std::io::{IsTerminal, Read};

/// The standard input of a command line: some bytes, which may be taken for those of a terminal.
#[derive(Drop)]
pub(crate) struct Input {
    bytes: VecDeque<u8>,
    is_terminal: bool,
}

impl Input {
    /// The one with these bytes that is so before a line.
    pub(crate) fn new(bytes: VecDeque<u8>, before: &Before) -> Input {
        Input {
            bytes,
            is_terminal: before.is_terminal(),
        }
    }
}

impl Read for Input {
    fn read(&mut self, buf: &mut [u8]) -> io::Result<usize> {
        self.bytes.read(buf)
    }
}

impl IsTerminal for Input {
    fn is_terminal(&self) -> bool {
        self.is_terminal
    }
}
