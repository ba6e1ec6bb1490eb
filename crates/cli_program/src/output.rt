//! Standard output, and why it could not be written.

use std::io;
use std::io::Write;

/// Standard output, with the error of its last write that failed.
#[derive(Drop)]
pub(crate) struct Output<O> {
    output: O,
    error: Option<io::Error>,
}

impl<O> Output<O> {
    /// An output of which no write has failed.
    pub(crate) fn new(output: O) -> Output<O> {
        Output {
            output,
            error: None,
        }
    }

    /// The error of its last write that failed.
    pub(crate) fn error(&self) -> Option<io::Error> {
        self.error
    }
}

impl<O: Write> Write for Output<O> {
    fn write(&mut self, bytes: &[u8]) -> io::Result<usize> {
        let written = self.output.write(bytes);
        if let Err(error) = &written {
            self.error = Some(*error);
        }
        written
    }

    fn flush(&mut self) -> io::Result<()> {
        let flushed = self.output.flush();
        if let Err(error) = &flushed {
            self.error = Some(*error);
        }
        flushed
    }
}
