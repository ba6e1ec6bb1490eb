//! The calls of the system on a connection. No contract states what the system does: here alone the
//! bytes are noted that a call is taken to have moved. Each method is one call, and then a note of
//! its result. A read gives what was read ahead first, by no call.

ghost use Rattle.std.specs.Prelude.{◌≡◌, [], ⊤};

use crate::ghosts::bytes_note::{BytesNote, bytes_after, no_bytes};
use crate::read_ahead::ReadAhead;
use crate::stream_calls::StreamCalls;
use std::io;
use std::io::{Read, Write};
use std::net::TcpStream;
use std::time::Duration;

/// A connection of the system.
#[derive(Drop)]
pub struct SystemStream<'a> {
    stream: &'a TcpStream,
    ahead: &'a ReadAhead,
    given: BytesNote,
    taken: BytesNote,
}

impl<'a> SystemStream<'a> {
    /// A connection by which nothing has been read and written yet, and what is read ahead of it.
    pub(crate) fn new(stream: &'a TcpStream, ahead: &'a ReadAhead) -> SystemStream<'a>
        ensures given { result.given.value ≡ [] }
        ensures taken { result.taken.value ≡ [] }
    {
        SystemStream {
            stream,
            ahead,
            given: no_bytes(),
            taken: no_bytes(),
        }
    }
}

impl StreamCalls for SystemStream<'_> {
    ghost given = { λ stream. stream.given.value };

    ghost taken = { λ stream. stream.taken.value };

    ghost is_at_end = { λ _. ⊤ };

    fn set_nodelay(&self, nodelay: bool) -> io::Result<()> {
        self.stream.set_nodelay(nodelay)
    }

    fn set_read_timeout(&self, time: Option<Duration>) -> io::Result<()> {
        self.stream.set_read_timeout(time)
    }

    fn set_write_timeout(&self, time: Option<Duration>) -> io::Result<()> {
        self.stream.set_write_timeout(time)
    }

    fn read_once(&mut self, into: &mut [u8]) -> io::Result<usize> {
        let mut stream = self.stream;
        let read = if self.ahead.is_over() {
            Ok(0)
        } else {
            match self.ahead.take(into) {
                0 => stream.read(into),
                len => Ok(len),
            }
        };
        self.given = bytes_after(&self.given, &read, into);
        read
    }

    fn write_once(&mut self, bytes: &[u8]) -> io::Result<usize> {
        let mut stream = self.stream;
        let written = stream.write(bytes);
        self.taken = bytes_after(&self.taken, &written, bytes);
        written
    }
}
