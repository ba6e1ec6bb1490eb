//! The way to a server: bytes that are sent to it, and bytes that come from it within a time.

ghost use Rattle.std.specs.Prelude.{◌≡◌, ◌≤◌, List, None, Option, IfOk, OnOk, length, take};
ghost use Rattle.cli_ask.specs.Talk.{Byte, Passes, came, sent};

use crate::error::AskError;
use std::io;
use std::io::{ErrorKind, Read, Write};
use std::net::TcpStream;
use std::time::{Clock, Duration, Instant};

/// The way to a server.
pub trait Link {
    /// The bytes that were sent and that came, in their order, where they are known.
    ghost talk: { Self → Option (List Byte) } = { λ _. None };

    /// The time begins that the next send or reply may take.
    fn begin(&mut self) -> Result<(), AskError>
        ensures { talk self.new ≡ talk self.old };

    /// Sends all of the bytes.
    fn send(&mut self, bytes: &[u8]) -> Result<(), AskError>
        ensures { OnOk result (Passes (talk self.old) (talk self.new) (sent bytes.now)) };

    /// Reads once, and returns how many bytes came. The number is 0 at the end of the connection.
    fn receive(&mut self, into: &mut [u8]) -> Result<usize, AskError>
        ensures most { IfOk result (λ n. n ≤ length into.new) }
        ensures came { IfOk result (λ n. Passes (talk self.old) (talk self.new) (came (take n into.new))) };
}

/// A connection over TCP.
#[derive(Drop)]
pub struct TcpLink<'a, K: Clock> {
    clock: &'a K,
    stream: TcpStream,
    /// The time that a send or a reply may take.
    limit: Duration,
    /// When the time of the next send or reply began.
    since: Instant,
}

impl<'a, K: Clock> TcpLink<'a, K> {
    /// A connection whose sends and replies may take this time each.
    pub fn new(
        clock: &'a K,
        stream: TcpStream,
        limit: Duration,
    ) -> Result<TcpLink<'a, K>, AskError> {
        stream.set_nodelay(true).map_err(AskError::Broken)?;
        let since = Instant::now(clock).map_err(AskError::Broken)?;
        Ok(TcpLink {
            clock,
            stream,
            limit,
            since,
        })
    }

    /// The time that is left for the next send or reply.
    fn left(&self) -> Result<Duration, AskError> {
        let elapsed = self.since.elapsed(self.clock).map_err(AskError::Broken)?;
        let left = self.limit.saturating_sub(elapsed);
        if left.is_zero() {
            return Err(AskError::Timeout);
        }
        Ok(left)
    }

    /// Sends all of the bytes.
    fn send_all(&mut self, bytes: &[u8]) -> Result<(), AskError> {
        let mut rest = bytes;
        while !rest.is_empty() {
            let count = self.send_some(rest)?;
            rest = rest.split_at(count).1;
        }
        Ok(())
    }

    /// Sends a front of the bytes, of at least one byte, and returns its length.
    fn send_some(&mut self, bytes: &[u8]) -> Result<usize, AskError>
        ensures some { IfOk result (λ n. 1 ≤ n) }
        ensures within { IfOk result (λ n. n ≤ length bytes.now) }
    {
        for _ in 0..u64::MAX {
            self.wait_to_write()?;
            match self.stream.write(bytes) {
                Ok(0) => return Err(AskError::Cut),
                Ok(count) => return Ok(count),
                Err(error) => again(error)?,
            }
        }
        Err(AskError::Timeout)
    }

    /// The next write takes no longer than the time that is left.
    fn wait_to_write(&mut self) -> Result<(), AskError> {
        let left = self.left()?;
        let set = self.stream.set_write_timeout(Some(left));
        set.map_err(AskError::Broken)
    }

    /// The next read takes no longer than the time that is left.
    fn wait_to_read(&mut self) -> Result<(), AskError> {
        let left = self.left()?;
        let set = self.stream.set_read_timeout(Some(left));
        set.map_err(AskError::Broken)
    }
}

impl<K: Clock> Link for TcpLink<'_, K> {
    fn begin(&mut self) -> Result<(), AskError> {
        self.since = Instant::now(self.clock).map_err(AskError::Broken)?;
        Ok(())
    }

    fn send(&mut self, bytes: &[u8]) -> Result<(), AskError> {
        self.send_all(bytes)
    }

    fn receive(&mut self, into: &mut [u8]) -> Result<usize, AskError> {
        for _ in 0..u64::MAX {
            self.wait_to_read()?;
            match self.stream.read(into) {
                Ok(count) => return Ok(count),
                Err(error) => again(error)?,
            }
        }
        Err(AskError::Timeout)
    }
}

/// Whether a call that failed is made again: a signal has interrupted it. One that has waited for
/// all of its time is a timeout.
fn again(error: io::Error) -> Result<(), AskError> {
    match error.kind() {
        ErrorKind::Interrupted => Ok(()),
        ErrorKind::WouldBlock | ErrorKind::TimedOut => Err(AskError::Timeout),
        _ => Err(AskError::Broken(error)),
    }
}
