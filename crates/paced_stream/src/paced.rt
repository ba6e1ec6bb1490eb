//! A connection, paced by the boundaries of its frames.

ghost use Rattle.std.specs.Prelude.{◌≡◌, [], ◌++◌, ◌<◌, ◌≤◌, None, length, IfOk};
ghost use Rattle.paced_stream.specs.Grown.{grown_by};
ghost use Rattle.paced_stream.specs.Tracking.{after_bytes};

use crate::pace::Pace;
use crate::stream_calls::StreamCalls;
use session_core::Source;
use std::io;
use std::io::ErrorKind;
use std::time::{Clock, Duration};

/// One direction of a connection, for reads alone or for writes alone.
///
/// A frame that is read has to begin within the idle time of the read that waits for it, and has to
/// be whole within the idle time of the first read that waits for its rest. A frame that is written
/// has to be taken within the idle time of the write that began it. Where a write took all that
/// there was to send, what follows has the idle time of the next write. So the time in which the
/// server answers messages is no frame's. A call that is interrupted is made again for the time
/// that is left.
#[derive(Drop)]
pub(crate) struct Paced<'a, C, T> {
    clock: &'a C,
    stream: T,
    pace: Pace,
    /// The timeout that the socket has in this direction.
    timeout: Option<Duration>,
}

impl<'a, C: Clock, T: StreamCalls> Paced<'a, C, T> {
    /// A direction in which no byte has gone by yet. Its socket has the idle time as its timeout.
    pub(crate) fn new(clock: &'a C, stream: T, idle: Option<Duration>) -> Paced<'a, C, T>
        ensures { result.stream ≡ stream }
    {
        Paced {
            clock,
            stream,
            pace: Pace::new(idle),
            timeout: idle,
        }
    }

    /// Whether a call has failed because its time was over.
    pub(crate) fn is_late(&self) -> bool {
        self.pace.is_late()
    }

    /// Takes the connection out.
    pub(crate) fn into_stream(self) -> T
        ensures { result ≡ self.entry.stream }
    {
        self.stream
    }

    /// Whether the socket has another timeout in this direction, which is then noted as set.
    fn sets(&mut self, time: Option<Duration>) -> bool
        ensures stream { self.new.stream ≡ self.old.stream }
        ensures pace { self.new.pace ≡ self.old.pace }
    {
        let is_other = self.timeout != time;
        self.timeout = time;
        is_other
    }

    /// Writes once, from the first of these bytes, and returns the number of bytes that the
    /// connection took. A write that is interrupted has taken no byte, and is made again.
    pub(crate) fn write(&mut self, bytes: &[u8]) -> io::Result<usize>
        ensures most { IfOk result (λ n. n ≤ length bytes.now) }
        ensures taken { T.taken self.new.stream ≡ grown_by (T.taken self.old.stream) result bytes.now }
        ensures followed { self.new.pace.frames ≡ after_bytes self.old.pace.frames (grown_by [] result bytes.now) }
        ensures all { IfOk result (λ n. n ≡ length bytes.now → self.new.pace.deadline ≡ None) }
    {
        let mut call = self.pace.call_time(self.clock)?;
        for _ in 0..u64::MAX {
            if self.sets(call.time) {
                self.stream.set_write_timeout(call.time)?;
            }
            match self.stream.write_once(bytes) {
                Ok(count) => {
                    self.pace.leave(bytes, count, &call);
                    return Ok(count);
                }
                Err(error) if error.kind() == ErrorKind::Interrupted => {
                    call = call.interrupted(self.clock);
                }
                Err(error) => {
                    self.pace.fail(&error);
                    return Err(error);
                }
            }
        }
        Err(io::Error::from(ErrorKind::TimedOut))
    }

    /// Reads once, into the first bytes of `buf`, and returns their number. A read that is
    /// interrupted has given no byte, and is made again.
    fn read(&mut self, buf: &mut [u8]) -> io::Result<usize>
        ensures most { IfOk result (λ n. n ≤ length buf.new) }
        ensures end { IfOk result (λ n. n ≡ 0 → 0 < length buf.new → T.is_at_end self.new.stream) }
        ensures given { T.given self.new.stream ≡ grown_by (T.given self.old.stream) result buf.new }
        ensures followed { self.new.pace.frames ≡ after_bytes self.old.pace.frames (grown_by [] result buf.new) }
    {
        let mut call = self.pace.call_time(self.clock)?;
        for _ in 0..u64::MAX {
            if self.sets(call.time) {
                self.stream.set_read_timeout(call.time)?;
            }
            match self.stream.read_once(buf) {
                Ok(count) => {
                    self.pace.arrive(buf.split_at(count).0);
                    return Ok(count);
                }
                Err(error) if error.kind() == ErrorKind::Interrupted => {
                    call = call.interrupted(self.clock);
                }
                Err(error) => {
                    self.pace.fail(&error);
                    return Err(error);
                }
            }
        }
        Err(io::Error::from(ErrorKind::TimedOut))
    }
}

impl<C: Clock, T: StreamCalls> Source for Paced<'_, C, T> {
    ghost gives = { λ old bytes new. T.given new.stream ≡ T.given old.stream ++ bytes };

    ghost is_at_end = { λ paced. T.is_at_end paced.stream };

    fn read_piece(&mut self, buf: &mut [u8]) -> io::Result<usize> {
        self.read(buf)
    }
}
