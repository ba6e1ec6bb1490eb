//! A connection of the system that was accepted, sealed.

ghost use Rattle.std.specs.Prelude.{◌≡◌, [], IfSome};

use crate::deadline::Deadline;
use crate::read_ahead::{ReadAhead, ReadOn};
use crate::sealed::Sealed;
use crate::system_stream::SystemStream;
use libc::net::{POLLERR, POLLHUP, POLLIN, POLLNVAL, POLLRDHUP, poll};
use libc::types::pollfd;
use session_core::{Code, refuse_over};
use std::io::{ErrorKind, Read};
use std::net::{Shutdown, TcpStream};
use std::os::fd::AsRawFd;
use std::sync::atomic::{AtomicBool, Ordering};
use std::time::Clock;

/// The number of reads of what a peer has sent before its refused connection is closed.
const READS: u64 = 4;

/// The most bytes that one of these reads drops.
const MOST_DRAINED: usize = 4_096;

/// The most bytes of one read of a connection that is parted from.
const PIECE: usize = 1_024;

/// A connection that was accepted. One session writes to it, or one refusal is written in its
/// place, and nothing else: no call gives the connection out.
#[derive(Drop)]
pub struct AcceptedStream {
    stream: TcpStream,
    /// Whether a session has begun, or the connection was refused.
    is_used: AtomicBool,
}

/// What the socket of a peer shows.
#[derive(Clone, Copy, PartialEq, Eq)]
pub enum Side {
    /// The peer may send more.
    Open,
    /// The peer has ended its side.
    Ended,
    /// The peer has sent more than is read ahead.
    Full,
    /// The connection is reset, or ended on both sides.
    Gone,
}

impl AcceptedStream {
    /// Seals a connection.
    pub fn of(stream: TcpStream) -> AcceptedStream {
        AcceptedStream {
            stream,
            is_used: AtomicBool::new(false),
        }
    }

    /// The connection for the reads of its session, and for the writes. The session has what was
    /// read ahead first. The result is `None` where a session has begun before, or the connection
    /// was refused.
    pub fn begin<'a>(
        &'a self,
        ahead: &'a ReadAhead,
    ) -> Option<(Sealed<SystemStream<'a>>, Sealed<SystemStream<'a>>)>
        ensures given { IfSome result (λ both. both.0.given.value ≡ []) }
        ensures taken { IfSome result (λ both. both.1.taken.value ≡ []) }
    {
        if self.is_used.swap(true, Ordering::SeqCst) {
            return None;
        }
        let input = SystemStream::new(&self.stream, ahead);
        let output = SystemStream::new(&self.stream, ahead);
        Some((Sealed::of(input), Sealed::of(output)))
    }

    /// Sends the peer one refusal in place of a session, and ends this side of the connection. The
    /// call does not wait: the buffer of a new connection has room for the reply. What the peer has
    /// already sent is read, since a close over unread input would reset the connection and lose
    /// the reply.
    pub fn refuse(&self, code: Code) {
        if self.is_used.swap(true, Ordering::SeqCst) {
            return;
        }
        if self.stream.set_nonblocking(true).is_err() {
            return;
        }
        let (refused, _stream) = refuse_over(&self.stream, code);
        if refused.is_err() {
            return;
        }
        let _shut = self.stream.shutdown(Shutdown::Write);
        drain(&self.stream);
    }

    /// Shuts the connection down.
    pub fn shut(&self) {
        let _shut = self.stream.shutdown(Shutdown::Both);
    }

    /// Ends the connection. A close over unread input would reset it, and the peer might lose its
    /// last replies. The input that arrives until the peer has closed the connection, or until the
    /// time is over, is therefore read and dropped.
    pub fn part(&self, clock: &impl Clock, deadline: &Deadline) {
        let _shut = self.stream.shutdown(Shutdown::Write);
        let mut piece = [0u8; PIECE];
        for _ in 0..u64::MAX {
            match read_by(clock, &self.stream, deadline, &mut piece) {
                Some(count) if count > 0 => {}
                Some(_) | None => return,
            }
        }
    }

    /// What the socket of the peer shows now. Where it has input, a piece of it is read ahead. A
    /// call of `poll` that fails shows nothing.
    pub fn side(&self, ahead: &ReadAhead) -> Side {
        let mut fds = [pollfd {
            fd: self.stream.as_raw_fd(),
            events: POLLIN | POLLRDHUP,
            revents: 0,
        }];
        if poll(&mut fds, 0) <= 0 {
            return Side::Open;
        }
        let shown = fds[0].revents;
        if shown & (POLLERR | POLLHUP | POLLNVAL) != 0 {
            Side::Gone
        } else if shown & POLLRDHUP != 0 {
            Side::Ended
        } else if shown & POLLIN != 0 {
            side_after(ahead.read_on(&self.stream))
        } else {
            Side::Open
        }
    }
}

/// What a read ahead shows.
fn side_after(read: ReadOn) -> Side {
    match read {
        ReadOn::Kept => Side::Open,
        ReadOn::Ended => Side::Ended,
        ReadOn::Full => Side::Full,
        ReadOn::Failed => Side::Gone,
    }
}

/// Drops the bytes that have arrived, in at most `READS` reads, until a read fails or finds the
/// end.
fn drain(mut stream: &TcpStream) {
    let mut piece = [0u8; MOST_DRAINED];
    for _ in 0..READS {
        match stream.read(&mut piece) {
            Ok(0) | Err(_) => return,
            Ok(_) => {}
        }
    }
}

/// Reads once, and returns the number of bytes, of which 0 is the end. A read that is interrupted
/// is made again for the time that is left. The result is `None` where the time is over, or the
/// connection or the clock failed.
fn read_by(
    clock: &impl Clock,
    mut stream: &TcpStream,
    deadline: &Deadline,
    piece: &mut [u8],
) -> Option<usize> {
    for _ in 0..u64::MAX {
        stream.set_read_timeout(Some(deadline.left(clock)?)).ok()?;
        match stream.read(piece) {
            Err(error) if error.kind() == ErrorKind::Interrupted => {}
            read => return read.ok(),
        }
    }
    None
}
