//! Whether the peer of a session has left, by its socket.

ghost use Rattle.std.specs.Prelude.{◌≡◌, false, None};

use hub_claims::Waiter;
use paced_stream::{AcceptedStream, Deadline, ReadAhead, Side};
use std::time::{Clock, Duration};

/// How long a session awaits commits for a peer that may have left.
#[derive(Clone, Copy)]
pub(crate) struct Limits {
    /// The time for a peer that has ended its side, or `None` for no limit.
    pub(crate) leave: Option<Duration>,
    /// The time for a peer of which no more is read, so that its end could not be found, or `None`
    /// for no limit.
    pub(crate) idle: Option<Duration>,
}

/// The peer of a session, who waits for replies. What it sends meanwhile is read ahead, so that the
/// end of its input is found.
///
/// It has left once its connection is reset or is ended on both sides. Where there is a limit, it
/// has also left once it has ended its own side, and this time has gone by in which no command of
/// it was answered. A peer may end its side once it has sent its requests, and a peer that closes
/// its connection cannot be distinguished from it before something is written. The same holds, by
/// another limit, of a peer that has sent more than is read ahead.
#[derive(Drop)]
pub(crate) struct PeerSocket<'a, K: Clock> {
    clock: &'a K,
    stream: &'a AcceptedStream,
    ahead: &'a ReadAhead,
    limits: Limits,
    /// When the peer is taken to have left, unless a command of it is answered before.
    deadline: Option<Deadline>,
    has_left: bool,
}

impl<'a, K: Clock> PeerSocket<'a, K> {
    /// The peer of a connection, who has not left.
    pub(crate) fn new(
        clock: &'a K,
        stream: &'a AcceptedStream,
        ahead: &'a ReadAhead,
        limits: Limits,
    ) -> PeerSocket<'a, K>
        ensures present { result.has_left ≡ false }
        ensures limits { result.limits ≡ limits }
    {
        PeerSocket {
            clock,
            stream,
            ahead,
            limits,
            deadline: None,
            has_left: false,
        }
    }

    /// Whether the peer has left, by a look at its socket. No clause can say what a socket shows.
    fn looks_gone(&mut self) -> bool {
        match self.stream.side(self.ahead) {
            Side::Open => false,
            Side::Ended => self.is_late(self.limits.leave),
            Side::Full => self.is_late(self.limits.idle),
            Side::Gone => true,
        }
    }

    /// Whether the peer has waited for a limit. The time begins with the first call after an
    /// answer.
    fn is_late(&mut self, limit: Option<Duration>) -> bool
        ensures { limit ≡ None → result ≡ false }
    {
        let Some(limit) = limit else {
            return false;
        };
        match self.deadline {
            Some(deadline) => deadline.left(self.clock).is_none(),
            None => {
                self.deadline = Deadline::after(self.clock, limit).ok();
                false
            }
        }
    }
}

impl<K: Clock> Waiter for PeerSocket<'_, K> {
    ghost has_left = { λ peer. peer.has_left };

    fn has_left(&mut self) -> bool {
        self.has_left = self.looks_gone();
        if self.has_left {
            self.ahead.end();
        }
        self.has_left
    }

    fn had_left(&self) -> bool {
        self.has_left
    }

    fn note_answer(&mut self) {
        self.deadline = None;
    }
}
