//! The listeners of a server.

use crate::two_listeners::Entrances;
use std::io;
use std::net::{OpenListener, SocketAddr, TcpListener, TcpStream};
use std::os::fd::{AsRawFd, OwnedFd};
use std::time::Duration;

/// The longest wait of an accept, in milliseconds.
pub(crate) const ACCEPT: u16 = 200;

/// A listener of a server's sessions.
pub trait Listener: OpenListener<Stream = TcpStream> {
    /// The descriptor by which the system says that a peer has come. Where it is `None`, each
    /// accept of one listener waits for none of another.
    fn descriptor(&self) -> Option<i32> {
        None
    }
}

impl Listener for TcpListener {
    fn descriptor(&self) -> Option<i32> {
        Some(self.as_raw_fd())
    }
}

/// The listeners of a server. Those of sessions are sealed: a `Door` alone accepts by them, and
/// seals each connection.
#[derive(Drop)]
pub struct Listeners<L> {
    entrances: Entrances<L>,
    status: Option<L>,
}

impl<L> Listeners<L> {
    ghost use Rattle.std.specs.Prelude.{◌≡◌, None};

    /// The listener for sessions, that for sessions that only look up, each of whose commands is
    /// refused, if there is one, and that for requests of the server's numbers, if they are
    /// answered. Accepts have to fail soon where no peer comes, as after `set_accept_timeout`: the
    /// server checks only then whether it is to end.
    pub fn new(sessions: L, lookups: Option<L>, status: Option<L>) -> Listeners<L>
        ensures sessions { result.entrances.sessions ≡ sessions }
        ensures lookups { result.entrances.lookups ≡ lookups }
        ensures status { result.status ≡ status }
    {
        Listeners {
            entrances: Entrances { sessions, lookups },
            status,
        }
    }

    /// A listener for sessions alone.
    pub fn of_sessions(sessions: L) -> Listeners<L>
        ensures sessions { result.entrances.sessions ≡ sessions }
        ensures lookups { result.entrances.lookups ≡ None }
        ensures status { result.status ≡ None }
    {
        Listeners::new(sessions, None, None)
    }

    /// The listeners of sessions, and the listener for requests of the numbers.
    pub fn into_parts(self) -> (Entrances<L>, Option<L>)
        ensures entrances { result.0 ≡ self.entrances }
        ensures status { result.1 ≡ self.status }
    {
        let Listeners { entrances, status } = self;
        (entrances, status)
    }
}

impl Listeners<TcpListener> {
    /// The address of the listener for sessions.
    pub fn sessions_at(&self) -> io::Result<SocketAddr> {
        self.entrances.sessions.local_addr()
    }

    /// The address of the listener for lookups, if there is one.
    pub fn lookups_at(&self) -> Option<SocketAddr> {
        self.entrances.lookups.as_ref()?.local_addr().ok()
    }

    /// The address of the listener for requests of the numbers, if there is one.
    pub fn status_at(&self) -> Option<SocketAddr> {
        self.status.as_ref()?.local_addr().ok()
    }
}

/// Sets an accept timeout of 200 ms. The error is the system's, where it gives no second handle or
/// does not set the time. No contract of the system's calls says which timeout a socket has, nor
/// that a call succeeds, so there is no clause.
pub fn set_accept_timeout(listener: &TcpListener) -> io::Result<()> {
    // A second handle of the listening socket, with a stream's methods: it sets the time of both.
    let socket = TcpStream::from(OwnedFd::from(listener.try_clone()?));
    socket.set_read_timeout(Some(Duration::from_millis(u64::from(ACCEPT))))
}
