//! Waiting for peers, and the server's action after an accept that failed.

ghost use Rattle.std.specs.Prelude.{◌≡◌};
ghost use Rattle.std.specs.IoError.{raw_os_error};
ghost use Rattle.server_front.specs.Accepting.{failure_of, failure_after, next_pause};

use crate::descriptors::raised;
use libc::{EAGAIN, EBADF, EINVAL, ENOTSOCK};
use paced_stream::AcceptedStream;
use std::io;
use std::net::{OpenListener, SocketAddr, TcpStream};
use std::sync::Wait;
use std::thread::sleep;
use std::time::{Clock, Duration};

// Linux's number of an error that `libc` does not name here.
const EFAULT: i32 = 14;

/// The pause in milliseconds after the first of several accepts that fail.
const FIRST_PAUSE: u64 = 50;

/// The longest pause in milliseconds after an accept that failed.
const LONGEST_PAUSE: u64 = 1_000;

/// The server's action after an accept that failed.
#[derive(Clone, Copy, Debug, PartialEq, Eq)]
pub enum AcceptFailure {
    /// No peer came in the time of the listener: the next one is awaited.
    Nobody,
    /// Descriptors or memory are short, or the peer or the network failed: the next connection is
    /// accepted after a pause.
    Pause,
    /// The listener is no listening socket, or is shut down.
    Broken,
}

/// What comes of waiting for a peer.
#[derive(Drop)]
pub enum Arrival<S> {
    /// A peer has come.
    Peer(S, SocketAddr),
    /// No peers are awaited any more.
    Over,
    /// The listener is broken.
    Broken,
}

impl Arrival<TcpStream> {
    /// The same, with the connection sealed.
    pub(crate) fn sealed(self) -> Arrival<AcceptedStream> {
        match self {
            Arrival::Peer(stream, address) => Arrival::Peer(AcceptedStream::of(stream), address),
            Arrival::Over => Arrival::Over,
            Arrival::Broken => Arrival::Broken,
        }
    }
}

/// Waits for the next peer of a listener. After each accept `goes_on` is asked whether peers are
/// still awaited. After an accept that failed `fail` gets the system's number of its error, or 0
/// where it has none, and the pause in milliseconds until the next accept, which doubles as long as
/// accepts fail.
pub(crate) fn next_arrival<
    R: Wait + Clock,
    L: OpenListener<Stream = TcpStream>,
    G: Fn() -> bool + Drop,
    F: Fn(i32, u64) + Drop,
>(rt: &R, listener: &L, goes_on: G, fail: F) -> Arrival<TcpStream>
    requires goes_on { G.IsAlwaysCallable goes_on }
    requires fail { F.IsAlwaysCallable fail }
{
    let mut pause = 0;
    for _ in rt.forever() {
        let accepted = accept_one(listener);
        if !goes_on() {
            return Arrival::Over;
        }
        match accepted {
            Ok((stream, address)) => return Arrival::Peer(stream, address),
            Err(error) => match after_failure(&error) {
                AcceptFailure::Nobody => pause = 0,
                AcceptFailure::Pause => pause = pause_after(rt, &error, pause, &fail),
                AcceptFailure::Broken => return Arrival::Broken,
            },
        }
    }
    unreachable!()
}

/// Pauses after an accept that failed by an error, which `fail` hears of with the pause. Returns
/// the pause in milliseconds, where the one before was this.
pub(crate) fn pause_after<R: Clock, F: Fn(i32, u64)>(
    rt: &R,
    error: &io::Error,
    before: u64,
    fail: &F,
) -> u64
    requires { F.IsAlwaysCallable fail.now }
    ensures { result ≡ next_pause before }
{
    let pause = next_pause(before);
    fail(error.raw_os_error().unwrap_or(0), pause);
    sleep(rt, Duration::from_millis(pause));
    pause
}

/// Waits for the next peer of a listener. The result is `None` where the listener is broken, or
/// where `goes_on`, which is called after each accept, returns `false`.
pub(crate) fn next_peer<
    R: Wait + Clock,
    L: OpenListener<Stream = TcpStream>,
    G: Fn() -> bool + Drop,
>(rt: &R, listener: &L, goes_on: G) -> Option<TcpStream>
    requires { G.IsAlwaysCallable goes_on }
{
    match next_arrival(rt, listener, goes_on, |_, _| {}) {
        Arrival::Peer(stream, _address) => Some(stream),
        Arrival::Over | Arrival::Broken => None,
    }
}

/// Accepts one connection, which lies above the standard descriptors.
pub(crate) fn accept_one<L: OpenListener<Stream = TcpStream>>(
    listener: &L,
) -> io::Result<(TcpStream, SocketAddr)> {
    let (stream, address) = listener.accept()?;
    Ok((raised(stream)?, address))
}

/// The pause in milliseconds after one more accept that failed: the first one is 50, and each
/// further one twice the one before, up to 1,000.
fn next_pause(pause: u64) -> u64
    ensures { result ≡ next_pause pause }
{
    pause.saturating_mul(2).clamp(FIRST_PAUSE, LONGEST_PAUSE)
}

/// The action after an accept that failed, by the system's number of its error. An error without a
/// number is the peer's.
pub fn after_failure(error: &io::Error) -> AcceptFailure
    ensures { result ≡ failure_after (raw_os_error error.now) }
{
    match error.raw_os_error() {
        Some(number) => failure_of(number),
        None => AcceptFailure::Pause,
    }
}

/// The action after the error of this number, as accept(2) of Linux lists them. It counts
/// EOPNOTSUPP among the errors of a new connection, after which the next one is accepted.
fn failure_of(number: i32) -> AcceptFailure
    ensures { result ≡ failure_of number }
{
    match number {
        EBADF | EFAULT | EINVAL | ENOTSOCK => AcceptFailure::Broken,
        EAGAIN => AcceptFailure::Nobody,
        _ => AcceptFailure::Pause,
    }
}
