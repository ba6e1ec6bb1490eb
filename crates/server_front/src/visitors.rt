//! The listener for requests of the numbers, and the peers that come by it.

ghost use Rattle.std.specs.Prelude.{◌≡◌, false};
ghost use Rattle.server_front.specs.Arriving.{is_nobody};

use crate::accepting::{AcceptFailure, accept_one, after_failure, next_peer};
use std::net::{OpenListener, TcpStream};
use std::sync::atomic::{AtomicBool, Ordering};
use std::sync::{Mutex, Wait};
use std::time::Clock;

/// The listener for requests of the numbers, until a thread takes it. Threads share it, so that no
/// clause says whether it is there.
#[derive(Drop)]
pub struct StatusListener<L> {
    listener: Mutex<Option<L>>,
    /// Whether a thread for the listener was asked for.
    is_offered: AtomicBool,
}

impl<L: Drop> StatusListener<L> {
    /// Keeps the listener, if there is one.
    pub fn new(listener: Option<L>) -> StatusListener<L> {
        StatusListener {
            listener: Mutex::new(listener),
            is_offered: AtomicBool::new(false),
        }
    }

    /// Whether a thread must be asked for the listener, as it is once where there is one.
    pub fn offer<R: Wait>(&self, rt: &R) -> bool {
        !self.is_offered.swap(true, Ordering::SeqCst) && self.listener.lock(rt).is_some()
    }

    /// Takes the listener.
    pub fn take<R: Wait>(&self, rt: &R) -> Option<L> {
        (*self.listener.lock(rt)).take()
    }
}

/// What comes of a look for a peer.
#[derive(Drop)]
pub enum Visitor {
    /// A peer has come.
    Peer(TcpStream),
    /// No peer has come by now.
    Nobody,
    /// No peers are awaited any more, or the listener is broken.
    Over,
}

/// The next peer of a listener. Where others are visiting, the call does not wait for it. The
/// result is `Over` where the listener is broken, or where `goes_on` returns `false`.
pub fn next_visitor<R: Wait + Clock, L: OpenListener<Stream = TcpStream>, G: Fn() -> bool + Drop>(
    rt: &R,
    listener: &L,
    has_others: bool,
    goes_on: G,
) -> Visitor
    requires { G.IsAlwaysCallable goes_on }
    ensures waits { has_others ≡ false → is_nobody result ≡ false }
{
    if !goes_on() || listener.set_nonblocking(has_others).is_err() {
        return Visitor::Over;
    }
    if has_others {
        return visitor_now(listener);
    }
    match next_peer(rt, listener, goes_on) {
        Some(stream) => Visitor::Peer(stream),
        None => Visitor::Over,
    }
}

/// The next peer of a listener that does not wait. After an accept that failed the next one is made
/// beside the visits under way, which are over within a second.
fn visitor_now<L: OpenListener<Stream = TcpStream>>(listener: &L) -> Visitor {
    match accept_one(listener) {
        Ok((stream, _address)) => Visitor::Peer(stream),
        Err(error) => match after_failure(&error) {
            AcceptFailure::Nobody | AcceptFailure::Pause => Visitor::Nobody,
            AcceptFailure::Broken => Visitor::Over,
        },
    }
}
