//! Waiting for peers of two listeners.

ghost use Rattle.std.specs.Prelude.{◌≡◌};
ghost use Rattle.server_front.specs.Arriving.{ready_by};

use crate::accepting::{AcceptFailure, Arrival, accept_one, after_failure, pause_after};
use crate::listeners::{ACCEPT, Listener};
use crate::role::Role;
use libc::net::{POLLIN, poll};
use libc::types::pollfd;
use std::net::TcpStream;
use std::sync::Wait;
use std::time::Clock;

/// The listeners of a server's sessions. No call gives them out.
#[derive(Drop)]
pub struct Entrances<L> {
    /// That of the sessions that may have commands.
    pub(crate) sessions: L,
    /// That of the sessions that only look up, if there is one.
    pub(crate) lookups: Option<L>,
}

impl<L> Entrances<L> {
    /// Whether there is a listener for lookups.
    pub fn has_lookups(&self) -> bool {
        self.lookups.is_some()
    }
}

/// Waits for the next peer of two listeners, as `next_arrival` does of one. Where both have peers,
/// the next one is of the role that is `favoured`. After an accept that failed the other role is.
pub(crate) fn next_of_two<
    R: Wait + Clock,
    L: Listener,
    G: Fn() -> bool + Drop,
    F: Fn(i32, u64) + Drop,
>(
    rt: &R,
    sessions: &L,
    lookups: &L,
    mut favoured: Role,
    goes_on: G,
    fail: F,
) -> (Role, Arrival<TcpStream>)
    requires goes_on { G.IsAlwaysCallable goes_on }
    requires fail { F.IsAlwaysCallable fail }
{
    let mut pause = 0;
    for _ in rt.forever() {
        let ready = ready_of(sessions, lookups, favoured);
        if !goes_on() {
            return (Role::All, Arrival::Over);
        }
        let Some(role) = ready else {
            pause = 0;
            continue;
        };
        let accepted = match role {
            Role::All => accept_one(sessions),
            Role::Lookups => accept_one(lookups),
        };
        favoured = role.other();
        match accepted {
            Ok((stream, address)) => return (role, Arrival::Peer(stream, address)),
            Err(error) => match after_failure(&error) {
                AcceptFailure::Nobody => pause = 0,
                AcceptFailure::Pause => pause = pause_after(rt, &error, pause, &fail),
                AcceptFailure::Broken => return (role, Arrival::Broken),
            },
        }
    }
    unreachable!()
}

/// Waits until one of two listeners has a peer, for at most the time of an accept: which one has.
/// Where both have, it is the one that is favoured. A listener without a descriptor is not waited
/// for. A wait that fails, as by a signal, is not made again at once: the accept of the favoured
/// listener waits in its place.
fn ready_of<L: Listener>(sessions: &L, lookups: &L, favoured: Role) -> Option<Role> {
    let (Some(first), Some(second)) = (sessions.descriptor(), lookups.descriptor()) else {
        return Some(favoured);
    };
    let mut fds = [awaited(first), awaited(second)];
    let has_failed = poll(&mut fds, i32::from(ACCEPT)) < 0;
    ready_by(
        has_failed,
        fds[0].revents != 0,
        fds[1].revents != 0,
        favoured,
    )
}

/// The role of the listener that the next peer is accepted from, if there is one, by whether a wait
/// for both has failed, and whether each has a peer.
fn ready_by(has_failed: bool, sessions: bool, lookups: bool, favoured: Role) -> Option<Role>
    ensures { result ≡ ready_by has_failed sessions lookups favoured }
{
    match (has_failed, sessions, lookups) {
        (true, _, _) | (false, true, true) => Some(favoured),
        (false, true, false) => Some(Role::All),
        (false, false, true) => Some(Role::Lookups),
        (false, false, false) => None,
    }
}

/// What is asked of a descriptor: whether a peer has come.
fn awaited(fd: i32) -> pollfd {
    pollfd {
        fd,
        events: POLLIN,
        revents: 0,
    }
}
