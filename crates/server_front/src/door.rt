//! The door of a server, by which its peers arrive.

ghost use Rattle.std.specs.Prelude.{◌≡◌, ◌&&◌, nat_le, nat_lt, false};
ghost use Rattle.server_front.specs.Arriving.{wanted_of};

use crate::accepting::{Arrival, next_arrival};
use crate::listeners::Listener;
use crate::role::Role;
use crate::two_listeners::{Entrances, next_of_two};
use paced_stream::AcceptedStream;
use std::sync::atomic::{AtomicBool, AtomicU64, Ordering};
use std::sync::{Mutex, Wait};
use std::time::Clock;

/// The listeners of sessions, until they are closed, and the number of sessions that were started
/// of those that are wanted. Threads share them, so that no clause says how many were started.
#[derive(Drop)]
pub struct Door<L> {
    entrances: Mutex<Option<Entrances<L>>>,
    /// Whether the peer that came last is of a session that only looks up. Where both listeners
    /// have a peer, the next one is of the other listener.
    is_lookup_last: AtomicBool,
    /// The number of sessions to start, or 0 for no limit.
    wanted: u64,
    started: AtomicU64,
}

impl<L: Listener + Drop> Door<L> {
    /// An open door, for this number of sessions, or 0 for no limit.
    pub fn new(entrances: Entrances<L>, wanted: u64) -> Door<L>
        ensures { wanted_of result ≡ wanted }
    {
        Door {
            entrances: Mutex::new(Some(entrances)),
            is_lookup_last: AtomicBool::new(false),
            wanted,
            started: AtomicU64::new(0),
        }
    }

    /// Whether all sessions that are wanted were started.
    pub fn is_done(&self) -> bool
        ensures unlimited { wanted_of self.now ≡ 0 → result ≡ false }
    {
        is_reached(self.wanted, self.started())
    }

    /// The number of sessions that were started.
    pub fn started(&self) -> u64 {
        self.started.load(Ordering::SeqCst)
    }

    /// Counts a session that is being started.
    pub fn count(&self) {
        self.started.fetch_add(1, Ordering::SeqCst);
    }

    /// Takes back the count of a session that could not be started.
    pub fn discount(&self) {
        self.started.fetch_sub(1, Ordering::SeqCst);
    }

    /// Closes the door: peers are refused from now on.
    pub fn close<R: Wait>(&self, rt: &R) {
        let mut entrances = self.entrances.lock(rt);
        *entrances = None;
    }

    /// Waits for the next peer, with the role of its session. Its connection is sealed. None is
    /// awaited where the door is closed. After each accept `goes_on` is asked whether peers are still
    /// awaited. After an accept that failed `fail` gets the system's number of its error, or 0 where
    /// it has none, and the pause in milliseconds until the next accept. No clause says which peer
    /// comes.
    pub fn next_arrival<R: Wait + Clock, G: Fn() -> bool + Drop, F: Fn(i32, u64) + Drop>(
        &self,
        rt: &R,
        goes_on: G,
        fail: F,
    ) -> (Role, Arrival<AcceptedStream>)
        requires goes_on { G.IsAlwaysCallable goes_on }
        requires fail { F.IsAlwaysCallable fail }
    {
        let entrances = self.entrances.lock(rt);
        let Some(Entrances { sessions, lookups }) = (*entrances).as_ref() else {
            return (Role::All, Arrival::Over);
        };
        let Some(lookups) = lookups else {
            return (
                Role::All,
                next_arrival(rt, sessions, goes_on, fail).sealed(),
            );
        };
        let (role, came) = next_of_two(rt, sessions, lookups, self.favoured(), goes_on, fail);
        self.is_lookup_last
            .store(role == Role::Lookups, Ordering::SeqCst);
        (role, came.sealed())
    }

    /// The role whose peer comes next, where both listeners have one.
    fn favoured(&self) -> Role {
        if self.is_lookup_last.load(Ordering::SeqCst) {
            Role::All
        } else {
            Role::Lookups
        }
    }
}

/// Whether as many sessions were started as are wanted, where 0 is no limit.
fn is_reached(wanted: u64, started: u64) -> bool
    ensures { result ≡ (nat_lt 0 wanted && nat_le wanted started) }
{
    wanted > 0 && started >= wanted
}
