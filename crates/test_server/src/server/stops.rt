//! A sync that is held, and a device that fails, while sessions are open.

use crate::server::checks::assert_same;
use crate::server::doors::Door;
use crate::server::held::serve_held;
use crate::server::peers::{EMPTY_LOOKUP, NO_DESTINATION, Peer};
use crate::server::rows::{FOUND, LOOKUP, NOTHING, PURGE, REGISTERED, REGISTRATION};
use crate::server::worlds::{
    Clients, Counts, Others, Outside, assert_met_failing, assert_served, options,
};
use std::alloc::Global;
use std::io;
use std::net::SocketAddr;

/// One session registers while a sync of its group is held, and another looks up meanwhile; then
/// the first one gets its receipt, and both see the segment.
#[derive(Drop)]
struct Holding<'a> {
    door: &'a Door,
}

impl Holding<'_> {
    /// What both sessions see.
    fn hold<R: Outside>(
        &self,
        rt: R,
        first: &mut Peer,
        second: &mut Peer,
    ) -> io::Result<[bool; 6]> {
        // The store is open once a request is answered.
        let is_open = second.asks(EMPTY_LOOKUP, NO_DESTINATION)?;
        self.door.arm(&rt);
        first.send(REGISTRATION)?;
        let is_held = self.door.is_held_soon(&rt);
        let is_answered = second.asks(LOOKUP, NOTHING);
        self.door.open(&rt);
        let is_acknowledged = first.receives(REGISTERED)?;
        let is_learnt = first.asks(LOOKUP, FOUND)?;
        let is_shown = second.asks(LOOKUP, FOUND)?;
        let is_answered = is_answered?;
        Ok([
            is_open,
            is_held,
            is_answered,
            is_acknowledged,
            is_learnt,
            is_shown,
        ])
    }
}

impl Clients for Holding<'_> {
    type Seen = [bool; 6];

    fn meet<R: Outside>(&self, rt: R, alloc: Global, to: SocketAddr) -> io::Result<[bool; 6]> {
        let mut first = Peer::connect(rt, alloc, to)?;
        let mut second = Peer::connect(rt, alloc, to)?;
        self.hold(rt, &mut first, &mut second)
    }
}

#[test]
fn held_sync_lookup(rt: HostRuntime) {
    let door = Door::new();
    let options = options(&rt, rt.alloc(), 2);
    let clients = Holding { door: &door };
    let others = Others::none();
    let (served, seen) = serve_held(&rt, rt.alloc(), &door, others, &options, &clients, (1, 1));
    let seen = assert_served(&rt, served, seen, 2);
    assert_same(&rt, &seen, &[true; 6], &"seen");
}

/// The most lookups while a stop is not reported yet.
const MOST_LOOKUPS: u64 = 100_000;

/// Looks up until the server has reported that its store stopped. The flusher's thread reports it,
/// and no report comes once all sessions have ended.
fn look_up_until_stopped(peer: &mut Peer, counts: &Counts) -> io::Result<()> {
    for _ in 0..MOST_LOOKUPS {
        if counts.stopped() > 0 {
            return Ok(());
        }
        peer.asks(LOOKUP, FOUND)?;
    }
    Ok(())
}

/// A command before the device fails, one that meets the fault, one after it in another session,
/// and lookups of both.
#[derive(Drop)]
struct Failing<'a> {
    counts: &'a Counts,
}

impl Failing<'_> {
    /// What both sessions see.
    fn fail(&self, first: &mut Peer, second: &mut Peer) -> io::Result<[bool; 6]> {
        let is_new = second.asks(LOOKUP, NOTHING)?;
        let is_acknowledged = first.asks(REGISTRATION, REGISTERED)?;
        let is_unknown = first.asks(PURGE, "00000002ff62")?;
        let is_stopped = second.asks(PURGE, "00000002ff54")?;
        let is_found = first.asks(LOOKUP, FOUND)?;
        let is_shown = second.asks(LOOKUP, FOUND)?;
        look_up_until_stopped(second, self.counts)?;
        Ok([
            is_new,
            is_acknowledged,
            is_unknown,
            is_stopped,
            is_found,
            is_shown,
        ])
    }
}

impl Clients for Failing<'_> {
    type Seen = [bool; 6];

    fn meet<R: Outside>(&self, rt: R, alloc: Global, to: SocketAddr) -> io::Result<[bool; 6]> {
        let mut first = Peer::connect(rt, alloc, to)?;
        let mut second = Peer::connect(rt, alloc, to)?;
        self.fail(&mut first, &mut second)
    }
}

#[test]
fn lookups_go_on_after_a_fault(rt: HostRuntime) {
    let options = options(&rt, rt.alloc(), 2);
    let counts = Counts::new();
    let clients = Failing { counts: &counts };
    let others = Others::none();
    let seen = assert_met_failing(&rt, rt.alloc(), others, &options, &clients, &counts, 2);
    assert_same(&rt, &seen, &[true; 6], &"seen");
    assert_same(&rt, &counts.stopped(), &1, &"stopped");
    assert_same(&rt, &counts.turned_away(), &0, &"turned away");
}
