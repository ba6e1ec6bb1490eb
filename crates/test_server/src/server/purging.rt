//! A server that purges by itself.

use crate::server::checks::{assert_same, assert_true};
use crate::server::doors::{nap, naps};
use crate::server::peers::{EMPTY_LOOKUP, NO_DESTINATION, Peer, is_replied};
use crate::server::rows::{FOUND, LOOKUP, REGISTERED, REGISTRATION};
use crate::server::set_clock::{SetSystem, Setting};
use crate::server::stores::{
    EXPIRED_PLACE, LEAST, assert_opens_to, formatted, of_expired_rows, opened,
};
use crate::server::watching::{GET_NUMBERS, answer_to, status_listener};
use crate::server::worlds::{
    Clients, Counts, End, Others, Outside, assert_met, assert_met_failing, assert_served, options,
    serve_beside, serve_by,
};
use path_server::Options;
use sector_dev::MemDevice;
use std::alloc::Global;
use std::io;
use std::net::SocketAddr;
use std::process::Abort;
use std::time::{Clock, Duration};

/// The period of the purges, in milliseconds.
const PERIOD: u64 = 20;

/// How often a peer waits for something to be reported: for half a minute.
const MOST_NAPS: u64 = 6_000;

/// The options of a server for one session that purges after each period.
fn purging(rt: &impl Abort, alloc: Global, period: Duration) -> Options {
    let mut options = options(rt, alloc, 1);
    options.purge = Some(period);
    options
}

/// Registers, and keeps its session open for some periods.
struct Staying;

/// Registers and waits for some periods: whether the session is open, and the segment is found.
fn stay(clock: &impl Clock, peer: &mut Peer) -> io::Result<[bool; 2]> {
    let is_open = peer.asks(EMPTY_LOOKUP, NO_DESTINATION)?;
    peer.send(REGISTRATION)?;
    naps(clock, PERIOD);
    // The place of the registration is not known, as a purge may come before it.
    let _is_first = peer.receives(REGISTERED)?;
    let is_found = peer.asks(LOOKUP, FOUND)?;
    Ok([is_open, is_found])
}

impl Clients for Staying {
    type Seen = [bool; 2];

    fn meet<R: Outside>(&self, rt: R, alloc: Global, to: SocketAddr) -> io::Result<[bool; 2]> {
        let mut peer = Peer::connect(rt, alloc, to)?;
        stay(&rt, &mut peer)
    }
}

/// Sees that a device opens to this number of rows, at a place after this one: that of a purge.
fn assert_purged(rt: &impl Abort, alloc: Global, device: MemDevice, (rows, before): (usize, u64)) {
    let store = opened(rt, alloc, device);
    let place = store.place();
    assert_true(rt, place > before, "a purge has a place");
    let _device = assert_opens_to(rt, alloc, store.into_device(), rows, place);
}

// Each purge takes a place of its own, and drops nothing that is valid.
#[test]
fn server_purges_by_itself(rt: HostRuntime) {
    let alloc = rt.alloc();
    let device = formatted(&rt, alloc, LEAST);
    let options = purging(&rt, alloc, Duration::from_millis(PERIOD));
    let counts = Counts::new();
    let others = Others::none();
    let (device, served, seen) = serve_beside(
        &rt, alloc, device, others, &options, &Staying, &counts,
    );
    assert_purged(&rt, alloc, device, (1, 1));
    let seen = assert_served(&rt, served, seen, 1);
    assert_same(&rt, &seen, &[true; 2], &"open and found");
    assert_same(&rt, &counts.not_purged(), &0, &"not purged");
}

/// An hour after the row has expired, in seconds since 1970.
const AFTER_EXPIRY: u64 = 1_700_025_200;

/// The lines of the page once the only row was dropped: there is no row, and one is counted.
const NO_ROW: &str = "\npathd_rows 0\n";

const ONE_REMOVED: &str = "\npathd_outcomes_total{outcome=\"removed\"} 1\n";

/// The same by the server's own purges.
const ONE_BY_ITSELF: &str = "\npathd_own_purged_rows_total 1\n";

/// The lines of replies to purges and of segments that were registered: there were none.
const NO_REPLY: &str = "\npathd_replies_total{kind=\"purged\"} 0\n";

const NONE_INSERTED: &str = "\npathd_outcomes_total{outcome=\"inserted\"} 0\n";

/// Waits until the page shows that a row was dropped.
#[derive(Drop)]
struct Dropping {
    at: SocketAddr,
}

impl Dropping {
    /// The page once it shows that a row was dropped, or after half a minute.
    fn page<R: Outside>(&self, rt: R, alloc: Global) -> io::Result<String> {
        for _ in 0..MOST_NAPS {
            let page = answer_to(rt, alloc, self.at, GET_NUMBERS)?;
            if page.as_str().contains(NO_ROW) && page.as_str().contains(ONE_REMOVED) {
                return Ok(page);
            }
            nap(&rt);
        }
        answer_to(rt, alloc, self.at, GET_NUMBERS)
    }
}

impl Clients for Dropping {
    type Seen = [bool; 6];

    fn meet<R: Outside>(&self, rt: R, alloc: Global, to: SocketAddr) -> io::Result<[bool; 6]> {
        let mut peer = Peer::connect(rt, alloc, to)?;
        let is_open = peer.asks(EMPTY_LOOKUP, NO_DESTINATION)?;
        let page = self.page(rt, alloc)?;
        let page = page.as_str();
        Ok([
            is_open,
            page.contains(NO_ROW),
            page.contains(ONE_REMOVED),
            page.contains(ONE_BY_ITSELF),
            page.contains(NO_REPLY),
            page.contains(NONE_INSERTED),
        ])
    }
}

// The row that has expired is dropped with no peer that asks for it. The page counts it, and no
// reply.
#[test]
fn expired_row_is_dropped(rt: HostRuntime) {
    let alloc = rt.alloc();
    let device = of_expired_rows(&rt, alloc, 1);
    let options = purging(&rt, alloc, Duration::from_millis(PERIOD));
    let (status, at) = status_listener(&rt);
    let counts = Counts::new();
    let clients = Dropping { at };
    let setting = Setting::new(&rt, AFTER_EXPIRY).expect(&rt, "the clock is read");
    let system = SetSystem {
        rt: &rt,
        setting: &setting,
    };
    let (device, served, seen) = serve_by(
        &rt, system, alloc, device, status, &options, &clients, &counts,
    );
    assert_purged(&rt, alloc, device, (0, EXPIRED_PLACE));
    let seen = assert_served(&rt, served, seen, 1);
    assert_same(&rt, &seen, &[true; 6], &"open, and the page");
    assert_same(&rt, &counts.not_purged(), &0, &"not purged");
}

/// Registers once, and ends its session.
struct Leaving;

impl Clients for Leaving {
    type Seen = bool;

    fn meet<R: Outside>(&self, rt: R, alloc: Global, to: SocketAddr) -> io::Result<bool> {
        is_replied(rt, alloc, to, REGISTRATION, REGISTERED)
    }
}

// The server ends before its first period does.
#[test]
fn end_does_not_wait_for_a_period(rt: HostRuntime) {
    let options = purging(&rt, rt.alloc(), Duration::from_secs(1_000_000));
    let end = End {
        sessions: 1,
        rows: 1,
        place: 1,
    };
    let seen = assert_met(&rt, rt.alloc(), &options, &Leaving, &Counts::new(), end);
    assert_true(&rt, seen, "the registration is acknowledged");
}

/// Registers, and waits until a purge was refused, and for some more periods.
#[derive(Drop)]
struct Refused<'a> {
    counts: &'a Counts,
}

impl Refused<'_> {
    /// Waits until a purge was refused.
    fn wait(&self, clock: &impl Clock) {
        for _ in 0..MOST_NAPS {
            if self.counts.not_purged() > 0 {
                break;
            }
            nap(clock);
        }
    }
}

impl Clients for Refused<'_> {
    type Seen = [bool; 2];

    fn meet<R: Outside>(&self, rt: R, alloc: Global, to: SocketAddr) -> io::Result<[bool; 2]> {
        let mut peer = Peer::connect(rt, alloc, to)?;
        let is_registered = peer.asks(REGISTRATION, REGISTERED)?;
        self.wait(&rt);
        naps(&rt, PERIOD);
        Ok([is_registered, peer.asks(EMPTY_LOOKUP, NO_DESTINATION)?])
    }
}

// The device fails in the first purge, after a registration. It is refused, as are those after it:
// one report says so.
#[test]
fn refused_purges_are_reported_once(rt: HostRuntime) {
    let options = purging(&rt, rt.alloc(), Duration::from_millis(PERIOD));
    let counts = Counts::new();
    let clients = Refused { counts: &counts };
    let others = Others::none();
    let seen = assert_met_failing(&rt, rt.alloc(), others, &options, &clients, &counts, 1);
    assert_same(&rt, &seen, &[true; 2], &"the session goes on");
    assert_same(&rt, &counts.not_purged(), &1, &"not purged");
    assert_same(&rt, &counts.stopped(), &1, &"stopped");
}
