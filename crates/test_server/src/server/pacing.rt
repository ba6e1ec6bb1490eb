//! Peers that are slow, and the seats that they hold.

use crate::server::checks::{assert_same, assert_true};
use crate::server::doors::nap;
use crate::server::peers::{EMPTY_LOOKUP, NO_DESTINATION, Peer, unasked};
use crate::server::seats::NO_SEAT;
use crate::server::worlds::{Clients, Counts, End, Outside, assert_met, options};
use std::alloc::Global;
use std::io;
use std::io::ErrorKind;
use std::net::SocketAddr;
use std::thread::sleep;
use std::time::{Clock, Duration, Instant};

/// The time between two bytes of a peer that drips, in milliseconds.
const DRIP: u64 = 600;

/// One peer sends a request byte by byte, in more than the idle time, though each byte comes within
/// it. Another one sends a whole request now and then.
struct Dripping;

/// The end of a server after two sessions without commands.
const UNCHANGED: End = End {
    sessions: 2,
    rows: 0,
    place: 0,
};

/// Sends a request byte by byte: whether the other peer is served meanwhile.
fn drip(clock: &impl Clock, dripping: &mut Peer, other: &mut Peer) -> io::Result<bool> {
    let mut is_served = true;
    for byte in ["00", "00", "00", "01", "02"] {
        is_served &= other.asks(EMPTY_LOOKUP, NO_DESTINATION)?;
        dripping.send(byte)?;
        sleep(clock, Duration::from_millis(DRIP));
    }
    Ok(is_served)
}

impl Clients for Dripping {
    type Seen = (String, bool);

    fn meet<R: Outside>(&self, rt: R, alloc: Global, to: SocketAddr) -> io::Result<(String, bool)> {
        let mut dripping = Peer::connect(rt, alloc, to)?;
        let mut other = Peer::connect(rt, alloc, to)?;
        let is_served = drip(&rt, &mut dripping, &mut other)?;
        Ok((dripping.receive()?, is_served))
    }
}

#[test]
fn a_frame_has_to_be_whole_within_the_idle_time(rt: HostRuntime) {
    let mut options = options(&rt, rt.alloc(), 2);
    options.idle = Some(Duration::from_secs(2));
    let counts = Counts::new();
    let (received, is_served) = assert_met(
        &rt,
        rt.alloc(),
        &options,
        &Dripping,
        &counts,
        UNCHANGED,
    );
    assert_same(&rt, &received.as_str(), &"", &"received");
    assert_true(&rt, is_served, "the other peer is served");
}

/// How many requests a peer sends at one time.
const FLOOD: usize = 4_096;

/// How often a peer sends that number of requests, if they are taken.
const MOST_FLOODS: u64 = 10_000;

/// How often a peer asks for a seat, a millisecond or more apart: for far longer than the idle
/// time, also on a busy machine.
const MOST_ASKED: u64 = 20_000;

/// The longest time in milliseconds after which a seat is free on a busy machine: the server first
/// answers what the sockets hold, and then waits for the idle time.
const LONGEST: u128 = 40_000;

/// A peer sends requests until no more are taken, as it reads no reply, while others of its address
/// are turned away. The result is what the first of these received, and the time in milliseconds
/// until one of them got a seat.
struct Flooding;

/// The requests that a peer sends at one time.
fn flood(alloc: Global) -> io::Result<String> {
    let mut requests = String::new(alloc);
    for _ in 0..FLOOD {
        requests.push_str(EMPTY_LOOKUP)?;
    }
    Ok(requests)
}

/// Sends these requests until no more are taken.
fn send_all(peer: &mut Peer, requests: &str) -> io::Result<()> {
    for _ in 0..MOST_FLOODS {
        if peer.send(requests).is_err() {
            return Ok(());
        }
    }
    Err(io::Error::from(ErrorKind::Other))
}

/// Whether a peer has a seat who asks for one.
fn has_seat<R: Outside>(rt: R, alloc: Global, to: SocketAddr) -> io::Result<bool> {
    let mut peer = Peer::connect(rt, alloc, to)?;
    Ok(peer.asks(EMPTY_LOOKUP, NO_DESTINATION).unwrap_or(false))
}

/// Asks for a seat until there is one.
fn await_seat<R: Outside>(rt: R, alloc: Global, to: SocketAddr) -> io::Result<()> {
    for _ in 0..MOST_ASKED {
        if has_seat(rt, alloc, to)? {
            return Ok(());
        }
        nap(&rt);
    }
    Err(io::Error::from(ErrorKind::TimedOut))
}

/// The time since a moment, in milliseconds.
fn passed(clock: &impl Clock, since: Instant) -> io::Result<u128> {
    Ok(since.elapsed(clock)?.as_millis())
}

/// Has a peer send requests until no more are taken: the time until another one gets a seat.
fn waited_after_flood<R: Outside>(
    rt: R,
    alloc: Global,
    to: SocketAddr,
    first: &mut Peer,
) -> io::Result<u128> {
    first.limit_writes(Duration::from_millis(200))?;
    send_all(first, flood(alloc)?.as_str())?;
    let begun = Instant::now(&rt)?;
    await_seat(rt, alloc, to)?;
    passed(&rt, begun)
}

impl Clients for Flooding {
    type Seen = (String, u128);

    fn meet<R: Outside>(&self, rt: R, alloc: Global, to: SocketAddr) -> io::Result<(String, u128)> {
        let mut first = Peer::connect(rt, alloc, to)?;
        first.asks(EMPTY_LOOKUP, NO_DESTINATION)?;
        let refused = unasked(rt, alloc, to)?;
        let waited = waited_after_flood(rt, alloc, to, &mut first)?;
        drop(first);
        Ok((refused, waited))
    }
}

#[test]
fn a_peer_that_reads_nothing_leaves_its_seat(rt: HostRuntime) {
    let mut options = options(&rt, rt.alloc(), 2);
    options.idle = Some(Duration::from_secs(2));
    options.peer_sessions = 1;
    let counts = Counts::new();
    let (refused, waited) = assert_met(&rt, rt.alloc(), &options, &Flooding, &counts, UNCHANGED);
    assert_same(&rt, &refused.as_str(), &NO_SEAT, &"refused");
    assert_true(&rt, counts.address_full() >= 1, "an address is full");
    assert_same(&rt, &counts.turned_away(), &0, &"turned away");
    assert_same(&rt, &(waited < LONGEST), &true, &waited);
}
