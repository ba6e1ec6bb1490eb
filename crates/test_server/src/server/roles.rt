//! A second listener, whose sessions only look up.

use crate::server::checks::assert_same;
use crate::server::peers::{EMPTY_LOOKUP, NO_DESTINATION, Peer, replies};
use crate::server::rows::{FOUND, LOOKUP, NOTHING, PURGE, REGISTERED, REGISTRATION};
use crate::server::stores::{LEAST, assert_opens_to, formatted};
use crate::server::worlds::{
    Clients, Counts, Others, Outside, World, listen, options, serve_beside,
};
use path_server::Options;
use server_front::{MOST_LOOKUP_SEATS, MOST_SESSIONS};
use std::alloc::Global;
use std::io;
use std::net::{SocketAddr, TcpListener};

/// What is replied to a command in a session that only looks up.
const NO_COMMANDS: &str = "00000002ff64";

/// What is replied to a peer without a seat.
const NO_SEAT: &str = "00000002ff61";

/// Has clients meet a server of both listeners, of which they know the second one's address.
fn meet_both<R: World, C: Clients + Sync>(
    rt: R,
    alloc: Global,
    lookups: TcpListener,
    options: &Options,
    clients: &C,
    counts: &Counts,
) -> (u64, io::Result<C::Seen>) {
    let others = Others {
        lookups: Some(lookups),
        status: None,
    };
    let device = formatted(&rt, alloc, LEAST);
    let (device, served, seen) = serve_beside(rt, alloc, device, others, options, clients, counts);
    let _device = assert_opens_to(&rt, alloc, device, 1, 1);
    (served.unwrap_or(0), seen)
}

/// Registers at the first listener, and looks up at both. Sends commands to the second one.
#[derive(Drop)]
struct Asking {
    lookups: SocketAddr,
}

/// A registration that ends within its first number, and a removal of the type 4.
const CUT: &str = "000000020180";

const NO_TYPE: &str =
    "0000002204040000000000000000000000000000000000000000000000000000000000000000";

/// Whether the replies in a session of each listener are as they should be.
fn are_replied(first: &mut Peer, second: &mut Peer) -> io::Result<[bool; 8]> {
    Ok([
        second.asks(CUT, "00000002ff11")?,
        second.asks(NO_TYPE, "00000002ff29")?,
        second.asks(LOOKUP, NOTHING)?,
        second.asks(REGISTRATION, NO_COMMANDS)?,
        first.asks(REGISTRATION, REGISTERED)?,
        second.asks(PURGE, NO_COMMANDS)?,
        first.asks(LOOKUP, FOUND)?,
        second.asks(LOOKUP, FOUND)?,
    ])
}

impl Clients for Asking {
    type Seen = [bool; 8];

    fn meet<R: Outside>(&self, rt: R, alloc: Global, to: SocketAddr) -> io::Result<[bool; 8]> {
        let mut first = Peer::connect(rt, alloc, to)?;
        let mut second = Peer::connect(rt, alloc, self.lookups)?;
        are_replied(&mut first, &mut second)
    }
}

// The device opens to the one command of the first listener.
#[test]
fn commands_are_refused_at_the_listener_of_lookups(rt: HostRuntime) {
    let alloc = rt.alloc();
    let mut options = options(&rt, alloc, 2);
    options.lookup_seats = 16;
    let (listener, lookups) = listen(&rt);
    let clients = Asking { lookups };
    let counts = Counts::new();
    let (served, seen) = meet_both(&rt, alloc, listener, &options, &clients, &counts);
    assert_same(&rt, &served, &2, &"sessions");
    let seen = seen.expect(&rt, "the clients meet the server");
    assert_same(&rt, &seen, &[true; 8], &"replies");
}

/// Takes all seats of both listeners, and asks each for one more.
#[derive(Drop)]
struct Filling {
    lookups: SocketAddr,
}

/// Sees that a peer has a seat.
fn check_seat(peer: &mut Peer) -> io::Result<()> {
    if !peer.asks(EMPTY_LOOKUP, NO_DESTINATION)? {
        return Err(io::Error::from(io::ErrorKind::Other));
    }
    Ok(())
}

/// Adds a peer with a seat.
fn add_seated<R: Outside>(
    rt: R,
    alloc: Global,
    to: SocketAddr,
    peers: &mut Vec<Peer>,
) -> io::Result<()> {
    let mut peer = Peer::connect(rt, alloc, to)?;
    check_seat(&mut peer)?;
    peers.push(peer)?;
    Ok(())
}

/// This number of peers with seats.
fn held<R: Outside>(rt: R, alloc: Global, to: SocketAddr, count: u64) -> io::Result<Vec<Peer>> {
    let mut peers = Vec::new(alloc);
    for _ in 0..count {
        add_seated(rt, alloc, to, &mut peers)?;
    }
    Ok(peers)
}

/// Whether a peer is turned away.
fn is_turned_away<R: Outside>(rt: R, alloc: Global, to: SocketAddr) -> io::Result<bool> {
    Ok(replies(rt, alloc, to, "")?.as_str() == NO_SEAT)
}

/// Whether the last one of some peers registers.
fn is_registered(peers: &mut Vec<Peer>) -> io::Result<bool> {
    match peers.pop() {
        Some(mut peer) => peer.asks(REGISTRATION, REGISTERED),
        None => Ok(false),
    }
}

/// Takes the seats of the first listener: whether one more peer is turned away, and whether one of
/// those with seats registers.
fn fill<R: Outside>(rt: R, alloc: Global, to: SocketAddr) -> io::Result<(bool, bool)> {
    let mut others = held(rt, alloc, to, MOST_SESSIONS - MOST_LOOKUP_SEATS)?;
    let is_full = is_turned_away(rt, alloc, to)?;
    let is_registered = is_registered(&mut others)?;
    Ok((is_full, is_registered))
}

impl Clients for Filling {
    type Seen = [bool; 3];

    fn meet<R: Outside>(&self, rt: R, alloc: Global, to: SocketAddr) -> io::Result<[bool; 3]> {
        let _lookups = held(rt, alloc, self.lookups, MOST_LOOKUP_SEATS)?;
        let is_refused = is_turned_away(rt, alloc, self.lookups)?;
        let (is_full, is_registered) = fill(rt, alloc, to)?;
        Ok([is_refused, is_full, is_registered])
    }
}

// More seats for lookups are wanted than there may be. The server ends as its listener is shut
// down.
#[test]
fn each_listener_has_seats_of_its_own(rt: HostRuntime) {
    let alloc = rt.alloc();
    let mut options = options(&rt, alloc, 0);
    options.lookup_seats = MOST_SESSIONS;
    let (listener, lookups) = listen(&rt);
    let clients = Filling { lookups };
    let counts = Counts::new();
    let (served, seen) = meet_both(&rt, alloc, listener, &options, &clients, &counts);
    assert_same(&rt, &served, &0, &"sessions");
    let seen = seen.expect(&rt, "the clients meet the server");
    assert_same(&rt, &seen, &[true; 3], &"refused, full and registered");
    assert_same(&rt, &counts.turned_away(), &1, &"turned away");
    assert_same(&rt, &counts.lookups_turned_away(), &1, &"lookups");
}
