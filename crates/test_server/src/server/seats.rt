//! The 64 seats of a server.

use crate::server::checks::{assert_same, assert_true};
use crate::server::doors::nap;
use crate::server::peers::{Peer, seated, unasked};
use crate::server::stores::{LEAST, assert_opens_to, formatted};
use crate::server::worlds::{
    Clients, Counts, End, Outside, assert_met, assert_served, listen, options, serve_at,
};
use server_front::Listeners;
use std::alloc::Global;
use std::io;
use std::net::{SocketAddr, TcpStream};

/// How many sessions there may be at one time.
const SEATS: usize = 64;

/// What a peer is replied for whom there is no seat.
pub(crate) const NO_SEAT: &str = "00000002ff61";

/// Takes all seats, sees two peers turned away, leaves the seats and takes one.
struct Crowd;

/// Takes a seat more.
fn take_seat<R: Outside>(
    rt: R,
    alloc: Global,
    to: SocketAddr,
    peers: &mut Vec<Peer>,
) -> io::Result<()> {
    let peer = seated(rt, alloc, to)?;
    peers.push(peer)?;
    Ok(())
}

/// Takes all seats.
fn all_seated<R: Outside>(rt: R, alloc: Global, to: SocketAddr) -> io::Result<Vec<Peer>> {
    let mut peers = Vec::new(alloc);
    for _ in 0..SEATS {
        take_seat(rt, alloc, to, &mut peers)?;
    }
    Ok(peers)
}

/// What two peers are sent that send nothing.
fn two_unasked<R: Outside>(rt: R, alloc: Global, to: SocketAddr) -> io::Result<[String; 2]> {
    let first = unasked(rt, alloc, to)?;
    let second = unasked(rt, alloc, to)?;
    Ok([first, second])
}

/// What two peers are sent while all seats are taken.
fn turned_away<R: Outside>(rt: R, alloc: Global, to: SocketAddr) -> io::Result<[String; 2]> {
    let peers = all_seated(rt, alloc, to)?;
    let turned_away = two_unasked(rt, alloc, to);
    drop(peers);
    turned_away
}

impl Clients for Crowd {
    type Seen = [String; 2];

    fn meet<R: Outside>(&self, rt: R, alloc: Global, to: SocketAddr) -> io::Result<[String; 2]> {
        let turned_away = turned_away(rt, alloc, to)?;
        drop(seated(rt, alloc, to)?);
        Ok(turned_away)
    }
}

#[test]
fn the_65th_is_turned_away(rt: HostRuntime) {
    let options = options(&rt, rt.alloc(), 65);
    let counts = Counts::new();
    let end = End {
        sessions: 65,
        rows: 0,
        place: 0,
    };
    let seen = assert_met(&rt, rt.alloc(), &options, &Crowd, &counts, end);
    for reply in &seen {
        assert_same(&rt, &reply.as_str(), &NO_SEAT, &"a peer without a seat");
    }
    assert_true(&rt, counts.turned_away() >= 1, "a peer is turned away");
    assert_same(&rt, &counts.stopped(), &0, &"stopped");
}

/// How often a peer tries to connect to a server that has closed its listener.
const MOST_TRIED: u64 = 100;

/// Whether no peer can connect soon.
fn is_closed_soon<R: Outside>(rt: R, to: SocketAddr) -> bool {
    for _ in 0..MOST_TRIED {
        if TcpStream::connect(&rt, to).is_err() {
            return true;
        }
        nap(&rt);
    }
    false
}

/// Takes the one seat that is wanted: whether no peer can connect soon.
struct Last;

impl Clients for Last {
    type Seen = bool;

    fn meet<R: Outside>(&self, rt: R, alloc: Global, to: SocketAddr) -> io::Result<bool> {
        let last = seated(rt, alloc, to)?;
        let is_closed = is_closed_soon(rt, to);
        drop(last);
        Ok(is_closed)
    }
}

#[test]
fn the_listener_is_closed_after_the_last(rt: HostRuntime) {
    let alloc = rt.alloc();
    let device = formatted(&rt, alloc, LEAST);
    let options = options(&rt, alloc, 1);
    let counts = Counts::new();
    let (listener, _to) = listen(&rt);
    let listeners = Listeners::of_sessions(listener);
    let (device, served, seen) = serve_at(
        &rt, &rt, alloc, device, listeners, &options, &Last, &counts,
    );
    let is_closed = assert_served(&rt, served, seen, 1);
    assert_true(&rt, is_closed, "the listener is closed soon");
    let _device = assert_opens_to(&rt, alloc, device, 0, 0);
}
