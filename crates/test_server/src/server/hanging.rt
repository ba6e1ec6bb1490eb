//! A device that holds a sync for long, while peers wait for their commits, give up and come again.

use crate::server::checks::{assert_same, assert_true};
use crate::server::doors::{Door, naps};
use crate::server::held::serve_held;
use crate::server::peers::{Peer, is_replied, replies, seated};
use crate::server::rows::{FOUND, LOOKUP, NOTHING, PURGE, REGISTERED, REGISTRATION};
use crate::server::worlds::{Clients, Others, Outside, assert_served, options};
use std::alloc::Global;
use std::io;
use std::net::SocketAddr;
use std::time::Duration;

/// How many of the 64 seats are for sessions without commands under way.
const SPARE: u64 = 8;

/// How many sessions may have commands under way then.
const ROOMS: usize = 56;

/// What is replied to a command for which there is no room.
const BUSY: &str = "00000002ff51";

/// How long a peer is awaited that has ended its side, in seconds.
const LEAVE: u64 = 1;

/// What is replied to a peer who has ended its side, and whose command is not committed within that
/// time.
const NOT_AWAITED: &str = "00000002ff63";

/// A registration whose sync is held once it is sent, in a session that stays open.
fn hold<R: Outside>(rt: R, alloc: Global, to: SocketAddr, door: &Door) -> io::Result<(Peer, bool)> {
    let mut first = seated(rt, alloc, to)?;
    door.arm(&rt);
    first.send(REGISTRATION)?;
    let is_held = door.is_held_soon(&rt);
    Ok((first, is_held))
}

/// How many rounds of peers come and give up.
const ROUNDS: u64 = 20;

/// How many peers come in a round.
const PEERS: u64 = 6;

/// The acknowledgement of the purge after a registration and the commands of all rounds: place 121.
const PURGED_LAST: &str = "0000001983000000000000007900000000000000000000000000000000";

/// The pause after a round, in naps: a fifth of a second.
const NAPS: u64 = 40;

/// Has peers send a command and give up while a sync is held. A new session looks up in each round.
#[derive(Drop)]
struct GivingUp<'a> {
    door: &'a Door,
}

/// Has a peer come, send a purge and close.
fn give_up<R: Outside>(rt: R, alloc: Global, to: SocketAddr) -> io::Result<()> {
    let mut peer = Peer::connect(rt, alloc, to)?;
    peer.send(PURGE)
}

/// Has the peers of a round come, send a purge and close: what a new session is replied then.
fn round<R: Outside>(rt: R, alloc: Global, to: SocketAddr) -> io::Result<bool> {
    for _ in 0..PEERS {
        give_up(rt, alloc, to)?;
    }
    let is_answered = is_replied(rt, alloc, to, LOOKUP, NOTHING)?;
    naps(&rt, NAPS);
    Ok(is_answered)
}

/// The number of rounds in which a new session is answered.
fn answered_rounds<R: Outside>(rt: R, alloc: Global, to: SocketAddr) -> io::Result<u64> {
    let mut answered: u64 = 0;
    for _ in 0..ROUNDS {
        if round(rt, alloc, to)? {
            answered = answered.saturating_add(1);
        }
    }
    Ok(answered)
}

/// Whether the last replies to the first peer are as they should be.
fn last_replies(first: &mut Peer) -> io::Result<[bool; 3]> {
    let is_acknowledged = first.receives(REGISTERED)?;
    let is_last = first.asks(PURGE, PURGED_LAST)?;
    let is_found = first.asks(LOOKUP, FOUND)?;
    Ok([is_acknowledged, is_last, is_found])
}

impl Clients for GivingUp<'_> {
    type Seen = (bool, u64, [bool; 3]);

    fn meet<R: Outside>(
        &self,
        rt: R,
        alloc: Global,
        to: SocketAddr,
    ) -> io::Result<(bool, u64, [bool; 3])> {
        let (mut first, is_held) = hold(rt, alloc, to, self.door)?;
        let answered = answered_rounds(rt, alloc, to)?;
        self.door.open(&rt);
        let last = last_replies(&mut first)?;
        Ok((is_held, answered, last))
    }
}

// The 120 commands of the peers that gave up go on: each purge has its place, before that of a
// purge that comes later.
#[test]
fn seats_are_given_back_while_the_device_hangs(rt: HostRuntime) {
    let door = Door::new();
    let mut options = options(&rt, rt.alloc(), 0);
    options.spare = SPARE;
    options.leave = Some(Duration::from_secs(LEAVE));
    let clients = GivingUp { door: &door };
    let others = Others::none();
    let left = (1, 2 + ROUNDS * PEERS);
    let (_served, seen) = serve_held(&rt, rt.alloc(), &door, others, &options, &clients, left);
    let (is_held, answered, last) = seen.expect(&rt, "the clients meet the server");
    assert_true(&rt, is_held, "a sync is held");
    assert_same(&rt, &answered, &ROUNDS, &"rounds that are answered");
    assert_same(&rt, &last, &[true; 3], &"the last replies");
}

/// Has sessions send a command each while a sync is held, and then others look up.
#[derive(Drop)]
struct Waiting<'a> {
    door: &'a Door,
    /// How many send a command.
    purging: usize,
    /// How many look up.
    looking: u64,
}

/// The first bytes of the acknowledgement of a purge, and its length in digits.
const PURGED: (&str, usize) = ("0000001983", 58);

/// What became of commands: how many were acknowledged, and how many refused as busy.
#[derive(Clone, Copy, Debug, PartialEq, Eq)]
struct Outcomes {
    acknowledged: usize,
    busy: usize,
}

impl Outcomes {
    /// Counts the reply to a purge.
    fn count(&mut self, reply: &str) {
        if reply == BUSY {
            self.busy = self.busy.saturating_add(1);
        } else if reply.starts_with(PURGED.0) && reply.len() == PURGED.1 {
            self.acknowledged = self.acknowledged.saturating_add(1);
        }
    }

    /// Counts what became of the purge of a peer.
    fn end(&mut self, peer: Peer) -> io::Result<()> {
        let reply = peer.end()?;
        self.count(reply.as_str());
        Ok(())
    }
}

/// What became of the purges of these peers.
fn outcomes_of(peers: Vec<Peer>) -> io::Result<Outcomes> {
    let mut outcomes = Outcomes {
        acknowledged: 0,
        busy: 0,
    };
    for peer in peers {
        outcomes.end(peer)?;
    }
    Ok(outcomes)
}

/// How long the peers wait, in naps: a second.
const WAIT: u64 = 200;

/// Adds a peer that has sent a purge.
fn add_purging<R: Outside>(
    rt: R,
    alloc: Global,
    to: SocketAddr,
    peers: &mut Vec<Peer>,
) -> io::Result<()> {
    let mut peer = Peer::connect(rt, alloc, to)?;
    peer.send(PURGE)?;
    peers.push(peer)?;
    Ok(())
}

/// This number of peers that have sent a purge each.
fn purging_peers<R: Outside>(
    rt: R,
    alloc: Global,
    to: SocketAddr,
    count: usize,
) -> io::Result<Vec<Peer>> {
    let mut peers = Vec::new(alloc);
    for _ in 0..count {
        add_purging(rt, alloc, to, &mut peers)?;
    }
    Ok(peers)
}

/// Whether a session finds nothing once it has a seat.
fn finds_nothing<R: Outside>(rt: R, alloc: Global, to: SocketAddr) -> io::Result<bool> {
    let mut peer = seated(rt, alloc, to)?;
    peer.asks(LOOKUP, NOTHING)
}

/// Whether this number of sessions look up, one after the other.
fn are_answered<R: Outside>(rt: R, alloc: Global, to: SocketAddr, count: u64) -> io::Result<bool> {
    let mut are_answered = true;
    for _ in 0..count {
        are_answered &= finds_nothing(rt, alloc, to)?;
    }
    Ok(are_answered)
}

impl Clients for Waiting<'_> {
    type Seen = ([bool; 3], Outcomes);

    fn meet<R: Outside>(
        &self,
        rt: R,
        alloc: Global,
        to: SocketAddr,
    ) -> io::Result<([bool; 3], Outcomes)> {
        let (mut first, is_held) = hold(rt, alloc, to, self.door)?;
        let peers = purging_peers(rt, alloc, to, self.purging)?;
        naps(&rt, WAIT);
        let are_answered = are_answered(rt, alloc, to, self.looking)?;
        self.door.open(&rt);
        let is_acknowledged = first.receives(REGISTERED)?;
        let outcomes = outcomes_of(peers)?;
        Ok(([is_held, are_answered, is_acknowledged], outcomes))
    }
}

#[test]
fn spare_seats_have_no_commands_under_way(rt: HostRuntime) {
    let door = Door::new();
    let mut options = options(&rt, rt.alloc(), 0);
    options.spare = SPARE;
    let clients = Waiting {
        door: &door,
        purging: ROOMS,
        looking: SPARE,
    };
    let others = Others::none();
    let left = (1, ROOMS as u64);
    let (_served, seen) = serve_held(&rt, rt.alloc(), &door, others, &options, &clients, left);
    let (seen, outcomes) = seen.expect(&rt, "the clients meet the server");
    assert_same(&rt, &seen, &[true; 3], &"held, answered and acknowledged");
    let wanted = Outcomes {
        acknowledged: ROOMS - 1,
        busy: 1,
    };
    assert_same(&rt, &outcomes, &wanted, &"purges");
}

// All 64 sessions have a command under way, and each is acknowledged.
#[test]
fn all_seats_have_commands_under_way_where_none_is_spare(rt: HostRuntime) {
    let door = Door::new();
    let options = options(&rt, rt.alloc(), 0);
    let clients = Waiting {
        door: &door,
        purging: 63,
        looking: 0,
    };
    let others = Others::none();
    let (_served, seen) = serve_held(&rt, rt.alloc(), &door, others, &options, &clients, (1, 64));
    let (seen, outcomes) = seen.expect(&rt, "the clients meet the server");
    assert_same(&rt, &seen, &[true; 3], &"held, answered and acknowledged");
    let wanted = Outcomes {
        acknowledged: 63,
        busy: 0,
    };
    assert_same(&rt, &outcomes, &wanted, &"purges");
}

/// A peer sends a command and ends its side while a sync is held, and waits for the reply.
#[derive(Drop)]
struct Ending<'a> {
    door: &'a Door,
}

/// Whether the first peer is replied that its registration has the place 0, and that its purge has
/// the place 2.
fn next_replies(first: &mut Peer) -> io::Result<(bool, bool)> {
    let is_acknowledged = first.receives(REGISTERED)?;
    let is_next = first.asks(
        PURGE,
        "0000001983000000000000000200000000000000000000000000000000",
    )?;
    Ok((is_acknowledged, is_next))
}

impl Clients for Ending<'_> {
    type Seen = ([bool; 3], String);

    fn meet<R: Outside>(
        &self,
        rt: R,
        alloc: Global,
        to: SocketAddr,
    ) -> io::Result<([bool; 3], String)> {
        let (mut first, is_held) = hold(rt, alloc, to, self.door)?;
        let given_up = replies(rt, alloc, to, PURGE)?;
        self.door.open(&rt);
        let (is_acknowledged, is_next) = next_replies(&mut first)?;
        Ok(([is_held, is_acknowledged, is_next], given_up))
    }
}

// The purge that is not awaited has the place 1.
#[test]
fn a_peer_that_has_ended_its_side_is_not_awaited(rt: HostRuntime) {
    let door = Door::new();
    let mut options = options(&rt, rt.alloc(), 2);
    options.leave = Some(Duration::from_secs(LEAVE));
    let clients = Ending { door: &door };
    let others = Others::none();
    let (served, seen) = serve_held(&rt, rt.alloc(), &door, others, &options, &clients, (1, 3));
    let (seen, given_up) = assert_served(&rt, served, seen, 2);
    assert_same(&rt, &seen, &[true; 3], &"held, acknowledged and next");
    assert_same(&rt, &given_up.as_str(), &NOT_AWAITED, &"given up");
}

/// A peer sends a command and ends its side while a sync is held for two seconds more.
#[derive(Drop)]
struct Staying<'a> {
    door: &'a Door,
}

/// How long the sync is held, in naps: two seconds.
const HELD: u64 = 400;

/// The acknowledgement of a purge at the place 1.
const PURGED_NEXT: &str = "0000001983000000000000000100000000000000000000000000000000";

impl Clients for Staying<'_> {
    type Seen = ([bool; 2], String);

    fn meet<R: Outside>(
        &self,
        rt: R,
        alloc: Global,
        to: SocketAddr,
    ) -> io::Result<([bool; 2], String)> {
        let (mut first, is_held) = hold(rt, alloc, to, self.door)?;
        let mut second = Peer::connect(rt, alloc, to)?;
        second.send(PURGE)?;
        second.end_side()?;
        naps(&rt, HELD);
        self.door.open(&rt);
        let is_acknowledged = first.receives(REGISTERED)?;
        let awaited = second.receive()?;
        Ok(([is_held, is_acknowledged], awaited))
    }
}

// Without a limit the commit of a peer that has ended its side is awaited, and acknowledged.
#[test]
fn a_peer_that_has_ended_its_side_is_awaited(rt: HostRuntime) {
    let door = Door::new();
    let options = options(&rt, rt.alloc(), 2);
    let clients = Staying { door: &door };
    let others = Others::none();
    let (served, seen) = serve_held(&rt, rt.alloc(), &door, others, &options, &clients, (1, 2));
    let (seen, awaited) = assert_served(&rt, served, seen, 2);
    assert_same(&rt, &seen, &[true; 2], &"held and acknowledged");
    assert_same(&rt, &awaited.as_str(), &PURGED_NEXT, &"awaited");
}
