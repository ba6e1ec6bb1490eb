//! How sessions end.

use crate::server::checks::{assert_same, assert_true};
use crate::server::peers::{NO_DESTINATION, Peer, assert_replies, four_replies, has_session};
use crate::server::rows::{FOUND, LOOKUP, NOTHING, REGISTERED, REGISTRATION};
use crate::server::worlds::{Clients, Counts, End, Outside, assert_met, options};
use std::alloc::Global;
use std::io;
use std::net::SocketAddr;
use std::time::Duration;

/// Ends sessions by faults of their frames: by no kind, by a length that no frame has, and within a
/// frame.
struct Faults;

/// The replies before a fault arrive, and nothing for the fault: an empty registration, and then a
/// kind that is none.
const BEFORE_A_FAULT: &str = "0000000101000000020400";

/// What is replied before the fault.
const PLACE_0: &str = "0000001981000000000000000000000000000000000000000000000000";

impl Clients for Faults {
    type Seen = [String; 4];

    fn meet<R: Outside>(&self, rt: R, alloc: Global, to: SocketAddr) -> io::Result<[String; 4]> {
        let by_length = "0000000102ffffffff";
        let within = "000000010200000061010a5e08";
        four_replies(rt, alloc, to, [BEFORE_A_FAULT, by_length, within, LOOKUP])
    }
}

#[test]
fn frame_faults_end_their_session_alone(rt: HostRuntime) {
    let options = options(&rt, rt.alloc(), 4);
    let end = End {
        sessions: 4,
        rows: 0,
        place: 1,
    };
    let seen = assert_met(&rt, rt.alloc(), &options, &Faults, &Counts::new(), end);
    let wanted = [PLACE_0, NO_DESTINATION, NO_DESTINATION, NOTHING];
    assert_replies(&rt, &seen, &wanted);
}

/// Sends each byte by itself.
struct Slow;

impl Clients for Slow {
    type Seen = String;

    fn meet<R: Outside>(&self, rt: R, alloc: Global, to: SocketAddr) -> io::Result<String> {
        let mut peer = Peer::connect(rt, alloc, to)?;
        peer.send_slowly(REGISTRATION)?;
        peer.send_slowly(LOOKUP)?;
        peer.end()
    }
}

#[test]
fn bytes_may_come_one_by_one(rt: HostRuntime) {
    let options = options(&rt, rt.alloc(), 1);
    let end = End {
        sessions: 1,
        rows: 1,
        place: 1,
    };
    let seen = assert_met(&rt, rt.alloc(), &options, &Slow, &Counts::new(), end);
    let found = seen.as_str().strip_prefix(REGISTERED);
    assert_same(&rt, &found, &Some(FOUND), &"found");
}

/// Two peers: the first one is silent until the server ends its session, and the second one is
/// served meanwhile.
struct SilentPeer;

impl Clients for SilentPeer {
    type Seen = (bool, String);

    fn meet<R: Outside>(&self, rt: R, alloc: Global, to: SocketAddr) -> io::Result<(bool, String)> {
        let mut silent = Peer::connect(rt, alloc, to)?;
        silent.send("000000")?;
        let is_served = has_session(rt, alloc, to)?;
        Ok((is_served, silent.receive()?))
    }
}

#[test]
fn silent_peers_are_given_up(rt: HostRuntime) {
    let mut options = options(&rt, rt.alloc(), 2);
    options.idle = Some(Duration::from_millis(200));
    let end = End {
        sessions: 2,
        rows: 0,
        place: 0,
    };
    let (is_served, received) = assert_met(
        &rt,
        rt.alloc(),
        &options,
        &SilentPeer,
        &Counts::new(),
        end,
    );
    assert_true(&rt, is_served, "the second peer is served");
    assert_same(&rt, &received.as_str(), &"", &"received");
}
