//! Servers that are asked to end.

use crate::server::checks::assert_same;
use crate::server::peers::{EMPTY_LOOKUP, NO_DESTINATION, Peer};
use crate::server::rows::{REGISTERED, REGISTRATION};
use crate::server::worlds::{Clients, Counts, End, Outside, assert_met, options};
use std::alloc::Global;
use std::io;
use std::net::SocketAddr;

/// Registers, asks the server to end, and waits until the server ends the session.
#[derive(Drop)]
struct Staying<'a> {
    counts: &'a Counts,
}

impl Staying<'_> {
    /// Registers, asks the server to end, and looks up: whether both are replied as they should be.
    fn talk(&self, peer: &mut Peer) -> io::Result<(bool, bool)> {
        let is_acknowledged = peer.asks(REGISTRATION, REGISTERED)?;
        self.counts.want_end();
        let is_answered = peer.asks(EMPTY_LOOKUP, NO_DESTINATION)?;
        Ok((is_acknowledged, is_answered))
    }
}

impl Clients for Staying<'_> {
    type Seen = [bool; 3];

    fn meet<R: Outside>(&self, rt: R, alloc: Global, to: SocketAddr) -> io::Result<[bool; 3]> {
        let mut peer = Peer::connect(rt, alloc, to)?;
        let (is_acknowledged, is_answered) = self.talk(&mut peer)?;
        let is_silent = peer.receive()?.is_empty();
        Ok([is_acknowledged, is_answered, is_silent])
    }
}

#[test]
fn an_open_session_ends_after_the_grace(rt: HostRuntime) {
    let mut options = options(&rt, rt.alloc(), 0);
    options.idle = None;
    let counts = Counts::new();
    let clients = Staying { counts: &counts };
    let end = End {
        sessions: 1,
        rows: 1,
        place: 1,
    };
    let seen = assert_met(&rt, rt.alloc(), &options, &clients, &counts, end);
    assert_same(&rt, &seen, &[true; 3], &"acknowledged, answered and silent");
    assert_same(&rt, &counts.ready(), &1, &"ready");
    assert_same(&rt, &counts.stopped(), &0, &"stopped");
}
