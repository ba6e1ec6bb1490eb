//! Sessions as they should be.

use crate::server::checks::assert_same;
use crate::server::peers::{Peer, assert_replies, four_replies};
use crate::server::worlds::{Clients, Counts, End, Outside, World, assert_met, options};
use seg_check::Keyed;
use std::alloc::Global;
use std::io;
use std::net::SocketAddr;
pub(crate) use test_support::digits::{FOUND_2096 as FOUND, LOOKUP, REGISTER_2096 as REGISTRATION};

/// The place 0, and one segment inserted.
pub(crate) const REGISTERED: &str = "0000001981000000000000000000000001000000000000000000000000";

/// No segments.
pub(crate) const NOTHING: &str = "0000000182";

/// The refusal of a segment whose signature is not good.
const NO_SIGNATURE: &str = "00000002ff31";

/// A purge of what expired by 1970.
pub(crate) const PURGE: &str = "00000009030000000000000000";

/// Registers in one session and looks up in another; asks for nothing, and registers nothing; and
/// purges three times.
struct Talks;

impl Clients for Talks {
    type Seen = [String; 4];

    fn meet<R: Outside>(&self, rt: R, alloc: Global, to: SocketAddr) -> io::Result<[String; 4]> {
        let empty = "00000001020000000101";
        let purges =
            "000000090300000000000000000000000903000000000000000000000009030000000000000000";
        four_replies(rt, alloc, to, [REGISTRATION, LOOKUP, empty, purges])
    }
}

/// What the sessions are replied: a command takes the next place, whichever session it comes from.
const TALKED: [&str; 4] = [
    REGISTERED,
    FOUND,
    "00000002ff410000001981000000000000000100000000000000000000000000000000",
    "0000001983000000000000000200000000000000000000000000000000\
     0000001983000000000000000300000000000000000000000000000000\
     0000001983000000000000000400000000000000000000000000000000",
];

#[test]
fn register_then_lookup(rt: HostRuntime) {
    let options = options(&rt, rt.alloc(), 4);
    let end = End {
        sessions: 4,
        rows: 1,
        place: 5,
    };
    let seen = assert_met(&rt, rt.alloc(), &options, &Talks, &Counts::new(), end);
    assert_replies(&rt, &seen, &TALKED);
}

/// Registers a segment that nobody has signed, and looks it up.
struct Unsigned;

impl Clients for Unsigned {
    type Seen = String;

    fn meet<R: Outside>(&self, rt: R, alloc: Global, to: SocketAddr) -> io::Result<String> {
        let mut peer = Peer::connect(rt, alloc, to)?;
        peer.send(REGISTRATION)?;
        peer.send(LOOKUP)?;
        peer.end()
    }
}

#[test]
fn signatures_are_checked_by_the_key(rt: HostRuntime) {
    let alloc = rt.alloc();
    let mut options = options(&rt, alloc, 1);
    options.key = Some(Keyed::new(Vec::new(alloc)));
    let end = End {
        sessions: 1,
        rows: 0,
        place: 0,
    };
    let seen = assert_met(&rt, alloc, &options, &Unsigned, &Counts::new(), end);
    let found = seen.as_str().strip_prefix(NO_SIGNATURE);
    assert_same(&rt, &found, &Some(NOTHING), &"found");
}

/// The refusal of a time that lies in the future.
const IN_THE_FUTURE: &str = "00000002ff33";

/// The purge of all that ever expires.
const PURGE_ALL: &str = "0000000903ffffffffffffffff";

/// Registers a segment of the year 2096, looks it up, and purges all and nothing.
struct Early;

impl Clients for Early {
    type Seen = [String; 4];

    fn meet<R: Outside>(&self, rt: R, alloc: Global, to: SocketAddr) -> io::Result<[String; 4]> {
        four_replies(rt, alloc, to, [REGISTRATION, LOOKUP, PURGE_ALL, PURGE])
    }
}

/// Sees what a server with this bound replies to these sessions.
fn assert_early<R: World>(
    rt: R,
    alloc: Global,
    bound: Option<u64>,
    wanted: [&str; 4],
    (rows, place): (usize, u64),
) {
    let mut options = options(&rt, alloc, 4);
    options.future = bound;
    let end = End {
        sessions: 4,
        rows,
        place,
    };
    let seen = assert_met(rt, alloc, &options, &Early, &Counts::new(), end);
    assert_replies(&rt, &seen, &wanted);
}

#[test]
fn times_in_the_future_are_refused(rt: HostRuntime) {
    let first = "0000001983000000000000000000000000000000000000000000000000";
    let wanted = [IN_THE_FUTURE, NOTHING, IN_THE_FUTURE, first];
    assert_early(&rt, rt.alloc(), Some(86_400), wanted, (0, 1));
}

// Without a bound, and with one of 4,000,000,000 seconds, the segment is taken. The purge of all is
// refused by that bound.
#[test]
fn times_within_a_bound_are_taken(rt: HostRuntime) {
    let second = "0000001983000000000000000100000000000000000000000000000000";
    let wanted = [REGISTERED, FOUND, IN_THE_FUTURE, second];
    assert_early(&rt, rt.alloc(), Some(4_000_000_000), wanted, (1, 2));
    let all = "0000001983000000000000000100000000000000000000000000000001";
    let third = "0000001983000000000000000200000000000000000000000000000000";
    let wanted = [REGISTERED, FOUND, all, third];
    assert_early(&rt, rt.alloc(), None, wanted, (0, 3));
}
