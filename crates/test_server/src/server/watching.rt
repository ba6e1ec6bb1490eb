//! Requests of a server's numbers, at its second listener.

use crate::server::checks::assert_same;
use crate::server::doors::Door;
use crate::server::held::serve_held;
use crate::server::page::is_page;
use crate::server::peers::{EMPTY_LOOKUP, NO_DESTINATION, Peer};
use crate::server::rows::{FOUND, LOOKUP, PURGE, REGISTERED, REGISTRATION};
use crate::server::worlds::{
    Clients, Counts, End, Others, Outside, World, assert_beside, assert_met_failing, assert_served,
    listen, options,
};
use std::alloc::Global;
use std::io;
use std::io::{Read, Write};
use std::net::{Shutdown, SocketAddr, TcpStream};
use std::process::Abort;
use std::time::Duration;

/// How long a peer waits for an answer, in seconds.
const PATIENCE: u64 = 20;

/// The request of the numbers.
pub(crate) const GET_NUMBERS: &str = "GET /metrics HTTP/1.1\r\nHost: localhost\r\n\r\n";

/// The request of the server's health.
const GET_HEALTH: &str = "GET /healthz HTTP/1.1\r\nHost: localhost\r\n\r\n";

/// The request that says that the server answers.
const GET_ALIVE: &str = "GET /livez HTTP/1.1\r\nHost: localhost\r\n\r\n";

/// The request that says whether the server takes commands.
const GET_READY: &str = "GET /readyz HTTP/1.1\r\nHost: localhost\r\n\r\n";

/// The request of the plots.
const GET_PLOTS: &str = "GET / HTTP/1.1\r\nHost: localhost\r\n\r\n";

/// A listener for requests of the numbers, and its address.
pub(crate) fn status_listener<R: World>(rt: R) -> (Others, SocketAddr) {
    let (listener, at) = listen(rt);
    (Others::of_status(Some(listener)), at)
}

/// Connects to the listener for requests of the numbers.
pub(crate) fn connect<R: Outside>(rt: R, at: SocketAddr) -> io::Result<TcpStream> {
    let stream = TcpStream::connect(&rt, at)?;
    stream.set_read_timeout(Some(Duration::from_secs(PATIENCE)))?;
    Ok(stream)
}

/// Sends a text, and then no more: what the server answers until it ends the connection.
pub(crate) fn answer_to<R: Outside>(
    rt: R,
    alloc: Global,
    at: SocketAddr,
    text: &str,
) -> io::Result<String> {
    let mut stream = connect(rt, at)?;
    stream.write_all(text.as_bytes())?;
    stream.shutdown(Shutdown::Write)?;
    received(alloc, &mut stream)
}

/// What is received until the server ends the connection.
pub(crate) fn received(alloc: Global, stream: &mut TcpStream) -> io::Result<String> {
    let mut text = String::new(alloc);
    stream.read_to_string(&mut text)?;
    Ok(text)
}

/// One session of each kind of message, and the page while it is open.
#[derive(Drop)]
struct Counting {
    at: SocketAddr,
}

/// Registers no segments, and the place 1 with nothing inserted.
const EMPTY_REGISTRATION: &str = "0000000101";

const PLACE_1: &str = "0000001981000000000000000100000000000000000000000000000000";

/// What a purge is replied at the place 2.
const PURGED_AT_2: &str = "0000001983000000000000000200000000000000000000000000000000";

/// Removes the down segment whose id is 32 zeros, which nobody has registered, and the place 3.
const REMOVAL: &str =
    "0000002204030000000000000000000000000000000000000000000000000000000000000000";

const REMOVED_AT_3: &str = "0000001984000000000000000300000000000000000000000000000000";

/// Removes a segment of the type 9, of which there is none, and its refusal.
const STRANGE_REMOVAL: &str =
    "0000002204090000000000000000000000000000000000000000000000000000000000000000";

const NO_TYPE: &str = "00000002ff29";

/// Lists the core segments that begin and end at an AS that is in none, and the page without
/// segments, after which none follow.
const LIST: &str = "000000120503ffffffffffffffffffffffffffffffff";

const NOTHING_LISTED: &str = "000000028500";

/// What is asked, and the replies.
const ASKED: &[(&str, &str)] = &[
    (REGISTRATION, REGISTERED),
    (LOOKUP, FOUND),
    (LIST, NOTHING_LISTED),
    (EMPTY_LOOKUP, NO_DESTINATION),
    (EMPTY_REGISTRATION, PLACE_1),
    (PURGE, PURGED_AT_2),
    (REMOVAL, REMOVED_AT_3),
    (STRANGE_REMOVAL, NO_TYPE),
    (EMPTY_LOOKUP, NO_DESTINATION),
];

/// All this. The prover writes a constant out where it is named, so no loop names it.
fn asked() -> &'static [(&'static str, &'static str)] {
    ASKED
}

/// Asks all this in a session, and sees that the replies are these.
fn assert_asked(rt: &impl Abort, peer: &mut Peer) -> io::Result<()> {
    for (request, reply) in asked() {
        let is_replied = peer.asks(*request, *reply)?;
        assert_same(rt, &is_replied, &true, request);
    }
    Ok(())
}

impl Clients for Counting {
    type Seen = String;

    fn meet<R: Outside>(&self, rt: R, alloc: Global, to: SocketAddr) -> io::Result<String> {
        let mut peer = Peer::connect(rt, alloc, to)?;
        assert_asked(&rt, &mut peer)?;
        let answer = answer_to(rt, alloc, self.at, GET_NUMBERS);
        drop(peer);
        answer
    }
}

#[test]
fn page_after_a_session(rt: HostRuntime) {
    let options = options(&rt, rt.alloc(), 1);
    let (status, at) = status_listener(&rt);
    let end = End {
        sessions: 1,
        rows: 1,
        place: 4,
    };
    let clients = Counting { at };
    let answer = assert_beside(
        &rt,
        rt.alloc(),
        status,
        &options,
        &clients,
        &Counts::new(),
        end,
    );
    assert_same(&rt, &is_page(answer.as_str()), &true, &answer);
}

/// Asks for the page and for the health while a sync is held under the state's lock, and for the
/// page after it.
#[derive(Drop)]
struct Waiting<'a> {
    door: &'a Door,
    at: SocketAddr,
}

/// The line of the call that is held, but for its time.
const HELD_CALL: &str = "\npathd_call_seconds{call=\"sync_group\"} ";

/// The line of a call that is not under way.
const NO_CALL: &str = "\npathd_call_seconds{call=\"sync_group\"} 0.000000\n";

/// The answer where commands are accepted.
const IS_HEALTHY: &str =
    "HTTP/1.1 200 OK\r\nContent-Type: text/plain\r\nContent-Length: 3\r\nConnection: close\r\n\r\nok\n";

/// The answer where they are not.
const HAS_STOPPED: &str =
    "HTTP/1.1 503 Service Unavailable\r\nContent-Type: text/plain\r\nContent-Length: 65\r\nConnection: close\r\n\r\nthe store has stopped: no command is accepted, and lookups go on\n";

/// What is seen while the sync is held, and after it.
#[derive(Clone, Copy, Debug, PartialEq, Eq)]
struct Held {
    is_open: bool,
    is_held: bool,
    call_is_shown: bool,
    command_is_pending: bool,
    is_healthy: bool,
    is_ready: bool,
    is_acknowledged: bool,
    call_has_ended: bool,
}

/// Whether a request has this answer.
fn is_answered<R: Outside>(
    rt: R,
    alloc: Global,
    at: SocketAddr,
    request: &str,
    wanted: &str,
) -> io::Result<bool> {
    Ok(answer_to(rt, alloc, at, request)?.as_str() == wanted)
}

/// Whether the page shows the call that is held, and whether it shows a command that is pending.
fn shown_while_held<R: Outside>(rt: R, alloc: Global, at: SocketAddr) -> io::Result<(bool, bool)> {
    let page = answer_to(rt, alloc, at, GET_NUMBERS)?;
    let page = page.as_str();
    let call_is_shown = page.contains(HELD_CALL) && !page.contains(NO_CALL);
    Ok((call_is_shown, page.contains("\npathd_commands_pending 1\n")))
}

/// Whether the page shows that the call is not under way.
fn call_has_ended<R: Outside>(rt: R, alloc: Global, at: SocketAddr) -> io::Result<bool> {
    Ok(
        answer_to(rt, alloc, at, GET_NUMBERS)?
            .as_str()
            .contains(NO_CALL),
    )
}

impl Waiting<'_> {
    /// What is seen in the session of a peer.
    fn wait<R: Outside>(&self, rt: R, alloc: Global, peer: &mut Peer) -> io::Result<Held> {
        // The store is open once a request is answered.
        let is_open = peer.asks(EMPTY_LOOKUP, NO_DESTINATION)?;
        self.door.arm(&rt);
        peer.send(REGISTRATION)?;
        let is_held = self.door.is_held_soon(&rt);
        let shown = shown_while_held(rt, alloc, self.at);
        let is_healthy = is_answered(rt, alloc, self.at, GET_HEALTH, IS_HEALTHY);
        let is_ready = is_answered(rt, alloc, self.at, GET_READY, IS_HEALTHY);
        self.door.open(&rt);
        let is_acknowledged = peer.receives(REGISTERED)?;
        let call_has_ended = call_has_ended(rt, alloc, self.at)?;
        let (call_is_shown, command_is_pending) = shown?;
        Ok(Held {
            is_open,
            is_held,
            call_is_shown,
            command_is_pending,
            is_healthy: is_healthy?,
            is_ready: is_ready?,
            is_acknowledged,
            call_has_ended,
        })
    }
}

impl Clients for Waiting<'_> {
    type Seen = Held;

    fn meet<R: Outside>(&self, rt: R, alloc: Global, to: SocketAddr) -> io::Result<Held> {
        let mut peer = Peer::connect(rt, alloc, to)?;
        self.wait(rt, alloc, &mut peer)
    }
}

#[test]
fn page_while_a_sync_is_held(rt: HostRuntime) {
    let door = Door::new();
    let options = options(&rt, rt.alloc(), 1);
    let (status, at) = status_listener(&rt);
    let clients = Waiting { door: &door, at };
    let (served, seen) = serve_held(&rt, rt.alloc(), &door, status, &options, &clients, (1, 1));
    let seen = assert_served(&rt, served, seen, 1);
    let wanted = Held {
        is_open: true,
        is_held: true,
        call_is_shown: true,
        command_is_pending: true,
        is_healthy: true,
        is_ready: true,
        is_acknowledged: true,
        call_has_ended: true,
    };
    assert_same(&rt, &seen, &wanted, &"seen");
}

/// Whether each of these requests has this answer.
fn are_answered<R: Outside>(
    rt: R,
    alloc: Global,
    at: SocketAddr,
    answers: &[(&str, &str); 3],
) -> io::Result<bool> {
    for (request, wanted) in answers {
        if !is_answered(rt, alloc, at, *request, *wanted)? {
            return Ok(false);
        }
    }
    Ok(true)
}

/// What is answered before a fault of the device.
const BEFORE: [(&str, &str); 3] = [
    (GET_HEALTH, IS_HEALTHY),
    (GET_ALIVE, IS_HEALTHY),
    (GET_READY, IS_HEALTHY),
];

/// What is answered after it.
const AFTER: [(&str, &str); 3] = [
    (GET_HEALTH, HAS_STOPPED),
    (GET_ALIVE, IS_HEALTHY),
    (GET_READY, HAS_STOPPED),
];

/// Asks how the server is before and after a fault of the device, and for the plots after it.
#[derive(Drop)]
struct Stopping {
    at: SocketAddr,
}

/// What is seen before and after the fault.
#[derive(Clone, Copy, Debug, PartialEq, Eq)]
struct Stopped {
    is_acknowledged: bool,
    is_healthy_before: bool,
    is_unknown: bool,
    has_stopped_after: bool,
    plots_are_shown: bool,
}

/// Whether the plots are shown.
fn plots_are_shown<R: Outside>(rt: R, alloc: Global, at: SocketAddr) -> io::Result<bool> {
    Ok(
        answer_to(rt, alloc, at, GET_PLOTS)?
            .as_str()
            .ends_with("</html>\n"),
    )
}

impl Stopping {
    /// What is seen beside the session of a peer.
    fn stop<R: Outside>(&self, rt: R, alloc: Global, peer: &mut Peer) -> io::Result<Stopped> {
        let is_acknowledged = peer.asks(REGISTRATION, REGISTERED)?;
        let is_healthy_before = are_answered(rt, alloc, self.at, &BEFORE)?;
        let is_unknown = peer.asks(PURGE, "00000002ff62")?;
        let has_stopped_after = are_answered(rt, alloc, self.at, &AFTER)?;
        Ok(Stopped {
            is_acknowledged,
            is_healthy_before,
            is_unknown,
            has_stopped_after,
            plots_are_shown: plots_are_shown(rt, alloc, self.at)?,
        })
    }
}

impl Clients for Stopping {
    type Seen = Stopped;

    fn meet<R: Outside>(&self, rt: R, alloc: Global, to: SocketAddr) -> io::Result<Stopped> {
        let mut peer = Peer::connect(rt, alloc, to)?;
        self.stop(rt, alloc, &mut peer)
    }
}

#[test]
fn health_before_and_after_a_fault(rt: HostRuntime) {
    let options = options(&rt, rt.alloc(), 1);
    let (status, at) = status_listener(&rt);
    let clients = Stopping { at };
    let seen = assert_met_failing(
        &rt,
        rt.alloc(),
        status,
        &options,
        &clients,
        &Counts::new(),
        1,
    );
    let wanted = Stopped {
        is_acknowledged: true,
        is_healthy_before: true,
        is_unknown: true,
        has_stopped_after: true,
        plots_are_shown: true,
    };
    assert_same(&rt, &seen, &wanted, &"seen");
}
