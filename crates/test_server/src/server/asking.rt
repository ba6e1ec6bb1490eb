//! What a server's second listener answers to requests that it refuses, and to peers that send
//! nothing.

use crate::server::checks::{assert_same, assert_true};
use crate::server::peers::{EMPTY_LOOKUP, NO_DESTINATION, Peer, has_session};
use crate::server::watching::{GET_NUMBERS, answer_to, connect, received, status_listener};
use crate::server::worlds::{
    Clients, Counts, End, Others, Outside, World, assert_beside, listen, options, second_handle,
};
use std::alloc::Global;
use std::io;
use std::io::Write;
use std::net::{Shutdown, SocketAddr, TcpListener, TcpStream};
use std::time::{Duration, Instant};

/// The end of a server after a session without commands.
const UNCHANGED: End = End {
    sessions: 1,
    rows: 0,
    place: 0,
};

/// Asks for other things than the page.
#[derive(Drop)]
struct Asking {
    at: SocketAddr,
}

/// How often a head that is too large has a line.
const MANY_LINES: u64 = 200;

/// A line of it, with 32 bytes.
const LINE: &str = "A: 123456789 123456789 1234567\r\n";

/// The head of a request with this number of bytes more than its first line.
fn large_head(alloc: Global) -> io::Result<String> {
    let mut head = String::from_str(alloc, "GET /metrics HTTP/1.1\r\n")?;
    for _ in 0..MANY_LINES {
        head.push_str(LINE)?;
    }
    Ok(head)
}

/// Requests, and the first line of the answer to each.
const REQUESTS: &[(&str, &str)] = &[
    ("GET /index.html HTTP/1.1\r\n\r\n", "HTTP/1.1 404 Not Found"),
    ("GET /metrics/ HTTP/1.1\r\n\r\n", "HTTP/1.1 404 Not Found"),
    ("POST /ready HTTP/1.1\r\n\r\n", "HTTP/1.1 404 Not Found"),
    ("POST / HTTP/1.1\r\n\r\n", "HTTP/1.1 405 Method Not Allowed"),
    (
        "HEAD /livez HTTP/1.1\r\n\r\n",
        "HTTP/1.1 405 Method Not Allowed",
    ),
    (
        "POST /metrics HTTP/1.1\r\nContent-Length: 4\r\n\r\nbody",
        "HTTP/1.1 405 Method Not Allowed",
    ),
    ("GET /metrics", "HTTP/1.1 400 Bad Request"),
    ("\u{7f}\r\n\r\n", "HTTP/1.1 400 Bad Request"),
    ("", "HTTP/1.1 400 Bad Request"),
];

/// These requests. The prover writes a constant out where it is named, so no loop names it.
fn requests() -> &'static [(&'static str, &'static str)] {
    REQUESTS
}

/// Whether an answer begins with this line, and has nothing after its head.
fn is_refusal(answer: &str, line: &str) -> bool {
    let Some((head, body)) = answer.split_once("\r\n\r\n") else {
        return false;
    };
    body.is_empty() && head.starts_with(line) && head.ends_with("\r\nConnection: close")
}

/// Sees that a request is refused by an answer that begins with this line.
fn assert_refused<R: Outside>(
    rt: R,
    alloc: Global,
    at: SocketAddr,
    request: &str,
    line: &str,
) -> io::Result<()> {
    let answer = answer_to(rt, alloc, at, request)?;
    let answer = answer.as_str();
    assert_same(&rt, &is_refusal(answer, line), &true, &(request, answer));
    Ok(())
}

/// Sees that a request is refused whose head is too large.
fn assert_large_refused<R: Outside>(rt: R, alloc: Global, at: SocketAddr) -> io::Result<()> {
    let large = large_head(alloc)?;
    assert_refused(rt, alloc, at, large.as_str(), "HTTP/1.1 400 Bad Request")
}

impl Clients for Asking {
    type Seen = bool;

    fn meet<R: Outside>(&self, rt: R, alloc: Global, to: SocketAddr) -> io::Result<bool> {
        for (request, line) in requests() {
            assert_refused(rt, alloc, self.at, *request, *line)?;
        }
        assert_large_refused(rt, alloc, self.at)?;
        has_session(rt, alloc, to)
    }
}

/// Has clients meet a server for one session and for requests, whose store they leave as it is:
/// what they saw.
fn assert_seen<R: World, C: Clients + Sync>(
    rt: R,
    alloc: Global,
    status: Others,
    clients: &C,
) -> C::Seen {
    let options = options(&rt, alloc, 1);
    assert_beside(
        rt,
        alloc,
        status,
        &options,
        clients,
        &Counts::new(),
        UNCHANGED,
    )
}

#[test]
fn other_requests_are_refused(rt: HostRuntime) {
    let (status, at) = status_listener(&rt);
    let seen = assert_seen(&rt, rt.alloc(), status, &Asking { at });
    assert_true(&rt, seen, "a session is served after the refusals");
}

/// One peer is silent at the listener for requests, while a session is served; another one asks for
/// the numbers after it.
#[derive(Drop)]
struct Hushed {
    at: SocketAddr,
}

/// The time within which a silent peer is closed: a second, and what a busy machine adds.
const SOON: u64 = 10;

/// Connects to the listener for requests, and sends this.
fn sent<R: Outside>(rt: R, at: SocketAddr, text: &str) -> io::Result<TcpStream> {
    let mut stream = connect(rt, at)?;
    stream.write_all(text.as_bytes())?;
    Ok(stream)
}

/// Whether the server closes a connection without an answer, soon after this moment.
fn is_closed_soon<R: Outside>(
    rt: R,
    alloc: Global,
    stream: &mut TcpStream,
    begun: Instant,
) -> io::Result<bool> {
    let is_closed = received(alloc, stream)?.is_empty();
    let is_soon = begun.elapsed(&rt)? < Duration::from_secs(SOON);
    Ok(is_closed && is_soon)
}

/// Whether the server answers as to the request of the numbers.
fn shows_numbers(alloc: Global, stream: &mut TcpStream) -> io::Result<bool> {
    Ok(
        received(alloc, stream)?
            .as_str()
            .starts_with("HTTP/1.1 200 OK"),
    )
}

/// Has a session while one peer has been silent since this moment and another one has asked for the
/// numbers: whether it is served, the silent one is closed soon, and the other one is answered.
fn are_served<R: Outside>(
    rt: R,
    alloc: Global,
    to: SocketAddr,
    (silent, begun): (&mut TcpStream, Instant),
    next: &mut TcpStream,
) -> io::Result<bool> {
    let mut peer = Peer::connect(rt, alloc, to)?;
    let is_served = peer.asks(EMPTY_LOOKUP, NO_DESTINATION)?;
    let is_closed = is_closed_soon(rt, alloc, silent, begun)?;
    let is_answered = shows_numbers(alloc, next)?;
    drop(peer);
    Ok(is_served && is_closed && is_answered)
}

impl Clients for Hushed {
    type Seen = bool;

    fn meet<R: Outside>(&self, rt: R, alloc: Global, to: SocketAddr) -> io::Result<bool> {
        let begun = Instant::now(&rt)?;
        let mut silent = sent(rt, self.at, "GET /met")?;
        let mut next = sent(rt, self.at, GET_NUMBERS)?;
        are_served(rt, alloc, to, (&mut silent, begun), &mut next)
    }
}

#[test]
fn silent_peers_are_closed_soon(rt: HostRuntime) {
    let (status, at) = status_listener(&rt);
    let seen = assert_seen(&rt, rt.alloc(), status, &Hushed { at });
    assert_true(&rt, seen, "one peer is closed soon, the others are served");
}

/// Many peers are silent at the listener for requests, and another one asks for the numbers after
/// them.
#[derive(Drop)]
struct Crowd {
    at: SocketAddr,
}

/// The number of silent peers: more than twice as many as visit at one time.
const CROWD: usize = 160;

/// The most time in milliseconds until the answer. Answered one after the other, 160 peers who send
/// nothing would take 40 seconds.
const PROMPT: u64 = 5_000;

/// Connects one more peer, who sends nothing.
fn add_silent<R: Outside>(rt: R, at: SocketAddr, peers: &mut Vec<TcpStream>) -> io::Result<()> {
    let peer = connect(rt, at)?;
    peers.push(peer)?;
    Ok(())
}

/// Connects this number of peers, who send nothing.
fn silent_peers<R: Outside>(
    rt: R,
    alloc: Global,
    at: SocketAddr,
    count: usize,
) -> io::Result<Vec<TcpStream>> {
    let mut peers = Vec::new(alloc);
    for _ in 0..count {
        add_silent(rt, at, &mut peers)?;
    }
    Ok(peers)
}

/// Asks for the numbers: whether there is an answer, and whether it comes within the time since
/// this moment.
fn answered_since<R: Outside>(
    rt: R,
    alloc: Global,
    at: SocketAddr,
    begun: Instant,
) -> io::Result<(bool, bool)> {
    let mut asking = sent(rt, at, GET_NUMBERS)?;
    let is_answered = shows_numbers(alloc, &mut asking)?;
    let is_prompt = begun.elapsed(&rt)? < Duration::from_millis(PROMPT);
    Ok((is_answered, is_prompt))
}

/// The same, after many peers who send nothing.
fn answered_in_crowd<R: Outside>(rt: R, alloc: Global, at: SocketAddr) -> io::Result<(bool, bool)> {
    let begun = Instant::now(&rt)?;
    let before = silent_peers(rt, alloc, at, CROWD)?;
    let answered = answered_since(rt, alloc, at, begun);
    drop(before);
    answered
}

impl Clients for Crowd {
    type Seen = [bool; 3];

    fn meet<R: Outside>(&self, rt: R, alloc: Global, to: SocketAddr) -> io::Result<[bool; 3]> {
        let mut peer = Peer::connect(rt, alloc, to)?;
        let is_served = peer.asks(EMPTY_LOOKUP, NO_DESTINATION)?;
        let (is_answered, is_prompt) = answered_in_crowd(rt, alloc, self.at)?;
        drop(peer);
        Ok([is_served, is_answered, is_prompt])
    }
}

#[test]
fn silent_peers_hold_up_no_other(rt: HostRuntime) {
    let (status, at) = status_listener(&rt);
    let seen = assert_seen(&rt, rt.alloc(), status, &Crowd { at });
    assert_same(&rt, &seen, &[true; 3], &"served, answered and prompt");
}

/// Two sessions, one after the other.
struct Twice;

impl Clients for Twice {
    type Seen = [bool; 2];

    fn meet<R: Outside>(&self, rt: R, alloc: Global, to: SocketAddr) -> io::Result<[bool; 2]> {
        let first = has_session(rt, alloc, to)?;
        let second = has_session(rt, alloc, to)?;
        Ok([first, second])
    }
}

/// A listener that is shut down, so that its first accept says that it is broken.
fn broken_listener<R: World>(rt: R) -> TcpListener {
    let (listener, _at) = listen(rt);
    second_handle(&rt, &listener)
        .shutdown(Shutdown::Both)
        .expect(&rt, "the listener is shut down");
    listener
}

// The second listener is shut down before the server begins.
#[test]
fn a_broken_second_listener_ends_its_thread_alone(rt: HostRuntime) {
    let status = Others::of_status(Some(broken_listener(&rt)));
    let options = options(&rt, rt.alloc(), 2);
    let counts = Counts::new();
    let end = End {
        sessions: 2,
        rows: 0,
        place: 0,
    };
    let seen = assert_beside(&rt, rt.alloc(), status, &options, &Twice, &counts, end);
    assert_same(&rt, &seen, &[true; 2], &"sessions that are answered");
    assert_same(&rt, &counts.stopped(), &0, &"stopped");
}
