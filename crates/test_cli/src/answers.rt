//! What a peer is answered, by what it asks for and what the store is doing.

use crate::checks::{assert_same, assert_true};
use crate::pages::{NUMBERS, counts};
use status_page::{Asked, CallTime, MemoryWaits};
use status_server::answer;
use std::alloc::{AllocError, Global};
use std::process::Abort;
use std::test::Fail;
use store_loops::DeviceCall;

const OK: &str =
    "HTTP/1.1 200 OK\r\nContent-Type: text/plain\r\nContent-Length: 3\r\nConnection: close\r\n\r\nok\n";

const STOPPED: &str =
    "HTTP/1.1 503 Service Unavailable\r\nContent-Type: text/plain\r\nContent-Length: 65\r\nConnection: close\r\n\r\nthe store has stopped: no command is accepted, and lookups go on\n";

const NO_MEMORY: &str =
    "HTTP/1.1 503 Service Unavailable\r\nContent-Type: text/plain\r\nContent-Length: 83\r\nConnection: close\r\n\r\na thread of the store has no memory: commands wait or will soon, and lookups go on\n";

const HANGS: &str =
    "HTTP/1.1 503 Service Unavailable\r\nContent-Type: text/plain\r\nContent-Length: 71\r\nConnection: close\r\n\r\na call of the device hangs: no command is committed, and lookups go on\n";

const NOT_FOUND: &str = "HTTP/1.1 404 Not Found\r\nContent-Length: 0\r\nConnection: close\r\n\r\n";

const NOT_ALLOWED: &str =
    "HTTP/1.1 405 Method Not Allowed\r\nAllow: GET\r\nContent-Length: 0\r\nConnection: close\r\n\r\n";

const BAD_REQUEST: &str =
    "HTTP/1.1 400 Bad Request\r\nContent-Length: 0\r\nConnection: close\r\n\r\n";

/// No thread waits for memory.
const NONE: MemoryWaits = MemoryWaits {
    flusher: false,
    checkpointer: false,
};

/// The flusher does.
const FLUSHER: MemoryWaits = MemoryWaits {
    flusher: true,
    checkpointer: false,
};

/// The checkpointer does.
const CHECKPOINTER: MemoryWaits = MemoryWaits {
    flusher: false,
    checkpointer: true,
};

/// What a server is doing: whether the store has stopped, which threads wait for memory, and for
/// how many microseconds a call of the device has been under way.
type Doing = (bool, MemoryWaits, Option<u64>);

/// What a server is doing, what is asked for, and the answer.
const ANSWERS: &[(Doing, Asked, &str)] = &[
    ((false, NONE, None), Asked::Alive, OK),
    ((true, FLUSHER, Some(60_000_000)), Asked::Alive, OK),
    ((false, NONE, None), Asked::Ready, OK),
    ((false, NONE, Some(9_999_999)), Asked::Ready, OK),
    ((false, NONE, Some(10_000_000)), Asked::Ready, HANGS),
    (
        (false, NONE, Some(18_446_744_073_709_551_615)),
        Asked::Ready,
        HANGS,
    ),
    ((false, FLUSHER, None), Asked::Ready, NO_MEMORY),
    ((false, CHECKPOINTER, None), Asked::Ready, NO_MEMORY),
    ((false, FLUSHER, Some(10_000_000)), Asked::Ready, NO_MEMORY),
    ((true, NONE, None), Asked::Ready, STOPPED),
    ((true, FLUSHER, None), Asked::Ready, STOPPED),
    ((true, NONE, Some(10_000_000)), Asked::Ready, STOPPED),
    ((false, NONE, None), Asked::Health, OK),
    ((false, FLUSHER, None), Asked::Health, OK),
    ((false, NONE, Some(10_000_000)), Asked::Health, OK),
    ((true, NONE, None), Asked::Health, STOPPED),
    ((false, NONE, None), Asked::OtherPath, NOT_FOUND),
    ((false, NONE, None), Asked::OtherMethod, NOT_ALLOWED),
    ((false, NONE, None), Asked::More, BAD_REQUEST),
    ((false, NONE, None), Asked::Unreadable, BAD_REQUEST),
];

/// These answers. The prover writes a constant out where it is named, so no loop names it.
fn answers() -> &'static [(Doing, Asked, &'static str)] {
    ANSWERS
}

/// What is answered while a server does this.
fn answered(alloc: Global, doing: Doing, asked: Asked) -> Result<String, AllocError> {
    let (stopped, waits, time) = doing;
    let mut numbers = NUMBERS;
    numbers.stopped = stopped;
    let mut counts = counts();
    counts.waits = waits;
    counts.call = time.map(|microseconds| CallTime {
        call: DeviceCall::SyncGroup,
        microseconds,
    });
    answer(alloc, asked, &numbers, &counts, &[])
}

/// Sees what is answered while a server does this.
fn assert_answer(
    rt: &impl Abort,
    alloc: Global,
    doing: Doing,
    asked: Asked,
    wanted: &str,
) -> Result<(), Fail> {
    let text = answered(alloc, doing, asked)?;
    assert_same(rt, &text.as_str(), &wanted, &asked);
    Ok(())
}

#[test]
fn answers_by_state(rt: HostRuntime) -> Result<(), Fail> {
    for (doing, asked, wanted) in answers() {
        assert_answer(&rt, rt.alloc(), *doing, *asked, *wanted)?;
    }
    Ok(())
}

/// The head of the answer with the page of plots, up to the hashes of its script and of its style.
const HEAD: &str =
    "HTTP/1.1 200 OK\r\nContent-Type: text/html; charset=utf-8\r\nContent-Security-Policy: default-src 'none'; script-src 'sha256-";

/// Sees the head of the answer with the page of plots, and how the page begins and ends.
fn assert_plots(rt: &impl Abort, alloc: Global, head: &str, page: &str) -> Result<(), Fail> {
    assert_same(rt, &head.starts_with(HEAD), &true, &head);
    let is_page = page.starts_with("<!doctype html>\n") && page.ends_with("</html>\n");
    assert_true(rt, is_page, "the page is whole");
    let len = page.len();
    let fields = format!(in alloc;
        "\r\nX-Content-Type-Options: nosniff\r\nContent-Length: {len}\r\nConnection: close"
    )?;
    assert_same(rt, &head.ends_with(fields.as_str()), &true, &head);
    Ok(())
}

#[test]
fn plots_are_answered(rt: HostRuntime) -> Result<(), Fail> {
    let whole = answered(rt.alloc(), (true, NONE, None), Asked::Plots)?;
    match whole.as_str().split_once("\r\n\r\n") {
        Some((head, page)) => assert_plots(&rt, rt.alloc(), head, page),
        None => Err(Fail::from("no head")),
    }
}
