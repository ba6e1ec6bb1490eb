//! Listeners that fail.

use crate::server::checks::assert_same;
use crate::server::stores::{LEAST, assert_opens_to, formatted};
use crate::server::worlds::{Counts, World, options, serve};
use path_server::RunError;
use server_front::{AcceptFailure, Listener, Listeners, after_failure};
use std::alloc::Global;
use std::io;
use std::net::{OpenListener, SocketAddr, TcpStream};
use std::sync::atomic::{AtomicUsize, Ordering};

/// The numbers of Linux's errors of accept(2), and what is done after them.
const FAILURES: &[(i32, AcceptFailure)] = &[
    (9, AcceptFailure::Broken), // EBADF
    (14, AcceptFailure::Broken), // EFAULT
    (22, AcceptFailure::Broken), // EINVAL
    (88, AcceptFailure::Broken), // ENOTSOCK
    (11, AcceptFailure::Nobody), // EAGAIN
    (12, AcceptFailure::Pause), // ENOMEM
    (23, AcceptFailure::Pause), // ENFILE
    (24, AcceptFailure::Pause), // EMFILE
    (105, AcceptFailure::Pause), // ENOBUFS
    (1, AcceptFailure::Pause), // EPERM
    (64, AcceptFailure::Pause), // ENONET
    (71, AcceptFailure::Pause), // EPROTO
    (92, AcceptFailure::Pause), // ENOPROTOOPT
    (95, AcceptFailure::Pause), // EOPNOTSUPP
    (100, AcceptFailure::Pause), // ENETDOWN
    (101, AcceptFailure::Pause), // ENETUNREACH
    (103, AcceptFailure::Pause), // ECONNABORTED
    (110, AcceptFailure::Pause), // ETIMEDOUT
    (112, AcceptFailure::Pause), // EHOSTDOWN
    (113, AcceptFailure::Pause), // EHOSTUNREACH
];

/// These failures. The prover writes a constant out where it is named, so no loop names it.
fn failures() -> &'static [(i32, AcceptFailure)] {
    FAILURES
}

#[test]
fn failures_by_their_number(rt: HostRuntime) {
    for (number, wanted) in failures() {
        let failure = after_failure(&io::Error::from_raw_os_error(*number));
        assert_same(&rt, &failure, wanted, number);
    }
}

/// Fails by these errors, one after the other, and by the last one from then on.
#[derive(Drop)]
struct Script {
    errors: [i32; 4],
    last: i32,
    next: AtomicUsize,
}

impl Script {
    fn new(errors: [i32; 4], last: i32) -> Script {
        Script {
            errors,
            last,
            next: AtomicUsize::new(0),
        }
    }
}

impl OpenListener for Script {
    type Stream = TcpStream;

    fn accept(&self) -> io::Result<(TcpStream, SocketAddr)> {
        let next = self.next.fetch_add(1, Ordering::SeqCst);
        let error = self.errors.get(next).copied().unwrap_or(self.last);
        Err(io::Error::from_raw_os_error(error))
    }
}

impl Listener for Script {}

/// Serves by these listeners until the server ends, as one of them is broken.
fn assert_ends<W: World>(rt: W, alloc: Global, listeners: Listeners<Script>) {
    let device = formatted(&rt, alloc, LEAST);
    let counts = Counts::new();
    let options = options(&rt, alloc, 0);
    let (device, served) = serve(rt, alloc, listeners, device, &options, &counts);
    assert_same(&rt, &served, &Err(RunError::Net), &"served");
    assert_same(&rt, &counts.stopped(), &0, &"stopped");
    let _device = assert_opens_to(&rt, alloc, device, 0, 0);
}

#[test]
fn a_broken_listener_ends_the_server(rt: HostRuntime) {
    let alloc = rt.alloc();
    let listeners = Listeners::of_sessions(Script::new([103, 24, 1, 12], 9));
    assert_ends(&rt, alloc, listeners);
}

// The listener of lookups is asked first, and its accepts never have a peer.
#[test]
fn the_other_listener_is_asked_after_one_without_peers(rt: HostRuntime) {
    let alloc = rt.alloc();
    let lookups = Script::new([11, 11, 11, 11], 11);
    let listeners = Listeners::new(Script::new([11, 11, 11, 11], 9), Some(lookups), None);
    assert_ends(&rt, alloc, listeners);
}
