//! Want of memory for the threads of a server. Each test is run with each of its allocations
//! refused in turn: a server whose actors are not given, or the thread of its second listener, ends
//! by that, and reports no fault of its device.

use crate::server::checks::{assert_same, assert_true};
use crate::server::stores::{LEAST, assert_opens_to, formatted};
use crate::server::worlds::{Counts, World, serve};
use path_server::{Kinds, Options, RunError};
use seg_lookup::Roster;
use server_front::{Listener, Listeners};
use std::alloc::Global;
use std::io;
use std::net::{OpenListener, SocketAddr, TcpStream};
use std::process::Abort;
use std::time::Duration;

/// A listener that is none.
#[derive(Drop)]
struct Broken;

impl OpenListener for Broken {
    type Stream = TcpStream;

    fn accept(&self) -> io::Result<(TcpStream, SocketAddr)> {
        Err(io::Error::from_raw_os_error(9))
    }
}

impl Listener for Broken {}

/// The options of a server without core ASes, for any number of sessions.
fn no_cores(alloc: Global) -> Options {
    Options {
        cores: Roster::new(Vec::new(alloc)),
        key: None,
        kinds: Kinds::Base,
        sessions: 0,
        peer_sessions: 0,
        idle: None,
        leave: None,
        future: None,
        spare: 0,
        lookup_seats: 0,
        purge: None,
        purge_grace: 0,
        grace: Duration::from_millis(100),
    }
}

/// Whether a server, which has reported no stop, ended by its broken listener. Otherwise it was
/// given no threads.
fn was_ready(rt: &impl Abort, served: Result<u64, RunError>, counts: &Counts) -> bool {
    assert_same(rt, &counts.stopped(), &0, &"stopped");
    if served == Err(RunError::NoMemory) {
        assert_same(rt, &counts.ready(), &0, &"ready without threads");
        return false;
    }
    assert_same(rt, &served, &Err(RunError::Net), &"served");
    assert_same(rt, &counts.ready(), &1, &"ready");
    true
}

/// Has a server begin over a new store, with a second listener or without one: whether its threads
/// were given.
fn has_threads<R: World>(rt: R, alloc: Global, status: Option<Broken>) -> bool {
    let device = formatted(&rt, alloc, LEAST);
    let listeners = Listeners::new(Broken, None, status);
    let counts = Counts::new();
    let (device, served) = serve(rt, alloc, listeners, device, &no_cores(alloc), &counts);
    let _device = assert_opens_to(&rt, alloc, device, 0, 0);
    was_ready(&rt, served, &counts)
}

// At most one allocation is refused, so that of two servers one has its actors.
#[test]
fn refused_memory_of_actors(rt: HostRuntime) {
    let first = has_threads(&rt, rt.alloc(), None);
    let second = has_threads(&rt, rt.alloc(), None);
    assert_true(&rt, first || second, "one of two servers has its threads");
}

#[test]
fn refused_memory_of_a_second_listener(rt: HostRuntime) {
    let first = has_threads(&rt, rt.alloc(), Some(Broken));
    let second = has_threads(&rt, rt.alloc(), Some(Broken));
    assert_true(&rt, first || second, "one of two servers has its threads");
}
