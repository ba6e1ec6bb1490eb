//! Servers beside their clients.

use crate::server::checks::assert_same;
use crate::server::stores::{LEAST, assert_opens_to, failing, formatted, opened};
use isd_as::IsdAs;
use path_server::{Kinds, Options, Report, Reports, Reserved, RunError, System, serve_store};
use sector_dev::Device;
use seg_lookup::Roster;
use server_front::{Listener, Listeners, set_accept_timeout};
use std::alloc::Global;
use std::net::{Net, Shutdown, SocketAddr, TcpListener, TcpStream};
use std::os::fd::OwnedFd;
use std::process::Abort;
use std::sync::Wait;
use std::sync::atomic::{AtomicBool, AtomicU64, Ordering};
use std::thread::Threads;
use std::time::{Clock, Duration};
use std::{io, thread};

/// The core AS of the tests.
const CORE: u64 = 0x0001_ff00_0000_0110;

/// What clients take of the system.
pub(crate) trait Outside: Net<Listener = TcpListener, Stream = TcpStream>
    + Wait
    + Clock
    + Abort
    + Copy
    + Drop {}

impl<
    R: Net<Listener = TcpListener, Stream = TcpStream> + Wait + Clock + Abort + Copy + Drop,
> Outside for R {}

/// What a server and its clients take of the system.
pub(crate) trait World: Outside + Threads + Send + Sync {}

impl<R: Outside + Threads + Send + Sync> World for R {}

/// The clients of a server.
pub(crate) trait Clients {
    /// What the clients have seen.
    type Seen: Drop + Send;

    /// Meets a server at this address.
    fn meet<R: Outside>(&self, rt: R, alloc: Global, to: SocketAddr) -> io::Result<Self::Seen>;
}

/// What a server reported, and whether it is to end.
#[derive(Drop)]
pub(crate) struct Counts {
    ready: AtomicU64,
    stopped: AtomicU64,
    turned_away: AtomicU64,
    lookups_turned_away: AtomicU64,
    address_full: AtomicU64,
    not_purged: AtomicU64,
    rests: AtomicU64,
    goes_on: AtomicU64,
    purged_most: AtomicU64,
    wants_end: AtomicBool,
}

impl Counts {
    /// Nothing is reported, and the server is to go on.
    pub(crate) fn new() -> Counts {
        Counts {
            ready: AtomicU64::new(0),
            stopped: AtomicU64::new(0),
            turned_away: AtomicU64::new(0),
            lookups_turned_away: AtomicU64::new(0),
            address_full: AtomicU64::new(0),
            not_purged: AtomicU64::new(0),
            rests: AtomicU64::new(0),
            goes_on: AtomicU64::new(0),
            purged_most: AtomicU64::new(0),
            wants_end: AtomicBool::new(false),
        }
    }

    /// How often the server was ready.
    pub(crate) fn ready(&self) -> u64 {
        self.ready.load(Ordering::SeqCst)
    }

    /// How often the store stopped.
    pub(crate) fn stopped(&self) -> u64 {
        self.stopped.load(Ordering::SeqCst)
    }

    /// How many peers were turned away because all seats were taken.
    pub(crate) fn turned_away(&self) -> u64 {
        self.turned_away.load(Ordering::SeqCst)
    }

    /// How many peers were turned away because all seats for lookups were taken.
    pub(crate) fn lookups_turned_away(&self) -> u64 {
        self.lookups_turned_away.load(Ordering::SeqCst)
    }

    /// How many peers were turned away because of the sessions of their address.
    pub(crate) fn address_full(&self) -> u64 {
        self.address_full.load(Ordering::SeqCst)
    }

    /// How often it was reported that a purge of the server itself was refused.
    pub(crate) fn not_purged(&self) -> u64 {
        self.not_purged.load(Ordering::SeqCst)
    }

    /// How often it was reported that purges of the server itself rest.
    pub(crate) fn rests(&self) -> u64 {
        self.rests.load(Ordering::SeqCst)
    }

    /// How often it was reported that they go on.
    pub(crate) fn goes_on(&self) -> u64 {
        self.goes_on.load(Ordering::SeqCst)
    }

    /// How often it was reported that one has dropped most rows.
    pub(crate) fn purged_most(&self) -> u64 {
        self.purged_most.load(Ordering::SeqCst)
    }

    /// Asks the server to end.
    pub(crate) fn want_end(&self) {
        self.wants_end.store(true, Ordering::SeqCst);
    }
}

impl Reports for Counts {
    fn report(&self, report: Report) {
        match report {
            Report::Ready => {
                self.ready.fetch_add(1, Ordering::SeqCst);
            }
            Report::Stopped | Report::Defect => {
                self.stopped.fetch_add(1, Ordering::SeqCst);
            }
            Report::TurnedAway(count) => {
                self.turned_away.fetch_add(count, Ordering::SeqCst);
            }
            Report::LookupsTurnedAway(count) => {
                self.lookups_turned_away.fetch_add(count, Ordering::SeqCst);
            }
            Report::AddressFull(count) => {
                self.address_full.fetch_add(count, Ordering::SeqCst);
            }
            Report::NotPurged(_) => {
                self.not_purged.fetch_add(1, Ordering::SeqCst);
            }
            Report::PurgesRest(_) => {
                self.rests.fetch_add(1, Ordering::SeqCst);
            }
            Report::PurgesGoOn => {
                self.goes_on.fetch_add(1, Ordering::SeqCst);
            }
            Report::PurgedMost { .. } => {
                self.purged_most.fetch_add(1, Ordering::SeqCst);
            }
            _ => {}
        }
    }

    fn wants_end(&self) -> bool {
        self.wants_end.load(Ordering::SeqCst)
    }
}

/// The options of a server for this number of sessions, whose peers may be silent for ten seconds
/// and may list.
pub(crate) fn options(rt: &impl Abort, alloc: Global, sessions: u64) -> Options {
    let mut cores = Vec::new(alloc);
    cores
        .push(IsdAs::from_u64(CORE))
        .expect(rt, "the core AS has room");
    Options {
        cores: Roster::new(cores),
        key: None,
        kinds: Kinds::WithLists,
        sessions,
        peer_sessions: 0,
        idle: Some(Duration::from_secs(10)),
        leave: None,
        future: None,
        spare: 0,
        lookup_seats: 0,
        purge: None,
        purge_grace: 0,
        grace: Duration::from_millis(100),
    }
}

/// What comes of a server and its clients: the device, the server's answer, and what the clients
/// saw.
pub(crate) type Met<D, T> = (D, Result<u64, RunError>, io::Result<T>);

/// How a server ends: after this number of sessions, and its device opens to this number of rows at
/// this place.
#[derive(Clone, Copy)]
pub(crate) struct End {
    pub(crate) sessions: u64,
    pub(crate) rows: usize,
    pub(crate) place: u64,
}

/// Sees that a server ended after this number of sessions, and that its clients met it: what they
/// saw.
pub(crate) fn assert_served<T>(
    rt: &impl Abort,
    served: Result<u64, RunError>,
    seen: io::Result<T>,
    sessions: u64,
) -> T {
    assert_same(rt, &served, &Ok(sessions), &"sessions");
    seen.expect(rt, "the clients meet the server")
}

/// The address of a listener.
fn address_of(rt: &impl Abort, listener: &TcpListener) -> SocketAddr {
    listener
        .local_addr()
        .expect(rt, "the listener has an address")
}

/// A listener at a free port, whose accepts are bounded, and its address.
pub(crate) fn listen<R: World>(rt: R) -> (TcpListener, SocketAddr) {
    let listener = TcpListener::bind(&rt, "127.0.0.1:0").expect(&rt, "a port is free");
    set_accept_timeout(&listener).expect(&rt, "accepts are bounded");
    let to = address_of(&rt, &listener);
    (listener, to)
}

/// A second handle of a listening socket, with a stream's methods: it shuts the socket down.
pub(crate) fn second_handle(rt: &impl Abort, listener: &TcpListener) -> TcpStream {
    let other = listener
        .try_clone()
        .expect(rt, "the listener has a second handle");
    TcpStream::from(OwnedFd::from(other))
}

/// Listeners beside that of sessions.
#[derive(Drop)]
pub(crate) struct Others {
    pub(crate) lookups: Option<TcpListener>,
    pub(crate) status: Option<TcpListener>,
}

impl Others {
    /// None.
    pub(crate) fn none() -> Others {
        Others::of_status(None)
    }

    /// A listener for requests of the server's numbers, where there is one.
    pub(crate) fn of_status(status: Option<TcpListener>) -> Others {
        Others {
            lookups: None,
            status,
        }
    }
}

/// Serves sessions from the store of a device: the device, and the server's answer. Tests need
/// nothing of the contract of `serve_store`, which each caller of it would take in.
pub(crate) fn serve<R: System + Abort, L: Listener + Drop + Send, D: Device + Drop + Send>(
    rt: R,
    alloc: Global,
    listeners: Listeners<L>,
    device: D,
    options: &Options,
    counts: &Counts,
) -> (D, Result<u64, RunError>) {
    let (store, release) = Reserved::of(opened(&rt, alloc, device));
    let (end, _left, served) = serve_store(rt, alloc, listeners, store, options, counts);
    (end.into_device(release), served)
}

/// Serves clients from the store of a device at listeners, of which they know that of sessions, by
/// the system of the server.
pub(crate) fn serve_at<R: World, S: System + Abort, D: Device + Drop + Send, C: Clients + Sync>(
    rt: R,
    system: S,
    alloc: Global,
    device: D,
    listeners: Listeners<TcpListener>,
    options: &Options,
    clients: &C,
    counts: &Counts,
) -> Met<D, C::Seen> {
    let to = listeners
        .sessions_at()
        .expect(&rt, "the listener has an address");
    let ((device, served), seen) = thread::join(
        &rt,
        || serve(system, alloc, listeners, device, options, counts),
        || clients.meet(rt, alloc, to),
    );
    (device, served, seen)
}

/// Clients after which the listener of sessions is shut down.
#[derive(Drop)]
struct LastClients<'a, C> {
    clients: &'a C,
    stop: TcpStream,
}

impl<C: Clients> Clients for LastClients<'_, C> {
    type Seen = C::Seen;

    fn meet<R: Outside>(&self, rt: R, alloc: Global, to: SocketAddr) -> io::Result<C::Seen> {
        let seen = self.clients.meet(rt, alloc, to);
        let _stopped = self.stop.shutdown(Shutdown::Both);
        seen
    }
}

/// Serves clients from the store of a device at a free port, beside other listeners. Once they have
/// ended, the listener is shut down, so that a server which waits for more sessions ends, by `Net`.
pub(crate) fn serve_beside<R: World, D: Device + Drop + Send, C: Clients + Sync>(
    rt: R,
    alloc: Global,
    device: D,
    others: Others,
    options: &Options,
    clients: &C,
    counts: &Counts,
) -> Met<D, C::Seen> {
    serve_by(rt, rt, alloc, device, others, options, clients, counts)
}

/// The same, by another system of the server.
pub(crate) fn serve_by<R: World, S: System + Abort, D: Device + Drop + Send, C: Clients + Sync>(
    rt: R,
    system: S,
    alloc: Global,
    device: D,
    others: Others,
    options: &Options,
    clients: &C,
    counts: &Counts,
) -> Met<D, C::Seen> {
    let Others { lookups, status } = others;
    let (sessions, _to) = listen(rt);
    let clients = LastClients {
        clients,
        stop: second_handle(&rt, &sessions),
    };
    let listeners = Listeners::new(sessions, lookups, status);
    serve_at(
        rt, system, alloc, device, listeners, options, &clients, counts,
    )
}

/// Has clients meet a server of a new store beside other listeners, and sees how it ends: what the
/// clients saw.
pub(crate) fn assert_beside<R: World, C: Clients + Sync>(
    rt: R,
    alloc: Global,
    others: Others,
    options: &Options,
    clients: &C,
    counts: &Counts,
    end: End,
) -> C::Seen {
    let device = formatted(&rt, alloc, LEAST);
    let (device, served, seen) = serve_beside(rt, alloc, device, others, options, clients, counts);
    let seen = assert_served(&rt, served, seen, end.sessions);
    let _device = assert_opens_to(&rt, alloc, device, end.rows, end.place);
    seen
}

/// The same, without other listeners.
pub(crate) fn assert_met<R: World, C: Clients + Sync>(
    rt: R,
    alloc: Global,
    options: &Options,
    clients: &C,
    counts: &Counts,
    end: End,
) -> C::Seen {
    assert_beside(rt, alloc, Others::none(), options, clients, counts, end)
}

/// Has clients meet a server of a device that fails, as `failing` has it, and sees that it ends
/// after this number of sessions: what the clients saw.
pub(crate) fn assert_met_failing<R: World, C: Clients + Sync>(
    rt: R,
    alloc: Global,
    others: Others,
    options: &Options,
    clients: &C,
    counts: &Counts,
    sessions: u64,
) -> C::Seen {
    let device = failing(&rt, alloc);
    let (_device, served, seen) = serve_beside(rt, alloc, device, others, options, clients, counts);
    assert_served(&rt, served, seen, sessions)
}
