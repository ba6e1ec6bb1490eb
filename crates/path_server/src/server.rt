//! A server's work with a hub: it attends to each connection in a thread of its own.

ghost use Rattle.std.specs.Prelude.{◌≡◌, false, is_some};
ghost use Rattle.server_front.specs.Roles.{takes_commands};
ghost use Rattle.path_server.specs.Attending.{shares_room};

use crate::error::RunError;
use crate::options::Options;
use crate::purge_state::PurgeState;
use crate::purger::Purger;
use crate::reports::{Report, Reports};
use crate::task::{Seat, Task};
use command_queue::MOST_WAITING;
use hub_claims::HubName;
use hub_readers::READERS;
use path_hub::{Hub, Notice, Senders, Workload};
use path_session::SystemNow;
use sector_dev::Device;
use server_front::{
    Door, Ends, LEAST_COMMAND_SEATS, Listener, Listeners, MOST_SESSIONS, Role, Seats, Seldom,
    StatusListener, Stopwatch, Waiting, shares_of,
};
use session_clock::SteadyNow;
use session_core::MOST_AHEAD;
use session_limits::{Limits, Rooms};
use status_server::Replies;
use std::alloc::Global;
use std::sync::Wait;
use std::sync::atomic::{AtomicBool, AtomicU64, Ordering};
use std::time::{Clock, Duration, Instant};

// Each session at one time has a reader of the hub.
const _: () = prove!(MOST_SESSIONS == READERS as u64);

const _: () = prove!(MOST_SESSIONS == 64);

// What all sessions may send ahead may wait in the queue beside 256 commands, as many as may be
// pending in a state.
const _: () = prove!(MOST_WAITING as u64 == 256 + MOST_SESSIONS * MOST_AHEAD as u64);

const _: () = prove!(MOST_AHEAD == 128);

/// A server: where its peers arrive, the seats that they take, what each session is answered by,
/// and what is counted of it.
#[derive(Drop)]
pub(crate) struct Server<'a, L, O> {
    pub(crate) alloc: Global,
    pub(crate) door: Door<L>,
    /// The seats for the sessions that may have commands.
    pub(crate) seats: Seats,
    /// The seats for the sessions that only look up.
    pub(crate) lookup_seats: Seats,
    /// Room for the sessions that have commands under way, or `None` where all seats are.
    rooms: Option<Rooms>,
    pub(crate) status: StatusListener<L>,
    pub(crate) options: &'a Options,
    pub(crate) reports: &'a O,
    /// Peers that were turned away because all seats were taken.
    pub(crate) turned_away: Seldom,
    /// Peers of the listener of lookups that were.
    pub(crate) lookups_turned_away: Seldom,
    /// Peers that were turned away because their address had as many sessions as it may have.
    pub(crate) address_full: Seldom,
    /// Peers that were turned away because no thread or no memory was given for them.
    pub(crate) no_thread: Seldom,
    /// Accepts that failed.
    pub(crate) not_accepted: Seldom,
    /// Sessions that ended by a fault.
    pub(crate) faulted: Seldom,
    pub(crate) ends: Ends,
    /// The checkpoint that is being made.
    checkpoint: Stopwatch,
    /// The milliseconds that completed checkpoints took in all.
    pub(crate) checkpoint_time: AtomicU64,
    pub(crate) waiting: Waiting,
    pub(crate) replies: Replies,
    /// When the server began, or `None` where the clock could not be read.
    pub(crate) begun: Option<Instant>,
    /// The same in seconds since 1970, or 0.
    pub(crate) begun_at: u64,
    /// The number of connections that are read and dropped after the end of their sessions.
    pub(crate) drains: AtomicU64,
    /// Whether the store was reported to have no epoch left.
    exhausted: AtomicBool,
    /// Whether a thread was asked for that purges.
    has_purger: AtomicBool,
    /// Whether no thread was given for what is no session.
    is_short: AtomicBool,
    /// What is known of the purges of the server itself.
    pub(crate) own_purges: PurgeState,
    /// Whether every thread that serves was reported to have begun.
    ready: AtomicBool,
    /// Whether no more peers are accepted.
    ending: AtomicBool,
    /// Whether the reason for that is a broken listener.
    broken: AtomicBool,
    /// Whether the connections of the sessions that were open were shut down.
    pub(crate) shut: AtomicBool,
}

impl<'a, L: Listener + Drop, O: Reports> Server<'a, L, O> {
    /// A server that no peer has come to.
    pub(crate) fn new(
        alloc: Global,
        listeners: Listeners<L>,
        begun: Option<Instant>,
        begun_at: u64,
        options: &'a Options,
        reports: &'a O,
    ) -> Server<'a, L, O> {
        let (entrances, status) = listeners.into_parts();
        let (seats, lookup_seats) = shares_of(entrances.has_lookups(), options.lookup_seats);
        Server {
            alloc,
            door: Door::new(entrances, options.sessions),
            seats: Seats::new(alloc, seats, options.peer_sessions),
            lookup_seats: Seats::new(alloc, lookup_seats, options.peer_sessions),
            rooms: rooms_beside(seats, options.spare),
            status: StatusListener::new(status),
            options,
            reports,
            turned_away: Seldom::new(),
            lookups_turned_away: Seldom::new(),
            address_full: Seldom::new(),
            no_thread: Seldom::new(),
            not_accepted: Seldom::new(),
            faulted: Seldom::new(),
            ends: Ends::new(),
            checkpoint: Stopwatch::new(),
            checkpoint_time: AtomicU64::new(0),
            waiting: Waiting::new(),
            replies: Replies::new(),
            begun,
            begun_at,
            drains: AtomicU64::new(0),
            exhausted: AtomicBool::new(false),
            has_purger: AtomicBool::new(false),
            is_short: AtomicBool::new(false),
            own_purges: PurgeState::new(),
            ready: AtomicBool::new(false),
            ending: AtomicBool::new(false),
            broken: AtomicBool::new(false),
            shut: AtomicBool::new(false),
        }
    }

    /// The limits of the messages of each session of a role.
    pub(crate) fn limits(&self, role: Role) -> Limits<'_>
        ensures future { result.future ≡ self.now.options.now.future }
        ensures rooms { is_some result.rooms ≡ shares_room role (is_some self.now.rooms) }
        ensures commands { result.commands ≡ takes_commands role }
    {
        let commands = role.takes_commands();
        Limits {
            future: self.options.future,
            rooms: if commands { self.rooms.as_ref() } else { None },
            commands,
        }
    }

    /// The seats for the sessions of a role.
    pub(crate) fn seats_of(&self, role: Role) -> &Seats {
        match role {
            Role::All => &self.seats,
            Role::Lookups => &self.lookup_seats,
        }
    }

    /// The number of seats that are taken.
    pub(crate) fn taken(&self) -> u64 {
        self.seats.taken().saturating_add(self.lookup_seats.taken())
    }

    /// Whether the listener for sessions broke.
    fn is_broken(&self) -> bool {
        self.broken.load(Ordering::SeqCst)
    }

    /// Records that the listener for sessions broke.
    pub(crate) fn set_broken(&self) {
        self.broken.store(true, Ordering::SeqCst);
    }

    /// Whether peers are still to come or being served.
    pub(crate) fn is_open(&self) -> bool {
        !self.ending.load(Ordering::SeqCst) || self.taken() > 0
    }

    /// The result of the server: the number of sessions that it served, or why it did not serve all
    /// of them.
    pub(crate) fn served(&self) -> Result<u64, RunError> {
        if self.is_broken() {
            return Err(RunError::Net);
        }
        if self.is_short() {
            return Err(RunError::NoMemory);
        }
        Ok(self.door.started())
    }

    /// Whether no thread was given for what is no session.
    fn is_short(&self) -> bool {
        self.is_short.load(Ordering::SeqCst)
    }

    /// The period of the purges for which a thread must be asked, as it is once where there is one.
    fn offered_purges(&self) -> Option<Duration> {
        let period = self.options.purge?;
        if self.has_purger.swap(true, Ordering::SeqCst) {
            return None;
        }
        Some(period)
    }

    /// Reports once that every thread that serves has begun.
    fn report_ready(&self) {
        if !self.ready.swap(true, Ordering::SeqCst) && !self.is_short() {
            self.reports.report(Report::Ready);
        }
    }

    /// The seat of the next peer, or `None` where no more are to come.
    fn next_session<R: Wait + Clock>(&self, rt: &R) -> Option<Seat> {
        if self.door.is_done() || self.is_short() {
            return None;
        }
        let seat = self.next_seated(rt)?;
        self.door.count();
        Some(seat)
    }
}

impl<D: Device, R: Wait + Clock, L: Listener + Drop + Send, O: Reports> Workload<D, R>
    for Server<'_, L, O> {
    type Task = Task;

    fn next<N: HubName>(&self, hub: &Hub<D, N, R>) -> Option<Task> {
        let rt = hub.handle();
        if self.status.offer(rt) {
            return Some(Task::Status);
        }
        if let Some(period) = self.offered_purges() {
            return Some(Task::Purges(period));
        }
        self.report_ready();
        if let Some(seat) = self.next_session(rt) {
            return Some(Task::Session(seat));
        }
        self.ending.store(true, Ordering::SeqCst);
        self.door.close(rt);
        if self.is_broken() {
            hub.stop();
        }
        self.await_last(rt);
        None
    }

    fn attend<N: HubName>(&self, hub: &Hub<D, N, R>, senders: &Senders<N>, task: Task) {
        match task {
            Task::Session(seat) => self.attend_session(hub, senders.begin(), seat),
            Task::Status => {
                if let Some(listener) = self.status.take(hub.handle()) {
                    self.watch(hub, &listener);
                }
            }
            Task::Purges(period) => {
                let clock = SystemNow::new(hub.handle());
                let steady = SteadyNow::new(hub.handle());
                let grace = self.options.purge_grace;
                let purger = Purger::new(hub, clock, steady, grace, senders.begin());
                self.purge(hub, purger, period)
            }
        }
    }

    fn miss<N: HubName>(&self, hub: &Hub<D, N, R>, task: Task) {
        match task {
            Task::Session(seat) => self.miss_session(hub.handle(), seat),
            Task::Status | Task::Purges(_) => self.is_short.store(true, Ordering::SeqCst),
        }
    }

    fn note<N: HubName>(&self, hub: &Hub<D, N, R>, notice: Notice) {
        let report = match notice {
            Notice::NoMemory(actor) => {
                self.waiting.set(actor, true);
                Report::NoMemory(actor)
            }
            Notice::MemoryGiven(actor) => {
                self.waiting.set(actor, false);
                Report::MemoryGiven(actor)
            }
            Notice::CheckpointBegun => {
                self.checkpoint.begin(hub.handle());
                Report::CheckpointBegun
            }
            Notice::CheckpointDone => {
                let milliseconds = self.checkpoint.milliseconds(hub.handle());
                self.checkpoint_time
                    .fetch_add(milliseconds, Ordering::SeqCst);
                Report::CheckpointDone { milliseconds }
            }
            Notice::NoEpoch => {
                self.exhausted.store(true, Ordering::SeqCst);
                Report::Exhausted
            }
            Notice::HalfDamaged => Report::HalfDamaged {
                epoch: hub.numbers().0.epoch,
            },
        };
        self.reports.report(report);
    }

    fn stopped(&self) {
        // Where no peer is awaited or being served, or the listener broke, the server itself has
        // stopped the store. Where no epoch is left, that was reported.
        if self.is_open() && !self.is_broken() && !self.exhausted.load(Ordering::SeqCst) {
            self.reports.report(Report::Stopped);
        }
    }

    fn met_stranger(&self) {
        self.reports.report(Report::Defect);
    }
}

/// Room for the sessions that have commands under way: all seats but those that are spare, and at
/// least `LEAST_COMMAND_SEATS`. The result is `None` where none is.
fn rooms_beside(seats: u64, spare: u64) -> Option<Rooms>
    ensures { spare ≡ 0 → is_some result ≡ false }
{
    if spare == 0 {
        return None;
    }
    let rooms = seats.saturating_sub(spare).max(LEAST_COMMAND_SEATS);
    Some(Rooms::new(rooms))
}
