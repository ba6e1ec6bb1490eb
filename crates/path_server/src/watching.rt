//! Peers that ask for the numbers of a server.

ghost use Rattle.std.specs.Prelude.{◌≡◌};
ghost use Rattle.status_server.specs.LookupTimes.{AreLookupTimes};

use crate::reports::Reports;
use crate::server::Server;
use hub_claims::HubName;
use path_hub::{Completed, Hub};
use sector_dev::Device;
use server_front::{Cause, Listener, MOST_SESSIONS, Visitor, next_visitor};
use status_page::{Asked, CallTime, Counts, EndCounts, RefusedCounts};
use status_server::{ReplyKind, Visits, answer};
use std::alloc::AllocError;
use std::sync::Wait;
use std::sync::atomic::Ordering;
use std::time::Clock;

impl<L: Listener + Drop, O: Reports> Server<'_, L, O> {
    /// Answers the peers of a listener, until the server is at its end or the listener is broken,
    /// and the visits that are under way then are over.
    pub(crate) fn watch<D: Device, N: HubName, R: Wait + Clock>(
        &self,
        hub: &Hub<D, N, R>,
        listener: &L,
    ) {
        let rt = hub.handle();
        let mut visits = Visits::new(self.alloc);
        for _ in rt.forever() {
            match next_visitor(rt, listener, !visits.is_empty(), || self.is_open()) {
                Visitor::Peer(stream) => visits.begin(rt, stream),
                Visitor::Over if visits.is_empty() => return,
                Visitor::Nobody | Visitor::Over => visits.wait(),
            }
            visits.go_on(rt, |asked| self.text_for(hub, asked));
        }
    }

    /// The text of an answer. The state's lock is not taken.
    fn text_for<D: Device, N: HubName, R: Wait + Clock>(
        &self,
        hub: &Hub<D, N, R>,
        asked: Asked,
    ) -> Result<String, AllocError> {
        let refusals = self.replies.refusals(self.alloc)?;
        let (numbers, completed) = hub.numbers();
        let call = call_of(hub);
        let counts = self.counts(hub.handle(), call, completed);
        answer(self.alloc, asked, &numbers, &counts, refusals.as_slice())
    }

    /// The counts of what the server has done, with what its actors have completed and the call of
    /// the device that is under way.
    fn counts(&self, clock: &impl Clock, call: Option<CallTime>, completed: Completed) -> Counts
        ensures call { result.call ≡ call }
        ensures groups { result.groups ≡ completed.groups }
        ensures seals { result.seals ≡ completed.seals }
        ensures checkpoints { result.checkpoints ≡ completed.checkpoints }
        ensures commits { result.commits ≡ completed.commits }
        ensures lookups { AreLookupTimes result.lookups }
    {
        Counts {
            call,
            groups: completed.groups,
            seals: completed.seals,
            checkpoints: completed.checkpoints,
            checkpoint_time: self
                .checkpoint_time
                .load(Ordering::SeqCst)
                .saturating_mul(1_000),
            waits: self.waiting.now(),
            commits: completed.commits,
            lookups: self.replies.lookup_times(),
            sessions: self.taken().min(MOST_SESSIONS),
            started: self.door.started(),
            refused: self.refused(),
            ended: self.ended(),
            registered: self.replies.of(ReplyKind::Registered),
            found: self.replies.of(ReplyKind::Found),
            listed: self.replies.of(ReplyKind::Listed),
            purged: self.replies.of(ReplyKind::Purged),
            removed: self.replies.of(ReplyKind::Removed),
            outcomes: self.replies.outcomes(),
            own_purges: self.own_purges.now(),
            dropped: self.reports.dropped(),
            seconds: self.seconds(clock),
            begun: self.begun_at,
            usage: self.reports.usage(),
        }
    }

    /// The number of connections that were refused a session, by the reason.
    fn refused(&self) -> RefusedCounts {
        RefusedCounts {
            seats: self
                .turned_away
                .all()
                .saturating_add(self.lookups_turned_away.all()),
            address: self.address_full.all(),
            thread: self.no_thread.all(),
        }
    }

    /// The number of sessions that have ended, by the cause.
    fn ended(&self) -> EndCounts {
        EndCounts {
            closed: self.ends.of(Cause::Orderly),
            idle: self.ends.of(Cause::Idle),
            frame: self.ends.of(Cause::Frame),
            connection: self.ends.of(Cause::Failed),
            memory: self.ends.of(Cause::NoMemory),
            server: self.ends.of(Cause::Server),
        }
    }

    /// The number of seconds that the server has run, or 0 where the clock cannot be read.
    fn seconds(&self, clock: &impl Clock) -> u64 {
        let Some(begun) = self.begun else {
            return 0;
        };
        match begun.elapsed(clock) {
            Ok(elapsed) => elapsed.as_secs(),
            Err(_) => 0,
        }
    }
}

/// The call of a hub that is using the device.
fn call_of<D: Device, N: HubName, R: Wait + Clock>(hub: &Hub<D, N, R>) -> Option<CallTime> {
    let (call, microseconds) = hub.under_way()?;
    Some(CallTime { call, microseconds })
}
