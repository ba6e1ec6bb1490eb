//! Purges that a server makes by itself.

ghost use Rattle.std.specs.Prelude.{false};

use crate::anchor::Doubt;
use crate::pace::Pace;
use crate::purger::{NotPurged, Purger};
use crate::reports::{Report, Reports};
use crate::sample::Sample;
use crate::server::Server;
use hub_claims::{HubError, HubName, Waiter};
use paced_stream::Deadline;
use path_hub::Hub;
use sector_dev::Device;
use server_front::Listener;
use session_clock::Now;
use std::sync::Wait;
use std::thread::sleep;
use std::time::{Clock, Duration};

/// The time in milliseconds after which it is asked again whether the server is at its end, and
/// whether a session has asked for a purge.
const NAP: u64 = 200;

/// The least rows that a purge has dropped where it is reported that these are most of them.
const LEAST_REPORTED: u64 = 2;

/// Waits for a commit until a server is at its end.
#[derive(Drop)]
struct UntilEnd<'a, 'b, L, O> {
    server: &'a Server<'b, L, O>,
    has_left: bool,
}

impl<L: Listener + Drop, O: Reports> Waiter for UntilEnd<'_, '_, L, O> {
    ghost has_left = { λ waiter. waiter.has_left };

    fn has_left(&mut self) -> bool {
        self.has_left = !self.server.is_open();
        self.has_left
    }

    fn had_left(&self) -> bool {
        self.has_left
    }

    fn note_answer(&mut self) {}
}

impl<L: Listener + Drop, O: Reports> Server<'_, L, O> {
    /// Purges what has expired after each rest, by the clock where it is trusted, until the server
    /// is at its end. A rest is the period, or shorter while purges drop many rows. There is no
    /// sender here but the purger's, so nothing else is handed in.
    pub(crate) fn purge<D: Device, N: HubName, R: Wait + Clock, C: Now + Drop, S: Now + Drop>(
        &self,
        hub: &Hub<D, N, R>,
        mut purger: Purger<'_, D, N, R, C, S>,
        period: Duration,
    ) {
        let rt = hub.handle();
        let mut pace = Pace::new(period);
        for _ in rt.forever() {
            if !self.rest(rt, &mut purger, pace.rest()) {
                break;
            }
            let rows = hub.numbers().0.rows;
            let before = self.own_purges.rows();
            let purged = self.purge_once(hub, &mut purger, pace.expects_many());
            self.note_dropped(self.own_purges.rows().saturating_sub(before), rows);
            match purged {
                Some(dropped) => pace.note(dropped),
                None => break,
            }
        }
        purger.end();
    }

    /// Purges once, in steps where many rows are expected. Before the first purge the clock is
    /// trusted by the newest timestamp of a sample, without which there is nothing to purge. The
    /// result is that of `purge_in_steps`.
    fn purge_once<D: Device, N: HubName, R: Wait + Clock, C: Now, S: Now>(
        &self,
        hub: &Hub<D, N, R>,
        purger: &mut Purger<'_, D, N, R, C, S>,
        expects_many: bool,
    ) -> Option<Option<u32>> {
        if !expects_many && purger.has_begun() {
            return self.purge_in_steps(hub, purger, None);
        }
        let sample = self.sample(hub, purger.until());
        if !purger.has_begun() {
            let Some(newest) = sample.as_ref().and_then(|sample| sample.newest()) else {
                return Some(None);
            };
            purger.begin(newest);
        }
        self.purge_in_steps(hub, purger, sample)
    }

    /// A sample of the rows, of which those have expired that expire at this moment or before.
    /// There is none where memory is refused, or what is published is older than what the hub's own
    /// reader was shown.
    fn sample<D: Device, N: HubName, R: Wait + Clock>(
        &self,
        hub: &Hub<D, N, R>,
        until: u64,
    ) -> Option<Sample> {
        let mut reader = hub.take_own_reader()?;
        let sample = Sample::of(self.alloc, &mut reader, until);
        hub.keep_own_reader(reader);
        sample.ok()
    }

    /// Purges by moments of a sample, so that each purge drops about 250 rows, and then by the
    /// clock. Returns how many rows were dropped, or `None` within where the last purge was refused
    /// or not handed in, so that rows that have expired may be left. It is `None` where the server
    /// does not go on.
    fn purge_in_steps<D: Device, N: HubName, R: Wait + Clock, C: Now, S: Now>(
        &self,
        hub: &Hub<D, N, R>,
        purger: &mut Purger<'_, D, N, R, C, S>,
        sample: Option<Sample>,
    ) -> Option<Option<u32>> {
        let mut dropped = 0u32;
        if let Some(sample) = sample {
            let stride = sample.stride(hub.numbers().0.rows);
            let mut before = 0;
            for moments in sample.moments().chunks_exact(stride) {
                let last = moments.last().copied().unwrap_or(0);
                if last > before {
                    let step = self.purge_by(purger, last)?.unwrap_or(0);
                    dropped = dropped.saturating_add(step);
                    before = last;
                }
            }
        }
        match self.purge_by(purger, u64::MAX)? {
            Some(last) => Some(Some(dropped.saturating_add(last))),
            None => Some(None),
        }
    }

    /// Hands in a purge of a moment, or of the one that is trusted where that is before it, and
    /// waits until it is answered. Returns how many rows it dropped, or `None` within where it was
    /// refused or not handed in. It is `None` where the server does not go on.
    fn purge_by<D: Device, N: HubName, R: Wait + Clock, C: Now, S: Now>(
        &self,
        purger: &mut Purger<'_, D, N, R, C, S>,
        most: u64,
    ) -> Option<Option<u32>> {
        let mut waiter = UntilEnd {
            server: self,
            has_left: false,
        };
        match purger.purge(most, &mut waiter) {
            Ok(receipt) => {
                let outcome = receipt.outcome();
                self.replies.count_outcome(outcome);
                self.own_purges.count(outcome.purged);
                self.note_trust();
                self.note_purge();
                Some(Some(outcome.purged))
            }
            Err(NotPurged::Rests(doubt)) => {
                self.note_rest(doubt);
                Some(None)
            }
            Err(NotPurged::Refused(HubError::NotAwaited)) => None,
            Err(NotPurged::Refused(error)) => {
                self.note_trust();
                self.note_no_purge(error);
                Some(None)
            }
        }
    }

    /// Waits for a period. Returns at once whether the server goes on, as soon as it does not. The
    /// purger is given the moments of the purges that sessions ask for meanwhile.
    fn rest<D: Device, N: HubName, R: Wait + Clock, C: Now, S: Now>(
        &self,
        rt: &R,
        purger: &mut Purger<'_, D, N, R, C, S>,
        period: Duration,
    ) -> bool {
        let Ok(deadline) = Deadline::after(rt, period) else {
            return false;
        };
        for _ in rt.forever() {
            if !self.is_open() {
                return false;
            }
            if let Some(until) = self.replies.take_purged_by() {
                purger.confirm(until);
            }
            match deadline.left(rt) {
                Some(left) => sleep(rt, left.min(Duration::from_millis(NAP))),
                None => return true,
            }
        }
        unreachable!()
    }

    /// A purge was committed. That is reported where the one before was refused.
    fn note_purge(&self) {
        if self.own_purges.note_refused(false) {
            self.reports.report(Report::PurgedAgain);
        }
    }

    /// A purge was refused. That is reported, unless the one before was refused, too.
    fn note_no_purge(&self, why: HubError) {
        if !self.own_purges.note_refused(true) {
            self.reports.report(Report::NotPurged(why));
        }
    }

    /// The clock was trusted. That is reported where it was not for the purge before.
    fn note_trust(&self) {
        if self.own_purges.note_resting(false) {
            self.reports.report(Report::PurgesGoOn);
        }
    }

    /// The clock was not trusted. That is reported, unless it was not for the purge before, either.
    fn note_rest(&self, doubt: Doubt) {
        if !self.own_purges.note_resting(true) {
            self.reports.report(Report::PurgesRest(doubt));
        }
    }

    /// This number of rows of this number were dropped. That is reported where they are most.
    fn note_dropped(&self, dropped: u64, rows: u64) {
        if dropped >= LEAST_REPORTED && dropped > rows / 2 {
            self.reports.report(Report::PurgedMost { dropped, rows });
        }
    }
}
