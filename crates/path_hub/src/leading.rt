//! A session that commits its own command, where no other command waits.

use crate::hub::Hub;
use hub_claims::HubName;
use sector_dev::Device;
use std::sync::Wait;
use std::sync::atomic::Ordering;
use std::time::Clock;
use store_loops::{Awaited, Steps, commit_once};

impl<D: Device, N: HubName, R: Wait + Clock> Hub<D, N, R> {
    /// Whether the command that waits in the queue is left to the thread that has handed it in: it
    /// is the only one, nothing is in flight, the last group had one command, and the hub has a
    /// flusher.
    pub(crate) fn may_lead(&self) -> bool {
        self.has_flusher.load(Ordering::SeqCst)
            && self.changes.pause.was_alone()
            && self.status.is_idle(&self.rt)
            && self.waiting() == 1
    }

    /// Commits the command that waits in the queue, where it is left to this thread: the flusher's
    /// steps are made here. Returns whether they are made. What is left over goes to the flusher.
    pub(crate) fn lead(&self) -> bool {
        if !self.may_lead() {
            return false;
        }
        let is_staged = self.commit_staged();
        if !is_staged || self.waiting() > 0 || !self.status.is_idle(&self.rt) {
            self.changes.announce(Awaited::Work);
        }
        is_staged
    }

    /// Stages what waits and commits it. Returns whether it was staged.
    fn commit_staged(&self) -> bool {
        match self.stage() {
            Ok(staged) => {
                commit_once(&self.rt, self, staged);
                true
            }
            Err(_refused) => false,
        }
    }
}
