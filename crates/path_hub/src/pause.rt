//! The flusher's pause before it stages a group, or has one follow.

use crate::handing::MOST_TAKEN;
use crate::hub::Hub;
use hub_claims::HubName;
use hub_waits::LONGEST_REST;
use sector_dev::Device;
use std::sync::Wait;
use std::time::{Clock, Duration, Instant};
use store_loops::{Awaited, DeviceCall};

/// The longest rest of an actor without work, in milliseconds. A command that nobody waits for any
/// more is committed after it.
const IDLE_REST: u64 = 1000;

impl<D: Device, N: HubName, R: Wait + Clock> Hub<D, N, R> {
    /// Waits for the sessions that were just answered, so that they are in one group again: until
    /// as many commands wait in the queue as the last group had, and at most a quarter of the time
    /// that the last sync took. Where the last group had one command, there is no pause. No lock is
    /// held meanwhile. A state that stops in between lets the pause end.
    pub(crate) fn pause(&self) {
        let answered = self.changes.pause.take_answered();
        if answered > 1 {
            let _in_time = self.wait_for_sessions(answered);
        }
    }

    /// Pauses in the same way before a group follows, where a few sessions were answered and syncs
    /// are long. Where the sessions need longer than the pause to send again, the next groups
    /// follow without one.
    pub(crate) fn pause_to_follow(&self) {
        let answered = self.changes.pause.take_answered();
        if self.waiting() < answered && self.changes.pause.is_worth(answered) {
            let in_time = self.wait_for_sessions(answered);
            self.changes.pause.note_end(in_time);
        }
    }

    /// Waits until this many commands wait in the queue, and at most a quarter of the time that the
    /// last sync took. Returns whether they do.
    fn wait_for_sessions(&self, answered: u64) -> bool {
        let Ok(begun) = Instant::now(&self.rt) else {
            return false;
        };
        for _ in 0..MOST_TAKEN {
            let seen = self.changes.count(Awaited::Work);
            if self.waiting() >= answered {
                return true;
            }
            if !self.rest_from(begun, seen) {
                return false;
            }
        }
        false
    }

    /// How long an actor rests at most where no change wakes it: 10 milliseconds where commands
    /// wait or are pending, and else a second.
    pub(crate) fn longest_rest(&self) -> Duration {
        let is_idle = self.waiting() == 0 && self.status.is_idle(&self.rt);
        Duration::from_millis(if is_idle { IDLE_REST } else { LONGEST_REST })
    }

    /// The number of commands that wait in the queue.
    pub(crate) fn waiting(&self) -> u64 {
        self.queue.lock(&self.rt).len() as u64
    }

    /// Waits for a command, where the longest pause since a moment is not over. Returns whether the
    /// call has waited.
    fn rest_from(&self, begun: Instant, seen: u64) -> bool {
        let Ok(spent) = begun.elapsed(&self.rt) else {
            return false;
        };
        let Some(left) = self.changes.pause.longest().checked_sub(spent) else {
            return false;
        };
        if left.is_zero() {
            return false;
        }
        self.changes.rest_for(&self.rt, Awaited::Work, seen, left);
        true
    }

    /// Notes how long a sync took that is about to end, where it is one of the flusher's.
    pub(crate) fn note_sync(&self) {
        if let Some((DeviceCall::SyncGate | DeviceCall::SyncFollowed, took)) = self
            .status
            .under_way(&self.rt)
        {
            self.changes.pause.note_sync(took);
        }
    }
}
