//! Leaving the lock of a state to those who wait for it.

use std::sync::atomic::{AtomicU64, Ordering};
use std::sync::{Condvar, Wait};
use std::time::Duration;

/// How long a thread leaves a lock to others, in milliseconds.
const TURN: u64 = 1;

/// How many threads wait for a lock. A thread that takes a lock again as soon as it has given it up
/// is mostly faster than those that wait, so a thread that makes many calls in a row leaves the
/// lock to them between two calls.
#[derive(Drop)]
pub struct Turns {
    /// The threads that wait for the lock.
    waiting: AtomicU64,
    /// Nobody notifies it: a thread rests by it.
    rest: Condvar,
}

impl Turns {
    /// Nobody waits.
    pub(crate) fn new() -> Turns {
        Turns {
            waiting: AtomicU64::new(0),
            rest: Condvar::new(),
        }
    }

    /// Notes that a thread begins to wait for the lock.
    pub fn begin(&self) {
        self.waiting.fetch_add(1, Ordering::SeqCst);
    }

    /// Notes that a thread that has waited has the lock.
    pub fn take(&self) {
        self.waiting.fetch_sub(1, Ordering::SeqCst);
    }

    /// Leaves the lock to the threads that wait for it, for 1 millisecond. Where nobody waits, the
    /// call returns at once.
    pub fn leave<R: Wait>(&self, rt: &R) {
        if self.waiting.load(Ordering::SeqCst) > 0 {
            let seen = self.rest.notifications();
            self.rest.sleep(rt, seen, Duration::from_millis(TURN));
        }
    }
}
