//! The changes of a state that threads wait for.

use crate::pause::Pause;
use crate::turns::Turns;
use crate::waker::Waker;
use std::sync::{Condvar, Wait};
use std::time::Duration;
use store_loops::Awaited;

/// The longest rest, in milliseconds.
pub const LONGEST_REST: u64 = 10;

/// Counts the changes of each kind, and wakes the actors that wait for one. A change is counted
/// after it was made, outside the state's lock. A thread that read the count before a call was
/// refused therefore sees each change that the call did not see.
#[derive(Drop)]
pub struct Changes {
    work: Condvar,
    seal: Condvar,
    /// Wakes the threads whose commands are answered.
    pub waker: Waker,
    /// How long the flusher waits for commands, and for how many.
    pub pause: Pause,
    /// Who waits for the state's lock.
    pub turns: Turns,
}

impl Changes {
    /// All counts 0.
    pub fn new() -> Changes {
        Changes {
            work: Condvar::new(),
            seal: Condvar::new(),
            waker: Waker::new(),
            pause: Pause::new(),
            turns: Turns::new(),
        }
    }

    /// The number of changes of a kind. The count wraps at 2^64.
    pub fn count(&self, awaited: Awaited) -> u64 {
        self.condvar(awaited).notifications()
    }

    /// Counts a change of a kind, and wakes all that wait for it.
    pub fn announce(&self, awaited: Awaited) {
        self.condvar(awaited).notify_all();
    }

    /// Wakes both actors, and ends the waker: the state has stopped.
    pub fn announce_stop(&self) {
        self.work.notify_all();
        self.seal.notify_all();
        self.waker.end();
    }

    /// Waits until there are more changes of a kind than `seen`, at most 10 milliseconds.
    pub fn rest<R: Wait>(&self, rt: &R, awaited: Awaited, seen: u64) {
        self.rest_for(rt, awaited, seen, Duration::from_millis(LONGEST_REST));
    }

    /// Waits until there are more changes of a kind than `seen`, at most this long.
    pub fn rest_for<R: Wait>(&self, rt: &R, awaited: Awaited, seen: u64, most: Duration) {
        self.condvar(awaited).sleep(rt, seen, most);
    }

    fn condvar(&self, awaited: Awaited) -> &Condvar {
        match awaited {
            Awaited::Work => &self.work,
            Awaited::Seal => &self.seal,
        }
    }
}
