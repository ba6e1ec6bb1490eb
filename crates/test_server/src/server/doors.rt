//! A door that holds a sync of a device, and is not waited at for ever.

use std::sync::{Mutex, Wait};
use std::thread::sleep;
use std::time::{Clock, Duration};
use test_fault_devices::Gate;

/// How long a sync is held, or waited for, in naps of five milliseconds.
const MOST_NAPS: u64 = 6000;

/// The length of a nap, in milliseconds.
const NAP: u64 = 5;

/// Sleeps a little.
pub(crate) fn nap(rt: &impl Clock) {
    sleep(rt, Duration::from_millis(NAP));
}

/// Sleeps for this number of naps.
pub(crate) fn naps(rt: &impl Clock, count: u64) {
    for _ in 0..count {
        nap(rt);
    }
}

/// What a door does to syncs.
#[derive(Clone, Copy, Debug, PartialEq, Eq)]
pub(crate) enum Latch {
    /// They pass.
    Open,
    /// The next one will be held.
    Armed,
    /// One is held.
    Held,
    /// One was held until the end of its time, and passed then.
    Overdue,
}

/// A door.
#[derive(Drop)]
pub(crate) struct Door {
    latch: Mutex<Latch>,
}

impl Door {
    /// An open door.
    pub(crate) fn new() -> Door {
        Door {
            latch: Mutex::new(Latch::Open),
        }
    }

    /// What it does now.
    pub(crate) fn latch(&self, rt: &impl Wait) -> Latch {
        *self.latch.lock(rt)
    }

    /// Puts the latch to another state, where it is in this one.
    fn turn(&self, rt: &impl Wait, from: Latch, to: Latch) -> bool {
        let mut latch = self.latch.lock(rt);
        let is_so = *latch == from;
        if is_so {
            *latch = to;
        }
        is_so
    }

    /// Has the next sync held.
    pub(crate) fn arm(&self, rt: &impl Wait) {
        self.turn(rt, Latch::Open, Latch::Armed);
    }

    /// Lets a sync pass that is held.
    pub(crate) fn open(&self, rt: &impl Wait) {
        self.turn(rt, Latch::Held, Latch::Open);
    }

    /// Whether the latch leaves this state in time.
    fn leaves<R: Wait + Clock>(&self, rt: &R, latch: Latch) -> bool {
        for _ in 0..MOST_NAPS {
            if self.latch(rt) != latch {
                return true;
            }
            nap(rt);
        }
        false
    }

    /// Waits until a sync is held, where one is expected: whether one is.
    pub(crate) fn is_held_soon<R: Wait + Clock>(&self, rt: &R) -> bool {
        self.leaves(rt, Latch::Armed) && self.latch(rt) == Latch::Held
    }
}

/// Holds a sync at a door.
#[derive(Drop)]
pub(crate) struct Holds<'a, R: Wait + Clock> {
    pub(crate) rt: R,
    pub(crate) door: &'a Door,
}

impl<R: Wait + Clock> Gate for Holds<'_, R> {
    ghost passed = { λ _ _. Unit {0} };

    fn pass(&mut self) {
        if !self.door.turn(&self.rt, Latch::Armed, Latch::Held) {
            return;
        }
        if !self.door.leaves(&self.rt, Latch::Held) {
            self.door.turn(&self.rt, Latch::Held, Latch::Overdue);
        }
    }
}
