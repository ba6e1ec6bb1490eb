//! What the flusher's pause goes by.

ghost use Rattle.std.specs.Prelude.{◌≤◌};
ghost use Rattle.std.specs.Duration.{as_nanos};

use crate::changes::LONGEST_REST;
use std::sync::atomic::{AtomicBool, AtomicU64, Ordering};
use std::time::Duration;

/// A pause is at most this part of the last sync.
const PART: u64 = 4;

/// The microseconds of a millisecond.
const MILLISECOND: u64 = 1_000;

/// The most groups that follow without a pause after pauses that were too short.
const MOST_SKIPPED: u64 = 63;

/// The most sessions for which a group that follows is worth a pause: more fill half a group
/// anyway.
const MOST_AWAITED: u64 = 16;

/// The shortest pause that is worth it before a group follows, in microseconds: a session needs
/// about as long to send again.
const LEAST_PAUSE: u64 = 100;

/// How many sessions may be about to send again, and how long the flusher may wait for them. Who
/// makes the flusher's steps writes these numbers.
#[derive(Drop)]
pub struct Pause {
    /// The commands of the last group that was published, until the flusher has paused for them.
    answered: AtomicU64,
    /// Whether the last group that was published had one command.
    was_alone: AtomicBool,
    /// The time that the last sync took, in microseconds.
    sync: AtomicU64,
    /// How many more groups follow without a pause.
    skipped: AtomicU64,
    /// How many groups followed without a pause after the last pause that was too short.
    last_skipped: AtomicU64,
}

impl Pause {
    /// No group was published yet.
    pub(crate) fn new() -> Pause {
        Pause {
            answered: AtomicU64::new(0),
            was_alone: AtomicBool::new(false),
            sync: AtomicU64::new(0),
            skipped: AtomicU64::new(0),
            last_skipped: AtomicU64::new(0),
        }
    }

    /// Notes that a group of this many commands was published, or a seal, which has none.
    pub fn note_answered(&self, commands: u64) {
        self.answered.store(commands, Ordering::SeqCst);
        if commands > 0 {
            self.was_alone.store(commands == 1, Ordering::SeqCst);
        }
    }

    /// Whether the last group that was published had one command. It is not so before the first.
    pub fn was_alone(&self) -> bool {
        self.was_alone.load(Ordering::SeqCst)
    }

    /// The number of commands that were answered since this was last asked.
    pub fn take_answered(&self) -> u64 {
        self.answered.swap(0, Ordering::SeqCst)
    }

    /// Whether the next group that follows is worth a pause for this many sessions: for 2 to 16,
    /// where the longest pause is 100 microseconds or more. After each pause that was too short
    /// more groups follow without one: 1, then 3, 7, 15, 31 and 63.
    pub fn is_worth(&self, sessions: u64) -> bool {
        let is_short = self.longest() < Duration::from_micros(LEAST_PAUSE);
        if is_short || !(2..=MOST_AWAITED).contains(&sessions) {
            return false;
        }
        let skipped = self.skipped.load(Ordering::SeqCst);
        self.skipped
            .store(skipped.saturating_sub(1), Ordering::SeqCst);
        skipped == 0
    }

    /// Notes whether the sessions that were answered sent again before a pause was over.
    pub fn note_end(&self, in_time: bool) {
        let last = self.last_skipped.load(Ordering::SeqCst);
        let next = if in_time {
            0
        } else {
            last.saturating_mul(2).saturating_add(1).min(MOST_SKIPPED)
        };
        self.last_skipped.store(next, Ordering::SeqCst);
        self.skipped.store(next, Ordering::SeqCst);
    }

    /// Notes what a sync took, in microseconds.
    pub fn note_sync(&self, took: u64) {
        self.sync.store(took, Ordering::SeqCst);
    }

    /// The longest pause: a quarter of the last sync, and at most 10 milliseconds.
    pub fn longest(&self) -> Duration
        ensures { as_nanos result ≤ 10_000_000 }
    {
        let part = self.sync.load(Ordering::SeqCst) / PART;
        Duration::from_micros(part.min(LONGEST_REST * MILLISECOND))
    }
}
