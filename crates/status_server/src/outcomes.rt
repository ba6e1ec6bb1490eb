//! What became of the segments and rows of commands, as threads count it.

use path_db::Outcome;
use status_page::OutcomeCounts;
use std::sync::atomic::{AtomicU64, Ordering};

/// What became of the segments and rows of commands. Threads share the counts, so that no clause
/// says what a count is.
#[derive(Drop)]
pub(crate) struct OutcomeCounters {
    inserted: AtomicU64,
    updated: AtomicU64,
    kept: AtomicU64,
    removed: AtomicU64,
}

impl OutcomeCounters {
    /// All counts 0. No clause says so.
    pub(crate) fn new() -> OutcomeCounters {
        OutcomeCounters {
            inserted: AtomicU64::new(0),
            updated: AtomicU64::new(0),
            kept: AtomicU64::new(0),
            removed: AtomicU64::new(0),
        }
    }

    /// Counts what a command did.
    pub(crate) fn count(&self, outcome: Outcome) {
        add(&self.inserted, outcome.inserted);
        add(&self.updated, outcome.updated);
        add(&self.kept, outcome.kept);
        add(&self.removed, outcome.purged);
    }

    /// The counts, by one read of each. No clause says which numbers these are.
    pub(crate) fn counts(&self) -> OutcomeCounts {
        OutcomeCounts {
            inserted: self.inserted.load(Ordering::SeqCst),
            updated: self.updated.load(Ordering::SeqCst),
            kept: self.kept.load(Ordering::SeqCst),
            removed: self.removed.load(Ordering::SeqCst),
        }
    }
}

/// Adds to a count, where that changes it.
fn add(counter: &AtomicU64, count: u32) {
    if count > 0 {
        counter.fetch_add(u64::from(count), Ordering::SeqCst);
    }
}
