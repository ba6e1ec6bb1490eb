//! What is known of the purges that a server makes by itself.

use status_page::OwnPurges;
use std::sync::atomic::{AtomicBool, AtomicU64, Ordering};

/// What is known of the purges that a server makes by itself. Threads share it, so that no clause
/// says what that is.
#[derive(Drop)]
pub(crate) struct PurgeState {
    /// Whether the last one was refused.
    refused: AtomicBool,
    /// Whether the last one was not handed in, since the clock was not trusted.
    resting: AtomicBool,
    /// The number of rows that they have dropped.
    rows: AtomicU64,
}

impl PurgeState {
    /// None was made.
    pub(crate) fn new() -> PurgeState {
        PurgeState {
            refused: AtomicBool::new(false),
            resting: AtomicBool::new(false),
            rows: AtomicU64::new(0),
        }
    }

    /// Notes whether a purge was refused. Returns whether the one before was.
    pub(crate) fn note_refused(&self, refused: bool) -> bool {
        self.refused.swap(refused, Ordering::SeqCst)
    }

    /// Notes whether a purge was not handed in, since the clock was not trusted. Returns whether
    /// the one before was not.
    pub(crate) fn note_resting(&self, resting: bool) -> bool {
        self.resting.swap(resting, Ordering::SeqCst)
    }

    /// Counts the rows that a purge has dropped.
    pub(crate) fn count(&self, rows: u32) {
        self.rows.fetch_add(u64::from(rows), Ordering::SeqCst);
    }

    /// The number of rows that they have dropped.
    pub(crate) fn rows(&self) -> u64 {
        self.rows.load(Ordering::SeqCst)
    }

    /// What the page of numbers says of them.
    pub(crate) fn now(&self) -> OwnPurges {
        OwnPurges {
            resting: self.resting.load(Ordering::SeqCst),
            rows: self.rows(),
        }
    }
}
