//! Events that are counted, and reported now and then.

ghost use Rattle.std.specs.Prelude.{◌<◌, IfSome};

use std::sync::atomic::{AtomicU64, Ordering};
use std::sync::{Mutex, Wait};
use std::time::{Clock, Duration, Instant};

/// The least time from one report to the next, in seconds.
const BETWEEN: u64 = 1;

/// The number of events since the last report of them, and when that report was.
#[derive(Drop)]
struct Count {
    events: u64,
    reported: Option<Instant>,
}

impl Count {
    /// Whether the last report is old enough for a next one.
    fn is_due(&self, clock: &impl Clock) -> bool {
        match self.reported {
            Some(reported) => match reported.elapsed(clock) {
                Ok(elapsed) => elapsed >= Duration::from_secs(BETWEEN),
                Err(_) => false,
            },
            None => true,
        }
    }
}

/// Counts events of one kind, so that they are reported once a second at most. Threads share it, so
/// that no clause says how many there were.
#[derive(Drop)]
pub struct Seldom {
    count: Mutex<Count>,
    /// The number of events since the server began.
    all: AtomicU64,
}

impl Seldom {
    /// All counts 0.
    pub fn new() -> Seldom {
        Seldom {
            count: Mutex::new(Count {
                events: 0,
                reported: None,
            }),
            all: AtomicU64::new(0),
        }
    }

    /// The number of events since the server began.
    pub fn all(&self) -> u64 {
        self.all.load(Ordering::SeqCst)
    }

    /// Counts one more event. If a report is due, returns its number of events.
    pub fn count<R: Wait + Clock>(&self, rt: &R) -> Option<u64>
        ensures some { IfSome result (λ events. 0 < events) }
    {
        self.all.fetch_add(1, Ordering::SeqCst);
        let mut count = self.count.lock(rt);
        count.events = count.events.saturating_add(1);
        if !count.is_due(rt) {
            return None;
        }
        let events = count.events;
        count.events = 0;
        count.reported = Instant::now(rt).ok();
        Some(events)
    }
}
