//! A clock that a test moves.

use std::io;
use std::io::ErrorKind;
use std::sync::atomic::{AtomicU64, Ordering};
use std::time::{Clock, Duration};

/// A clock that stays where it is until it is moved.
#[derive(Drop)]
pub struct MovedClock {
    /// The milliseconds since it was made.
    passed: AtomicU64,
    /// How often it can still be read.
    readings: AtomicU64,
}

impl MovedClock {
    /// A clock that can be read this number of times.
    pub fn new(readings: u64) -> MovedClock {
        MovedClock {
            passed: AtomicU64::new(0),
            readings: AtomicU64::new(readings),
        }
    }

    /// Moves the clock by this number of milliseconds.
    pub fn pass(&self, milliseconds: u64) {
        let _before = self.passed.fetch_add(milliseconds, Ordering::SeqCst);
    }

    /// The milliseconds since the clock was made.
    pub fn passed(&self) -> u64 {
        self.passed.load(Ordering::SeqCst)
    }
}

impl Clock for MovedClock {
    fn monotonic(&self) -> io::Result<Duration> {
        let left = self.readings.load(Ordering::SeqCst);
        if left == 0 {
            return Err(io::Error::from(ErrorKind::Unsupported));
        }
        self.readings
            .store(left.saturating_sub(1), Ordering::SeqCst);
        Ok(Duration::from_millis(self.passed()))
    }

    fn since_1970(&self) -> io::Result<Duration> {
        Err(io::Error::from(ErrorKind::Unsupported))
    }
}
