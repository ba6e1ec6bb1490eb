//! The machine's clocks, over readings that are given here.

use crate::checks::assert_same;
use session_clock::{Now, SteadyNow, SystemNow};
use std::io;
use std::io::ErrorKind;
use std::sync::atomic::{AtomicU64, Ordering};
use std::time::{Clock, Duration};

/// What a clock reads, one after the other, in seconds and nanoseconds, or that it cannot be read;
/// and the moment then.
const READINGS: [(Option<(u64, u32)>, u64); 7] = [
    (None, 0),
    (Some((1, 499_999_999)), 2),
    (Some((1, 500_000_000)), 3),
    (None, 3),
    (Some((1_700_000_000, 999_999_999)), 3_400_000_001),
    (None, 3_400_000_001),
    // It goes back.
    (Some((1, 0)), 2),
];

/// The same of a steady clock, which is made at 1,000.25 seconds and gives the half seconds since.
const STEADY_READINGS: [(Option<(u64, u32)>, u64); 6] = [
    (Some((1_000, 749_999_999)), 0),
    (Some((1_000, 750_000_000)), 1),
    (None, 1),
    (Some((1_011, 0)), 21),
    // It goes back.
    (Some((1_001, 0)), 21),
    (Some((1_010, 750_000_000)), 21),
];

/// A clock with these readings, of which a test takes one kind.
#[derive(Drop)]
struct Readings {
    made: AtomicU64,
}

/// The reading of this number, among some of one kind.
fn reading_of(readings: &[(Option<(u64, u32)>, u64)], number: u64) -> io::Result<Duration> {
    match readings.get(number as usize) {
        Some((Some((seconds, nanos)), _moment)) => Ok(Duration::new(*seconds, *nanos)),
        _ => Err(io::Error::from(ErrorKind::Unsupported)),
    }
}

impl Clock for Readings {
    fn monotonic(&self) -> io::Result<Duration> {
        match self.made.fetch_add(1, Ordering::SeqCst) {
            0 => Ok(Duration::new(1_000, 250_000_000)),
            number => reading_of(&STEADY_READINGS, number - 1),
        }
    }

    fn since_1970(&self) -> io::Result<Duration> {
        reading_of(&READINGS, self.made.fetch_add(1, Ordering::SeqCst))
    }
}

#[test]
fn half_seconds_since_1970(rt: HostRuntime) {
    let clock = Readings {
        made: AtomicU64::new(0),
    };
    let mut now = SystemNow::new(&clock);
    for (_reading, moment) in READINGS {
        assert_same(&rt, &now.now(), &moment, &"moment");
    }
}

#[test]
fn half_seconds_since_a_clock_was_made(rt: HostRuntime) {
    let clock = Readings {
        made: AtomicU64::new(0),
    };
    let mut now = SteadyNow::new(&clock);
    for (_reading, moment) in STEADY_READINGS {
        assert_same(&rt, &now.now(), &moment, &"moment");
    }
}
