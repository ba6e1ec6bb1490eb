//! The time that something takes.

ghost use Rattle.std.specs.Prelude.{◌≡◌, ◌+◌, ◌*◌, ◌^◌, ◌-◌, min};

use std::sync::{Mutex, Wait};
use std::time::{Clock, Instant};

/// Since when something is under way, for threads that share it. No clause says what its clock
/// gives.
#[derive(Drop)]
pub struct Stopwatch {
    /// The last beginning, or `None` where there was none, or the clock could not be read then.
    begun: Mutex<Option<Instant>>,
}

impl Stopwatch {
    /// Nothing has begun.
    pub fn new() -> Stopwatch {
        Stopwatch {
            begun: Mutex::new(None),
        }
    }

    /// Something begins now.
    pub fn begin<R: Wait + Clock>(&self, rt: &R) {
        let now = Instant::now(rt).ok();
        *self.begun.lock(rt) = now;
    }

    /// The number of milliseconds since the last beginning, or 0 where the clock could not be read.
    pub fn milliseconds<R: Wait + Clock>(&self, rt: &R) -> u64 {
        let begun = *self.begun.lock(rt);
        let Some(begun) = begun else {
            return 0;
        };
        match begun.elapsed(rt) {
            Ok(elapsed) => whole(elapsed.as_secs(), elapsed.subsec_millis()),
            Err(_) => 0,
        }
    }
}

/// The milliseconds of a time of whole seconds and milliseconds, at most 2^64 - 1.
fn whole(seconds: u64, milliseconds: u32) -> u64
    ensures { result ≡ min (min (seconds * 1000) (2 ^ 64 - 1) + milliseconds) (2 ^ 64 - 1) }
{
    seconds
        .saturating_mul(1_000)
        .saturating_add(u64::from(milliseconds))
}
