//! Moments: half seconds since 1970.

ghost use Rattle.std.specs.Prelude.{◌≡◌, ℕ, MatchOption};
ghost use Rattle.std.specs.Duration.{as_nanos};
ghost use Rattle.session_clock.specs.Moments.{half_seconds_of};

use std::marker::Model;
use std::time::{Clock, Duration, SystemTime};

/// From this part of a second on its second half has begun, in nanoseconds.
const MIDDLE: u32 = 500_000_000;

/// Gives moments, in half seconds since the beginning of its count.
pub trait Now {
    /// The moment that was given last.
    ghost moment: { Self → ℕ };

    /// The moment that is now.
    fn now(&mut self) -> u64
        ensures { result ≡ moment self.new };
}

/// The machine's clock, which counts from the beginning of 1970. Contracts see the moment that it
/// gave last, 0 at first.
#[derive(Drop)]
pub struct SystemNow<'a, K: Clock> {
    clock: &'a K,
    last: u64,
}

impl<'a, K: Clock> Model for SystemNow<'a, K> {
    ghost use Rattle.std.specs.Prelude.{ℕ};

    ghost Value = { ℕ };

    ghost view = { λ s. s.last };
}

impl<'a, K: Clock> SystemNow<'a, K> {
    /// Makes the clock, which has given no moment yet.
    pub fn new(clock: &'a K) -> SystemNow<'a, K>
        ensures { result ≡ 0 }
    {
        SystemNow { clock, last: 0 }
    }
}

/// Where the clock cannot be read, the result is its last moment again.
impl<K: Clock> Now for SystemNow<'_, K> {
    ghost moment = { λ s. s };

    fn now(&mut self) -> u64 {
        self.last = moment_after(self.last, since_1970(self.clock));
        self.last
    }
}

/// The time since the beginning of 1970, where the clock can be read.
fn since_1970(clock: &impl Clock) -> Option<Duration> {
    let now = SystemTime::now(clock).ok()?;
    now.duration_since(SystemTime::UNIX_EPOCH).ok()
}

/// The moment of a reading. Where there is none, the last moment again.
fn moment_after(last: u64, reading: Option<Duration>) -> u64
    ensures { MatchOption reading (result ≡ last) (λ time. result ≡ half_seconds_of (as_nanos time)) }
{
    match reading {
        Some(time) => half_seconds(time),
        None => last,
    }
}

/// Twice the seconds, and one more from the middle of a second on. Where that does not fit 64 bits,
/// it is 2^64 - 1.
pub(crate) fn half_seconds(time: Duration) -> u64
    ensures { result ≡ half_seconds_of (as_nanos time) }
{
    let half = u64::from(time.subsec_nanos() >= MIDDLE);
    time.as_secs().saturating_mul(2).saturating_add(half)
}
