//! A steady clock: half seconds since it was made.

ghost use Rattle.std.specs.Prelude.{◌≡◌, ◌≤◌, max, MatchOption};
ghost use Rattle.std.specs.Duration.{as_nanos};
ghost use Rattle.session_clock.specs.Moments.{half_seconds_of};

use crate::clock::{Now, half_seconds};
use std::marker::Model;
use std::time::{Clock, Duration, Instant};

/// The half seconds since it was made, rounded down, by the machine's clock that no one sets. They
/// never fall. Contracts see the number that it gave last, 0 at first.
#[derive(Drop)]
pub struct SteadyNow<'a, K: Clock> {
    clock: &'a K,
    /// When it was made, or `None` where the clock could not be read then. It gives 0 then.
    begun: Option<Instant>,
    last: u64,
}

impl<'a, K: Clock> Model for SteadyNow<'a, K> {
    ghost use Rattle.std.specs.Prelude.{ℕ};

    ghost Value = { ℕ };

    ghost view = { λ s. s.last };
}

impl<'a, K: Clock> SteadyNow<'a, K> {
    /// Makes the clock, which has given no number yet.
    pub fn new(clock: &'a K) -> SteadyNow<'a, K>
        ensures { result ≡ 0 }
    {
        SteadyNow {
            clock,
            begun: Instant::now(clock).ok(),
            last: 0,
        }
    }

    /// The time since it was made, where the clock can be read.
    fn since_begun(&self) -> Option<Duration> {
        self.begun?.elapsed(self.clock).ok()
    }
}

/// Where the clock cannot be read, the result is its last number again.
impl<K: Clock> Now for SteadyNow<'_, K> {
    ghost moment = { λ s. s };

    fn now(&mut self) -> u64
        ensures moment { result ≡ self.new }
        ensures never_falls { self.old ≤ self.new }
    {
        self.last = steady_after(self.last, self.since_begun());
        self.last
    }
}

/// The number of a reading, and the last number again where that is less, or where there is none.
fn steady_after(last: u64, reading: Option<Duration>) -> u64
    ensures { MatchOption reading (result ≡ last) (λ time. result ≡ max last (half_seconds_of (as_nanos time))) }
{
    match reading {
        Some(time) => last.max(half_seconds(time)),
        None => last,
    }
}
