//! The time that a connection has.

ghost use Rattle.std.specs.Prelude.{◌≡◌, ◌+◌, ◌-◌, ◌<◌, ◌≤◌, ◌↔◌, IsSome, IfSome, IfOk};
ghost use Rattle.std.specs.Duration.{as_nanos};
ghost use Rattle.std.specs.Time.{instant_nanos};

use std::io;
use std::time::{Clock, Duration, Instant};

/// A moment by which all has to be done.
#[derive(Clone, Copy)]
pub struct Deadline {
    begun: Instant,
    time: Duration,
}

impl Deadline {
    /// A deadline after this time from now. The error is that the clock cannot be read. No clause
    /// can say which moment is now.
    pub fn after(clock: &impl Clock, time: Duration) -> io::Result<Deadline>
        ensures { IfOk result (λ deadline. deadline.time ≡ time) }
    {
        let begun = Instant::now(clock)?;
        Ok(Deadline { begun, time })
    }

    /// The time that is left: some, and no more than there was at first. The result is `None` where
    /// no time is left, or where the clock cannot be read. No clause can say how much time has
    /// passed.
    pub fn left(&self, clock: &impl Clock) -> Option<Duration>
        ensures some { IfSome result (λ left. 0 < as_nanos left) }
        ensures most { IfSome result (λ left. as_nanos left ≤ as_nanos self.now.time) }
    {
        let elapsed = self.begun.elapsed(clock).ok()?;
        time_left(self.time, elapsed)
    }

    /// The time that is left at the moment from which a later deadline counts: some, or `None`
    /// where no time is left.
    pub(crate) fn left_at(&self, later: &Deadline) -> Option<Duration>
        ensures variant { IsSome result ↔ (instant_nanos later.now.begun - instant_nanos self.now.begun < as_nanos self.now.time) }
        ensures some { IfSome result (λ left.
            as_nanos left + (instant_nanos later.now.begun - instant_nanos self.now.begun) ≡ as_nanos self.now.time) }
    {
        time_left(self.time, later.begun.duration_since(self.begun))
    }
}

/// What is left of a time of which some has passed.
fn time_left(time: Duration, gone: Duration) -> Option<Duration>
    ensures variant { IsSome result ↔ (as_nanos gone < as_nanos time) }
    ensures some { IfSome result (λ left. as_nanos left + as_nanos gone ≡ as_nanos time) }
{
    let left = time.checked_sub(gone)?;
    if left.is_zero() {
        return None;
    }
    Some(left)
}
