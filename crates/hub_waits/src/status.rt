//! The status of a hub: its numbers, which are read without the state's lock.

ghost use Rattle.std.specs.Prelude.{◌≡◌, None, Some, MatchOption};
ghost use Rattle.std.specs.Duration.{as_nanos};
ghost use Rattle.hub_waits.specs.Completed.{HasCounted};
ghost use Rattle.hub_waits.specs.Moments.{microseconds_of};
ghost use Rattle.hub_waits.specs.Numbers.{AreNumbers};

use crate::completed::{Completed, Done};
use group_core::Numbers;
use std::sync::{Mutex, Wait};
use std::time::{Clock, Duration, Instant};
use store_loops::{DeviceCall, SECOND};

/// A call of the device, and when it began.
#[derive(Clone, Copy)]
struct Begun {
    call: DeviceCall,
    at: Instant,
}

/// What a status shows.
#[derive(Drop)]
struct Shown {
    /// The state's numbers at the end of the last guarded call.
    numbers: Numbers,
    /// What both actors had completed then.
    completed: Completed,
    /// The call that is under way, unless the clock could not be read as it began.
    begun: Option<Begun>,
    /// When the flusher staged what is in flight, unless the clock could not be read then.
    staged: Option<Instant>,
    /// When the flusher staged the group that follows, unless the clock could not be read then.
    followed: Option<Instant>,
    ghost of_a_state: { ∥ AreNumbers numbers ∥₁ },
}

impl Shown {
    /// Shows that a call of the device began at a moment, if the moment is known.
    fn begin(&mut self, call: DeviceCall, at: Option<Instant>)
        ensures begun { MatchOption at (self.new.begun ≡ None) (λ moment. self.new.begun ≡ Some (record { call = call; at = moment })) }
        ensures numbers { self.new.numbers ≡ self.old.numbers }
        ensures completed { self.new.completed ≡ self.old.completed }
    {
        self.begun = at.map(|at| Begun { call, at });
    }

    /// Shows the numbers of the state at the end of a guarded call, and counts what the call has
    /// completed. No call is under way then.
    #[tactic(auto, using(crate::proofs::Counted::has_counted))]
    fn end(&mut self, clock: &impl Clock, numbers: Numbers, done: Done)
        requires { ∥ AreNumbers numbers ∥₁ }
        ensures numbers { self.new.numbers ≡ numbers }
        ensures completed { HasCounted done self.old.completed self.new.completed }
        ensures begun { self.new.begun ≡ None }
    {
        let time = self.commit_time(clock, done);
        self.completed.add(done, time);
        match done {
            Done::Staged => self.staged = Instant::now(clock).ok(),
            Done::Followed => self.followed = Instant::now(clock).ok(),
            Done::Group => self.staged = self.followed,
            Done::Nothing | Done::Seal | Done::Checkpoint => {}
        }
        self.begun = None;
        self.numbers = numbers;
    }

    /// The time since what is in flight was staged, in microseconds, where a group was committed
    /// and the clock can be read.
    fn commit_time(&self, clock: &impl Clock, done: Done) -> Option<u64> {
        match done {
            Done::Group => microseconds_since(clock, self.staged?),
            _ => None,
        }
    }
}

/// The status of a hub. Its lock is taken for a few assignments alone, and never while a call of
/// the device is under way, so the status is read although the state's lock is held.
#[derive(Drop)]
pub struct HubStatus {
    shown: Mutex<Shown>,
}

impl HubStatus {
    /// The status of a state with these numbers.
    pub fn new(numbers: Numbers) -> HubStatus
        requires { ∥ AreNumbers numbers ∥₁ }
    {
        HubStatus {
            shown: Mutex::new(Shown {
                numbers,
                completed: Completed::new(),
                begun: None,
                staged: None,
                followed: None,
            }),
        }
    }

    /// Notes that a call of the device begins. The caller has the state's lock.
    pub fn begin<R: Wait + Clock>(&self, rt: &R, call: DeviceCall) {
        let at = Instant::now(rt).ok();
        self.shown.lock(rt).begin(call, at);
    }

    /// Shows the numbers of the state at the end of a guarded call, and counts what the call has
    /// completed. The caller has the state's lock. No clause can name what the status shows then.
    pub fn end<R: Wait + Clock>(&self, rt: &R, numbers: Numbers, done: Done)
        requires { ∥ AreNumbers numbers ∥₁ }
    {
        self.shown.lock(rt).end(rt, numbers, done);
    }

    /// The numbers that the status shows, and what both actors had completed then.
    pub fn numbers<R: Wait>(&self, rt: &R) -> (Numbers, Completed)
        ensures { ∥ AreNumbers result.0 ∥₁ }
    {
        let shown = self.shown.lock(rt);
        (shown.numbers, shown.completed)
    }

    /// Whether no command was pending at the end of the last guarded call. No clause can say that:
    /// what the status shows is under a lock.
    pub fn is_idle<R: Wait>(&self, rt: &R) -> bool {
        self.shown.lock(rt).numbers.pending == 0
    }

    /// The call of the device that is under way, and the time that it has taken so far, in
    /// microseconds. The result is `None` where no call is under way, or the clock cannot be read.
    pub fn under_way<R: Wait + Clock>(&self, rt: &R) -> Option<(DeviceCall, u64)> {
        let begun = self.shown.lock(rt).begun;
        let begun = begun?;
        Some((begun.call, microseconds_since(rt, begun.at)?))
    }
}

/// The time since a moment in microseconds, where the clock can be read.
fn microseconds_since(clock: &impl Clock, moment: Instant) -> Option<u64> {
    Some(microseconds(moment.elapsed(clock).ok()?))
}

/// A time in whole microseconds, at most 2^64 - 1.
fn microseconds(time: Duration) -> u64
    ensures { result ≡ microseconds_of (as_nanos time) }
{
    let part = u64::from(time.subsec_micros());
    time.as_secs().saturating_mul(SECOND).saturating_add(part)
}
