//! The time that one direction of a connection has for each of its frames.

ghost use Rattle.std.specs.Prelude.{◌≡◌, ◌+◌, ◌-◌, ◌<◌, ◌≤◌, ◌↔◌, IsTrue, None, Some, IsSome, IfSome, IfOk, unwrap_or, length, take};
ghost use Rattle.std.specs.Duration.{as_nanos};
ghost use Rattle.std.specs.Time.{instant_nanos};
ghost use Rattle.paced_stream.specs.Tracking.{between, after_bytes};

use crate::deadline::Deadline;
use crate::tracker::Tracker;
use std::io;
use std::io::ErrorKind;
use std::time::{Clock, Duration};

/// The least time that a call has after an interruption, in milliseconds. While a process is
/// stopped, its peers' time passes, but what they have sent meanwhile is still taken.
const AFTER_INTERRUPTION: u64 = 200;

/// The time that one direction of a connection has for each of its frames: a wait between two
/// frames has to end within the idle time, and a frame has to be whole within the idle time of the
/// first call that waits for its rest.
#[derive(Drop)]
pub(crate) struct Pace {
    /// The idle time, or `None` for no limit.
    idle: Option<Duration>,
    frames: Tracker,
    /// The deadline of the frame under way, if there is a limit and a call has waited for the rest
    /// of that frame.
    deadline: Option<Deadline>,
    /// Whether a call has failed because its time was over.
    is_late: bool,
}

/// The time of one call of a connection.
#[derive(Clone, Copy)]
pub(crate) struct CallTime {
    /// The deadline after the idle time from when the call began, or `None` for no limit.
    begins: Option<Deadline>,
    /// When the time is over, or `None` for no limit.
    deadline: Option<Deadline>,
    /// The time that is left.
    pub(crate) time: Option<Duration>,
}

impl Pace {
    /// The pace of a direction in which no byte has gone by yet.
    pub(crate) fn new(idle: Option<Duration>) -> Pace
        ensures idle { result.idle ≡ idle }
        ensures frames { result.frames ≡ between }
        ensures deadline { result.deadline ≡ None }
    {
        Pace {
            idle,
            frames: Tracker::new(),
            deadline: None,
            is_late: false,
        }
    }

    /// Whether a call has failed because its time was over.
    pub(crate) fn is_late(&self) -> bool
        ensures { result ≡ self.now.is_late }
    {
        self.is_late
    }

    /// The time of the next call, which begins now: what is left of the frame under way, or the
    /// whole idle time between two frames and where no call has waited for the rest of the frame.
    /// The error is that no time is left, as after an earlier call that was late, or that the clock
    /// cannot be read.
    pub(crate) fn call_time(&mut self, clock: &impl Clock) -> io::Result<CallTime>
        ensures idle { self.new.idle ≡ self.old.idle }
        ensures frames { self.new.frames ≡ self.old.frames }
        ensures limited { IfOk result (λ call. (IsSome self.old.idle ↔ IsSome call.begins) × (IsSome self.old.idle ↔ IsSome call.time)) }
        ensures begins { IfOk result (λ call. IfSome call.begins (λ begins. Some begins.time ≡ self.old.idle)) }

        // A frame has the deadline that it had, or else that of the first call within it.
        ensures deadline { IfOk result (λ call. IfSome call.begins (λ begins. call.deadline ≡ Some (unwrap_or self.old.deadline begins))) }
        ensures within { IfOk result (λ call. IsSome self.old.idle → 0 < self.old.frames.gone → self.new.deadline ≡ call.deadline) }
        ensures between { self.old.frames.gone ≡ 0 → self.new.deadline ≡ self.old.deadline }

        ensures time { IfOk result (λ call. IfSome call.begins (λ begins. IfSome call.deadline (λ deadline. IfSome call.time
            (λ time. as_nanos time + (instant_nanos begins.begun - instant_nanos deadline.begun) ≡ as_nanos deadline.time)))) }
    {
        let Some(idle) = self.idle else {
            return Ok(CallTime {
                begins: None,
                deadline: None,
                time: None,
            });
        };
        if self.is_late {
            return Err(late());
        }
        let begins = Deadline::after(clock, idle)?;
        let deadline = self.deadline.unwrap_or(begins);
        if self.frames.gone() > 0 {
            self.deadline = Some(deadline);
        }
        let time = deadline.left_at(&begins);
        if time.is_none() {
            self.is_late = true;
            return Err(late());
        }
        Ok(CallTime {
            begins: Some(begins),
            deadline: Some(deadline),
            time,
        })
    }

    /// Takes note of bytes that have arrived. No call has waited yet for the rest of a frame that
    /// has begun with them.
    pub(crate) fn arrive(&mut self, bytes: &[u8])
        ensures idle { self.new.idle ≡ self.old.idle }
        ensures frames { self.new.frames ≡ after_bytes self.old.frames bytes.now }
        ensures over { self.new.frames.gone ≤ length bytes.now → self.new.deadline ≡ None }
        ensures goes_on { length bytes.now < self.new.frames.gone → self.new.deadline ≡ self.old.deadline }
    {
        let _begins = self.begins_with(bytes);
    }

    /// Takes note of how many of these bytes the peer has taken in a call that had this time. Where
    /// it has not taken all of them, the call has waited for the rest of each frame that has begun.
    /// Where it has, nothing waits for the peer before the next call.
    pub(crate) fn leave(&mut self, bytes: &[u8], count: usize, call: &CallTime)
        requires { count ≤ length bytes.now }
        ensures idle { self.new.idle ≡ self.old.idle }
        ensures frames { self.new.frames ≡ after_bytes self.old.frames (take count bytes.now) }
        ensures all { count ≡ length bytes.now → self.new.deadline ≡ None }
        ensures over { self.new.frames.gone ≡ 0 → self.new.deadline ≡ None }
        ensures begins { count < length bytes.now → 0 < self.new.frames.gone → self.new.frames.gone ≤ count → self.new.deadline ≡ call.now.begins }
        ensures goes_on { count < length bytes.now → count < self.new.frames.gone → self.new.deadline ≡ self.old.deadline }
    {
        let begins = self.begins_with(bytes.split_at(count).0);
        if count == bytes.len() {
            self.deadline = None;
        } else if begins {
            self.deadline = call.begins;
        }
    }

    /// Follows the frames over these bytes, and drops the deadline of a frame that has ended.
    /// Returns whether another frame has begun and is under way.
    fn begins_with(&mut self, bytes: &[u8]) -> bool
        ensures idle { self.new.idle ≡ self.old.idle }
        ensures frames { self.new.frames ≡ after_bytes self.old.frames bytes.now }
        ensures begins { IsTrue result ↔ ((0 < self.new.frames.gone) × (self.new.frames.gone ≤ length bytes.now)) }
        ensures over { self.new.frames.gone ≤ length bytes.now → self.new.deadline ≡ None }
        ensures goes_on { length bytes.now < self.new.frames.gone → self.new.deadline ≡ self.old.deadline }
    {
        self.frames.pass(bytes);
        let gone = self.frames.gone();
        if gone > bytes.len() as u64 {
            return false;
        }
        self.deadline = None;
        gone > 0
    }

    /// Takes note of a call that failed.
    pub(crate) fn fail(&mut self, error: &io::Error)
        ensures frames { self.new.frames ≡ self.old.frames }
    {
        if error.kind() == ErrorKind::WouldBlock {
            self.is_late = true;
        }
    }
}

impl CallTime {
    /// The same time after an interruption, with the time that is left of it.
    pub(crate) fn interrupted(&self, clock: &impl Clock) -> CallTime
        ensures begins { result.begins ≡ self.now.begins }
        ensures deadline { result.deadline ≡ self.now.deadline }
        ensures limited { IsSome self.now.deadline → IsSome result.time }
    {
        let Some(deadline) = self.deadline else {
            return *self;
        };
        let least = Duration::from_millis(AFTER_INTERRUPTION);
        CallTime {
            begins: self.begins,
            deadline: Some(deadline),
            time: Some(deadline.left(clock).unwrap_or(least).max(least)),
        }
    }
}

/// The error of a call for which no time is left.
fn late() -> io::Error {
    io::Error::from(ErrorKind::TimedOut)
}
