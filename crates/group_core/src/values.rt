//! Commit values, which an actor holds between two of its steps. A value cannot be copied or
//! dropped: it is passed to the next step.

ghost use Rattle.std.specs.Prelude.{◌≡◌, ◌↔◌, IsTrue};
ghost use Rattle.group_core.specs.Values.{IsOf, IsSame};

use crate::phases::{
    AtClosing, AtDurable, AtDurableFollowed, AtFollowed, AtFollowing, AtLaid, AtLive, AtOpened,
    AtPlan, AtStable, AtStaged, AtSwitched, AtWritten,
};

/// A value of an actor: the home of the state that gave it, the number of its group or plan, and
/// its phase.
pub struct Commit<P> {
    home: u64,
    number: u64,
    phase: P,
}

/// A group or a seal that is staged.
pub type Staged = Commit<AtStaged>;
/// Bytes written, not synced.
pub type Written = Commit<AtWritten>;
/// Bytes written and synced, with the gate still closed.
pub type Stable = Commit<AtStable>;
/// The gate was written open, not synced.
pub type Opened = Commit<AtOpened>;
/// No stop can lose the group or the seal.
pub type Durable = Commit<AtDurable>;
/// The gate was written open, not synced, and a group that follows is staged.
pub type Following = Commit<AtFollowing>;
/// The gate was written open, and a group that follows was written, both not synced.
pub type Followed = Commit<AtFollowed>;
/// No stop can lose the group, and a group that follows is written and synced.
pub type DurableFollowed = Commit<AtDurableFollowed>;
/// A checkpoint that is being written.
pub type Plan = Commit<AtPlan>;
/// A checkpoint that is whole and synced.
pub type Laid = Commit<AtLaid>;
/// The new half's gate was written open, not synced.
pub type Switched = Commit<AtSwitched>;
/// Openings choose the new half.
pub type Live = Commit<AtLive>;
/// The old half's gates were written closed, not synced.
pub type Closing = Commit<AtClosing>;

impl<P: Copy> Commit<P> {
    /// The value of a group or plan of this number, in a phase.
    pub(crate) fn new(home: u64, number: u64, phase: P) -> Commit<P>
        ensures home { result.home ≡ home }
        ensures number { result.number ≡ number }
        ensures phase { result.phase ≡ phase }
    {
        Commit {
            home,
            number,
            phase,
        }
    }

    /// Whether the value is of this home, and has this number.
    pub(crate) fn is_of(&self, home: u64, number: u64) -> bool
        ensures { IsTrue result ↔ IsOf home number self.now }
    {
        self.home == home && self.number == number
    }

    /// The value of the same group or plan in another phase.
    pub(crate) fn at<Q: Copy>(self, phase: Q) -> Commit<Q>
        ensures same { IsSame self result }
        ensures phase { result.phase ≡ phase }
    {
        let Commit {
            home,
            number,
            phase: _from,
        } = self;
        Commit {
            home,
            number,
            phase,
        }
    }

    /// Consumes the value.
    pub(crate) fn spend(self) {
        let Commit {
            home: _home,
            number: _number,
            phase: _phase,
        } = self;
    }
}

impl Commit<AtPlan> {
    /// Whether all of the checkpoint is written.
    pub fn is_done(&self) -> bool
        ensures { result ≡ self.now.phase.done }
    {
        self.phase.done
    }
}
