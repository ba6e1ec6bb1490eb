//! What a failure of the device may leave of a run.

use group_core::BeginError;
use group_recovery::StepRefusal;
use test_group_scripts::acts::{Act, Said};

/// How many commands a group may have in a store of version 1, and in one of version 2.
const MOST_OF_OLD: u64 = 8;

const MOST_OF_NEW: u64 = 32;

/// Where a run ended.
#[derive(Clone, Copy, Debug, PartialEq, Eq)]
pub enum Ending {
    /// Its store was not opened.
    Unopened,
    /// The device failed in the event of this number.
    Failed(usize),
    /// No failure was seen.
    Whole,
}

/// What a failure may leave of a run.
#[derive(Clone, Copy, Debug)]
pub struct Left {
    /// The place after the commands that it accepted.
    pub accepted: u64,
    /// The place after those that it acknowledged, with all before them.
    acknowledged: u64,
    /// How many commands a group may have.
    limit: u64,
    /// The place after the commands of the group in flight, or of the last one.
    group: u64,
    /// The same of the group that follows it.
    follower: u64,
    /// The place after the commands of the last group whose gate may be open.
    opened: u64,
    pub ending: Ending,
}

impl Left {
    /// Nothing was done yet from this place on, in a store of this version.
    pub fn nothing(first: u64, version: u8) -> Left {
        Left {
            accepted: first,
            acknowledged: first,
            limit: if version == 1 {
                MOST_OF_OLD
            } else {
                MOST_OF_NEW
            },
            group: first,
            follower: first,
            opened: first,
            ending: Ending::Whole,
        }
    }

    /// The same where the store was not opened.
    pub fn unopened(self) -> Left {
        Left {
            ending: Ending::Unopened,
            ..self
        }
    }

    /// Between which places a device opens then: nothing counts of a group whose gate was not
    /// written yet.
    pub fn bounds(&self) -> (u64, u64) {
        match self.ending {
            Ending::Whole => (self.acknowledged, self.acknowledged),
            _ => (self.acknowledged, self.opened),
        }
    }

    /// The place after the commands of a group that begins at this place.
    fn group_from(self, begin: u64) -> u64 {
        self.accepted.min(begin.saturating_add(self.limit))
    }

    /// What is left after this event and its answer. A script redeems the last command of a group
    /// before it stages the next one.
    pub fn with(self, act: Act, got: Said) -> Left {
        match got {
            Said::Accepted(place) => Left {
                accepted: place.saturating_add(1),
                ..self
            },
            Said::Committed(place, _outcome) => Left {
                acknowledged: self.acknowledged.max(place.saturating_add(1)),
                ..self
            },
            Said::Done => self.with_step(act),
            Said::Step(StepRefusal::Fault) if matches!(act, Act::OpenGate) => self.with_step(act),
            _ => self,
        }
    }

    /// The same after a step that was made, or the write of a gate that failed.
    fn with_step(self, act: Act) -> Left {
        match act {
            Act::Stage => Left {
                group: self.group_from(self.acknowledged),
                ..self
            },
            Act::OpenGate => Left {
                opened: self.group,
                ..self
            },
            Act::Follow => Left {
                follower: self.group_from(self.group),
                ..self
            },
            Act::PublishFollowed => Left {
                group: self.follower,
                ..self
            },
            Act::SyncHalf => Left {
                limit: MOST_OF_NEW,
                ..self
            },
            _ => self,
        }
    }
}

/// Whether an event was refused since the device failed in it.
pub fn is_failure(said: Said) -> bool {
    matches!(
        said,
        Said::Step(StepRefusal::Fault) | Said::Begin(BeginError::Fault)
    )
}
