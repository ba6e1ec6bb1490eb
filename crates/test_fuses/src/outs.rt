//! What a run has out, by its script, and what a state that has stopped answers.

use group_core::{BeginError, FollowError, StageError, SubmitError};
use group_recovery::StepRefusal;
use test_group_scripts::acts::{Act, Line, Said};
use test_group_scripts::values::{Held, is_group_step, is_plan_step, step_of};

/// What a run has out, by its script.
#[derive(Clone, Copy)]
pub struct Out {
    /// The flusher's value.
    held: Held,
    /// The checkpointer has a value.
    plan: bool,
    /// The last publishing that the script names was done.
    published: bool,
    /// What the last lookup showed while that was so: a bit for each interface.
    shown: u64,
    /// The tickets that a stop made unknown: a bit for each.
    unknown: u64,
}

/// Nothing is out.
pub const NONE_OUT: Out = Out {
    held: Held::Nothing,
    plan: false,
    published: true,
    shown: 0,
    unknown: 0,
};

/// A bit for the k-th ticket.
fn bit_of(k: usize) -> u64 {
    match u32::try_from(k) {
        Ok(k) => 1u64.wrapping_shl(k),
        Err(_) => 0,
    }
}

impl Out {
    /// What is out after an event that was answered as the script says.
    pub fn after(self, (act, wanted): Line) -> Out {
        if let Said::Shows(shown) = wanted {
            return Out { shown, ..self };
        }
        if wanted != Said::Done {
            return self;
        }
        if let Some((_taken, held)) = step_of(act) {
            return Out { held, ..self };
        }
        match act {
            Act::Begin => Out { plan: true, ..self },
            Act::SyncClose => Out {
                plan: false,
                ..self
            },
            _ => self,
        }
    }

    /// What is out after an event in which the device failed, or which was answered that the state
    /// had stopped: its value is spent.
    pub fn without(self, act: Act) -> Out {
        if is_group_step(act) {
            return Out {
                held: Held::Nothing,
                ..self
            };
        }
        Out {
            plan: self.plan && !is_plan_step(act),
            ..self
        }
    }

    /// The expected answer of an event where the state has stopped before it. The places of
    /// accepted commands are from `first` to before `accepted`.
    pub fn stopped(self, first: u64, accepted: u64, (act, wanted): Line) -> (Out, Said) {
        match act {
            Act::Stage => (self, Said::Stage(StageError::Stopped)),
            Act::Prepare | Act::Begin => (self, Said::Begin(BeginError::Stopped)),
            Act::Redeem(k) => self.stopped_redeeming(first, accepted, k, wanted),
            Act::Lookup => self.stopped_lookup(wanted),
            _ if is_plan_step(act) => (self.without(act), value_answer(self.plan)),
            _ => match step_of(act) {
                Some((taken, led)) => self.stopped_step(act, self.held == taken, led),
                None => (self, Said::Refused(SubmitError::Stopped)),
            },
        }
    }

    /// The same of a step of the flusher that takes a value, which it holds or not. Publishing goes
    /// on for what is durable.
    fn stopped_step(self, act: Act, has_value: bool, led: Held) -> (Out, Said) {
        match act {
            Act::Publish | Act::PublishFollowed => self.stopped_publishing(has_value, led),
            Act::Follow if has_value => (self, Said::Follow(FollowError::Stopped)),
            _ if has_value => (self.without(act), value_answer(true)),
            _ => (self, Said::NoValue),
        }
    }

    /// The same of publishing.
    fn stopped_publishing(self, has_value: bool, led: Held) -> (Out, Said) {
        let out = Out {
            published: has_value,
            ..self
        };
        if has_value {
            return (Out { held: led, ..out }, Said::Done);
        }
        (out, Said::NoValue)
    }

    /// The same of a lookup, which goes on. A script looks up between each two publishings of
    /// groups.
    fn stopped_lookup(self, wanted: Said) -> (Out, Said) {
        if self.published {
            return (self.after((Act::Lookup, wanted)), wanted);
        }
        (self, Said::Shows(self.shown))
    }

    /// The same of the k-th ticket. A script redeems as committed only what was published last.
    fn stopped_redeeming(self, first: u64, accepted: u64, k: usize, wanted: Said) -> (Out, Said) {
        let bit = bit_of(k);
        let place = first.saturating_add(k as u64);
        if accepted <= place || self.unknown & bit != 0 {
            return (self, Said::NoValue);
        }
        if let (Said::Committed(_place, _outcome), true) = (wanted, self.published) {
            return (self, wanted);
        }
        let out = Out {
            unknown: self.unknown | bit,
            ..self
        };
        (out, Said::Unknown(place))
    }
}

/// The expected answer of a step where the state has stopped.
fn value_answer(has_value: bool) -> Said {
    if has_value {
        return Said::Step(StepRefusal::Stopped);
    }
    Said::NoValue
}
