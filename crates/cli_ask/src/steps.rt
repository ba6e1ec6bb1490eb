//! The steps of a purge: by which moment each one is, and how far each one goes.

ghost use Rattle.std.specs.Prelude.{◌≡◌, ◌<◌, ◌≤◌, ◌+◌, ◌-◌, ◌^◌, IfOk, IfErr};
ghost use Rattle.cli_ask.specs.declared.error.AskError.TheVariants as error;
ghost use Rattle.cli_ask.specs.Purging.{step_after};
ghost use Rattle.cli_ask.specs.Steps.{width_for, next_width, total_of, TooMany};

use crate::error::AskError;
use session_core::{Ack, Outcome};

/// How far before its last moment a purge begins, in half seconds: some 36 hours. A segment expires
/// within 24 hours after its timestamp.
pub(crate) const REACH: u64 = 262_144;

/// The part of what is left that a step covers at most, where that is more than `LEAST`.
const SHARE: u64 = 8;

/// What a step may cover in any case, in half seconds.
const LEAST: u64 = 1_024;

/// About the most rows that a step should drop: a server holds its lock for some 15 µs a row.
const ENOUGH: u64 = 512;

/// After a step that has dropped fewer rows the next one covers twice as much.
const FEW: u64 = 256;

/// After a step that has dropped more rows the next one covers less.
const MANY: u64 = 1_024;

/// A step of a purge: the moment of its command, and the time that it covers before this moment, in
/// half seconds.
#[derive(Clone, Copy, Debug, PartialEq, Eq)]
pub(crate) struct Step {
    pub(crate) moment: u64,
    pub(crate) width: u64,
}

impl Step {
    /// The first step of a purge by this moment. It drops all that has expired long before.
    pub(crate) fn first(last: u64) -> Step
        ensures { (result.moment ≡ last - REACH) × (result.width ≡ REACH) }
    {
        Step {
            moment: last.saturating_sub(REACH),
            width: REACH,
        }
    }

    /// The step after this one, which has dropped this number of rows. The last one is by the
    /// moment of the purge.
    pub(crate) fn next(&self, dropped: u32, last: u64) -> Step
        requires { self.now.moment < last }
        ensures step { result ≡ step_after self.now dropped last }
        ensures rises { self.now.moment < result.moment }
        ensures most { result.moment ≤ last }
    {
        let width = next_width(dropped, self.width, last - self.moment);
        Step {
            moment: self.moment + width,
            width,
        }
    }
}

/// The time that the next step covers, where this much is left.
#[tactic(auto, unfolding(crate::specs::Steps::next_width))]
fn next_width(dropped: u32, width: u64, left: u64) -> u64
    requires { 0 < left }
    ensures same { result ≡ next_width dropped width left }
    ensures some { 0 < result }
    ensures most { result ≤ left }
{
    let most = (left / SHARE).max(LEAST).min(left);
    width_for(dropped, width).max(1).min(most)
}

/// The time within which some `ENOUGH` rows expire, after a step of this width that has dropped
/// this number of them. After few rows it is twice the width.
#[tactic(auto, unfolding(crate::specs::Steps::width_for))]
fn width_for(dropped: u32, width: u64) -> u64
    ensures { result ≡ width_for dropped width }
{
    let dropped = u64::from(dropped);
    if dropped > MANY {
        width / (dropped / ENOUGH + 1)
    } else if dropped < FEW {
        width.saturating_mul(2)
    } else {
        width
    }
}

/// The acknowledgement of all steps so far: the place of the last one, and the sums of the counts.
/// Where a count is above 2^32 - 1, the reply is none that a server sends.
pub(crate) fn total_of(before: Ack, last: Ack) -> Result<Ack, AskError>
    ensures total { IfOk result (λ total. total ≡ total_of before last) }
    ensures fault { IfErr result (λ e. (e ≡ error.Faulty) × TooMany before last) }
{
    let (old, new) = (before.outcome, last.outcome);
    Ok(Ack {
        place: last.place,
        outcome: Outcome {
            inserted: sum_of(old.inserted, new.inserted)?,
            updated: sum_of(old.updated, new.updated)?,
            kept: sum_of(old.kept, new.kept)?,
            purged: sum_of(old.purged, new.purged)?,
        },
    })
}

/// The sum of two counts.
fn sum_of(before: u32, last: u32) -> Result<u32, AskError>
    ensures sum { IfOk result (λ sum. sum ≡ before + last) }
    ensures fault { IfErr result (λ e. (e ≡ error.Faulty) × (2 ^ 32 ≤ before + last)) }
{
    before.checked_add(last).ok_or(AskError::Faulty)
}
