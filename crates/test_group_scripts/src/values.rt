//! The steps of both actors: what each of the flusher's takes, what it leads to, and which use the
//! device.

use crate::acts::{Act, Line, Said};

/// What the flusher holds.
#[derive(Clone, Copy, PartialEq, Eq)]
pub enum Held {
    Nothing,
    Staged,
    Written,
    Stable,
    Opened,
    Durable,
    Following,
    Followed,
    DurableFollowed,
}

/// What a step of the flusher takes, and what it leads to, where the event is one.
pub fn step_of(act: Act) -> Option<(Held, Held)> {
    match act {
        Act::Stage => Some((Held::Nothing, Held::Staged)),
        Act::WriteGroup => Some((Held::Staged, Held::Written)),
        Act::SyncGroup => Some((Held::Written, Held::Stable)),
        Act::OpenGate => Some((Held::Stable, Held::Opened)),
        Act::SyncGate => Some((Held::Opened, Held::Durable)),
        Act::Publish => Some((Held::Durable, Held::Nothing)),
        Act::Follow => Some((Held::Opened, Held::Following)),
        Act::WriteFollowing => Some((Held::Following, Held::Followed)),
        Act::SyncFollowed => Some((Held::Followed, Held::DurableFollowed)),
        Act::PublishFollowed => Some((Held::DurableFollowed, Held::Stable)),
        _ => None,
    }
}

/// Whether it is a step of the flusher on the device.
pub fn is_group_step(act: Act) -> bool {
    matches!(
        act,
        Act::WriteGroup
            | Act::SyncGroup
            | Act::OpenGate
            | Act::SyncGate
            | Act::WriteFollowing
            | Act::SyncFollowed
    )
}

/// Whether it is a step of the checkpointer with a value.
pub fn is_plan_step(act: Act) -> bool {
    matches!(
        act,
        Act::WriteChunk
            | Act::SyncChunks
            | Act::OpenHalf
            | Act::SyncHalf
            | Act::CloseHalf
            | Act::SyncClose
    )
}

/// Whether an event of a script makes calls of the device.
pub fn calls_device((act, wanted): Line) -> bool {
    let is_step = is_group_step(act) || is_plan_step(act) || matches!(act, Act::Begin);
    is_step && wanted == Said::Done
}
