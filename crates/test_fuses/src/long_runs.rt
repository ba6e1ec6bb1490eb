//! Long runs, with each event's reply: groups, journals that fill, seals, and checkpoints of two
//! chunks between the steps of groups. Checkpoint areas have 300 sectors and journals 516. A
//! command of eight large segments takes 257 sectors of a journal, the ninth 33, and a group of
//! small ones 1, each after its gate.

use group_core::{BeginError, StageError, SubmitError};
use path_db::Outcome;
use test_group_scripts::acts::{
    Act, EIGHT_NEW, EIGHT_NEWER, GONE, GROUP, INSERTED, Line, NOTHING, Said,
};

/// What a purge does that takes all nine large segments away.
const NINE_GONE: Outcome = Outcome {
    purged: 9,
    ..NOTHING
};

/// The moment up to which large segments expire that were made two seconds after the first of their
/// kind.
const TWO_LATER: u64 = 3_400_042_948;

/// A store of version 2: three seals, and the three checkpoints after them.
pub const NEW: [&[Line]; 23] = [
    &[
        (Act::Put(1), Said::Accepted(0)),
        (Act::Put(2), Said::Accepted(1)),
        (Act::Purge(0), Said::Accepted(2)),
    ],
    &GROUP,
    &[
        (Act::Redeem(0), Said::Committed(0, INSERTED)),
        (Act::Redeem(1), Said::Committed(1, INSERTED)),
        (Act::Redeem(2), Said::Committed(2, NOTHING)),
        (Act::Remove(1), Said::Accepted(3)),
        (Act::Put(1), Said::Accepted(4)),
    ],
    &GROUP,
    &[
        (Act::Redeem(3), Said::Committed(3, GONE)),
        (Act::Redeem(4), Said::Committed(4, INSERTED)),
        (Act::Large(0), Said::Accepted(5)),
    ],
    &GROUP,
    &[
        (Act::Redeem(5), Said::Committed(5, EIGHT_NEW)),
        (Act::Ninth, Said::Accepted(6)),
    ],
    &GROUP,
    &[
        (Act::Redeem(6), Said::Committed(6, INSERTED)),
        (Act::Large(1), Said::Accepted(7)),
    ],
    // The gate is in sector 296 of the journal: a seal. Eleven rows are before it, in 289 sectors.
    &GROUP,
    &[
        (Act::Redeem(7), Said::Waiting(7)),
        (Act::Begin, Said::Done),
        (Act::Stage, Said::Done),
        (Act::WriteGroup, Said::Done),
        (Act::WriteChunk, Said::Done),
        (Act::SyncGroup, Said::Done),
        (Act::WriteChunk, Said::Done),
        (Act::OpenGate, Said::Done),
        (Act::SyncChunks, Said::Done),
        (Act::SyncGate, Said::Done),
        (Act::Publish, Said::Done),
        (Act::Redeem(7), Said::Committed(7, EIGHT_NEWER)),
        (Act::Put(3), Said::Accepted(8)),
        (Act::Remove(2), Said::Accepted(9)),
        (Act::Stage, Said::Done),
        (Act::OpenHalf, Said::Done),
        (Act::WriteGroup, Said::Done),
        (Act::SyncGroup, Said::Done),
        (Act::SyncHalf, Said::Done),
        (Act::OpenGate, Said::Done),
        (Act::CloseHalf, Said::Done),
        (Act::SyncGate, Said::Done),
        (Act::SyncClose, Said::Done),
        (Act::Publish, Said::Done),
        (Act::Redeem(8), Said::Committed(8, INSERTED)),
        (Act::Redeem(9), Said::Committed(9, GONE)),
        (Act::Put(4), Said::Accepted(10)),
        (Act::Large(2), Said::Accepted(11)),
    ],
    // The gate is in sector 260: a seal, and then the group.
    &GROUP,
    &[(Act::Redeem(10), Said::Waiting(10))],
    &GROUP,
    &[
        (Act::Redeem(10), Said::Committed(10, INSERTED)),
        (Act::Redeem(11), Said::Committed(11, EIGHT_NEWER)),
        (Act::Purge(0), Said::Accepted(12)),
        (Act::Purge(0), Said::Accepted(13)),
        (Act::Purge(0), Said::Accepted(14)),
        (Act::Purge(0), Said::Accepted(15)),
        (Act::Purge(0), Said::Accepted(16)),
        (Act::Purge(0), Said::Accepted(17)),
        (Act::Purge(0), Said::Accepted(18)),
        (Act::Purge(0), Said::Accepted(19)),
        (Act::Purge(0), Said::Accepted(20)),
    ],
    // Nine commands.
    &GROUP,
    &[
        (Act::Redeem(12), Said::Committed(12, NOTHING)),
        (Act::Redeem(13), Said::Committed(13, NOTHING)),
        (Act::Redeem(14), Said::Committed(14, NOTHING)),
        (Act::Redeem(15), Said::Committed(15, NOTHING)),
        (Act::Redeem(16), Said::Committed(16, NOTHING)),
        (Act::Redeem(17), Said::Committed(17, NOTHING)),
        (Act::Redeem(18), Said::Committed(18, NOTHING)),
        (Act::Redeem(19), Said::Committed(19, NOTHING)),
        (Act::Redeem(20), Said::Committed(20, NOTHING)),
        (Act::Purge(TWO_LATER), Said::Accepted(21)),
    ],
    &GROUP,
    // The gate is in sector 262, and the other half is not ready.
    &[
        (Act::Redeem(21), Said::Committed(21, NINE_GONE)),
        (Act::Large(3), Said::Accepted(22)),
        (Act::Stage, Said::Stage(StageError::NoRoom)),
        (Act::Begin, Said::Done),
        (Act::Stage, Said::Stage(StageError::NoRoom)),
        (Act::WriteChunk, Said::Done),
        (Act::WriteChunk, Said::Done),
        (Act::SyncChunks, Said::Done),
        (Act::OpenHalf, Said::Done),
        (Act::SyncHalf, Said::Done),
        (Act::CloseHalf, Said::Done),
        (Act::Stage, Said::Stage(StageError::NoRoom)),
        (Act::SyncClose, Said::Done),
        (Act::Begin, Said::Begin(BeginError::NotSealed)),
    ],
    // A seal. Three rows are before it, in one sector.
    &GROUP,
    &[
        (Act::Redeem(22), Said::Waiting(22)),
        (Act::Stage, Said::Done),
        (Act::WriteGroup, Said::Done),
        (Act::Begin, Said::Done),
        (Act::SyncGroup, Said::Done),
        (Act::OpenGate, Said::Done),
        (Act::WriteChunk, Said::Done),
        (Act::SyncGate, Said::Done),
        (Act::SyncChunks, Said::Done),
        (Act::Publish, Said::Done),
        (Act::Redeem(22), Said::Committed(22, EIGHT_NEW)),
        (Act::Put(5), Said::Accepted(23)),
        (Act::OpenHalf, Said::Done),
        (Act::Stage, Said::Done),
        (Act::SyncHalf, Said::Done),
        (Act::WriteGroup, Said::Done),
        (Act::CloseHalf, Said::Done),
        (Act::SyncGroup, Said::Done),
        (Act::SyncClose, Said::Done),
        (Act::OpenGate, Said::Done),
        (Act::SyncGate, Said::Done),
        (Act::Publish, Said::Done),
        (Act::Redeem(23), Said::Committed(23, INSERTED)),
        (Act::Remove(41), Said::Accepted(24)),
    ],
    &GROUP,
    &[
        (Act::Redeem(24), Said::Committed(24, GONE)),
        (Act::Put(6), Said::Accepted(25)),
        (Act::Redeem(25), Said::Waiting(25)),
    ],
];

/// A store of version 1, through its first checkpoint: removals are accepted once its half counts.
pub const OLD: [&[Line]; 11] = [
    &[
        (Act::Put(1), Said::Accepted(0)),
        (Act::Put(2), Said::Accepted(1)),
        (Act::Remove(1), Said::Refused(SubmitError::OldStore)),
        (Act::Purge(0), Said::Accepted(2)),
        (Act::Purge(0), Said::Accepted(3)),
        (Act::Purge(0), Said::Accepted(4)),
        (Act::Purge(0), Said::Accepted(5)),
        (Act::Purge(0), Said::Accepted(6)),
        (Act::Purge(0), Said::Accepted(7)),
        (Act::Purge(0), Said::Accepted(8)),
    ],
    // Eight commands, and then one.
    &GROUP,
    &[
        (Act::Redeem(8), Said::Waiting(8)),
        (Act::Redeem(0), Said::Committed(0, INSERTED)),
        (Act::Redeem(1), Said::Committed(1, INSERTED)),
        (Act::Redeem(7), Said::Committed(7, NOTHING)),
    ],
    &GROUP,
    &[
        (Act::Redeem(8), Said::Committed(8, NOTHING)),
        (Act::Large(0), Said::Accepted(9)),
    ],
    &GROUP,
    &[
        (Act::Redeem(9), Said::Committed(9, EIGHT_NEW)),
        (Act::Ninth, Said::Accepted(10)),
    ],
    &GROUP,
    &[
        (Act::Redeem(10), Said::Committed(10, INSERTED)),
        (Act::Large(1), Said::Accepted(11)),
    ],
    // The gate is in sector 296 of the journal: a seal.
    &GROUP,
    &[
        (Act::Redeem(11), Said::Waiting(11)),
        (Act::Begin, Said::Done),
        (Act::Remove(1), Said::Refused(SubmitError::OldStore)),
        (Act::Stage, Said::Done),
        (Act::WriteGroup, Said::Done),
        (Act::WriteChunk, Said::Done),
        (Act::SyncGroup, Said::Done),
        (Act::WriteChunk, Said::Done),
        (Act::Remove(1), Said::Refused(SubmitError::OldStore)),
        (Act::OpenGate, Said::Done),
        (Act::SyncChunks, Said::Done),
        (Act::SyncGate, Said::Done),
        (Act::Publish, Said::Done),
        (Act::Redeem(11), Said::Committed(11, EIGHT_NEWER)),
        (Act::Put(3), Said::Accepted(12)),
        (Act::Stage, Said::Done),
        (Act::OpenHalf, Said::Done),
        (Act::Remove(1), Said::Refused(SubmitError::OldStore)),
        (Act::WriteGroup, Said::Done),
        (Act::SyncGroup, Said::Done),
        (Act::OpenGate, Said::Done),
        (Act::SyncGate, Said::Done),
        (Act::Publish, Said::Done),
        (Act::Redeem(12), Said::Committed(12, INSERTED)),
        (Act::SyncHalf, Said::Done),
        (Act::Remove(1), Said::Accepted(13)),
        (Act::Purge(0), Said::Accepted(14)),
        (Act::Purge(0), Said::Accepted(15)),
        (Act::Purge(0), Said::Accepted(16)),
        (Act::Purge(0), Said::Accepted(17)),
        (Act::Purge(0), Said::Accepted(18)),
        (Act::Purge(0), Said::Accepted(19)),
        (Act::Purge(0), Said::Accepted(20)),
        (Act::Purge(0), Said::Accepted(21)),
        // Nine commands, a removal among them, before the old half is closed.
        (Act::Stage, Said::Done),
        (Act::WriteGroup, Said::Done),
        (Act::SyncGroup, Said::Done),
        (Act::OpenGate, Said::Done),
        (Act::CloseHalf, Said::Done),
        (Act::SyncGate, Said::Done),
        (Act::SyncClose, Said::Done),
        (Act::Publish, Said::Done),
        (Act::Redeem(13), Said::Committed(13, GONE)),
        (Act::Redeem(21), Said::Committed(21, NOTHING)),
        (Act::Remove(2), Said::Accepted(22)),
        (Act::Redeem(22), Said::Waiting(22)),
    ],
];
