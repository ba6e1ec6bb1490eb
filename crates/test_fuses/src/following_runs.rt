//! Runs of groups that follow each other, with each event's reply, from a store of the least sizes
//! whose first journal has room for two groups more: a group and its follower, one that finds no
//! room, a seal, and a group and its follower in the other journal, with the steps of a whole
//! checkpoint between those of the flusher.

use group_core::{FollowError, SubmitError};
use test_group_scripts::acts::{Act, GONE, INSERTED, Line, NOTHING, Said};

/// The steps of a group up to the write of its gate.
const TO_GATE: &[Line] = &[
    (Act::Stage, Said::Done),
    (Act::WriteGroup, Said::Done),
    (Act::SyncGroup, Said::Done),
    (Act::OpenGate, Said::Done),
];

/// The steps of a group that follows one whose gate was written, up to the publishing of that one.
const FOLLOWED: &[Line] = &[
    (Act::Follow, Said::Done),
    (Act::WriteFollowing, Said::Done),
    (Act::SyncFollowed, Said::Done),
    (Act::PublishFollowed, Said::Done),
];

/// The last steps of a group that no group follows.
const ALONE: &[Line] = &[(Act::SyncGate, Said::Done), (Act::Publish, Said::Done)];

/// The first steps of the checkpoint, between those of a group.
const LAID: &[Line] = &[
    (Act::Stage, Said::Done),
    (Act::Begin, Said::Done),
    (Act::WriteGroup, Said::Done),
    (Act::WriteChunk, Said::Done),
    (Act::SyncGroup, Said::Done),
    (Act::SyncChunks, Said::Done),
    (Act::OpenGate, Said::Done),
    (Act::OpenHalf, Said::Done),
];

/// The last steps of the checkpoint, between those of the group that follows.
const CLOSED: &[Line] = &[
    (Act::Follow, Said::Done),
    (Act::WriteFollowing, Said::Done),
    (Act::CloseHalf, Said::Done),
    (Act::SyncFollowed, Said::Done),
    (Act::SyncClose, Said::Done),
    (Act::PublishFollowed, Said::Done),
];

/// A store of version 2.
pub const FOLLOWED_NEW: [&[Line]; 16] = [
    &[
        (Act::Lookup, Said::Shows(0)),
        (Act::Put(1), Said::Accepted(255)),
    ],
    TO_GATE,
    &[
        (Act::Follow, Said::Follow(FollowError::Empty)),
        (Act::Put(2), Said::Accepted(256)),
    ],
    FOLLOWED,
    &[
        (Act::Redeem(0), Said::Committed(255, INSERTED)),
        (Act::Redeem(1), Said::Waiting(256)),
        (Act::Lookup, Said::Shows(0b10)),
        (Act::Put(3), Said::Accepted(257)),
        (Act::OpenGate, Said::Done),
        // The next gate is in sector 514 of the journal: no payload has room after it.
        (Act::Follow, Said::Follow(FollowError::NoRoom)),
    ],
    ALONE,
    &[
        (Act::Redeem(1), Said::Committed(256, INSERTED)),
        (Act::Lookup, Said::Shows(0b110)),
    ],
    // A seal.
    TO_GATE,
    &[(Act::Follow, Said::Follow(FollowError::Seal))],
    ALONE,
    &[
        (Act::Redeem(2), Said::Waiting(257)),
        (Act::Lookup, Said::Shows(0b110)),
    ],
    LAID,
    &[
        (Act::Put(4), Said::Accepted(258)),
        (Act::SyncHalf, Said::Done),
    ],
    CLOSED,
    &[
        (Act::Redeem(2), Said::Committed(257, INSERTED)),
        (Act::Lookup, Said::Shows(0b1110)),
        (Act::OpenGate, Said::Done),
        (Act::Follow, Said::Follow(FollowError::Empty)),
        (Act::SyncGate, Said::Done),
        (Act::Publish, Said::Done),
    ],
    &[
        (Act::Redeem(3), Said::Committed(258, INSERTED)),
        (Act::Lookup, Said::Shows(0b11110)),
    ],
];

/// A store of version 1, whose groups have at most eight commands until the checkpoint's half
/// counts.
pub const FOLLOWED_OLD: [&[Line]; 17] = [
    // Eight commands, and two that follow.
    &[
        (Act::Lookup, Said::Shows(0)),
        (Act::Put(1), Said::Accepted(255)),
        (Act::Put(2), Said::Accepted(256)),
        (Act::Purge(0), Said::Accepted(257)),
        (Act::Purge(0), Said::Accepted(258)),
        (Act::Purge(0), Said::Accepted(259)),
        (Act::Purge(0), Said::Accepted(260)),
        (Act::Purge(0), Said::Accepted(261)),
        (Act::Purge(0), Said::Accepted(262)),
        (Act::Purge(0), Said::Accepted(263)),
        (Act::Put(3), Said::Accepted(264)),
    ],
    TO_GATE,
    FOLLOWED,
    &[
        (Act::Redeem(0), Said::Committed(255, INSERTED)),
        (Act::Redeem(7), Said::Committed(262, NOTHING)),
        (Act::Redeem(8), Said::Waiting(263)),
        (Act::Lookup, Said::Shows(0b110)),
        (Act::OpenGate, Said::Done),
        (Act::Follow, Said::Follow(FollowError::Empty)),
    ],
    ALONE,
    &[
        (Act::Redeem(8), Said::Committed(263, NOTHING)),
        (Act::Redeem(9), Said::Committed(264, INSERTED)),
        (Act::Lookup, Said::Shows(0b1110)),
        (Act::Put(4), Said::Accepted(265)),
        (Act::Purge(0), Said::Accepted(266)),
        (Act::Purge(0), Said::Accepted(267)),
        (Act::Purge(0), Said::Accepted(268)),
        (Act::Purge(0), Said::Accepted(269)),
        (Act::Purge(0), Said::Accepted(270)),
        (Act::Purge(0), Said::Accepted(271)),
        (Act::Purge(0), Said::Accepted(272)),
    ],
    // A seal.
    TO_GATE,
    &[(Act::Follow, Said::Follow(FollowError::Seal))],
    ALONE,
    &[
        (Act::Redeem(10), Said::Waiting(265)),
        (Act::Lookup, Said::Shows(0b1110)),
    ],
    // Eight commands.
    LAID,
    &[
        (Act::Remove(1), Said::Refused(SubmitError::OldStore)),
        (Act::SyncHalf, Said::Done),
        (Act::Remove(1), Said::Accepted(273)),
        (Act::Purge(0), Said::Accepted(274)),
        (Act::Purge(0), Said::Accepted(275)),
        (Act::Purge(0), Said::Accepted(276)),
        (Act::Purge(0), Said::Accepted(277)),
        (Act::Purge(0), Said::Accepted(278)),
        (Act::Purge(0), Said::Accepted(279)),
        (Act::Purge(0), Said::Accepted(280)),
        (Act::Purge(0), Said::Accepted(281)),
    ],
    // Nine commands follow, a removal among them.
    CLOSED,
    &[
        (Act::Redeem(10), Said::Committed(265, INSERTED)),
        (Act::Redeem(17), Said::Committed(272, NOTHING)),
        (Act::Lookup, Said::Shows(0b11110)),
        (Act::OpenGate, Said::Done),
        (Act::Follow, Said::Follow(FollowError::Empty)),
    ],
    ALONE,
    &[
        (Act::Redeem(18), Said::Committed(273, GONE)),
        (Act::Redeem(26), Said::Committed(281, NOTHING)),
        (Act::Lookup, Said::Shows(0b11100)),
    ],
    &[
        (Act::Put(5), Said::Accepted(282)),
        (Act::Redeem(27), Said::Waiting(282)),
    ],
];
