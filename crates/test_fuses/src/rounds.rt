//! Groups that follow each other, with each event's reply, and a whole round of the checkpointer
//! that comes between any two of their events. They start from a store of the least sizes whose
//! first journal is sealed.

use crate::short_runs::{AFTER_PLACE, BEFORE_PLACE, FIRST_GATE};
use group_core::FollowError;
use sector_dev::MemDevice;
use test_group_scripts::acts::{Act, INSERTED, Line, Said};
use test_group_scripts::stores::{SEAL, change};

/// The place of the seal: the place that a run starts from.
pub const SEALED_AT: u64 = 1;

/// A new store whose first journal has a group of one purge, and a seal after it.
pub fn with_sealed_purge(device: MemDevice) -> MemDevice {
    let mut device = device;
    change(&mut device, FIRST_GATE + 1, 0, &BEFORE_PLACE);
    change(&mut device, FIRST_GATE + 1, 16, &AFTER_PLACE);
    change(&mut device, FIRST_GATE + 3, 0, &SEAL);
    change(&mut device, FIRST_GATE + 2, 0, &[0xa7]);
    change(&mut device, FIRST_GATE, 0, &[0xa7]);
    device
}

/// Three groups of a segment each, of which the second and the third one follow.
pub const FLUSHER: &[Line] = &[
    (Act::Put(1), Said::Accepted(1)),
    (Act::Stage, Said::Done),
    (Act::WriteGroup, Said::Done),
    (Act::SyncGroup, Said::Done),
    (Act::OpenGate, Said::Done),
    (Act::Put(2), Said::Accepted(2)),
    (Act::Follow, Said::Done),
    (Act::WriteFollowing, Said::Done),
    (Act::SyncFollowed, Said::Done),
    (Act::PublishFollowed, Said::Done),
    (Act::Redeem(0), Said::Committed(1, INSERTED)),
    (Act::Lookup, Said::Shows(0b10)),
    (Act::OpenGate, Said::Done),
    (Act::Put(3), Said::Accepted(3)),
    (Act::Follow, Said::Done),
    (Act::WriteFollowing, Said::Done),
    (Act::SyncFollowed, Said::Done),
    (Act::PublishFollowed, Said::Done),
    (Act::Redeem(1), Said::Committed(2, INSERTED)),
    (Act::Lookup, Said::Shows(0b110)),
    (Act::OpenGate, Said::Done),
    (Act::Follow, Said::Follow(FollowError::Empty)),
    (Act::SyncGate, Said::Done),
    (Act::Publish, Said::Done),
    (Act::Redeem(2), Said::Committed(3, INSERTED)),
    (Act::Lookup, Said::Shows(0b1110)),
];

/// A whole round of the checkpointer, whose checkpoint takes one chunk.
pub const ROUND: &[Line] = &[
    (Act::Begin, Said::Done),
    (Act::WriteChunk, Said::Done),
    (Act::SyncChunks, Said::Done),
    (Act::OpenHalf, Said::Done),
    (Act::SyncHalf, Said::Done),
    (Act::CloseHalf, Said::Done),
    (Act::SyncClose, Said::Done),
];
