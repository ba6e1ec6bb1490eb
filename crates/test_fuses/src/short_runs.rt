//! Short runs, with each event's reply, from a store of the least sizes whose first journal is
//! nearly full: two groups, a seal, and two or three groups more, with the steps of a whole
//! checkpoint between those of the flusher.

use group_core::SubmitError;
use sector_dev::MemDevice;
use test_group_scripts::acts::{Act, GONE, GROUP, INSERTED, Line, Said};
use test_group_scripts::stores::change;

/// How many groups of one purge the store has: the place that a run starts from.
pub const FIRST: u64 = 255;

/// How far the reads are apart that are tried: each is, and an opening makes three for each of
/// those groups.
pub const READS: u64 = 1;

/// A group of one purge of what expires at moment 0, up to the place, and after it.
pub const BEFORE_PLACE: [u8; 8] = [1, 1, 0, 0, 0, 0, 0, 13];

pub const AFTER_PLACE: [u8; 13] = [0, 0, 0, 9, 2, 0, 0, 0, 0, 0, 0, 0, 0];

/// The sector of the first journal's first gate. A group of one purge takes one sector, which is
/// after its gate.
pub const FIRST_GATE: u64 = 4;

/// A new store with the groups in its first journal.
pub fn with_purges(device: MemDevice) -> MemDevice {
    let mut device = device;
    for place in 0..FIRST {
        let gate = FIRST_GATE + 2 * place;
        change(&mut device, gate + 1, 0, &BEFORE_PLACE);
        change(&mut device, gate + 1, 8, &place.to_be_bytes());
        change(&mut device, gate + 1, 16, &AFTER_PLACE);
        change(&mut device, gate, 0, &[0xa7]);
    }
    device
}

/// What comes before the first group.
const FIRST_PUT: &[Line] = &[
    (Act::Lookup, Said::Shows(0)),
    (Act::Put(1), Said::Accepted(255)),
];

/// What comes between it and the second one.
const SECOND_PUT: &[Line] = &[
    (Act::Redeem(0), Said::Committed(255, INSERTED)),
    (Act::Lookup, Said::Shows(0b10)),
    (Act::Put(2), Said::Accepted(256)),
];

/// What comes between that and a seal, which is in the sectors 514 and 515 of the journal.
const THIRD_PUT: &[Line] = &[
    (Act::Redeem(1), Said::Committed(256, INSERTED)),
    (Act::Lookup, Said::Shows(0b110)),
    (Act::Put(3), Said::Accepted(257)),
];

/// What comes after the seal.
const SEALED: &[Line] = &[
    (Act::Redeem(2), Said::Waiting(257)),
    (Act::Lookup, Said::Shows(0b110)),
];

/// The first steps of the checkpoint, between those of the third segment's group: the checkpoint's
/// half does not count yet.
const LAID: &[Line] = &[
    (Act::Stage, Said::Done),
    (Act::Begin, Said::Done),
    (Act::WriteGroup, Said::Done),
    (Act::WriteChunk, Said::Done),
    (Act::SyncGroup, Said::Done),
    (Act::SyncChunks, Said::Done),
    (Act::OpenGate, Said::Done),
    (Act::OpenHalf, Said::Done),
    (Act::SyncGate, Said::Done),
];

/// The checkpoint's half counts, and the third segment is committed.
const COUNTS: &[Line] = &[
    (Act::SyncHalf, Said::Done),
    (Act::Publish, Said::Done),
    (Act::Redeem(2), Said::Committed(257, INSERTED)),
    (Act::Lookup, Said::Shows(0b1110)),
];

/// The last steps of the checkpoint, between those of a further group.
const CLOSED: &[Line] = &[
    (Act::Stage, Said::Done),
    (Act::CloseHalf, Said::Done),
    (Act::WriteGroup, Said::Done),
    (Act::SyncClose, Said::Done),
    (Act::SyncGroup, Said::Done),
    (Act::OpenGate, Said::Done),
    (Act::SyncGate, Said::Done),
    (Act::Publish, Said::Done),
];

/// A store of version 2.
pub const SHORT_NEW: [&[Line]; 12] = [
    FIRST_PUT,
    &GROUP,
    SECOND_PUT,
    &GROUP,
    THIRD_PUT,
    &GROUP,
    SEALED,
    LAID,
    COUNTS,
    &[(Act::Put(4), Said::Accepted(258))],
    CLOSED,
    &[
        (Act::Redeem(3), Said::Committed(258, INSERTED)),
        (Act::Lookup, Said::Shows(0b11110)),
    ],
];

/// A store of version 1: a removal is accepted once the checkpoint's half counts.
pub const SHORT_OLD: [&[Line]; 15] = [
    FIRST_PUT,
    &GROUP,
    SECOND_PUT,
    &GROUP,
    THIRD_PUT,
    &GROUP,
    SEALED,
    LAID,
    &[(Act::Remove(1), Said::Refused(SubmitError::OldStore))],
    COUNTS,
    &[(Act::Remove(1), Said::Accepted(258))],
    CLOSED,
    &[
        (Act::Redeem(3), Said::Committed(258, GONE)),
        (Act::Lookup, Said::Shows(0b1100)),
        (Act::Put(4), Said::Accepted(259)),
    ],
    &GROUP,
    &[
        (Act::Redeem(4), Said::Committed(259, INSERTED)),
        (Act::Lookup, Said::Shows(0b11100)),
    ],
];
