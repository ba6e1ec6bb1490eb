//! Events of a run and what they are answered, in a form that tables can hold.

use crate::stores::{large, register};
use group_core::{BeginError, FollowError, StageError, SubmitError};
use group_recovery::{Event, PublishRefusal, Reply, StepRefusal};
use isd_as::IsdAs;
use path_db::{Command, Outcome};
use seg_core::{SegType, Segment};
use seg_lookup::Query;
use std::alloc::{AllocError, Global};
use test_support::{ID, TestHost};

/// An event, and its expected answer.
pub type Line = (Act, Said);

/// An event.
#[derive(Clone, Copy, Debug)]
pub enum Act {
    /// Registers the segment left by this interface.
    Put(u8),
    /// Registers eight large segments, left by the interfaces 41 to 48, made this number of seconds
    /// after the first of their kind.
    Large(u8),
    /// Registers a ninth one, left by interface 49.
    Ninth,
    /// Registers large segments left by interface 1, which are older than the one that `Put`
    /// registers: eight times the same.
    Older,
    /// Purges what expires up to this moment.
    Purge(u64),
    /// Removes the segment left by interface 1, 2 or 41.
    Remove(u8),
    Stage,
    WriteGroup,
    SyncGroup,
    OpenGate,
    SyncGate,
    Publish,
    Follow,
    WriteFollowing,
    SyncFollowed,
    PublishFollowed,
    Redeem(usize),
    Prepare,
    Begin,
    WriteChunk,
    SyncChunks,
    OpenHalf,
    SyncHalf,
    CloseHalf,
    SyncClose,
    /// Looks up the segments of this kind, at moment 0.
    Lookup,
    Halt,
}

/// What an event was answered.
#[derive(Clone, Copy, Debug, PartialEq, Eq)]
pub enum Said {
    Accepted(u64),
    Refused(SubmitError),
    Done,
    Stage(StageError),
    Follow(FollowError),
    Begin(BeginError),
    Step(StepRefusal),
    Publish(PublishRefusal),
    Committed(u64, Outcome),
    Waiting(u64),
    Unknown(u64),
    /// These segments are shown: a bit for each interface by which one is left.
    Shows(u64),
    NoAnswer,
    NoValue,
    /// The run came back, and nothing was done.
    NotRun,
}

/// The steps of a flusher, each of which is made.
pub const GROUP: [Line; 6] = [
    (Act::Stage, Said::Done),
    (Act::WriteGroup, Said::Done),
    (Act::SyncGroup, Said::Done),
    (Act::OpenGate, Said::Done),
    (Act::SyncGate, Said::Done),
    (Act::Publish, Said::Done),
];

/// What a command does that changes no rows.
pub const NOTHING: Outcome = Outcome {
    inserted: 0,
    updated: 0,
    kept: 0,
    purged: 0,
};

/// What a segment does that is new.
pub const INSERTED: Outcome = Outcome {
    inserted: 1,
    ..NOTHING
};

/// What a command does that takes one row away.
pub const GONE: Outcome = Outcome {
    purged: 1,
    ..NOTHING
};

/// What eight large segments do that are new.
pub const EIGHT_NEW: Outcome = Outcome {
    inserted: 8,
    ..NOTHING
};

/// What they do where earlier ones are.
pub const EIGHT_NEWER: Outcome = Outcome {
    updated: 8,
    ..NOTHING
};

/// What they do where a later one is.
pub const EIGHT_OLDER: Outcome = Outcome { kept: 8, ..NOTHING };

/// The ids of segments by the interface by which they are left: SHA-256 over `0001ff0000000110
/// 0000`, the interface, and `0001ff0000000111 0002 0000`.
const IDS: [(u8, [u8; 32]); 3] = [
    (1, ID),
    (
        2,
        [
            0x19, 0x31, 0x4b, 0x93, 0x3e, 0x50, 0x98, 0xa8, 0x4b, 0x6d, 0xe3, 0x0c, 0xb4, 0x40,
            0xe9, 0x7a, 0x63, 0xcd, 0x68, 0x6a, 0x1c, 0x50, 0xae, 0x24, 0xc2, 0x57, 0xd0, 0xac,
            0x1a, 0x2e, 0x18, 0xb6,
        ],
    ),
    (
        41,
        [
            0xe2, 0x3b, 0x31, 0x8a, 0x8a, 0x5b, 0x80, 0xe5, 0x1c, 0x2b, 0xcb, 0x53, 0x38, 0x3f,
            0xa4, 0x09, 0x70, 0xe9, 0x89, 0xd7, 0xf5, 0x09, 0x84, 0xa7, 0x7c, 0x92, 0x32, 0x3b,
            0x38, 0xa5, 0xc5, 0x5a,
        ],
    ),
];

/// The id of the segment left by an interface; zeros where it is not among them.
fn id_of(egress: u8) -> [u8; 32] {
    for (of, id) in IDS {
        if of == egress {
            return id;
        }
    }
    [0; 32]
}

/// The lookup of down segments from 1-ff00:0:110 to 1-ff00:0:111.
pub fn query() -> Query {
    Query {
        kind: SegType::Down,
        start: IsdAs::from_u64(0x0001_ff00_0000_0110),
        end: IsdAs::from_u64(0x0001_ff00_0000_0111),
    }
}

/// A bit for each interface by which one of these segments is left.
pub fn shown(segments: &[Segment]) -> u64 {
    let mut bits = 0u64;
    for segment in segments {
        for entry in segment.entries().iter().take(1) {
            bits |= 1u64.wrapping_shl(u32::from(entry.egress));
        }
    }
    bits
}

/// The event.
pub fn event_of(rt: &impl TestHost, alloc: Global, act: Act) -> Event {
    match act {
        Act::Put(egress) => Event::Submit(register(rt, alloc, egress, 1)),
        Act::Large(made) => Event::Submit(large(
            rt,
            alloc,
            &[41, 42, 43, 44, 45, 46, 47, 48],
            made,
        )),
        Act::Ninth => Event::Submit(large(rt, alloc, &[49], 0)),
        Act::Older => Event::Submit(large(rt, alloc, &[1; 8], 0)),
        Act::Purge(moment) => Event::Submit(Command::Purge(moment)),
        Act::Remove(egress) => Event::Submit(Command::Remove(SegType::Down, id_of(egress))),
        Act::Stage => Event::Stage,
        Act::WriteGroup => Event::WriteGroup,
        Act::SyncGroup => Event::SyncGroup,
        Act::OpenGate => Event::OpenGate,
        Act::SyncGate => Event::SyncGate,
        Act::Publish => Event::Publish,
        Act::Follow => Event::Follow,
        Act::WriteFollowing => Event::WriteFollowing,
        Act::SyncFollowed => Event::SyncFollowed,
        Act::PublishFollowed => Event::PublishFollowed,
        Act::Redeem(k) => Event::Redeem(k),
        Act::Prepare => Event::Prepare,
        Act::Begin => Event::Begin,
        Act::WriteChunk => Event::WriteChunk,
        Act::SyncChunks => Event::SyncChunks,
        Act::OpenHalf => Event::OpenHalf,
        Act::SyncHalf => Event::SyncHalf,
        Act::CloseHalf => Event::CloseHalf,
        Act::SyncClose => Event::SyncClose,
        Act::Lookup => Event::Lookup(query(), 0),
        Act::Halt => Event::Halt,
    }
}

/// These parts of a table in one list. Where memory is refused, it is asked for once more.
pub fn joined(rt: &impl TestHost, alloc: Global, parts: &[&[Line]]) -> Vec<Line> {
    let made = match joined_once(alloc, parts) {
        Err(_) => joined_once(alloc, parts),
        made => made,
    };
    match made {
        Ok(lines) => lines,
        Err(_) => rt.fail("out of memory"),
    }
}

/// These parts in one list.
fn joined_once(alloc: Global, parts: &[&[Line]]) -> Result<Vec<Line>, AllocError> {
    let mut lines = Vec::new(alloc);
    for part in parts {
        lines.extend_from_slice(part)?;
    }
    Ok(lines)
}

/// The events of these lines. Where memory is refused for their list, it is asked for once more.
pub fn events_of(rt: &impl TestHost, alloc: Global, lines: &[Line]) -> Vec<Event> {
    let mut events = room_for(rt, alloc, lines.len());
    for (act, _said) in lines {
        push_event(rt, alloc, &mut events, *act);
    }
    events
}

/// A list with room for this number of events. Where memory is refused, it is asked for once more.
fn room_for(rt: &impl TestHost, alloc: Global, count: usize) -> Vec<Event> {
    let room = match Vec::with_capacity(alloc, count) {
        Err(_) => Vec::with_capacity(alloc, count),
        given => given,
    };
    match room {
        Ok(events) => events,
        Err(_) => rt.fail("out of memory"),
    }
}

/// Appends an event.
fn push_event(rt: &impl TestHost, alloc: Global, events: &mut Vec<Event>, act: Act) {
    if let Err(_event) = events.push(event_of(rt, alloc, act)) {
        rt.fail("out of memory");
    }
}

/// What a reply says.
pub fn heard(reply: &Reply) -> Said {
    match reply {
        Reply::Accepted(place) => Said::Accepted(*place),
        Reply::Refused(refusal) => Said::Refused(*refusal),
        Reply::Done | Reply::Prepared(_) => Said::Done,
        Reply::StageRefused(refusal) => Said::Stage(*refusal),
        Reply::FollowRefused(refusal) => Said::Follow(*refusal),
        Reply::BeginRefused(refusal) => Said::Begin(*refusal),
        Reply::StepRefused(refusal) => Said::Step(*refusal),
        Reply::PublishRefused(refusal) => Said::Publish(*refusal),
        Reply::Committed(place, outcome) => Said::Committed(*place, *outcome),
        Reply::Waiting(place) => Said::Waiting(*place),
        Reply::Unknown(place) => Said::Unknown(*place),
        Reply::Answer(segments) => Said::Shows(shown(segments)),
        Reply::AnswerRefused => Said::NoAnswer,
        Reply::NoValue => Said::NoValue,
    }
}
