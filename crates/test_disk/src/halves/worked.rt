//! A segment that was worked through by hand, and others like it.

use gate_journal::{JournalError, Scan, can_be_group, encode_group, scan};
use path_db::{Command, Registration};
use seg_core::{SegType, Segment, read_segment};
use std::alloc::Global;
use std::test::Fail;
use test_support::{TestHost, assert_true};
pub(crate) use test_support::{EXPIRY, ID, SEGMENT};

/// The worked segment.
pub(crate) fn segment(alloc: Global) -> Result<Segment, Fail> {
    Ok(read_segment(alloc, &SEGMENT)?)
}

/// The worked segment with another timestamp and another segment id, both below 128. It has the
/// same hops, and so that id.
pub(crate) fn dated(alloc: Global, timestamp: u8, segment_id: u8) -> Result<Segment, Fail> {
    Ok(read_segment(alloc, &test_support::dated(timestamp, segment_id))?)
}

/// The worked segment, but its first AS is left by this interface, below 128: its id is another.
pub(crate) fn leaving_by(alloc: Global, egress: u8) -> Result<Segment, Fail> {
    Ok(read_segment(alloc, &test_support::leaving_by(egress))?)
}

/// The command that registers this segment.
pub(crate) fn register(alloc: Global, kind: SegType, segment: Segment) -> Result<Command, Fail> {
    let mut rows = Vec::new(alloc);
    rows.push((kind, segment))?;
    Ok(Command::Register(Registration::new(rows)))
}

/// The command that registers this number of segments of this number of ids.
pub(crate) fn many(alloc: Global, count: u8) -> Result<Command, Fail> {
    let mut rows = Vec::new(alloc);
    for egress in 1..=count {
        rows.push((SegType::Down, leaving_by(alloc, egress)?))?;
    }
    Ok(Command::Register(Registration::new(rows)))
}

/// This number of purges, at the moments from 0 on.
pub(crate) fn purges(alloc: Global, count: u64) -> Result<Vec<Command>, Fail> {
    let mut commands = Vec::new(alloc);
    for moment in 0..count {
        commands.push(Command::Purge(moment))?;
    }
    Ok(commands)
}

/// A purge, and the registration of the worked segment.
pub(crate) fn purge_and_registration(alloc: Global) -> Result<[Command; 2], Fail> {
    let registration = register(alloc, SegType::Down, segment(alloc)?)?;
    Ok([Command::Purge(5), registration])
}

/// The payload of commands that can be a group at a place.
pub(crate) fn payload_of(
    rt: &impl TestHost,
    alloc: Global,
    commands: &[Command],
    place: u64,
) -> Result<Vec<u8>, Fail> {
    assert_true(rt, can_be_group(commands, place), "they can be a group");
    Ok(encode_group(alloc, commands, place)?)
}

/// The payload of commands that can be a group at place 0. Where memory is refused, it is written
/// again.
pub(crate) fn payload_again(
    rt: &impl TestHost,
    alloc: Global,
    commands: &[Command],
) -> Result<Vec<u8>, Fail> {
    assert_true(rt, can_be_group(commands, 0), "they can be a group");
    match encode_group(alloc, commands, 0) {
        Ok(payload) => Ok(payload),
        Err(_) => Ok(encode_group(alloc, commands, 0)?),
    }
}

/// Adds a purge's record: its length, and the command.
fn add_purge(bytes: &mut Vec<u8>, moment: u64) -> Result<(), Fail> {
    bytes.extend_from_slice(&[0, 0, 0, 9, 2])?;
    bytes.extend_from_slice(&moment.to_be_bytes())?;
    Ok(())
}

/// Adds the payload of a group of this number of purges, as it is drawn, byte by byte.
fn add_drawn(bytes: &mut Vec<u8>, count: u8, place: u64) -> Result<(), Fail> {
    let size = u32::from(count) * 13;
    bytes.extend_from_slice(&[1, count, 0, 0])?;
    bytes.extend_from_slice(&size.to_be_bytes())?;
    bytes.extend_from_slice(&place.to_be_bytes())?;
    for moment in 0..u64::from(count) {
        add_purge(bytes, moment)?;
    }
    pad(bytes)
}

/// The payload of that group alone.
pub(crate) fn drawn(alloc: Global, count: u8, place: u64) -> Result<Vec<u8>, Fail> {
    let mut bytes = Vec::new(alloc);
    add_drawn(&mut bytes, count, place)?;
    Ok(bytes)
}

/// What is in a journal.
#[derive(Clone, Copy, Debug)]
pub(crate) enum Part {
    /// An open gate.
    Open,
    /// A closed gate.
    Closed,
    /// The group of this number of purges at this place.
    Purges(u8, u64),
    /// The removal of a down segment, at place 0.
    Removal,
    /// The seal at this place.
    Seal(u64),
}

/// The payload of the removal of a down segment, at place 0, up to its zeros.
const REMOVAL: [u8; 22] = [
    1, 1, 0, 0, 0, 0, 0, 38, 0, 0, 0, 0, 0, 0, 0, 0, // the header
    0, 0, 0, 34, 3, 2, // the length, the kind, and the type
];

/// Adds the bytes of a part to whole sectors.
fn add_part(bytes: &mut Vec<u8>, part: Part) -> Result<(), Fail> {
    match part {
        Part::Open => add_sector(bytes, &[0xa7]),
        Part::Closed => add_sector(bytes, &[0]),
        Part::Purges(count, place) => add_drawn(bytes, count, place),
        Part::Removal => add_sector(bytes, &REMOVAL),
        Part::Seal(place) => add_seal(bytes, place),
    }
}

/// Adds the bytes of these parts to whole sectors.
pub(crate) fn add_parts(bytes: &mut Vec<u8>, parts: &[Part]) -> Result<(), Fail> {
    for part in parts {
        add_part(bytes, *part)?;
    }
    Ok(())
}

/// The bytes of these parts.
pub(crate) fn bytes_of(alloc: Global, parts: &[Part]) -> Result<Vec<u8>, Fail> {
    let mut bytes = Vec::new(alloc);
    add_parts(&mut bytes, parts)?;
    Ok(bytes)
}

/// Adds a sector that begins so, zeros after that.
fn add_sector(bytes: &mut Vec<u8>, front: &[u8]) -> Result<(), Fail> {
    bytes.extend_from_slice(front)?;
    pad(bytes)
}

/// Adds the seal at a place.
fn add_seal(bytes: &mut Vec<u8>, place: u64) -> Result<(), Fail> {
    bytes.extend_from_slice(&[2, 0, 0, 0, 0, 0, 0, 0])?;
    add_sector(bytes, &place.to_be_bytes())
}

/// Appends zeros up to a whole sector.
fn pad(bytes: &mut Vec<u8>) -> Result<(), Fail> {
    for _ in 0..512u16 {
        if bytes.len() % 512 != 0 {
            bytes.push(0)?;
        }
    }
    Ok(())
}

/// What a journal reads as.
#[derive(Clone, Copy, Debug, PartialEq, Eq)]
pub(crate) struct Outline {
    /// How many commands it has.
    pub(crate) commands: usize,
    /// The sector of its first gate that is not open.
    pub(crate) tail: u64,
    pub(crate) is_sealed: bool,
    /// The place reached.
    pub(crate) place: u64,
}

/// What a journal reads as, or why it does not.
pub(crate) type Seen = Result<Outline, JournalError>;

/// The outline of a journal that was read.
pub(crate) fn outline_of(read: &Scan) -> Outline {
    Outline {
        commands: read.commands.len(),
        tail: read.tail,
        is_sealed: read.sealed,
        place: read.place,
    }
}

/// What these bytes read as, or want of memory.
pub(crate) fn read_as(
    rt: &impl TestHost,
    alloc: Global,
    bytes: &[u8],
    place: u64,
    version: u32,
) -> Seen {
    assert_true(rt, bytes.len() >= 512, "a journal has a sector");
    assert_true(rt, bytes.len() % 512 == 0, "a journal has whole sectors");
    let read = scan(alloc, bytes, place, version)?;
    Ok(outline_of(&read))
}

/// What these bytes read as. Want of memory is no answer.
pub(crate) fn seen(
    rt: &impl TestHost,
    alloc: Global,
    bytes: &[u8],
    place: u64,
    version: u32,
) -> Result<Seen, Fail> {
    match read_as(rt, alloc, bytes, place, version) {
        Err(JournalError::NoMemory) => Err(JournalError::NoMemory.into()),
        answer => Ok(answer),
    }
}
