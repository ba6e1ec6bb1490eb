//! A segment that was worked through by hand, and others like it.

use path_db::{Command, Outcome, PathDb, Registration};
use seg_core::{SegType, Segment, read_segment};
use std::alloc::{AllocError, Global};
use std::test::Fail;
pub(crate) use test_support::{EXPIRY, ID, SEGMENT};

/// The worked segment.
pub(crate) fn segment(alloc: Global) -> Result<Segment, Fail> {
    Ok(read_segment(alloc, &SEGMENT)?)
}

/// The worked segment with another timestamp and another segment id, both below 128. It has the
/// same hops, and so the same id.
pub(crate) fn dated(alloc: Global, timestamp: u8, segment_id: u8) -> Result<Segment, Fail> {
    Ok(read_segment(alloc, &test_support::dated(timestamp, segment_id))?)
}

/// The worked segment, which leaves its first AS by this interface, below 128: its id is another.
pub(crate) fn leaving_by(alloc: Global, egress: u8) -> Result<Segment, Fail> {
    Ok(read_segment(alloc, &test_support::leaving_by(egress))?)
}

/// The worked segment with another timestamp, below 128, which leaves its first AS by this
/// interface, below 128.
pub(crate) fn dated_by(alloc: Global, timestamp: u8, egress: u8) -> Result<Segment, Fail> {
    Ok(read_segment(alloc, &test_support::dated_by(timestamp, egress))?)
}

/// The command that registers this segment.
pub(crate) fn register(alloc: Global, kind: SegType, segment: Segment) -> Result<Command, Fail> {
    let mut rows = Vec::new(alloc);
    rows.push((kind, segment))?;
    Ok(Command::Register(Registration::new(rows)))
}

/// The worked segment as a down segment with the timestamps 10, 11, 11 and 9, each time with
/// another segment id, in one registration.
pub(crate) fn four(alloc: Global) -> Result<Registration, Fail> {
    let mut rows = Vec::new(alloc);
    for (timestamp, segment_id) in [(10, 1), (11, 2), (11, 3), (9, 4)] {
        rows.push((SegType::Down, dated(alloc, timestamp, segment_id)?))?;
    }
    Ok(Registration::new(rows))
}

// ---- databases: no test needs a fact about one, and calls without contracts keep the proofs short

/// A database without rows.
pub(crate) fn no_rows(alloc: Global) -> PathDb {
    PathDb::new(alloc)
}

/// Applies a command.
pub(crate) fn apply(database: &mut PathDb, command: &Command) -> Result<Outcome, AllocError> {
    database.apply(command)
}

/// Purges what expires before a moment.
pub(crate) fn purge(database: &mut PathDb, moment: u64) -> Result<Outcome, AllocError> {
    apply(database, &Command::Purge(moment))
}

/// Removes the segment of a type and an id.
pub(crate) fn remove(
    database: &mut PathDb,
    kind: SegType,
    id: [u8; 32],
) -> Result<Outcome, AllocError> {
    apply(database, &Command::Remove(kind, id))
}

/// Registers a segment.
pub(crate) fn put(
    alloc: Global,
    database: &mut PathDb,
    kind: SegType,
    segment: Segment,
) -> Result<Outcome, Fail> {
    let command = register(alloc, kind, segment)?;
    Ok(apply(database, &command)?)
}

/// A database of the worked segment under this type.
pub(crate) fn row_of(alloc: Global, kind: SegType) -> Result<PathDb, Fail> {
    let mut database = no_rows(alloc);
    put(alloc, &mut database, kind, segment(alloc)?)?;
    Ok(database)
}

/// An equal database.
pub(crate) fn copy_of(database: &PathDb) -> Result<PathDb, AllocError> {
    database.try_clone()
}

/// The number of rows.
pub(crate) fn count_rows(database: &PathDb) -> usize {
    database.rows().count()
}

/// The bytes of all rows as records.
pub(crate) fn len_of(database: &PathDb) -> u64 {
    database.encoded_len()
}

/// Whether a segment is under a type and an id.
pub(crate) fn is_there(database: &PathDb, kind: SegType, id: &[u8; 32]) -> bool {
    database.get(kind, id).is_some()
}

/// The segment id of the down segment that has the worked segment's id.
pub(crate) fn standing(database: &PathDb) -> Option<u16> {
    database.get(SegType::Down, &ID).map(Segment::segment_id)
}
