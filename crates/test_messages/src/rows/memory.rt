//! Refused memory: a command is applied completely or not at all.

use crate::host::Host;
use crate::rows::records::{assert_written_as, written};
use crate::rows::worked::{
    ID, apply, count_rows, dated_by, is_there, leaving_by, len_of, put, row_of,
};
use isd_as::IsdAs;
use path_db::{Command, Outcome, PathDb, Registration};
use seg_core::SegType;
use std::alloc::{AllocError, Global};
use std::test::Fail;
use test_support::{TestHost, assert_same};

/// The command that registers sixteen segments of sixteen ids, the worked one among them.
fn sixteen(alloc: Global) -> Result<Command, Fail> {
    let mut rows = Vec::new(alloc);
    for egress in 1..=16 {
        rows.push((SegType::Down, leaving_by(alloc, egress)?))?;
    }
    Ok(Command::Register(Registration::new(rows)))
}

/// How many rows there are, their bytes, and whether the worked segment is there as a down and as a
/// core segment.
#[derive(Clone, Copy, Debug, PartialEq, Eq)]
struct View {
    rows: usize,
    bytes: u64,
    has_down: bool,
    has_core: bool,
}

/// What a database shows.
fn shown(database: &PathDb) -> View {
    View {
        rows: count_rows(database),
        bytes: len_of(database),
        has_down: is_there(database, SegType::Down, &ID),
        has_core: is_there(database, SegType::Core, &ID),
    }
}

/// Applies a command to a database of which this is shown. Where it is refused, the same is shown,
/// and the command is applied again.
fn apply_again(
    rt: &impl TestHost,
    database: &mut PathDb,
    command: &Command,
    before: View,
) -> Result<Outcome, AllocError> {
    match apply(database, command) {
        Ok(outcome) => Ok(outcome),
        Err(_) => {
            assert_same(rt, &shown(database), &before, &"after the refusal");
            apply(database, command)
        }
    }
}

/// Checks that sixteen rows are registered in a database of one core segment.
fn assert_sixteen(
    rt: &impl TestHost,
    database: &mut PathDb,
    command: &Command,
) -> Result<(), AllocError> {
    let before = View {
        rows: 1,
        bytes: 93,
        has_down: false,
        has_core: true,
    };
    assert_same(rt, &shown(database), &before, &"before");
    let outcome = apply_again(rt, database, command, before)?;
    let inserted = Outcome {
        inserted: 16,
        updated: 0,
        kept: 0,
        purged: 0,
    };
    assert_same(rt, &outcome, &inserted, &"the outcome");
    let after = View {
        rows: 17,
        bytes: 17 * 93,
        has_down: true,
        has_core: true,
    };
    assert_same(rt, &shown(database), &after, &"after");
    Ok(())
}

/// Registers sixteen rows in a database of one core segment.
fn register_sixteen(rt: &impl TestHost, alloc: Global, database: &mut PathDb) -> Result<(), Fail> {
    let command = sixteen(alloc)?;
    Ok(assert_sixteen(rt, database, &command)?)
}

// Run with each allocation refused in turn. Where an allocation of the registration is refused, the
// database is unchanged, and the registration succeeds when it is tried again.
#[test]
fn refused_registration_changes_nothing(rt: HostRuntime) -> Result<(), Fail> {
    let mut database = row_of(rt.alloc(), SegType::Core)?;
    register_sixteen(&Host(&rt), rt.alloc(), &mut database)
}

/// The command that registers eight newer segments with the ids of eight that are there, and eight
/// with other ids.
fn eight_and_eight(alloc: Global) -> Result<Command, Fail> {
    let mut rows = Vec::new(alloc);
    for egress in 1..=16 {
        rows.push((SegType::Down, dated_by(alloc, 11, egress)?))?;
    }
    Ok(Command::Register(Registration::new(rows)))
}

/// Registers eight segments.
fn put_eight(alloc: Global, database: &mut PathDb) -> Result<(), Fail> {
    for egress in 1..=8 {
        put(alloc, database, SegType::Down, dated_by(alloc, 10, egress)?)?;
    }
    Ok(())
}

/// The number of down segments that are shown from one AS to another.
fn count(database: &PathDb, start: u64, end: u64) -> Result<usize, Fail> {
    let (start, end) = (IsdAs::from_u64(start), IsdAs::from_u64(end));
    let shown = database.matching(SegType::Down, start, end, 0, usize::MAX)?;
    Ok(shown.len())
}

/// The number of down segments that are shown by the index of each end and by neither.
fn counts(database: &PathDb) -> Result<[usize; 3], Fail> {
    let by_first = count(database, 0x0001_ff00_0000_0110, 0)?;
    let by_last = count(database, 0, 0x0001_ff00_0000_0111)?;
    Ok([by_first, by_last, count(database, 0, 0)?])
}

/// Checks that a database has these rows, and shows eight by its indexes.
fn assert_whole(
    rt: &impl TestHost,
    alloc: Global,
    database: &PathDb,
    rows: &[u8],
) -> Result<(), Fail> {
    assert_written_as(rt, alloc, database, rows)?;
    assert_same(rt, &counts(database)?, &[8, 8, 8], &"by the indexes");
    Ok(())
}

/// Applies a command to a database of these rows. Where it is refused, the database is unchanged,
/// and the command is applied again.
fn replace_rows(
    rt: &impl TestHost,
    alloc: Global,
    database: &mut PathDb,
    command: &Command,
    rows: &[u8],
) -> Result<Outcome, Fail> {
    match apply(database, command) {
        Ok(outcome) => Ok(outcome),
        Err(_) => {
            assert_whole(rt, alloc, database, rows)?;
            Ok(apply(database, command)?)
        }
    }
}

/// Applies a command to a database that shows eight by its indexes. Where it is refused, the
/// database is unchanged, and the command is applied again.
fn replace_again(
    rt: &impl TestHost,
    alloc: Global,
    database: &mut PathDb,
    command: &Command,
) -> Result<Outcome, Fail> {
    let rows = written(alloc, database)?;
    assert_same(rt, &counts(database)?, &[8, 8, 8], &"by the indexes");
    replace_rows(rt, alloc, database, command, &rows)
}

/// Checks that eight rows are replaced and eight inserted.
fn assert_replaced(
    rt: &impl TestHost,
    alloc: Global,
    database: &mut PathDb,
    command: &Command,
) -> Result<(), Fail> {
    let outcome = replace_again(rt, alloc, database, command)?;
    let replaced = Outcome {
        inserted: 8,
        updated: 8,
        kept: 0,
        purged: 0,
    };
    assert_same(rt, &outcome, &replaced, &"the outcome");
    assert_same(rt, &counts(database)?, &[16, 16, 16], &"by the indexes");
    Ok(())
}

/// Registers eight segments in a database of a core segment. Of these eight rows are replaced, and
/// eight are inserted.
fn replace_eight(rt: &impl TestHost, alloc: Global, database: &mut PathDb) -> Result<(), Fail> {
    put_eight(alloc, database)?;
    let command = eight_and_eight(alloc)?;
    assert_replaced(rt, alloc, database, &command)
}

// Run with each allocation refused in turn, as the test above. All rows and both indexes are
// compared.
#[test]
fn refused_replacement_changes_nothing(rt: HostRuntime) -> Result<(), Fail> {
    let mut database = row_of(rt.alloc(), SegType::Core)?;
    replace_eight(&Host(&rt), rt.alloc(), &mut database)
}
