//! How many rows of each type a database has.

use crate::host::Host;
use crate::rows::worked::{copy_of, dated_by, no_rows, purge, put, remove};
use path_db::{Outcome, PathDb};
use seg_core::SegType;
use std::alloc::Global;
use std::test::Fail;
use test_support::{TestHost, assert_same};

/// What is done to a database. Segments are the worked one with a timestamp, which leaves its first
/// AS by an interface: segments of other interfaces have other ids.
#[derive(Clone, Copy, Debug)]
enum What {
    /// The registration of the segment of a type, a timestamp and an interface.
    Register(SegType, u8, u8),
    /// The removal of the segment of a type and an interface.
    Remove(SegType, u8),
    /// A purge at a moment.
    Purge(u64),
}

/// A command, and how many up, core and down segments there are after it.
#[derive(Clone, Copy, Debug)]
struct Step {
    what: What,
    counts: [usize; 3],
}

const UP: SegType = SegType::Up;

const CORE: SegType = SegType::Core;

const DOWN: SegType = SegType::Down;

/// The segment is valid for 43,200 half seconds, 6 hours, after its timestamp, in seconds: this is
/// when that of the timestamp 10 expires.
const TEN_EXPIRES: u64 = 43_220;

/// Registrations of new rows, of newer, equal and older ones, and of rows under other types;
/// removals of a row, of none, and of one of another type; purges of none, of some and of all rows.
#[rattlefmt::skip]
const STEPS: [Step; 20] = [
    Step { what: What::Register(UP, 10, 1), counts: [1, 0, 0] },
    Step { what: What::Register(CORE, 10, 1), counts: [1, 1, 0] },
    Step { what: What::Register(DOWN, 10, 1), counts: [1, 1, 1] },
    Step { what: What::Register(DOWN, 10, 2), counts: [1, 1, 2] },
    Step { what: What::Register(DOWN, 11, 2), counts: [1, 1, 2] },
    Step { what: What::Register(DOWN, 11, 2), counts: [1, 1, 2] },
    Step { what: What::Register(DOWN, 9, 2), counts: [1, 1, 2] },
    Step { what: What::Register(UP, 12, 1), counts: [1, 1, 2] },
    Step { what: What::Register(UP, 12, 3), counts: [2, 1, 2] },
    Step { what: What::Register(CORE, 12, 4), counts: [2, 2, 2] },
    Step { what: What::Remove(CORE, 2), counts: [2, 2, 2] },
    Step { what: What::Remove(DOWN, 3), counts: [2, 2, 2] },
    Step { what: What::Remove(UP, 3), counts: [1, 2, 2] },
    Step { what: What::Remove(UP, 3), counts: [1, 2, 2] },
    Step { what: What::Register(UP, 10, 3), counts: [2, 2, 2] },
    Step { what: What::Purge(TEN_EXPIRES - 1), counts: [2, 2, 2] },
    Step { what: What::Purge(TEN_EXPIRES), counts: [1, 1, 1] },
    Step { what: What::Purge(TEN_EXPIRES + 2), counts: [1, 1, 0] },
    Step { what: What::Register(DOWN, 12, 1), counts: [1, 1, 1] },
    Step { what: What::Purge(TEN_EXPIRES + 4), counts: [0, 0, 0] },
];

/// The id of the segments that leave their first AS by an interface.
fn id_of(alloc: Global, egress: u8) -> Result<[u8; 32], Fail> {
    let segment = dated_by(alloc, 10, egress)?;
    Ok(*segment.digest())
}

/// Does what a step says.
fn take(alloc: Global, database: &mut PathDb, what: What) -> Result<Outcome, Fail> {
    Ok(match what {
        What::Register(kind, timestamp, egress) => {
            put(alloc, database, kind, dated_by(alloc, timestamp, egress)?)?
        }
        What::Remove(kind, egress) => remove(database, kind, id_of(alloc, egress)?)?,
        What::Purge(moment) => purge(database, moment)?,
    })
}

/// How many of all rows are of a type.
fn counted(database: &PathDb, kind: SegType) -> usize {
    let mut count: usize = 0;
    for row in database.rows() {
        if row.kind == kind {
            count = count.wrapping_add(1);
        }
    }
    count
}

/// Checks the count of a type against a look at all rows, and against what it is.
fn assert_count(rt: &impl TestHost, database: &PathDb, kind: SegType, count: usize, step: &Step) {
    assert_same(rt, &database.len_of(kind), &count, step);
    assert_same(rt, &counted(database, kind), &count, &("all rows", step));
}

/// Checks all counts.
fn assert_counts(rt: &impl TestHost, database: &PathDb, step: &Step) {
    let [up, core, down] = step.counts;
    assert_count(rt, database, UP, up, step);
    assert_count(rt, database, CORE, core, step);
    assert_count(rt, database, DOWN, down, step);
}

/// Checks the counts of a copy, with its indexes and then without them.
fn assert_copies(rt: &impl TestHost, database: &PathDb, step: &Step) -> Result<(), Fail> {
    let copy = copy_of(database)?;
    assert_counts(rt, &copy, step);
    assert_counts(rt, &copy.without_indexes(), step);
    Ok(())
}

/// Takes a step, and looks at the database and at copies of it after that.
fn assert_counted(
    rt: &impl TestHost,
    alloc: Global,
    database: &mut PathDb,
    step: &Step,
) -> Result<(), Fail> {
    take(alloc, database, step.what)?;
    assert_counts(rt, database, step);
    assert_copies(rt, database, step)
}

/// Takes all steps in a database.
fn assert_all_counted(
    rt: &impl TestHost,
    alloc: Global,
    database: &mut PathDb,
) -> Result<(), Fail> {
    for step in &STEPS {
        assert_counted(rt, alloc, database, step)?;
    }
    Ok(())
}

#[test]
fn rows_of_each_type_are_counted(rt: HostRuntime) -> Result<(), Fail> {
    assert_all_counted(&Host(&rt), rt.alloc(), &mut no_rows(rt.alloc()))
}

#[test]
fn rows_without_indexes_are_counted(rt: HostRuntime) -> Result<(), Fail> {
    let mut database = no_rows(rt.alloc()).without_indexes();
    assert_all_counted(&Host(&rt), rt.alloc(), &mut database)
}
