//! Purges and removals.

use crate::host::Host;
use crate::rows::worked::{EXPIRY, ID, apply, count_rows, row_of};
use path_db::{Command, Outcome, PathDb};
use seg_core::SegType;
use std::alloc::Global;
use std::test::Fail;
use test_support::{TestHost, assert_same};

/// The outcome of a purge of this number of rows.
fn purged(purged: u32) -> Outcome {
    Outcome {
        inserted: 0,
        updated: 0,
        kept: 0,
        purged,
    }
}

/// What is done to a database.
#[derive(Clone, Copy, Debug)]
enum What {
    /// A purge at a moment.
    Purge(u64),
    /// The removal of the worked segment of a type.
    Remove(SegType),
}

/// A command, how many rows it drops, and how many are left.
#[derive(Clone, Copy, Debug)]
struct Drops {
    what: What,
    dropped: u32,
    left: usize,
}

/// The worked segment is valid until its expiry.
#[rattlefmt::skip]
const PURGES: [Drops; 3] = [
    Drops { what: What::Purge(EXPIRY - 1), dropped: 0, left: 1 },
    Drops { what: What::Purge(EXPIRY), dropped: 1, left: 0 },
    Drops { what: What::Purge(EXPIRY), dropped: 0, left: 0 },
];

#[rattlefmt::skip]
const REMOVALS: [Drops; 3] = [
    Drops { what: What::Remove(SegType::Core), dropped: 0, left: 1 },
    Drops { what: What::Remove(SegType::Down), dropped: 1, left: 0 },
    Drops { what: What::Remove(SegType::Down), dropped: 0, left: 0 },
];

/// Applies a command, and checks how many rows it drops, and how many are left.
fn assert_drops(rt: &impl TestHost, database: &mut PathDb, row: &Drops) -> Result<(), Fail> {
    let command = match row.what {
        What::Purge(moment) => Command::Purge(moment),
        What::Remove(kind) => Command::Remove(kind, ID),
    };
    assert_same(rt, &apply(database, &command)?, &purged(row.dropped), row);
    assert_same(rt, &count_rows(database), &row.left, row);
    Ok(())
}

/// Applies commands in turn.
fn assert_each(rt: &impl TestHost, database: &mut PathDb, rows: &[Drops]) -> Result<(), Fail> {
    for row in rows {
        assert_drops(rt, database, row)?;
    }
    Ok(())
}

/// Applies commands in turn to a database of the worked down segment.
fn assert_all(rt: &impl TestHost, alloc: Global, rows: &[Drops]) -> Result<(), Fail> {
    let mut database = row_of(alloc, SegType::Down)?;
    assert_each(rt, &mut database, rows)
}

#[test]
fn rows_are_dropped(rt: HostRuntime) -> Result<(), Fail> {
    let host = Host(&rt);
    assert_all(&host, rt.alloc(), &PURGES)?;
    assert_all(&host, rt.alloc(), &REMOVALS)
}
