//! Rows as records: the worked row and others like it, and the refusals after one byte was changed.

use crate::checks::{assert_bytes, done};
use crate::host::Host;
use crate::rows::worked::{ID, count_rows, is_there, len_of};
use path_db::PathDb;
use path_records::{DbError, read_rows, write_rows};
use seg_core::SegType;
use std::alloc::Global;
use std::test::Fail;
use test_support::{TestHost, assert_same, leaving_by};

/// The error for bytes that are no record.
pub(crate) const BAD: DbError = DbError::BadRecord;

/// Appends the row of the worked segment under the type of this number. It leaves its first AS by
/// this interface, below 128.
pub(crate) fn put_row(bytes: &mut Vec<u8>, kind: u8, egress: u8) -> Result<(), Fail> {
    bytes.extend_from_slice(&[kind, 0, 0, 0, 88])?;
    bytes.extend_from_slice(&leaving_by(egress))?;
    Ok(())
}

/// Rows of the worked segment under the types of these numbers.
pub(crate) fn rows_of(alloc: Global, kinds: &[u8]) -> Result<Vec<u8>, Fail> {
    let mut bytes = Vec::new(alloc);
    for kind in kinds {
        put_row(&mut bytes, *kind, 1)?;
    }
    Ok(bytes)
}

/// The bytes with another byte at this place.
pub(crate) fn changed(alloc: Global, bytes: &[u8], at: usize, byte: u8) -> Result<Vec<u8>, Fail> {
    let mut changed = Vec::from_slice(alloc, bytes)?;
    if let Some(old) = changed.get_mut(at) {
        *old = byte;
    }
    Ok(changed)
}

/// The rows that are read. Where memory is refused, the bytes are read again.
pub(crate) fn read_again(alloc: Global, bytes: &[u8]) -> Result<PathDb, DbError> {
    match read_rows(alloc, bytes) {
        Err(DbError::NoMemory) => read_rows(alloc, bytes),
        read => read,
    }
}

/// The number of rows that are read.
fn count_of(alloc: Global, bytes: &[u8]) -> Result<usize, DbError> {
    let database = read_again(alloc, bytes)?;
    Ok(count_rows(&database))
}

/// The records of all rows.
pub(crate) fn written(alloc: Global, database: &PathDb) -> Result<Vec<u8>, Fail> {
    let mut bytes = Vec::new(alloc);
    write_rows(database, &mut bytes)?;
    Ok(bytes)
}

/// Checks that a database is written as these bytes.
pub(crate) fn assert_written_as(
    rt: &impl TestHost,
    alloc: Global,
    database: &PathDb,
    bytes: &[u8],
) -> Result<(), Fail> {
    let written = written(alloc, database)?;
    assert_bytes(rt, &written, bytes, "the rows");
    Ok(())
}

/// Checks that a database has the worked row under each type.
fn assert_three(rt: &impl TestHost, database: &PathDb) {
    assert_same(
        rt,
        &(count_rows(database), len_of(database)),
        &(3, 279),
        &"rows and bytes",
    );
    for kind in [SegType::Up, SegType::Down, SegType::Core] {
        assert_same(rt, &is_there(database, kind, &ID), &true, &kind);
    }
}

/// Checks that the worked row under each type is read from bytes, and written as them.
fn assert_read_and_written(rt: &impl TestHost, alloc: Global, bytes: &[u8]) -> Result<(), Fail> {
    let database = read_again(alloc, bytes)?;
    assert_three(rt, &database);
    assert_written_as(rt, alloc, &database, bytes)
}

// The worked row under each type: it is read, its id is computed again, and it is written as it
// was.
#[test]
fn rows_are_read_and_written(rt: HostRuntime) {
    let bytes = done(&rt, rows_of(rt.alloc(), &[1, 2, 3]));
    let checked = assert_read_and_written(&Host(&rt), rt.alloc(), &bytes);
    done(&rt, checked);
}

/// The numbers of three rows' types, and how many rows are read.
const KINDS: [([u8; 3], Result<usize, DbError>); 8] = [
    ([1, 2, 3], Ok(3)),
    ([1, 1, 2], Err(DbError::Order)),
    ([2, 1, 3], Err(DbError::Order)),
    ([2, 3, 3], Err(DbError::Order)),
    ([2, 3, 1], Err(DbError::Order)),
    ([3, 2, 0], Err(DbError::Order)),
    ([3, 4, 2], Err(BAD)),
    ([0, 1, 1], Err(BAD)),
];

/// The interfaces by which two rows leave their first AS, and how many rows are read.
#[derive(Clone, Copy)]
struct TwoRows {
    first: u8,
    second: u8,
    count: Result<usize, DbError>,
}

/// The ids of the worked segment with the interfaces 2, 1 and 3 begin with 19, 8a and be.
#[rattlefmt::skip]
const EGRESSES: [TwoRows; 4] = [
    TwoRows { first: 2, second: 1, count: Ok(2) },
    TwoRows { first: 1, second: 3, count: Ok(2) },
    TwoRows { first: 1, second: 1, count: Err(DbError::Order) },
    TwoRows { first: 1, second: 2, count: Err(DbError::Order) },
];

/// Down rows of the worked segment with these interfaces.
fn two_rows(alloc: Global, first: u8, second: u8) -> Result<Vec<u8>, Fail> {
    let mut bytes = Vec::new(alloc);
    put_row(&mut bytes, 2, first)?;
    put_row(&mut bytes, 2, second)?;
    Ok(bytes)
}

/// Checks how many rows are read where they are of these types.
fn assert_kinds(
    rt: &impl TestHost,
    alloc: Global,
    kinds: &[u8],
    expected: Result<usize, DbError>,
) -> Result<(), Fail> {
    let bytes = rows_of(alloc, kinds)?;
    assert_same(rt, &count_of(alloc, &bytes), &expected, &kinds);
    Ok(())
}

/// Checks how many rows are read where they have these interfaces.
fn assert_egresses(rt: &impl TestHost, alloc: Global, row: &TwoRows) -> Result<(), Fail> {
    let bytes = two_rows(alloc, row.first, row.second)?;
    let found = count_of(alloc, &bytes);
    assert_same(rt, &found, &row.count, &(row.first, row.second));
    Ok(())
}

// The first fault is reported: the second row's order before the third row's type.
#[test]
fn keys_rise(rt: HostRuntime) {
    let host = Host(&rt);
    for (kinds, expected) in &KINDS {
        done(&rt, assert_kinds(&host, rt.alloc(), kinds, *expected));
    }
    for row in &EGRESSES {
        done(&rt, assert_egresses(&host, rt.alloc(), row));
    }
}

// Rows of 93 bytes each: a part of a row is no row.
#[test]
fn rows_are_whole(rt: HostRuntime) -> Result<(), Fail> {
    let host = Host(&rt);
    let bytes = rows_of(rt.alloc(), &[1, 2, 3])?;
    for len in 0..=bytes.len() {
        let expected = if len % 93 == 0 {
            Ok(len / 93)
        } else {
            Err(BAD)
        };
        assert_same(&host, &count_of(rt.alloc(), &bytes[..len]), &expected, &len);
    }
    Ok(())
}

/// What is changed in three rows: the place of one byte, and its new value; and how many rows are
/// read then.
#[derive(Clone, Copy)]
struct ChangedRow {
    what: &'static str,
    at: usize,
    byte: u8,
    count: Result<usize, DbError>,
}

#[rattlefmt::skip]
const CHANGED_ROWS: [ChangedRow; 17] = [
    ChangedRow { what: "the first type", at: 0, byte: 4, count: Err(BAD) },
    ChangedRow { what: "the second type", at: 93, byte: 0, count: Err(BAD) },
    ChangedRow { what: "the same type as the third", at: 93, byte: 3, count: Err(DbError::Order) },
    ChangedRow { what: "far more bytes than there are", at: 1, byte: 1, count: Err(BAD) },
    ChangedRow { what: "a byte less than the segment", at: 4, byte: 87, count: Err(BAD) },
    ChangedRow { what: "a byte of the next row", at: 4, byte: 89, count: Err(BAD) },
    ChangedRow { what: "a byte more than there are", at: 190, byte: 89, count: Err(BAD) },
    ChangedRow { what: "a field's wire type", at: 5, byte: 0x0b, count: Err(BAD) },
    // A segment is read, but it is spelled otherwise.
    ChangedRow { what: "a field that is skipped", at: 5, byte: 0x1a, count: Err(BAD) },
    ChangedRow { what: "the timestamp, past 2^32 - 1", at: 12, byte: 0x16, count: Err(BAD) },
    ChangedRow { what: "the segment id", at: 14, byte: 8, count: Ok(3) },
    ChangedRow { what: "the next AS isn't the next entry's", at: 32, byte: 0x92, count: Err(BAD) },
    ChangedRow { what: "no way out of the first AS", at: 44, byte: 0, count: Err(BAD) },
    ChangedRow { what: "another way out", at: 44, byte: 2, count: Ok(3) },
    ChangedRow { what: "a MAC", at: 49, byte: 0xff, count: Ok(3) },
    ChangedRow { what: "the MTU, which goes on past the end", at: 92, byte: 0x8b, count: Err(BAD) },
    ChangedRow { what: "the last MTU", at: 278, byte: 0x0c, count: Ok(3) },
];

/// Checks how many of these rows are read where a byte is changed.
fn assert_changed(
    rt: &impl TestHost,
    alloc: Global,
    bytes: &[u8],
    row: &ChangedRow,
) -> Result<(), Fail> {
    let changed = changed(alloc, bytes, row.at, row.byte)?;
    assert_same(rt, &count_of(alloc, &changed), &row.count, &row.what);
    Ok(())
}

/// Checks all changes of these rows.
fn assert_all_changed(rt: &impl TestHost, alloc: Global, bytes: &[u8]) -> Result<(), Fail> {
    for row in &CHANGED_ROWS {
        assert_changed(rt, alloc, bytes, row)?;
    }
    Ok(())
}

// Three rows with one byte changed: each begins 93 bytes after the one before, its segment 5 bytes
// later.
#[test]
fn changed_rows(rt: HostRuntime) {
    let bytes = done(&rt, rows_of(rt.alloc(), &[1, 2, 3]));
    let checked = assert_all_changed(&Host(&rt), rt.alloc(), &bytes);
    done(&rt, checked);
}
