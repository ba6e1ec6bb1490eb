//! Checkpoints that are written and read: the worked bytes, and each refusal after one byte was
//! changed.

use crate::checks::{assert_bytes, done};
use crate::halves::area::{END, FRESH, area, changed};
use crate::host::Host;
use ckpt_pair::{Checkpoint, Head, PairError, encode_checkpoint, read_half};
use path_db::PathDb;
use std::alloc::Global;
use std::test::Fail;
use test_support::{TestHost, assert_same, assert_true};

/// The error for bytes that are no checkpoint.
const BAD: PairError = PairError::BadCheckpoint;

/// Reads an area. Where memory is refused, the area is read again.
fn read(alloc: Global, area: &[u8]) -> Result<Checkpoint, PairError> {
    if area.len() < 32 {
        return Err(PairError::NoHalf);
    }
    match read_half(alloc, area) {
        Err(PairError::NoMemory) => read_half(alloc, area),
        read => read,
    }
}

/// The number of rows.
fn count_rows(db: &PathDb) -> usize {
    db.rows().count()
}

/// The version and the count of rows of an area.
fn read_of(alloc: Global, area: &[u8]) -> Result<(u32, usize), PairError> {
    let checkpoint = read(alloc, area)?;
    Ok((checkpoint.head.version, count_rows(&checkpoint.db)))
}

/// The area of a new store: one sector, zeros after the front.
fn new_area(alloc: Global) -> Result<Vec<u8>, Fail> {
    let mut area = Vec::from_slice(alloc, &FRESH)?;
    area.resize(512, 0)?;
    Ok(area)
}

/// The area that is written of a new store.
fn written_anew(alloc: Global) -> Result<Vec<u8>, Fail> {
    let none = PathDb::new(alloc);
    Ok(encode_checkpoint(alloc, &none, 1, 0)?)
}

/// Sees that the area of a new store is written so, and read.
fn assert_new(rt: &impl TestHost, alloc: Global, expected: &[u8]) -> Result<(), Fail> {
    let bytes = written_anew(alloc)?;
    assert_bytes(rt, &bytes, expected, "a new store");
    let found = read_of(alloc, expected);
    assert_same(rt, &found, &Ok((2, 0)), &"version and rows");
    Ok(())
}

// The area of a new store: one sector, zeros after the front.
#[test]
fn new_store_is_written(rt: HostRuntime) {
    let expected = done(&rt, new_area(rt.alloc()));
    done(&rt, assert_new(&Host(&rt), rt.alloc(), &expected));
}

/// Sees that a checkpoint is the worked one.
fn assert_worked(rt: &impl TestHost, checkpoint: &Checkpoint) {
    let head = Head {
        version: 2,
        epoch: 7,
        place: 258,
    };
    assert_same(rt, &checkpoint.head, &head, &"head");
    let found = (count_rows(&checkpoint.db), checkpoint.db.encoded_len());
    assert_same(rt, &found, &(3, 279), &"rows and bytes");
}

/// Sees that rows are written as an area.
fn assert_written(rt: &impl TestHost, alloc: Global, db: &PathDb, area: &[u8]) -> Result<(), Fail> {
    assert_true(rt, db.encoded_len() == 279, "three rows");
    let written = encode_checkpoint(alloc, db, 7, 258)?;
    assert_bytes(rt, &written, area, "the area");
    Ok(())
}

/// Sees that the worked checkpoint is read from an area, and written as that area.
fn assert_read_and_written(rt: &impl TestHost, alloc: Global, area: &[u8]) -> Result<(), Fail> {
    let checkpoint = read(alloc, area)?;
    assert_worked(rt, &checkpoint);
    assert_written(rt, alloc, &checkpoint.db, area)
}

// Three rows: they are read, and written again as the same bytes.
#[test]
fn rows_are_read_and_written(rt: HostRuntime) {
    let area = done(&rt, area(rt.alloc()));
    done(&rt, assert_read_and_written(&Host(&rt), rt.alloc(), &area));
}

/// Which byte of the worked area is changed, what to, and the version and the count of rows that
/// are read then.
#[derive(Clone, Copy)]
struct Change {
    what: &'static str,
    at: usize,
    byte: u8,
    read: Result<(u32, usize), PairError>,
}

#[rattlefmt::skip]
const CHANGES: [Change; 20] = [
    Change { what: "the magic", at: 3, byte: 0, read: Err(BAD) },
    Change { what: "version 0", at: 7, byte: 0, read: Err(BAD) },
    Change { what: "version 1", at: 7, byte: 1, read: Ok((1, 3)) },
    Change { what: "version 3", at: 7, byte: 3, read: Err(PairError::NewerFormat(3)) },
    Change { what: "a length of far more bytes than there are", at: 24, byte: 1, read: Err(BAD) },
    Change { what: "a length of 535, which is past the area", at: 26, byte: 2, read: Err(BAD) },
    Change { what: "a byte too few", at: 27, byte: 0x16, read: Err(BAD) },
    Change { what: "a zero too many", at: 27, byte: 0x18, read: Err(BAD) },
    Change { what: "a length of 23, which is a part of a row", at: 26, byte: 0, read: Err(BAD) },
    Change { what: "a count of far more rows", at: 28, byte: 1, read: Err(BAD) },
    Change { what: "a count of one row less", at: 31, byte: 2, read: Err(BAD) },
    Change { what: "a count of one row more", at: 31, byte: 4, read: Err(BAD) },
    Change { what: "the first row's type", at: 32, byte: 4, read: Err(BAD) },
    Change { what: "the same key as the second row's", at: 32, byte: 2, read: Err(BAD) },
    Change { what: "a segment that is cut", at: 36, byte: 87, read: Err(BAD) },
    Change { what: "a segment that is none", at: 37, byte: 0x0b, read: Err(BAD) },
    Change { what: "the second row's type", at: 125, byte: 0, read: Err(BAD) },
    Change { what: "the same key as the third row's", at: 125, byte: 3, read: Err(BAD) },
    Change { what: "after the rows", at: END, byte: 1, read: Ok((2, 3)) },
    Change { what: "the area's last byte", at: 511, byte: 0xff, read: Ok((2, 3)) },
];

// One byte of the head, the length, the count or the rows is changed. The bytes after the rows
// are not read.
#[test]
fn changed_areas(rt: HostRuntime) -> Result<(), Fail> {
    let host = Host(&rt);
    for row in &CHANGES {
        let area = changed(rt.alloc(), row.at, row.byte)?;
        assert_same(&host, &read_of(rt.alloc(), &area), &row.read, &row.what);
    }
    Ok(())
}
