//! Rows from pieces of their bytes, cut anywhere.

use crate::halves::area::{area, changed, rows_of};
use crate::host::Host;
use ckpt_pair::{DatabaseReader, PairError, feed_rows_by, finish_rows, read_front};
use path_db::PathDb;
use path_records::OneThread;
use std::alloc::Global;
use std::test::Fail;
use test_support::{TestHost, assert_same};

/// The error for bytes that are no rows, or are more or fewer rows.
const BAD: PairError = PairError::BadCheckpoint;

/// The number of rows, and the length of their records.
fn totals_of(db: &PathDb) -> (usize, u64) {
    (db.rows().count(), db.encoded_len())
}

/// The number of rows that are read from bytes in pieces of this size, and the length of their
/// records.
fn read(alloc: Global, bytes: &[u8], size: usize, count: u32) -> Result<(usize, u64), PairError> {
    let mut reader = DatabaseReader::new(alloc);
    if size > 0 {
        for piece in bytes.chunks(size) {
            reader = feed_rows_by(&OneThread, reader, piece)?;
        }
    }
    let db = finish_rows(reader, count)?;
    Ok(totals_of(&db))
}

/// The same; where memory is refused, the rows are read again.
fn read_again(
    alloc: Global,
    bytes: &[u8],
    size: usize,
    count: u32,
) -> Result<(usize, u64), PairError> {
    match read(alloc, bytes, size, count) {
        Err(PairError::NoMemory) => read(alloc, bytes, size, count),
        read => read,
    }
}

// Three rows of 93 bytes, cut within their heads, within their segments, and between them.
#[test]
fn pieces_are_read(rt: HostRuntime) -> Result<(), Fail> {
    let host = Host(&rt);
    let area = area(rt.alloc())?;
    for size in [1, 2, 3, 5, 92, 93, 94, 186, 278, 279, 280] {
        let rows = read_again(rt.alloc(), rows_of(&area), size, 3);
        assert_same(&host, &rows, &Ok((3, 279)), &size);
    }
    Ok(())
}

/// How many bytes of the rows are read, how many rows are wanted in them, and how many are read, in
/// how many bytes.
#[derive(Clone, Copy)]
struct Counted {
    len: usize,
    wanted: u32,
    read: Result<(usize, u64), PairError>,
}

#[rattlefmt::skip]
const COUNTS: [Counted; 11] = [
    Counted { len: 0, wanted: 0, read: Ok((0, 0)) },
    Counted { len: 0, wanted: 1, read: Err(BAD) },
    Counted { len: 93, wanted: 1, read: Ok((1, 93)) },
    Counted { len: 93, wanted: 2, read: Err(BAD) },
    Counted { len: 93, wanted: 0, read: Err(BAD) },
    Counted { len: 92, wanted: 1, read: Err(BAD) },
    Counted { len: 94, wanted: 1, read: Err(BAD) },
    Counted { len: 186, wanted: 2, read: Ok((2, 186)) },
    Counted { len: 278, wanted: 3, read: Err(BAD) },
    Counted { len: 279, wanted: 2, read: Err(BAD) },
    Counted { len: 279, wanted: 4, read: Err(BAD) },
];

// Parts of the rows, and other counts, are refused.
#[test]
fn pieces_are_counted(rt: HostRuntime) -> Result<(), Fail> {
    let host = Host(&rt);
    let area = area(rt.alloc())?;
    let rows = rows_of(&area);
    for row in &COUNTS {
        let front = rows.get(..row.len).unwrap_or(&[]);
        let found = read_again(rt.alloc(), front, 50, row.wanted);
        assert_same(&host, &found, &row.read, &(row.wanted, row.len));
    }
    Ok(())
}

/// Sees that rows of which this byte is changed are refused in pieces of this size.
fn assert_changed(
    rt: &impl TestHost,
    alloc: Global,
    (at, byte): (usize, u8),
    size: usize,
) -> Result<(), Fail> {
    let area = changed(alloc, at, byte)?;
    let rows = read_again(alloc, rows_of(&area), size, 3);
    assert_same(rt, &rows, &Err(BAD), &(at, byte, size));
    Ok(())
}

/// Places, and the bytes that are there then.
const CHANGES: [(usize, u8); 7] = [
    (32, 4),
    (32, 2),
    (36, 87),
    (37, 0x0b),
    (125, 0),
    (125, 3),
    (218, 2),
];

// A row that is refused, and one out of order, are refused in pieces of each size.
#[test]
fn changed_pieces(rt: HostRuntime) -> Result<(), Fail> {
    let host = Host(&rt);
    for change in &CHANGES {
        for size in &[1, 50, 93, 279] {
            assert_changed(&host, rt.alloc(), *change, *size)?;
        }
    }
    Ok(())
}

/// The length and the number of the rows, from the front of an area of this size.
fn front_of(bytes: &[u8], size: u64) -> Result<(u32, u32), PairError> {
    if bytes.len() < 32 {
        return Err(PairError::NoHalf);
    }
    let front = read_front(bytes, size)?;
    Ok((front.size, front.count))
}

// The front has the number of bytes that have to be read from an area, which may be larger than the
// bytes that are there.
#[test]
fn fronts_are_read(rt: HostRuntime) -> Result<(), Fail> {
    let host = Host(&rt);
    let area = area(rt.alloc())?;
    for (size, expected) in [
        (311, Ok((279, 3))),
        (1 << 29, Ok((279, 3))),
        (310, Err(BAD)),
        (0, Err(BAD)),
    ] {
        assert_same(&host, &front_of(&area, size), &expected, &size);
    }
    Ok(())
}
