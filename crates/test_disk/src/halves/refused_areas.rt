//! Refused memory while checkpoints are written or read. Each test is run with each of its
//! allocations refused in turn: a refused call succeeds when it is tried again, and no other result
//! depends on the refusal.

use crate::checks::assert_bytes;
use crate::halves::area::{area, changed, rows_of};
use crate::host::Host;
use ckpt_pair::{
    Checkpoint, DatabaseReader, Head, PairError, encode_checkpoint, feed_rows_by, finish_rows,
    read_half,
};
use path_db::PathDb;
use path_records::{OneThread, write_rows};
use std::alloc::Global;
use std::test::Fail;
use test_support::{TestHost, assert_same, assert_true};

/// Checks that a database is written as these rows.
fn assert_rows(rt: &impl TestHost, alloc: Global, db: &PathDb, rows: &[u8]) -> Result<(), Fail> {
    let mut written = Vec::new(alloc);
    write_rows(db, &mut written)?;
    assert_bytes(rt, &written, rows, "the rows");
    Ok(())
}

/// Reads an area that is long enough for a front.
fn read(alloc: Global, area: &[u8]) -> Result<Checkpoint, PairError> {
    if area.len() < 32 {
        return Err(PairError::NoHalf);
    }
    read_half(alloc, area)
}

/// What is written of three rows. Where memory is refused, the rows are as they were, and are
/// written again.
fn written_again(
    rt: &impl TestHost,
    alloc: Global,
    db: &PathDb,
    rows: &[u8],
) -> Result<Vec<u8>, Fail> {
    assert_true(rt, db.encoded_len() == 279, "three rows");
    match encode_checkpoint(alloc, db, 7, 258) {
        Ok(written) => Ok(written),
        Err(_) => {
            assert_rows(rt, alloc, db, rows)?;
            Ok(encode_checkpoint(alloc, db, 7, 258)?)
        }
    }
}

/// Checks that three rows are written as an area.
fn assert_written(rt: &impl TestHost, alloc: Global, db: &PathDb, area: &[u8]) -> Result<(), Fail> {
    let written = written_again(rt, alloc, db, rows_of(area))?;
    assert_bytes(rt, &written, area, "the area");
    Ok(())
}

/// Checks that what is read from an area is written as that area.
fn assert_read_and_written(rt: &impl TestHost, alloc: Global, area: &[u8]) -> Result<(), Fail> {
    let checkpoint = read(alloc, area)?;
    assert_written(rt, alloc, &checkpoint.db, area)
}

#[test]
fn refused_memory_of_written_checkpoints(rt: HostRuntime) -> Result<(), Fail> {
    let area = area(rt.alloc())?;
    assert_read_and_written(&Host(&rt), rt.alloc(), &area)
}

/// The worked head.
const HEAD: Head = Head {
    version: 2,
    epoch: 7,
    place: 258,
};

const BAD: Option<PairError> = Some(PairError::BadCheckpoint);

const NEWER: Option<PairError> = Some(PairError::NewerFormat(3));

/// Which byte of the worked area is changed, what to, whether memory may be wanted as it is read
/// then, and why it is refused.
#[derive(Clone, Copy)]
struct ReadChange {
    what: &'static str,
    at: usize,
    byte: u8,
    takes_memory: bool,
    refusal: Option<PairError>,
}

/// The version and the length are checked without memory, and the third row's type and the count
/// after rows were read.
#[rattlefmt::skip]
const READ_CHANGES: [ReadChange; 5] = [
    ReadChange { what: "nothing", at: 511, byte: 0, takes_memory: true, refusal: None },
    ReadChange { what: "the version", at: 7, byte: 3, takes_memory: false, refusal: NEWER },
    ReadChange { what: "the length", at: 26, byte: 2, takes_memory: false, refusal: BAD },
    ReadChange { what: "the third row's type", at: 218, byte: 2, takes_memory: true, refusal: BAD },
    ReadChange { what: "the count", at: 31, byte: 2, takes_memory: true, refusal: BAD },
];

/// Reads a changed area, and reads it again where memory is refused, which may be so only where it
/// is wanted.
fn read_again(
    rt: &impl TestHost,
    alloc: Global,
    area: &[u8],
    row: &ReadChange,
) -> Result<Checkpoint, PairError> {
    match read(alloc, area) {
        Err(PairError::NoMemory) => {
            assert_same(rt, &row.takes_memory, &true, &row.what);
            read(alloc, area)
        }
        answer => answer,
    }
}

/// Checks that a checkpoint is the worked one.
fn assert_worked(
    rt: &impl TestHost,
    alloc: Global,
    checkpoint: &Checkpoint,
    rows: &[u8],
    row: &ReadChange,
) -> Result<(), Fail> {
    assert_same(rt, &row.refusal, &None, &row.what);
    assert_same(rt, &checkpoint.head, &HEAD, &row.what);
    assert_rows(rt, alloc, &checkpoint.db, rows)
}

/// Checks what a changed area is read as, which is read again where memory is refused.
fn assert_read(rt: &impl TestHost, alloc: Global, row: &ReadChange) -> Result<(), Fail> {
    let area = changed(alloc, row.at, row.byte)?;
    match &read_again(rt, alloc, &area, row) {
        Ok(checkpoint) => assert_worked(rt, alloc, checkpoint, rows_of(&area), row)?,
        Err(error) => assert_same(rt, &Some(*error), &row.refusal, &row.what),
    }
    Ok(())
}

#[test]
fn refused_memory_of_read_checkpoints(rt: HostRuntime) -> Result<(), Fail> {
    let host = Host(&rt);
    for row in &READ_CHANGES {
        assert_read(&host, rt.alloc(), row)?;
    }
    Ok(())
}

/// The rows of bytes that are fed in pieces of 50.
fn read_in_pieces(alloc: Global, bytes: &[u8], count: u32) -> Result<PathDb, PairError> {
    let mut reader = DatabaseReader::new(alloc);
    for piece in bytes.chunks(50) {
        reader = feed_rows_by(&OneThread, reader, piece)?;
    }
    finish_rows(reader, count)
}

/// Which byte of the worked area is changed, what to, how many rows are wanted then, and why the
/// rows are refused.
#[derive(Clone, Copy)]
struct FedChange {
    what: &'static str,
    at: usize,
    byte: u8,
    count: u32,
    refusal: Option<PairError>,
}

#[rattlefmt::skip]
const FED_CHANGES: [FedChange; 4] = [
    FedChange { what: "nothing", at: 511, byte: 0, count: 3, refusal: None },
    FedChange { what: "nothing but the count", at: 511, byte: 0, count: 2, refusal: BAD },
    FedChange { what: "the third row's type", at: 218, byte: 2, count: 3, refusal: BAD },
    FedChange { what: "the third segment", at: 223, byte: 0x0b, count: 3, refusal: BAD },
];

/// The same; where memory is refused, the pieces are fed again.
fn read_in_pieces_again(alloc: Global, bytes: &[u8], count: u32) -> Result<PathDb, PairError> {
    match read_in_pieces(alloc, bytes, count) {
        Err(PairError::NoMemory) => read_in_pieces(alloc, bytes, count),
        answer => answer,
    }
}

/// Checks what these rows are read as in pieces, which are fed again where memory is refused.
fn assert_pieces(
    rt: &impl TestHost,
    alloc: Global,
    rows: &[u8],
    row: &FedChange,
) -> Result<(), Fail> {
    match &read_in_pieces_again(alloc, rows, row.count) {
        Ok(db) => {
            assert_same(rt, &row.refusal, &None, &row.what);
            assert_rows(rt, alloc, db, rows)?;
        }
        Err(error) => assert_same(rt, &Some(*error), &row.refusal, &row.what),
    }
    Ok(())
}

/// Checks what changed rows are read as in pieces.
fn assert_fed(rt: &impl TestHost, alloc: Global, row: &FedChange) -> Result<(), Fail> {
    let area = changed(alloc, row.at, row.byte)?;
    assert_pieces(rt, alloc, rows_of(&area), row)
}

#[test]
fn refused_memory_of_fed_rows(rt: HostRuntime) -> Result<(), Fail> {
    let host = Host(&rt);
    for row in &FED_CHANGES {
        assert_fed(&host, rt.alloc(), row)?;
    }
    Ok(())
}
