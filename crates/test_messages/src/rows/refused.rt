//! Refused memory while records are written or read. Each test is run with each of its allocations
//! refused in turn: the bytes from before the refused call stay, the call succeeds when it is tried
//! again, and no other result depends on the refusal.

use crate::checks::assert_bytes;
use crate::host::Host;
use crate::rows::commands::registration;
use crate::rows::records::{assert_written_as, changed, read_again, rows_of};
use path_db::{Command, PathDb};
use path_records::{
    DatabaseReader, DbError, OneThread, is_within_limits, read_command, read_rows, write_command,
    write_rows,
};
use std::alloc::{AllocError, Global};
use std::test::Fail;
use test_support::{TestHost, assert_same, assert_true};

/// The bytes before a record that is appended.
const FRONT: [u8; 3] = [7, 8, 9];

/// Checks that the vector has its earlier bytes, and after them these bytes.
fn assert_behind_front(rt: &impl TestHost, out: &[u8], bytes: &[u8]) {
    assert_same(rt, &out.get(..3), &Some(&FRONT[..]), &"the front");
    assert_same(rt, &out.get(3..), &Some(bytes), &"after the front");
}

/// The rows that are read, in one try.
fn read_once(alloc: Global, bytes: &[u8]) -> Result<PathDb, DbError> {
    read_rows(alloc, bytes)
}

/// Appends the records of all rows.
fn write(database: &PathDb, out: &mut Vec<u8>) -> Result<(), AllocError> {
    write_rows(database, out)
}

/// Checks that a database is written as these bytes, after the earlier bytes.
fn assert_appended(
    rt: &impl TestHost,
    alloc: Global,
    database: &PathDb,
    bytes: &[u8],
) -> Result<(), Fail> {
    let mut out = Vec::from_slice(alloc, &FRONT)?;
    if write(database, &mut out).is_err() {
        assert_behind_front(rt, &out, &[]);
        write(database, &mut out)?;
    }
    assert_behind_front(rt, &out, bytes);
    Ok(())
}

/// Checks that the rows of these bytes are written as they are, after the earlier bytes.
fn assert_rows_appended(rt: &impl TestHost, alloc: Global, bytes: &[u8]) -> Result<(), Fail> {
    let database = read_once(alloc, bytes)?;
    assert_appended(rt, alloc, &database, bytes)
}

#[test]
fn refused_memory_of_written_rows(rt: HostRuntime) -> Result<(), Fail> {
    let bytes = rows_of(rt.alloc(), &[1, 2, 3])?;
    assert_rows_appended(&Host(&rt), rt.alloc(), &bytes)
}

/// Checks that a database is written as these bytes, or that reading was refused with this error,
/// where there is one. `NoMemory` is not accepted as a result.
fn assert_rows(
    rt: &impl TestHost,
    alloc: Global,
    read: &Result<PathDb, DbError>,
    bytes: &[u8],
    refusal: Option<DbError>,
) -> Result<(), Fail> {
    match read {
        Ok(database) => {
            assert_same(rt, &refusal, &None, &"rows are read");
            assert_written_as(rt, alloc, database, bytes)?;
        }
        Err(found) => assert_same(rt, &Some(*found), &refusal, &"rows are refused"),
    }
    Ok(())
}

/// The types of three rows, and why these are refused.
const KINDS: [([u8; 3], Option<DbError>); 3] = [
    ([1, 2, 3], None),
    ([1, 3, 2], Some(DbError::Order)),
    ([1, 2, 4], Some(DbError::BadRecord)),
];

/// Checks what rows of these types are read as.
fn assert_rows_of(
    rt: &impl TestHost,
    alloc: Global,
    kinds: &[u8],
    refusal: Option<DbError>,
) -> Result<(), Fail> {
    let bytes = rows_of(alloc, kinds)?;
    let read = read_again(alloc, &bytes);
    assert_rows(rt, alloc, &read, &bytes, refusal)
}

#[test]
fn refused_memory_of_read_rows(rt: HostRuntime) -> Result<(), Fail> {
    let host = Host(&rt);
    for (kinds, refusal) in &KINDS {
        assert_rows_of(&host, rt.alloc(), kinds, *refusal)?;
    }
    Ok(())
}

/// The rows of bytes that are fed in pieces of 50.
fn read_in_pieces(alloc: Global, bytes: &[u8]) -> Result<PathDb, DbError> {
    let mut reader = DatabaseReader::new(alloc);
    for piece in bytes.chunks(50) {
        reader = reader.feed_by(&OneThread, piece)?;
    }
    reader.finish()
}

/// The same; where memory is refused, the pieces are fed again.
fn read_in_pieces_again(alloc: Global, bytes: &[u8]) -> Result<PathDb, DbError> {
    match read_in_pieces(alloc, bytes) {
        Err(DbError::NoMemory) => read_in_pieces(alloc, bytes),
        read => read,
    }
}

/// Checks what rows of these types are read as in pieces.
fn assert_pieces_of(
    rt: &impl TestHost,
    alloc: Global,
    kinds: &[u8],
    refusal: Option<DbError>,
) -> Result<(), Fail> {
    let bytes = rows_of(alloc, kinds)?;
    let read = read_in_pieces_again(alloc, &bytes);
    assert_rows(rt, alloc, &read, &bytes, refusal)
}

#[test]
fn refused_memory_of_rows_in_pieces(rt: HostRuntime) -> Result<(), Fail> {
    let host = Host(&rt);
    for (kinds, refusal) in &KINDS {
        assert_pieces_of(&host, rt.alloc(), kinds, *refusal)?;
    }
    Ok(())
}

// ---- commands

/// The purge of a moment.
const PURGE: [u8; 9] = [2, 0, 0, 0, 0, 0, 0, 1, 2];

/// The removal of a down segment.
const REMOVAL: [u8; 34] = [
    3, 2, 1, 2, 3, 4, 5, 6, 7, 8, 9, 10, 11, 12, 13, 14, 15, 16, 17, 18, 19, 20, 21, 22, 23, 24,
    25, 26, 27, 28, 29, 30, 31, 32,
];

/// Checks that a command is written as these bytes, after the earlier bytes.
fn assert_command_appended(
    rt: &impl TestHost,
    alloc: Global,
    command: &Command,
    bytes: &[u8],
) -> Result<(), Fail> {
    let mut out = Vec::from_slice(alloc, &FRONT)?;
    assert_true(
        rt,
        is_within_limits(command),
        "a command that is read is within its limits",
    );
    if write_command(command, &mut out).is_err() {
        assert_behind_front(rt, &out, &[]);
        write_command(command, &mut out)?;
    }
    assert_behind_front(rt, &out, bytes);
    Ok(())
}

/// Checks that the command of these bytes is written as they are, after the earlier bytes.
fn assert_written(rt: &impl TestHost, alloc: Global, bytes: &[u8]) -> Result<(), Fail> {
    let command = read_command(alloc, bytes, true)?;
    assert_command_appended(rt, alloc, &command, bytes)
}

#[test]
fn refused_memory_of_written_commands(rt: HostRuntime) -> Result<(), Fail> {
    let host = Host(&rt);
    let registration = registration(rt.alloc(), 3)?;
    assert_written(&host, rt.alloc(), &registration)?;
    assert_written(&host, rt.alloc(), &PURGE)?;
    assert_written(&host, rt.alloc(), &REMOVAL)
}

/// Checks that a command is read and written as these bytes, or refused as a bad record, and that
/// only reads that may take memory are refused it.
fn assert_read(
    rt: &impl TestHost,
    alloc: Global,
    bytes: &[u8],
    takes_memory: bool,
    is_command: bool,
) -> Result<(), Fail> {
    let read = match read_command(alloc, bytes, true) {
        Err(DbError::NoMemory) => {
            assert_true(rt, takes_memory, "the command takes memory");
            read_command(alloc, bytes, true)
        }
        read => read,
    };
    match read {
        Ok(command) => {
            assert_true(rt, is_command, "a command is read");
            let mut written = Vec::new(alloc);
            write_command(&command, &mut written)?;
            assert_bytes(rt, &written, bytes, "the command");
        }
        Err(refusal) => {
            assert_true(rt, !is_command, "a command is refused");
            assert_same(rt, &refusal, &DbError::BadRecord, &"the refusal");
        }
    }
    Ok(())
}

/// Checks that a registration is refused where its third segment is of no type.
fn assert_third_is_none(rt: &impl TestHost, alloc: Global, three: &[u8]) -> Result<(), Fail> {
    let third_is_none = changed(alloc, three, 188, 4)?;
    assert_read(rt, alloc, &third_is_none, true, false)
}

/// Checks the registration of three segments, and how it is refused.
fn assert_three(rt: &impl TestHost, alloc: Global) -> Result<(), Fail> {
    let three = registration(alloc, 3)?;
    assert_read(rt, alloc, &three, true, true)?;
    assert_third_is_none(rt, alloc, &three)
}

/// Checks that the registration of 17 segments is refused.
fn assert_seventeen(rt: &impl TestHost, alloc: Global) -> Result<(), Fail> {
    let seventeen = registration(alloc, 17)?;
    assert_read(rt, alloc, &seventeen, false, false)
}

/// Checks the other commands, which take no memory.
fn assert_others(rt: &impl TestHost, alloc: Global) -> Result<(), Fail> {
    assert_read(rt, alloc, &PURGE, false, true)?;
    assert_read(rt, alloc, &REMOVAL, false, true)?;
    assert_read(rt, alloc, &PURGE[..8], false, false)?;
    assert_read(rt, alloc, &REMOVAL[..33], false, false)
}

#[test]
fn refused_memory_of_read_commands(rt: HostRuntime) -> Result<(), Fail> {
    let host = Host(&rt);
    assert_three(&host, rt.alloc())?;
    assert_seventeen(&host, rt.alloc())?;
    assert_others(&host, rt.alloc())
}
