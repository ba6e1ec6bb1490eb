//! Commands as records: registrations of the worked segment, purges and removals, and the refusals
//! after one byte was changed.

use crate::checks::done;
use crate::host::Host;
use crate::rows::records::{BAD, changed, put_row};
use crate::rows::worked::SEGMENT;
use path_db::Command;
use path_records::{DbError, is_within_limits, read_command, write_command};
use std::alloc::Global;
use std::test::Fail;
use store_layout::{JournalKind, allows};
use test_support::{TestHost, assert_same};

/// A record that registers the worked segment this number of times, as down segments.
pub(crate) fn registration(alloc: Global, count: u8) -> Result<Vec<u8>, Fail> {
    let mut bytes = Vec::from_slice(alloc, &[1, count])?;
    for _ in 0..count {
        put_row(&mut bytes, 2, 1)?;
    }
    Ok(bytes)
}

/// Appends a down row of 8,192 bytes, or of one more, after its head: the worked segment with a
/// signature of 8,099 bytes or of one more.
fn put_long_row(bytes: &mut Vec<u8>, is_longer: bool) -> Result<(), Fail> {
    // The lengths of the row, of the first entry, of its signed message and of the signature.
    let [row, entry, signed, signature] = match is_longer {
        false => [0, 0xd0, 0xcd, 0xa3],
        true => [1, 0xd1, 0xce, 0xa4],
    };
    bytes.extend_from_slice(&[2, 0, 0, 0x20, row])?;
    bytes.extend_from_slice(&SEGMENT[..10])?;
    bytes.extend_from_slice(&[0x12, entry, 0x3f, 0x0a, signed, 0x3f])?;
    bytes.extend_from_slice(&SEGMENT[14..53])?;
    bytes.extend_from_slice(&[0x12, signature, 0x3f])?;
    bytes.extend_from_slice(&[0; 8_099])?;
    if is_longer {
        bytes.push(0)?;
    }
    bytes.extend_from_slice(&SEGMENT[53..])?;
    Ok(())
}

/// A record that registers sixteen segments of 8,192 bytes, the last of them perhaps of one more.
fn long_registration(alloc: Global, is_longer: bool) -> Result<Vec<u8>, Fail> {
    let mut bytes = Vec::from_slice(alloc, &[1, 16])?;
    for _ in 1..16 {
        put_long_row(&mut bytes, false)?;
    }
    put_long_row(&mut bytes, is_longer)?;
    Ok(bytes)
}

/// What a command is, without the segments that it registers and the id that it removes.
#[derive(Clone, Copy, Debug, PartialEq, Eq)]
enum Shape {
    /// It registers this number of segments.
    Register(usize),
    /// It purges what expires before this moment.
    Purge(u64),
    /// It removes a segment of the type of this number.
    Remove(u64),
    /// It is not written as it was read.
    Otherwise,
}

/// What a command is.
fn shape_of(command: &Command) -> Shape {
    match command {
        Command::Register(registration) => Shape::Register(registration.as_slice().len()),
        Command::Purge(moment) => Shape::Purge(*moment),
        Command::Remove(kind, _) => Shape::Remove(kind.number()),
    }
}

/// The command that is read. Where memory is refused, the bytes are read again.
fn read_again(alloc: Global, bytes: &[u8], removals: bool) -> Result<Command, DbError> {
    match read_command(alloc, bytes, removals) {
        Err(DbError::NoMemory) => read_command(alloc, bytes, removals),
        read => read,
    }
}

/// Whether a command is within its limits and is written as these bytes. Where memory is refused,
/// it is written again.
fn is_written_as(alloc: Global, command: &Command, bytes: &[u8]) -> Result<bool, DbError> {
    if !is_within_limits(command) {
        return Ok(false);
    }
    let mut written = Vec::new(alloc);
    if write_command(command, &mut written).is_err() {
        write_command(command, &mut written)?;
    }
    Ok(written.as_slice() == bytes)
}

/// What the command is that is read under a version.
fn command_of(alloc: Global, bytes: &[u8], version: u32) -> Result<Shape, DbError> {
    let command = read_again(alloc, bytes, allows(version, JournalKind::Removal))?;
    Ok(if is_written_as(alloc, &command, bytes)? {
        shape_of(&command)
    } else {
        Shape::Otherwise
    })
}

/// The purge of a moment, and a byte after it.
const PURGE: [u8; 10] = [2, 0, 0, 0, 0, 0, 0, 1, 2, 0];

// Fronts of a purge's nine bytes, in either version.
#[test]
fn purges(rt: HostRuntime) {
    let host = Host(&rt);
    for version in [1, 2] {
        for len in 0..=PURGE.len() {
            let expected = if len == 9 {
                Ok(Shape::Purge(258))
            } else {
                Err(BAD)
            };
            let read = command_of(rt.alloc(), &PURGE[..len], version);
            assert_same(&host, &read, &expected, &len);
        }
    }
}

/// The bytes of a removal: its kind's number, its type's and how many of an id. What it is read as
/// under a version.
#[derive(Clone, Copy, Debug)]
struct Removal {
    kind: u8,
    number: u8,
    ids: u8,
    version: u32,
    read: Result<Shape, DbError>,
}

#[rattlefmt::skip]
const REMOVALS: [Removal; 11] = [
    Removal { kind: 3, number: 1, ids: 32, version: 2, read: Ok(Shape::Remove(1)) },
    Removal { kind: 3, number: 2, ids: 32, version: 2, read: Ok(Shape::Remove(2)) },
    Removal { kind: 3, number: 3, ids: 32, version: 3, read: Ok(Shape::Remove(3)) },
    Removal { kind: 3, number: 2, ids: 32, version: 1, read: Err(BAD) },
    Removal { kind: 3, number: 2, ids: 32, version: 0, read: Err(BAD) },
    Removal { kind: 3, number: 0, ids: 32, version: 2, read: Err(BAD) },
    Removal { kind: 3, number: 4, ids: 32, version: 2, read: Err(BAD) },
    Removal { kind: 3, number: 2, ids: 31, version: 2, read: Err(BAD) },
    Removal { kind: 3, number: 2, ids: 33, version: 2, read: Err(BAD) },
    Removal { kind: 4, number: 2, ids: 32, version: 2, read: Err(BAD) },
    Removal { kind: 0, number: 2, ids: 32, version: 2, read: Err(BAD) },
];

// A removal has 34 bytes, the third kind, and a type from 1 to 3. Version 1 has no removals.
#[test]
fn removals(rt: HostRuntime) {
    let host = Host(&rt);
    for row in &REMOVALS {
        let mut bytes = Vec::from_slice(rt.alloc(), &[row.kind, row.number]).expect(&rt, "bytes");
        for byte in 0..row.ids {
            bytes.push(byte).expect(&rt, "a byte");
        }
        let read = command_of(rt.alloc(), &bytes, row.version);
        assert_same(&host, &read, &row.read, row);
    }
}

/// What is changed in a registration: the place of one byte, and its new value; and what is read
/// then.
#[derive(Clone, Copy)]
struct Change {
    what: &'static str,
    at: usize,
    byte: u8,
    read: Result<Shape, DbError>,
}

/// Two segments are registered.
const TWO: Result<Shape, DbError> = Ok(Shape::Register(2));

#[rattlefmt::skip]
const CHANGES: [Change; 18] = [
    Change { what: "a purge of many bytes", at: 0, byte: 2, read: Err(BAD) },
    Change { what: "a removal of many bytes", at: 0, byte: 3, read: Err(BAD) },
    Change { what: "another kind", at: 0, byte: 4, read: Err(BAD) },
    Change { what: "no rows, so that bytes are left over", at: 1, byte: 0, read: Err(BAD) },
    Change { what: "a row is left over", at: 1, byte: 1, read: Err(BAD) },
    Change { what: "a row is missing", at: 1, byte: 3, read: Err(BAD) },
    Change { what: "the type", at: 2, byte: 0, read: Err(BAD) },
    Change { what: "rows in any order", at: 2, byte: 3, read: TWO },
    Change { what: "equal rows, as they are", at: 95, byte: 2, read: TWO },
    Change { what: "the second row's type", at: 95, byte: 4, read: Err(BAD) },
    Change { what: "far more bytes than there are", at: 3, byte: 1, read: Err(BAD) },
    Change { what: "a byte less than the segment", at: 6, byte: 87, read: Err(BAD) },
    Change { what: "a byte more than there are", at: 99, byte: 89, read: Err(BAD) },
    Change { what: "a field's wire type", at: 7, byte: 0x0b, read: Err(BAD) },
    // A segment is read, but it is spelled otherwise.
    Change { what: "a field that is skipped", at: 7, byte: 0x1a, read: Err(BAD) },
    Change { what: "no way out of the first AS", at: 46, byte: 0, read: Err(BAD) },
    Change { what: "another way out", at: 46, byte: 9, read: TWO },
    Change { what: "the last MTU, which has no end", at: 187, byte: 0x8b, read: Err(BAD) },
];

// Two segments with one byte changed: their rows begin at 2 and at 95, their segments 5 bytes
// later.
#[test]
fn changed_registrations(rt: HostRuntime) {
    let host = Host(&rt);
    let bytes = done(&rt, registration(rt.alloc(), 2));
    for row in &CHANGES {
        let changed = done(&rt, changed(rt.alloc(), &bytes, row.at, row.byte));
        let read = command_of(rt.alloc(), &changed, 1);
        assert_same(&host, &read, &row.read, &row.what);
    }
}

/// How many segments are registered, and what is read then.
const COUNTS: [(u8, Result<Shape, DbError>); 4] = [
    (0, Ok(Shape::Register(0))),
    (1, Ok(Shape::Register(1))),
    (16, Ok(Shape::Register(16))),
    (17, Err(BAD)),
];

/// Checks what the registration of this number of segments is read as.
fn assert_count(
    rt: &impl TestHost,
    alloc: Global,
    count: u8,
    expected: Result<Shape, DbError>,
) -> Result<(), Fail> {
    let bytes = registration(alloc, count)?;
    assert_same(rt, &command_of(alloc, &bytes, 1), &expected, &count);
    Ok(())
}

/// Checks what the registration of long segments is read as.
fn assert_long(
    rt: &impl TestHost,
    alloc: Global,
    is_longer: bool,
    expected: Result<Shape, DbError>,
) -> Result<(), Fail> {
    let bytes = long_registration(alloc, is_longer)?;
    let read = command_of(alloc, &bytes, 1);
    assert_same(rt, &read, &expected, &("is longer", is_longer));
    Ok(())
}

// At most 16 segments, and at most 131,072 bytes of them.
#[test]
fn registrations_are_limited(rt: HostRuntime) {
    let host = Host(&rt);
    for (count, expected) in &COUNTS {
        done(&rt, assert_count(&host, rt.alloc(), *count, *expected));
    }
    let sixteen = Ok(Shape::Register(16));
    done(&rt, assert_long(&host, rt.alloc(), false, sixteen));
    done(&rt, assert_long(&host, rt.alloc(), true, Err(BAD)));
}
