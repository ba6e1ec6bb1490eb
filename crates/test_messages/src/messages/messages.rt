//! Registrations, requests and responses.

use crate::checks::{assert_bytes, done};
use crate::host::Host;
use crate::messages::worked::{CORE, DOWN, SEGMENT};
use pw_wire::WireError;
use seg_core::{
    SegError, SegType, Segment, read_registration, read_request, read_segment, write_response,
};
use std::alloc::{AllocError, Global};
use std::test::Fail;
use test_support::{TestHost, assert_same, assert_true};

/// The worked segment, registered as a down segment.
fn registration(alloc: Global) -> Result<Vec<u8>, Fail> {
    let mut message = Vec::from_slice(alloc, &DOWN)?;
    message.extend_from_slice(&SEGMENT)?;
    Ok(message)
}

/// The rows that a message registers.
fn rows_of(alloc: Global, message: &[u8]) -> Result<Vec<(SegType, Segment)>, SegError> {
    read_registration(alloc, message)
}

/// Checks that the answer of these rows is these bytes.
fn assert_answered(
    rt: &impl TestHost,
    alloc: Global,
    rows: &[(SegType, Segment)],
    expected: &[u8],
) -> Result<(), Fail> {
    let response = write_response(alloc, rows)?;
    assert_bytes(rt, &response, expected, "the answer");
    Ok(())
}

/// Checks that a row of a down segment is the only one.
fn assert_down(rt: &impl TestHost, rows: &[(SegType, Segment)]) {
    let is_down = rows.len() == 1 && rows[0].0 == SegType::Down;
    assert_true(rt, is_down, "a down segment is the only row");
}

#[test]
fn registration_is_answered(rt: HostRuntime) {
    let host = Host(&rt);
    let message = done(&rt, registration(rt.alloc()));
    let rows = rows_of(rt.alloc(), &message).expect(&rt, "the rows are read");
    assert_down(&host, &rows);
    done(&rt, assert_answered(&host, rt.alloc(), &rows, &message));
}

/// Appends the worked segment as a row of this type.
fn push_row(alloc: Global, rows: &mut Vec<(SegType, Segment)>, kind: SegType) -> Result<(), Fail> {
    rows.push((kind, read_segment(alloc, &SEGMENT)?))?;
    Ok(())
}

/// The worked segment as a core segment and as a down segment.
fn both(alloc: Global) -> Result<Vec<(SegType, Segment)>, Fail> {
    let mut rows = Vec::new(alloc);
    push_row(alloc, &mut rows, SegType::Core)?;
    push_row(alloc, &mut rows, SegType::Down)?;
    Ok(rows)
}

/// The answer of the worked segment as a down segment and as a core segment.
fn both_answered(alloc: Global) -> Result<Vec<u8>, Fail> {
    let mut expected = registration(alloc)?;
    expected.extend_from_slice(&CORE)?;
    expected.extend_from_slice(&SEGMENT)?;
    Ok(expected)
}

#[test]
fn types_are_answered_by_number(rt: HostRuntime) {
    let host = Host(&rt);
    let rows = done(&rt, both(rt.alloc()));
    let expected = done(&rt, both_answered(rt.alloc()));
    done(&rt, assert_answered(&host, rt.alloc(), &rows, &expected));
    done(&rt, assert_answered(&host, rt.alloc(), &[], &[]));
}

/// The source and the destination of a request, as numbers.
fn ends_of(message: &[u8]) -> Result<(u64, u64), SegError> {
    let (source, destination) = read_request(message)?;
    Ok((source.to_u64(), destination.to_u64()))
}

/// A request from 1-ff00:0:110 to 1-ff00:0:111.
const REQUEST: [u8; 16] = *b"\x08\x90\x82\x80\x80\x80\xe0\x7f\x10\x91\x82\x80\x80\x80\xe0\x7f";

// The request above, and an empty one.
#[test]
fn request_is_read(rt: HostRuntime) {
    let host = Host(&rt);
    let ends = (0x0001_ff00_0000_0110, 0x0001_ff00_0000_0111);
    assert_same(&host, &ends_of(&REQUEST), &Ok(ends), &"a request");
    assert_same(&host, &ends_of(b""), &Ok((0, 0)), &"an empty one");
}

/// The number of segments of a registration.
fn count(alloc: Global, message: &[u8]) -> Result<usize, SegError> {
    Ok(read_registration(alloc, message)?.len())
}

/// Messages, and the number of segments that each registers.
const MESSAGES: [(&[u8], Result<usize, SegError>); 15] = [
    (b"", Ok(0)),
    (b"\x0a", Err(SegError::Wire(WireError::Truncated))),
    (
        b"\xff\xff\xff\xff\xff\xff\xff\xff\xff\x02",
        Err(SegError::Wire(WireError::LongVarint)),
    ),
    (b"\x00", Err(SegError::Wire(WireError::BadField))),
    (b"\x0b", Err(SegError::Wire(WireError::GroupWire))),
    (b"\x0e", Err(SegError::Wire(WireError::BadWire))),
    (b"\x08\x00", Err(SegError::KindOfField)),
    (b"\x0a\x04\x12\x00\x12\x00", Err(SegError::RepeatedMessage)),
    (
        b"\x0a\x02\x08\x02\x0a\x02\x08\x02",
        Err(SegError::RepeatedMessage),
    ),
    (
        b"\x0a\x08\x08\x02\x12\x04\x0a\x02\x12\x00",
        Err(SegError::MissingField),
    ),
    (
        b"\x0a\x15\x08\x02\x12\x11\x0a\x0f\x0a\x0b\x08\xff\xff\xff\xff\xff\xff\xff\xff\xff\x01\x12\x00",
        Err(SegError::Range),
    ),
    (b"\x0a\x06\x08\x02\x12\x02\x0a\x00", Err(SegError::Entries)),
    (b"\x0a\x00", Err(SegError::BadType)),
    (b"\x10\x00", Ok(0)),
    (b"\x0a\x02\x08\x01", Ok(0)),
];

#[test]
fn messages_are_refused(rt: HostRuntime) {
    let host = Host(&rt);
    for (message, expected) in &MESSAGES {
        assert_same(&host, &count(rt.alloc(), message), expected, message);
    }
}

/// This number of copies of the worked segment after these bytes.
fn repeated(alloc: Global, head: &[u8], times: usize) -> Result<Vec<u8>, Fail> {
    let mut message = Vec::from_slice(alloc, head)?;
    for _ in 0..times {
        message.extend_from_slice(b"\x0a\x58")?;
        message.extend_from_slice(&SEGMENT)?;
    }
    Ok(message)
}

// Sixteen segments of one type are read, and the seventeenth is refused.
#[test]
fn seventeen_segments_are_refused(rt: HostRuntime) {
    let host = Host(&rt);
    let sixteen = done(
        &rt,
        repeated(rt.alloc(), b"\x0a\xa5\x0b\x08\x02\x12\xa0\x0b", 16),
    );
    assert_same(&host, &count(rt.alloc(), &sixteen), &Ok(16), &16);
    let seventeen = done(
        &rt,
        repeated(rt.alloc(), b"\x0a\xff\x0b\x08\x02\x12\xfa\x0b", 17),
    );
    let refused = Err(SegError::TooLarge);
    assert_same(&host, &count(rt.alloc(), &seventeen), &refused, &17);
}

/// The rows that a message registers, which is read once more where memory is refused.
fn rows_again(alloc: Global, message: &[u8]) -> Result<Vec<(SegType, Segment)>, SegError> {
    match rows_of(alloc, message) {
        Err(SegError::NoMemory) => rows_of(alloc, message),
        read => read,
    }
}

/// The answer of rows, which is written once more where memory is refused.
fn answered_again(alloc: Global, rows: &[(SegType, Segment)]) -> Result<Vec<u8>, AllocError> {
    match write_response(alloc, rows) {
        Ok(response) => Ok(response),
        Err(_) => write_response(alloc, rows),
    }
}

/// Checks that the answer of rows is these bytes, which are written once more where memory is
/// refused.
fn assert_answered_again(
    rt: &impl TestHost,
    alloc: Global,
    rows: &[(SegType, Segment)],
    expected: &[u8],
) -> Result<(), Fail> {
    let answer = answered_again(alloc, rows)?;
    assert_bytes(rt, &answer, expected, "the answer");
    Ok(())
}

/// Checks that a message registers a down segment, and is the answer of it, where each is tried
/// once more where memory is refused.
fn assert_again(rt: &impl TestHost, alloc: Global, message: &[u8]) -> Result<(), Fail> {
    let rows = rows_again(alloc, message)?;
    assert_down(rt, &rows);
    assert_answered_again(rt, alloc, &rows, message)
}

// Run with each allocation failing in turn: a call that is refused succeeds when it is tried again,
// and no answer is another for it.
#[test]
fn refused_memory_is_told(rt: HostRuntime) -> Result<(), Fail> {
    let mut message = [0; 96];
    message[..8].copy_from_slice(&DOWN);
    message[8..].copy_from_slice(&SEGMENT);
    assert_again(&Host(&rt), rt.alloc(), &message)
}
