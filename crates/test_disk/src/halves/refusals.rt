//! A journal of which one byte is changed.

use crate::checks::done;
use crate::halves::worked::Part::{Closed, Open, Seal};
use crate::halves::worked::{Outline, SEGMENT, Seen, add_parts, seen};
use crate::host::Host;
use gate_journal::JournalError::{self, BadHeader, BadRecord, Gap, PastEnd};
use std::alloc::Global;
use std::test::Fail;
use test_support::{TestHost, assert_same, assert_true};

/// The group at place 0 of a purge and of the registration of the worked segment, up to its zeros:
/// the header, the purge, what is before the segment, and the segment.
const GROUP: [&[u8]; 4] = [
    &[1, 2, 0, 0, 0, 0, 0, 112, 0, 0, 0, 0, 0, 0, 0, 0],
    &[0, 0, 0, 9, 2, 0, 0, 0, 0, 0, 0, 0, 5],
    &[0, 0, 0, 95, 1, 1, 2, 0, 0, 0, 88],
    &SEGMENT,
];

/// Adds a gate and that group, and after them a seal.
fn add_journal(bytes: &mut Vec<u8>) -> Result<(), Fail> {
    add_parts(bytes, &[Open])?;
    for piece in &GROUP {
        bytes.extend_from_slice(piece)?;
    }
    bytes.resize(1024, 0)?;
    add_parts(bytes, &[Open, Seal(2), Closed, Open, Closed])
}

/// A journal of seven sectors: a purge and a registration of the worked segment at place 0, and
/// after them a seal.
pub(crate) fn journal(alloc: Global) -> Result<Vec<u8>, Fail> {
    let mut bytes = Vec::new(alloc);
    add_journal(&mut bytes)?;
    Ok(bytes)
}

/// What the whole journal reads as.
pub(crate) const WHOLE: Seen = Ok(Outline {
    commands: 2,
    tail: 2,
    is_sealed: true,
    place: 2,
});

/// What it reads as where its first gate is closed, and where its second one is.
pub(crate) const EMPTY: Seen = Ok(Outline {
    commands: 0,
    tail: 0,
    is_sealed: false,
    place: 0,
});

const UNSEALED: Seen = Ok(Outline {
    commands: 2,
    tail: 2,
    is_sealed: false,
    place: 2,
});

/// Which byte is changed, what to, and what the journal then reads as.
#[derive(Clone, Copy)]
struct Change {
    at: usize,
    byte: u8,
    seen: Seen,
}

#[rattlefmt::skip]
const CHANGES: [Change; 46] = [
    // the first gate
    Change { at: 0, byte: 0, seen: EMPTY },
    Change { at: 1, byte: 1, seen: WHOLE },
    // the header: kind, count, two zeros
    Change { at: 512, byte: 0, seen: Err(BadHeader) },
    Change { at: 512, byte: 2, seen: Err(BadHeader) },
    Change { at: 512, byte: 3, seen: Err(BadHeader) },
    Change { at: 513, byte: 0, seen: Err(BadHeader) },
    Change { at: 513, byte: 1, seen: Err(BadRecord) },
    Change { at: 513, byte: 3, seen: Err(BadRecord) },
    Change { at: 513, byte: 8, seen: Err(BadRecord) },
    Change { at: 513, byte: 9, seen: Err(BadHeader) },
    Change { at: 514, byte: 1, seen: Err(BadHeader) },
    Change { at: 515, byte: 1, seen: Err(BadHeader) },
    // the size
    Change { at: 516, byte: 1, seen: Err(BadHeader) },
    Change { at: 517, byte: 4, seen: Err(BadHeader) },
    Change { at: 517, byte: 3, seen: Err(PastEnd) },
    Change { at: 518, byte: 1, seen: Err(BadRecord) },
    Change { at: 518, byte: 4, seen: Err(BadRecord) },
    Change { at: 518, byte: 8, seen: Err(PastEnd) },
    Change { at: 519, byte: 111, seen: Err(BadRecord) },
    Change { at: 519, byte: 113, seen: Err(BadRecord) },
    Change { at: 519, byte: 0, seen: Err(BadRecord) },
    // the place
    Change { at: 520, byte: 1, seen: Err(Gap(0)) },
    Change { at: 527, byte: 1, seen: Err(Gap(0)) },
    // the first record
    Change { at: 528, byte: 1, seen: Err(BadRecord) },
    Change { at: 531, byte: 8, seen: Err(BadRecord) },
    Change { at: 531, byte: 10, seen: Err(BadRecord) },
    Change { at: 532, byte: 4, seen: Err(BadRecord) },
    Change { at: 532, byte: 3, seen: Err(BadRecord) },
    Change { at: 540, byte: 6, seen: WHOLE },
    // the second record
    Change { at: 544, byte: 94, seen: Err(BadRecord) },
    Change { at: 544, byte: 96, seen: Err(BadRecord) },
    Change { at: 545, byte: 2, seen: Err(BadRecord) },
    Change { at: 546, byte: 0, seen: Err(BadRecord) },
    Change { at: 546, byte: 2, seen: Err(BadRecord) },
    Change { at: 546, byte: 17, seen: Err(BadRecord) },
    Change { at: 547, byte: 4, seen: Err(BadRecord) },
    Change { at: 547, byte: 3, seen: WHOLE },
    Change { at: 552, byte: 0x0b, seen: Err(BadRecord) },
    Change { at: 639, byte: 0x0c, seen: WHOLE },
    // the padding
    Change { at: 640, byte: 1, seen: Err(BadRecord) },
    Change { at: 1023, byte: 1, seen: Err(BadRecord) },
    // the second gate, and the seal
    Change { at: 1024, byte: 0xa6, seen: UNSEALED },
    Change { at: 1537, byte: 1, seen: Err(BadHeader) },
    Change { at: 1551, byte: 3, seen: Err(Gap(2)) },
    Change { at: 1552, byte: 1, seen: Err(BadRecord) },
    Change { at: 2048, byte: 0xa7, seen: WHOLE },
];

/// Puts another byte at a place of the journal. Returns the byte that was there.
fn replaced(rt: &impl TestHost, bytes: &mut [u8], at: usize, byte: u8) -> u8 {
    assert_true(rt, at < bytes.len(), "the journal has the byte");
    let was = bytes[at];
    bytes[at] = byte;
    was
}

/// Sees what the journal reads as with one byte changed, and puts the byte right again.
fn assert_changed(
    rt: &impl TestHost,
    alloc: Global,
    bytes: &mut [u8],
    row: &Change,
) -> Result<(), Fail> {
    let was = replaced(rt, bytes, row.at, row.byte);
    let found = seen(rt, alloc, bytes, 0, 1)?;
    assert_same(rt, &found, &row.seen, &(row.byte, row.at));
    replaced(rt, bytes, row.at, was);
    Ok(())
}

/// Sees what the journal reads as, and what with each of the changes.
fn assert_all_changed(rt: &impl TestHost, alloc: Global, bytes: &mut [u8]) -> Result<(), Fail> {
    let found = seen(rt, alloc, bytes, 0, 1)?;
    assert_same(rt, &found, &WHOLE, &"nothing is changed");
    for row in &CHANGES {
        assert_changed(rt, alloc, bytes, row)?;
    }
    Ok(())
}

#[test]
fn one_byte_is_changed(rt: HostRuntime) {
    let mut bytes = done(&rt, journal(rt.alloc()));
    done(&rt, assert_all_changed(&Host(&rt), rt.alloc(), &mut bytes));
}

/// Errors, each with its number and its text.
const TEXTS: [(JournalError, &str); 5] = [
    (JournalError::NoMemory, "0 out of memory"),
    (BadHeader, "1 a payload has no header"),
    (BadRecord, "2 a group has a bad record"),
    (Gap(257), "3 place 257 is missing"),
    (PastEnd, "4 a payload goes past the end"),
];

#[test]
fn errors_have_numbers_and_texts(rt: HostRuntime) -> Result<(), Fail> {
    let host = Host(&rt);
    for (error, wanted) in &TEXTS {
        let text = format!(in rt.alloc(); "{} {error}", error.number())?;
        assert_same(&host, &text.as_str(), wanted, error);
    }
    Ok(())
}
