//! Want of memory while groups are written or journals read. Each test is run with each of its
//! allocations refused in turn: a refused call succeeds when it is tried again, and no answer is
//! another for the refusal.

use crate::checks::assert_bytes;
use crate::halves::refusals::{EMPTY, WHOLE, journal};
use crate::halves::worked::{
    SEGMENT, Seen, drawn, outline_of, payload_again, purge_and_registration, purges, read_as,
};
use crate::host::Host;
use gate_journal::{JournalError, Progress, Scanner};
use path_db::Command;
use std::alloc::Global;
use std::test::Fail;
use test_support::{TestHost, assert_same, assert_true};

/// Sees that commands are written as this payload at place 0, and tried again where memory is
/// refused.
fn assert_written(
    rt: &impl TestHost,
    alloc: Global,
    commands: &[Command],
    payload: &[u8],
) -> Result<(), Fail> {
    let written = payload_again(rt, alloc, commands)?;
    assert_bytes(rt, &written, payload, "the payload");
    Ok(())
}

/// Sees that purges are written as they are drawn.
fn assert_purges(rt: &impl TestHost, alloc: Global) -> Result<(), Fail> {
    let payload = drawn(alloc, 32, 0)?;
    let purges = purges(alloc, 32)?;
    assert_written(rt, alloc, &purges, &payload)
}

/// Sees that a purge and a registration are written as in a journal, where the payload of them is
/// after a gate.
fn assert_registration(rt: &impl TestHost, alloc: Global) -> Result<(), Fail> {
    let whole = journal(alloc)?;
    let commands = purge_and_registration(alloc)?;
    let payload = whole.get(512..1024).unwrap_or(&SEGMENT);
    assert_written(rt, alloc, &commands, payload)
}

#[test]
fn refused_memory_of_written_groups(rt: HostRuntime) -> Result<(), Fail> {
    let host = Host(&rt);
    assert_purges(&host, rt.alloc())?;
    assert_registration(&host, rt.alloc())
}

/// Which byte of the worked journal is changed, what to, whether memory may be wanted as it is read
/// then, and what it is read as.
#[derive(Clone, Copy)]
struct Change {
    name: &'static str,
    at: usize,
    byte: u8,
    takes_memory: bool,
    seen: Seen,
}

const BAD_HEADER: Seen = Err(JournalError::BadHeader);

const BAD_RECORD: Seen = Err(JournalError::BadRecord);

const GAP: Seen = Err(JournalError::Gap(2));

/// Only from the records on memory may be wanted.
#[rattlefmt::skip]
const CHANGES: [Change; 6] = [
    Change { name: "as it is", at: 1, byte: 1, takes_memory: true, seen: WHOLE },
    Change { name: "a closed gate", at: 0, byte: 0, takes_memory: false, seen: EMPTY },
    Change { name: "the header", at: 513, byte: 9, takes_memory: false, seen: BAD_HEADER },
    Change { name: "the row's type", at: 547, byte: 4, takes_memory: true, seen: BAD_RECORD },
    Change { name: "the seal's place", at: 1551, byte: 3, takes_memory: true, seen: GAP },
    Change { name: "after the seal", at: 1552, byte: 1, takes_memory: true, seen: BAD_RECORD },
];

/// The worked journal with a byte changed.
fn changed(alloc: Global, change: &Change) -> Result<Vec<u8>, Fail> {
    let mut bytes = journal(alloc)?;
    if let Some(old) = bytes.get_mut(change.at) {
        *old = change.byte;
    }
    Ok(bytes)
}

/// Sees what a changed journal reads as, which is read again where memory is refused.
fn assert_scanned(rt: &impl TestHost, alloc: Global, bytes: &[u8], change: &Change) {
    let answer = match read_as(rt, alloc, bytes, 0, 1) {
        Err(JournalError::NoMemory) => {
            assert_same(rt, &change.takes_memory, &true, &change.name);
            read_as(rt, alloc, bytes, 0, 1)
        }
        answer => answer,
    };
    assert_same(rt, &answer, &change.seen, &change.name);
}

#[test]
fn refused_memory_of_scans(rt: HostRuntime) -> Result<(), Fail> {
    let host = Host(&rt);
    for change in &CHANGES {
        assert_scanned(&host, rt.alloc(), &changed(rt.alloc(), change)?, change);
    }
    Ok(())
}

/// Takes the piece of a journal that a scanner wants. Only a group's payload may want memory, which
/// is the third piece.
fn taken_piece(
    rt: &impl TestHost,
    alloc: Global,
    scanner: Scanner,
    bytes: &[u8],
    number: u8,
) -> Result<Progress, JournalError> {
    let wanted = scanner.wanted();
    assert_true(rt, wanted.first < 7, "the journal has the first sector");
    assert_true(rt, wanted.count < 7, "the journal has as many sectors");
    let first = 512 * wanted.first as usize;
    let count = 512 * wanted.count as usize;
    let piece = bytes.get(first..first + count).unwrap_or(&[]);
    assert_true(rt, piece.len() == count, "the journal has the sectors");
    match scanner.take(alloc, piece) {
        Ok(progress) => Ok(progress),
        Err(refusal) => {
            let may_be = refusal != JournalError::NoMemory || number == 2;
            assert_true(rt, may_be, "a group's payload alone takes memory");
            Err(refusal)
        }
    }
}

/// What a journal reads as that is taken piece by piece.
fn taken(rt: &impl TestHost, alloc: Global, bytes: &[u8]) -> Seen {
    let mut scanner = Scanner::new(alloc, 7, 0, 1);
    for number in 0..7u8 {
        match taken_piece(rt, alloc, scanner, bytes, number)? {
            Progress::Done(scan) => return Ok(outline_of(&scan)),
            Progress::More(next) => scanner = next,
        }
    }
    Err(JournalError::PastEnd)
}

/// Sees what a changed journal reads as piece by piece, which is read again where memory is
/// refused.
fn assert_taken(rt: &impl TestHost, alloc: Global, bytes: &[u8], change: &Change) {
    let answer = match taken(rt, alloc, bytes) {
        Err(JournalError::NoMemory) => {
            assert_same(rt, &change.takes_memory, &true, &change.name);
            taken(rt, alloc, bytes)
        }
        answer => answer,
    };
    assert_same(rt, &answer, &change.seen, &change.name);
}

#[test]
fn refused_memory_of_pieces(rt: HostRuntime) -> Result<(), Fail> {
    let host = Host(&rt);
    for change in &CHANGES {
        assert_taken(&host, rt.alloc(), &changed(rt.alloc(), change)?, change);
    }
    Ok(())
}
