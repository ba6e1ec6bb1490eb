//! Want of memory while a store is opened. Each test is run with each of its allocations refused in
//! turn: an opening that is refused gives the device back and succeeds when it is tried again, and
//! no answer is another for the refusal.

use crate::host::Host;
use crate::openings::answers::{
    Answer, BAD_CHECKPOINT, BAD_HEADER, BAD_RECORD, NEWER, NO_HALF, NO_MEMORY, NO_STORE, answer_of,
};
use crate::openings::stopped::{HELD, stopped_store};
use crate::openings::stores::change;
use sector_dev::MemDevice;
use std::alloc::Global;
use std::test::Fail;
use test_support::{TestHost, assert_same};

/// A byte of a sector that is another one, whether memory may be wanted before the answer, and the
/// answer.
#[derive(Clone, Copy)]
struct Change {
    name: &'static str,
    sector: u64,
    offset: usize,
    byte: u8,
    takes_memory: bool,
    answer: Answer,
}

#[rattlefmt::skip]
const CHANGES: [Change; 9] = [
    Change { name: "the number of the layout", sector: 0, offset: 11, byte: 2,
        takes_memory: false, answer: NO_STORE },
    Change { name: "the first half's gate", sector: 3, offset: 0, byte: 0,
        takes_memory: false, answer: NO_HALF },
    Change { name: "the version of its checkpoint", sector: 1, offset: 7, byte: 3,
        takes_memory: false, answer: NEWER },
    Change { name: "the length of its rows", sector: 1, offset: 26, byte: 4,
        takes_memory: false, answer: BAD_CHECKPOINT },
    Change { name: "the count of its rows", sector: 1, offset: 31, byte: 2,
        takes_memory: true, answer: BAD_CHECKPOINT },
    Change { name: "the type of its third row", sector: 1, offset: 218, byte: 2,
        takes_memory: true, answer: BAD_CHECKPOINT },
    Change { name: "the header of the purge", sector: 5, offset: 0, byte: 9,
        takes_memory: true, answer: BAD_HEADER },
    Change { name: "the padding of the seal", sector: 7, offset: 16, byte: 1,
        takes_memory: true, answer: BAD_RECORD },
    Change { name: "the type of the tail's row", sector: 524, offset: 22, byte: 9,
        takes_memory: true, answer: BAD_RECORD },
];

/// Opens a device, and once more where memory was refused, which may be so only where it is wanted.
fn tried(
    rt: &impl TestHost,
    alloc: Global,
    device: MemDevice,
    takes_memory: bool,
    name: &str,
) -> (Answer, MemDevice) {
    let (answer, device) = answer_of(alloc, device);
    if answer != NO_MEMORY {
        return (answer, device);
    }
    assert_same(rt, &takes_memory, &true, &name);
    answer_of(alloc, device)
}

/// Opens a device that a stop left, and opens it again.
fn assert_opened_twice(
    rt: &impl TestHost,
    alloc: Global,
    both_are_open: bool,
    name: &str,
) -> Result<(), Fail> {
    let device = stopped_store(alloc, both_are_open)?;
    let (answer, device) = tried(rt, alloc, device, true, name);
    assert_same(rt, &answer, &Ok(HELD), &name);
    let (answer, _device) = tried(rt, alloc, device, true, name);
    assert_same(rt, &answer, &Ok(HELD), &name);
    Ok(())
}

#[test]
fn refused_memory_of_openings(rt: HostRuntime) -> Result<(), Fail> {
    let host = Host(&rt);
    assert_opened_twice(&host, rt.alloc(), false, "one open half")?;
    assert_opened_twice(&host, rt.alloc(), true, "two open halves")
}

/// Opens a device that a stop left, with that byte.
fn assert_refused(rt: &impl TestHost, alloc: Global, row: &Change) -> Result<(), Fail> {
    let mut device = stopped_store(alloc, false)?;
    change(&mut device, row.sector, row.offset, &[row.byte])?;
    let (answer, _device) = tried(rt, alloc, device, row.takes_memory, row.name);
    assert_same(rt, &answer, &row.answer, &row.name);
    Ok(())
}

#[test]
fn refused_memory_of_refusals(rt: HostRuntime) -> Result<(), Fail> {
    let host = Host(&rt);
    for row in &CHANGES {
        assert_refused(&host, rt.alloc(), row)?;
    }
    Ok(())
}
