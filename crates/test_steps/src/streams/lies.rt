//! A device of which one read lies once a checkpoint is begun: the lie is noticed, and no byte of
//! it is written.

use crate::host::Host;
use crate::streams::large_rows::{LARGE_CONTENTS, large_half};
use crate::streams::sealed::{SECTORS, sectors_from};
use crate::streams::watched::{Change, Watched};
use group_core::{BeginError, StepError};
use sector_dev::{MemDevice, SECTOR};
use std::alloc::Global;
use std::process::Abort;
use std::test::Fail;
use test_group_scripts::stores::{assert_opens_to, opened};
use test_group_scripts::work::{Told, Work, work_of};
use test_support::{TestHost, assert_same};

/// What changes a device that lies, of a round over the half of large rows, of which 213,089 bytes
/// would be written to the second half's area in two chunks.
const CHANGES: [Change; 1] = [Change::Write {
    at: 1702,
    sectors: 256,
}];

/// A device with the half of large rows, of which the read after this number of reads lies.
fn watched(rt: &Host<impl Abort>, alloc: Global, honest: u64) -> Watched<MemDevice> {
    Watched::over(rt, alloc, large_half(rt, alloc), honest)
}

/// How many reads are made up to the end of `begin`.
fn reads_of_begin(rt: &Host<impl Abort>, alloc: Global) -> u64 {
    let store = opened(rt, alloc, watched(rt, alloc, u64::MAX));
    let work = work_of(rt, alloc, store).checks(rt, Told::Done);
    let reads = work.state.device().reads();
    let _device = work.ends(rt, LARGE_CONTENTS);
    reads
}

/// Begins a checkpoint, and sees that what is read after its first chunk is refused.
fn assert_damaged(rt: &Host<impl Abort>, work: &mut Work<Watched<MemDevice>>) {
    let Ok(plan) = work.state.begin() else {
        rt.fail("no checkpoint was begun");
    };
    match work.state.write_chunk(plan) {
        Err(StepError::Damaged) => {}
        _ => rt.fail("the lie was not noticed"),
    }
}

/// Sees that the state has stopped.
fn assert_stopped(rt: &Host<impl Abort>, work: &mut Work<Watched<MemDevice>>) {
    match work.state.begin() {
        Err(BeginError::Stopped) => {}
        _ => rt.fail("the state goes on"),
    }
}

/// Sees that the first chunk is written, and nothing after it.
fn assert_changes(rt: &Host<impl Abort>, changes: &[Change]) {
    assert_same(rt, &changes.ends_with(&CHANGES), &true, &changes);
}

/// The bytes of a device that opens to the rows of the old half.
fn bytes_of(rt: &Host<impl Abort>, alloc: Global, memory: MemDevice) -> Vec<u8> {
    let mut memory = assert_opens_to(rt, alloc, memory, LARGE_CONTENTS);
    sectors_from(rt, alloc, &mut memory, 0, SECTORS as usize)
}

/// The bytes of a store after a checkpoint was begun over a device whose next read lies: the first
/// chunk is written, what is read after it is refused, and the state has stopped. The store opens
/// to the rows of its old half.
fn bytes_after_a_lie(rt: &Host<impl Abort>, alloc: Global, honest: u64) -> Vec<u8> {
    let store = opened(rt, alloc, watched(rt, alloc, honest));
    let mut work = work_of(rt, alloc, store);
    assert_damaged(rt, &mut work);
    assert_stopped(rt, &mut work);
    let (changes, memory) = work.device(rt).into_parts();
    assert_changes(rt, &changes);
    bytes_of(rt, alloc, memory)
}

/// Sectors of a device, and whether they are other ones after a lie.
#[derive(Clone, Copy)]
struct Span {
    /// The number of the first sector.
    from: usize,
    /// How many sectors there are.
    count: usize,
    /// Whether a byte of them is another one then.
    differ: bool,
}

/// Sees whether bytes differ from others in these sectors.
fn assert_differ(rt: &Host<impl Abort>, one: &[u8], other: &[u8], span: Span) {
    let first = span.from.saturating_mul(SECTOR);
    let size = span.count.saturating_mul(SECTOR);
    let mut both = one.iter().zip(other).skip(first).take(size);
    let differ = both.any(|(one, other)| one != other);
    assert_same(rt, &differ, &span.differ, &span.from);
}

/// Only the first chunk may have changed.
#[rattlefmt::skip]
const SECTORS_THAT_DIFFER: [Span; 3] = [
    Span { from: 0, count: 1702, differ: false },
    Span { from: 1702, count: 256, differ: true },
    Span { from: 1958, count: 1445, differ: false },
];

/// Sees which sectors differ.
fn assert_spans(rt: &Host<impl Abort>, before: &[u8], lied: &[u8]) {
    for span in SECTORS_THAT_DIFFER {
        assert_differ(rt, before, lied, span);
    }
}

/// The bytes of the half of large rows before any checkpoint.
fn bytes_before(rt: &Host<impl Abort>, alloc: Global) -> Vec<u8> {
    let mut memory = large_half(rt, alloc);
    sectors_from(rt, alloc, &mut memory, 0, SECTORS as usize)
}

#[test]
fn lies_are_noticed(rt: HostRuntime) -> Result<(), Fail> {
    let host = Host(&rt);
    let reads = reads_of_begin(&host, rt.alloc());
    let lied = bytes_after_a_lie(&host, rt.alloc(), reads);
    let before = bytes_before(&host, rt.alloc());
    assert_spans(&host, &before, &lied);
    Ok(())
}
