//! A store that a stop left, with one byte changed: what opening it answers.

use crate::checks::done;
use crate::host::Host;
use crate::openings::answers::{
    Answer, BAD_CHECKPOINT, BAD_HEADER, BAD_RECORD, GAP, Held, NEWER, NO_HALF, NO_STORE, answer_of,
};
use crate::openings::stopped::{HELD, stopped_store};
use crate::openings::stores::{change, put, read_sector};
use sector_dev::{Device, MemDevice, SECTOR};
use std::alloc::Global;
use std::test::Fail;
use test_support::{TestHost, assert_same};

/// What a byte is changed by, bit for bit.
const MASKS: [u8; 4] = [0x01, 0x02, 0x80, 0xa7];

/// It opens to the same rows and place.
const SAME: Answer = Ok(HELD);

/// The first half's journal ends before the purge, or before the seal; or the tail has no group.
const NO_JOURNAL: Answer = Ok(Held {
    rows: 3,
    bytes: 279,
    place: 258,
});

const NO_TAIL: Answer = Ok(Held {
    rows: 3,
    bytes: 279,
    place: 259,
});

/// The purge is of a moment at which all three rows are expired.
const PURGED: Answer = Ok(Held {
    rows: 1,
    bytes: 93,
    place: 260,
});

/// The bytes of a sector from one offset up to another, and what may be answered when one of them
/// is changed.
#[derive(Clone, Copy)]
struct Span {
    name: &'static str,
    sector: u64,
    from: usize,
    end: usize,
    answers: &'static [Answer],
}

/// Five hundred bytes, which are changed four times each.
#[rattlefmt::skip]
const CHANGES: [Span; 51] = [
    // Sector 0: the name and number of the layout and the sizes; what is not read.
    Span { name: "the layout and the sizes", sector: 0, from: 0, end: 20, answers: &[NO_STORE] },
    Span { name: "after the sizes", sector: 0, from: 20, end: 24, answers: &[SAME] },
    // The first half's checkpoint, its rows, and what is after them. A row's segment may become
    // another one.
    Span { name: "the magic", sector: 1, from: 0, end: 4, answers: &[BAD_CHECKPOINT] },
    Span { name: "the version, but its last byte", sector: 1, from: 4, end: 7, answers: &[NEWER] },
    Span { name: "the version's last byte", sector: 1, from: 7, end: 8,
        answers: &[NEWER, BAD_CHECKPOINT] },
    Span { name: "the epoch", sector: 1, from: 8, end: 16, answers: &[SAME] },
    Span { name: "the place", sector: 1, from: 16, end: 24, answers: &[GAP] },
    Span { name: "the length and the count", sector: 1, from: 24, end: 32,
        answers: &[BAD_CHECKPOINT] },
    Span { name: "row 1, type and length", sector: 1, from: 32, end: 37,
        answers: &[BAD_CHECKPOINT] },
    Span { name: "row 1, segment", sector: 1, from: 37, end: 125,
        answers: &[BAD_CHECKPOINT, SAME] },
    Span { name: "row 2, type and length", sector: 1, from: 125, end: 130,
        answers: &[BAD_CHECKPOINT] },
    Span { name: "row 2, segment", sector: 1, from: 130, end: 218,
        answers: &[BAD_CHECKPOINT, SAME] },
    Span { name: "row 3, type and length", sector: 1, from: 218, end: 223,
        answers: &[BAD_CHECKPOINT] },
    Span { name: "row 3, segment", sector: 1, from: 223, end: 251,
        answers: &[BAD_CHECKPOINT, SAME] },
    Span { name: "after the rows", sector: 1, from: 311, end: 319, answers: &[SAME] },
    // Its gate, and its journal's first gate.
    Span { name: "the first half's gate", sector: 3, from: 0, end: 1, answers: &[NO_HALF] },
    Span { name: "rest of the first half's gate", sector: 3, from: 1, end: 4, answers: &[SAME] },
    Span { name: "the journal's gate", sector: 4, from: 0, end: 1, answers: &[NO_JOURNAL] },
    Span { name: "rest of the journal's gate", sector: 4, from: 1, end: 4, answers: &[SAME] },
    // The group in it, which is a purge.
    Span { name: "purge, kind", sector: 5, from: 0, end: 1, answers: &[BAD_HEADER] },
    Span { name: "purge, count", sector: 5, from: 1, end: 2, answers: &[BAD_HEADER, BAD_RECORD] },
    Span { name: "purge, zeros", sector: 5, from: 2, end: 5, answers: &[BAD_HEADER] },
    Span { name: "purge, length", sector: 5, from: 5, end: 8, answers: &[BAD_HEADER, BAD_RECORD] },
    Span { name: "purge, place", sector: 5, from: 8, end: 16, answers: &[GAP] },
    Span { name: "purge, command", sector: 5, from: 16, end: 21, answers: &[BAD_RECORD] },
    Span { name: "purge, high bytes of the moment", sector: 5, from: 21, end: 25,
        answers: &[PURGED] },
    Span { name: "purge, low bytes of the moment", sector: 5, from: 25, end: 29, answers: &[SAME] },
    Span { name: "purge, padding", sector: 5, from: 29, end: 37, answers: &[BAD_RECORD] },
    Span { name: "purge, end of the padding", sector: 5, from: 510, end: 512,
        answers: &[BAD_RECORD] },
    // The seal, its gate, and what is after it.
    Span { name: "the seal's gate", sector: 6, from: 0, end: 1, answers: &[NO_TAIL] },
    Span { name: "rest of the seal's gate", sector: 6, from: 1, end: 4, answers: &[SAME] },
    Span { name: "seal, kind and zeros", sector: 7, from: 0, end: 8, answers: &[BAD_HEADER] },
    Span { name: "seal, place", sector: 7, from: 8, end: 16, answers: &[GAP] },
    Span { name: "seal, padding", sector: 7, from: 16, end: 24, answers: &[BAD_RECORD] },
    Span { name: "after the seal", sector: 8, from: 0, end: 2, answers: &[SAME] },
    // The second half's checkpoint, and its gate: where that opens, its rows are those up to the
    // seal.
    Span { name: "the second checkpoint", sector: 520, from: 0, end: 8, answers: &[SAME] },
    Span { name: "the second half's gate", sector: 522, from: 0, end: 4, answers: &[SAME] },
    // The tail's gate, and its group, which registers a row.
    Span { name: "the tail's gate", sector: 523, from: 0, end: 1, answers: &[NO_TAIL] },
    Span { name: "rest of the tail's gate", sector: 523, from: 1, end: 4, answers: &[SAME] },
    Span { name: "tail, kind", sector: 524, from: 0, end: 1, answers: &[BAD_HEADER] },
    Span { name: "tail, count", sector: 524, from: 1, end: 2, answers: &[BAD_HEADER, BAD_RECORD] },
    Span { name: "tail, zeros", sector: 524, from: 2, end: 5, answers: &[BAD_HEADER] },
    Span { name: "tail, length", sector: 524, from: 5, end: 8, answers: &[BAD_HEADER, BAD_RECORD] },
    Span { name: "tail, place", sector: 524, from: 8, end: 16, answers: &[GAP] },
    Span { name: "tail, command", sector: 524, from: 16, end: 22, answers: &[BAD_RECORD] },
    Span { name: "tail, type of the row", sector: 524, from: 22, end: 23,
        answers: &[BAD_RECORD, SAME] },
    Span { name: "tail, length of the row", sector: 524, from: 23, end: 27,
        answers: &[BAD_RECORD] },
    Span { name: "tail, segment", sector: 524, from: 27, end: 115, answers: &[BAD_RECORD, SAME] },
    Span { name: "tail, padding", sector: 524, from: 115, end: 120, answers: &[BAD_RECORD] },
    // The gate at which it ends.
    Span { name: "the last gate", sector: 525, from: 0, end: 1, answers: &[BAD_HEADER, SAME] },
    Span { name: "rest of the last gate", sector: 525, from: 1, end: 4, answers: &[SAME] },
];

/// What opening a store answers.
#[derive(Clone, Copy, Debug)]
struct Told {
    /// With one byte changed.
    changed: Answer,
    /// With that byte put right again.
    again: Answer,
}

impl Span {
    /// Whether opening answers so where a byte of this span is changed.
    fn is_told(&self, told: Told) -> bool {
        self.answers.contains(&told.changed) && told.again == SAME
    }
}

/// Restores a sector and all gates.
fn put_right(device: &mut MemDevice, at: u64, sector: &[u8]) -> Result<(), Fail> {
    for gate in [3, 4, 6, 523] {
        put(device, gate, &[0xa7])?;
    }
    for gate in [522, 525] {
        put(device, gate, &[0])?;
    }
    put(device, at, sector)?;
    device.sync()?;
    Ok(())
}

/// Changes a byte of a sector by a mask, and opens the store before and after it is put right.
fn told_of(
    alloc: Global,
    device: MemDevice,
    at: u64,
    offset: usize,
    mask: u8,
) -> Result<(MemDevice, Told), Fail> {
    let mut device = device;
    let sector = read_sector(&mut device, at).unwrap_or([0; SECTOR]);
    let byte = sector.get(offset).copied().unwrap_or(0);
    change(&mut device, at, offset, &[byte ^ mask])?;
    let (changed, mut device) = answer_of(alloc, device);
    put_right(&mut device, at, &sector)?;
    let (again, device) = answer_of(alloc, device);
    Ok((device, Told { changed, again }))
}

/// Changes a byte of a span by a mask, and sees what is answered. Counts the image. The device is
/// put right again.
fn told_again(
    rt: &impl TestHost,
    alloc: Global,
    device: MemDevice,
    span: &Span,
    (offset, mask): (usize, u8),
    images: &mut u64,
) -> Result<MemDevice, Fail> {
    let (device, told) = told_of(alloc, device, span.sector, offset, mask)?;
    let case = (span.name, (offset, mask), told);
    assert_same(rt, &span.is_told(told), &true, &case);
    *images = images.saturating_add(1);
    Ok(device)
}

/// Changes a byte of a span by each mask.
fn told_by_masks(
    rt: &impl TestHost,
    alloc: Global,
    device: MemDevice,
    span: &Span,
    offset: usize,
    images: &mut u64,
) -> Result<MemDevice, Fail> {
    let mut device = device;
    for mask in &MASKS {
        device = told_again(rt, alloc, device, span, (offset, *mask), images)?;
    }
    Ok(device)
}

/// Changes each byte of a span.
fn told_in_span(
    rt: &impl TestHost,
    alloc: Global,
    device: MemDevice,
    span: &Span,
    images: &mut u64,
) -> Result<MemDevice, Fail> {
    let mut device = device;
    for offset in span.from..span.end {
        device = told_by_masks(rt, alloc, device, span, offset, images)?;
    }
    Ok(device)
}

#[test]
fn two_thousand_images_are_told(rt: HostRuntime) {
    let host = Host(&rt);
    let mut device = done(&rt, stopped_store(rt.alloc(), false));
    let mut images = 0u64;
    for span in &CHANGES {
        let told = told_in_span(&host, rt.alloc(), device, span, &mut images);
        device = done(&rt, told);
    }
    assert_same(&host, &images, &2000, &"images");
}
