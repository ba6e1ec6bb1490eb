//! Segments: a worked one, and paths that are refused.

use crate::checks::{assert_bytes, done};
use crate::host::Host;
use crate::messages::worked::SEGMENT;
use isd_as::IsdAs;
use seg_core::{
    Entry, SegError, Segment, encoded_len, is_encoding_of, read_segment, write_segment,
};
use std::alloc::Global;
use std::test::Fail;
use test_support::{TestHost, assert_same, assert_true};

/// An entry's AS and its next one, its interfaces and its expiry.
#[derive(Clone, Copy, Debug, PartialEq, Eq)]
struct Hop {
    ia: IsdAs,
    next: IsdAs,
    ingress: u16,
    egress: u16,
    exp_time: u8,
}

/// The hop of an entry.
fn hop_of(entry: &Entry) -> Hop {
    Hop {
        ia: entry.ia,
        next: entry.next,
        ingress: entry.ingress,
        egress: entry.egress,
        exp_time: entry.exp_time,
    }
}

/// Checks that an entry has this hop and these signed bytes, and no other parts.
fn assert_entry(rt: &impl TestHost, entry: &Entry, hop: Hop, signed: &[u8]) {
    assert_same(rt, &hop_of(entry), &hop, &"the hop");
    assert_bytes(rt, entry.signed(), signed, "signed bytes");
    let has_no_more = entry.signature().is_empty() && entry.unsigned().is_none();
    assert_true(rt, has_no_more, "the entry has no other parts");
}

/// Checks that a segment has the worked one's information, and as many entries.
fn assert_information(rt: &impl TestHost, segment: &Segment) {
    assert_same(rt, &segment.timestamp(), &1_700_000_000, &"timestamp");
    assert_same(rt, &segment.segment_id(), &7, &"segment id");
    assert_same(rt, &segment.entries().len(), &2, &"entries");
}

/// Checks that two entries are those of the worked segment.
fn assert_entries(rt: &impl TestHost, one: &Entry, two: &Entry) {
    let first = IsdAs::from_u64(0x0001_ff00_0000_0110);
    let second = IsdAs::from_u64(0x0001_ff00_0000_0111);
    let leaves = Hop {
        ia: first,
        next: second,
        ingress: 0,
        egress: 1,
        exp_time: 63,
    };
    assert_entry(rt, one, leaves, &SEGMENT[16..53]);
    let arrives = Hop {
        ia: second,
        next: IsdAs::from_u64(0),
        ingress: 2,
        egress: 0,
        exp_time: 63,
    };
    assert_entry(rt, two, arrives, &SEGMENT[59..]);
}

/// Checks that a segment is the worked one.
fn assert_worked(rt: &impl TestHost, segment: &Segment) {
    assert_information(rt, segment);
    if let [one, two] = segment.entries() {
        assert_entries(rt, one, two);
    }
}

/// Checks that a copy of a segment is the same, and is written as the worked one.
fn assert_copied(
    rt: &impl TestHost,
    alloc: Global,
    segment: &Segment,
    copy: &Segment,
) -> Result<(), Fail> {
    let written = write_segment(alloc, copy)?;
    assert_bytes(rt, &written, &SEGMENT, "the copy");
    let is_same = copy == segment && is_encoding_of(&written, copy) && encoded_len(copy) == 88;
    assert_true(rt, is_same, "the copy is the same");
    Ok(())
}

#[test]
fn segment_is_read_and_written(rt: HostRuntime) {
    let host = Host(&rt);
    let segment = read_segment(rt.alloc(), &SEGMENT).expect(&rt, "a segment");
    assert_worked(&host, &segment);
    let copy = segment.try_clone().expect(&rt, "a copy");
    done(&rt, assert_copied(&host, rt.alloc(), &segment, &copy));
}

/// Checks that a message is refused as a segment with this error.
fn assert_refused(rt: &impl TestHost, alloc: Global, message: &[u8], error: SegError) {
    let refusal = read_segment(alloc, message).err();
    assert_same(rt, &refusal, &Some(error), &"a path");
}

// Segments with one byte changed, each at its place: the entries are no chain, or return to the
// first AS.
#[test]
fn paths_are_refused(rt: HostRuntime) {
    let host = Host(&rt);
    let mut broken = SEGMENT;
    broken[74] = 0;
    let mut closed = SEGMENT;
    closed[27] = 0x90;
    closed[62] = 0x90;
    assert_refused(&host, rt.alloc(), &broken, SegError::Chain);
    assert_refused(&host, rt.alloc(), &closed, SegError::Loop);
}
