//! Sessions in frames: cut anywhere, and over readers and writers that fail.

use crate::checks::assert_same;
use crate::once::streams::{FailsOnce, Holds, NEVER, Narrow, Pieces, WhenFull, in_pieces};
use crate::once::worked::*;
use seg_lookup::Roster;
use session_core::FrameError;
use std::alloc::Global;
use std::process::Abort;

#[test]
fn sessions_in_pieces(rt: HostRuntime) {
    let alloc = rt.alloc();
    let input = joined(&rt, alloc, &[REGISTER, LOOKUP]);
    for size in 1..=input.len() {
        assert_in_pieces(
            &rt,
            alloc,
            input.as_slice(),
            size,
            Ok(2),
            &[INSERTED, FOUND],
        );
    }
}

/// A first frame of the greatest length, with an unknown field, and a second of the least.
fn long_input(rt: &impl Abort, alloc: Global) -> Vec<u8> {
    let mut input = joined(rt, alloc, &["0002000101", "1afcff07"]);
    input.resize(131_077, 0).expect(rt, "no memory");
    input
        .extend_from_slice(&[0, 0, 0, 1, 1])
        .expect(rt, "no memory");
    input
}

#[test]
fn greatest_frame(rt: HostRuntime) {
    let alloc = rt.alloc();
    let second = "0000001981000000000000000100000000000000000000000000000000";
    let input = long_input(&rt, alloc);
    for size in [1_000, 65_535, 65_536, 200_000] {
        assert_in_pieces(
            &rt,
            alloc,
            input.as_slice(),
            size,
            Ok(2),
            &[NONE_INSERTED, second],
        );
    }
}

/// A frame with a fault after a lookup of 21 bytes, in pieces. The fault is seen once the four
/// bytes of the length are there, or the kind after them.
#[derive(Clone, Copy)]
struct LastRead {
    frame: &'static str,
    fault: FrameError,
    /// The bytes of a piece.
    size: usize,
    /// The pieces that are read.
    reads: u64,
}

#[rattlefmt::skip]
const LAST_READS: [LastRead; 8] = [
    LastRead { frame: "00000000", fault: FrameError::Length, size: 1, reads: 25 },
    LastRead { frame: "00000000", fault: FrameError::Length, size: 4, reads: 7 },
    LastRead { frame: "00000000", fault: FrameError::Length, size: 5, reads: 5 },
    LastRead { frame: "00000000", fault: FrameError::Length, size: 100, reads: 1 },
    LastRead { frame: "0000000106", fault: FrameError::Kind, size: 1, reads: 26 },
    LastRead { frame: "0000000106", fault: FrameError::Kind, size: 4, reads: 7 },
    LastRead { frame: "0000000106", fault: FrameError::Kind, size: 5, reads: 6 },
    LastRead { frame: "0000000106", fault: FrameError::Kind, size: 100, reads: 1 },
];

/// Asserts how much is read up to a fault, and that nothing is read after it.
fn assert_last_read(rt: &impl Abort, alloc: Global, wanted: LastRead) {
    let LastRead { frame, size, .. } = wanted;
    let input = joined(rt, alloc, &[LOOKUP, frame, REGISTER]);
    let mut reader = in_pieces(input.as_slice(), size);
    let mut output = Vec::new(alloc);
    let outcome = session(alloc, &mut reader, &mut output, &cores(rt, alloc), 1_000);
    assert_ended(rt, outcome, Err(wanted.fault), frame, size as u64);
    assert_calls(rt, reader.reads, wanted.reads, frame, size as u64);
    assert_written(rt, alloc, frame, output.as_slice(), &[NONE_FOUND]);
}

#[test]
fn nothing_read_after_a_fault(rt: HostRuntime) {
    for wanted in LAST_READS {
        assert_last_read(&rt, rt.alloc(), wanted);
    }
}

/// Asserts what is left where the read of this number fails, of pieces of ten bytes.
fn assert_failing_read(rt: &impl Abort, alloc: Global, failing: u64, replies: &[&str]) {
    let input = joined(rt, alloc, &[REGISTER, LOOKUP]);
    let mut reader = Pieces {
        bytes: input.as_slice(),
        size: 10,
        reads: 0,
        failing,
    };
    let mut output = Vec::new(alloc);
    let outcome = session(alloc, &mut reader, &mut output, &cores(rt, alloc), 1_000);
    assert_ended(rt, outcome, Err(FrameError::Read), "read", failing);
    assert_calls(rt, reader.reads, failing.saturating_add(1), "read", failing);
    assert_written(rt, alloc, "a failing read", output.as_slice(), replies);
}

#[test]
fn failing_reads(rt: HostRuntime) {
    let alloc = rt.alloc();
    for failing in 0..=10 {
        assert_failing_read(&rt, alloc, failing, &[]);
    }
    assert_failing_read(&rt, alloc, 11, &[INSERTED]);
    assert_failing_read(&rt, alloc, 12, &[INSERTED]);
    assert_failing_read(&rt, alloc, 13, &[INSERTED, FOUND]);
}

/// Asserts what a writer takes that has room for this number of bytes.
fn assert_front(
    rt: &impl Abort,
    alloc: Global,
    name: &str,
    when_full: WhenFull,
    room: usize,
    ends: Result<u64, FrameError>,
    front: &[u8],
) {
    let input = joined(rt, alloc, &[REGISTER, LOOKUP]);
    let mut reader = input.as_slice();
    let mut writer = Narrow {
        taken: Vec::new(alloc),
        room,
        when_full,
    };
    let outcome = session(alloc, &mut reader, &mut writer, &cores(rt, alloc), 1_000);
    assert_ended(rt, outcome, ends, name, room as u64);
    assert_same(rt, &writer.taken.as_slice(), &front, &(name, room));
}

#[test]
fn failing_writes(rt: HostRuntime) {
    let alloc = rt.alloc();
    let wanted = joined(&rt, alloc, &[INSERTED, FOUND]);
    let all = wanted.as_slice();
    for (name, when_full) in [
        ("takes none after", WhenFull::TakesNone),
        ("fails after", WhenFull::Fails),
    ] {
        for room in 0..all.len() {
            let front = all.split_at(room).0;
            let ends = Err(FrameError::Write);
            assert_front(&rt, alloc, name, when_full, room, ends, front);
        }
        assert_front(&rt, alloc, name, when_full, all.len(), Ok(2), all);
    }
}

/// Asserts what is left where the write of this number fails, and how many writes there are.
fn assert_failing_write(
    rt: &impl Abort,
    alloc: Global,
    failing: usize,
    ends: Result<u64, FrameError>,
    calls: usize,
    replies: &[&str],
) {
    let input = joined(rt, alloc, &[REGISTER, LOOKUP, NO_ENDS]);
    let mut reader = input.as_slice();
    let mut writer = FailsOnce {
        taken: Vec::new(alloc),
        writes: 0,
        failing,
    };
    let outcome = session(alloc, &mut reader, &mut writer, &cores(rt, alloc), 1_000);
    assert_ended(rt, outcome, ends, "write", failing as u64);
    assert_calls(
        rt,
        writer.writes as u64,
        calls as u64,
        "write",
        failing as u64,
    );
    assert_written(
        rt,
        alloc,
        "a failing write",
        writer.taken.as_slice(),
        replies,
    );
}

#[test]
fn one_failing_write(rt: HostRuntime) {
    let alloc = rt.alloc();
    // The length and the kind of a response are written before it.
    let (head, response) = FOUND.split_at(10);
    let writes = [INSERTED, head, response, NULL_DESTINATION];
    for failing in 0..writes.len() {
        let front = writes.split_at(failing).0;
        let calls = failing.saturating_add(1);
        assert_failing_write(&rt, alloc, failing, Err(FrameError::Write), calls, front);
    }
    let all = writes.as_slice();
    assert_failing_write(&rt, alloc, all.len(), Ok(3), all.len(), all);
}

/// Asserts that both replies are flushed where this comes after the worked session's frames.
fn assert_flushed(rt: &impl Abort, alloc: Global, last: &str, ends: Result<u64, FrameError>) {
    let input = joined(rt, alloc, &[REGISTER, LOOKUP, last]);
    let mut reader = input.as_slice();
    let mut writer = Holds::new(alloc, NEVER);
    let outcome = session(alloc, &mut reader, &mut writer, &cores(rt, alloc), 1_000);
    assert_ended(rt, outcome, ends, last, 0);
    assert_written(
        rt,
        alloc,
        last,
        writer.flushed.as_slice(),
        &[INSERTED, FOUND],
    );
}

#[test]
fn held_until_flushed(rt: HostRuntime) {
    let alloc = rt.alloc();
    assert_flushed(&rt, alloc, "", Ok(2));
    assert_flushed(&rt, alloc, "00", Err(FrameError::Read));
    assert_flushed(&rt, alloc, "00000000", Err(FrameError::Length));
    assert_flushed(&rt, alloc, "0000000106", Err(FrameError::Kind));
}

/// Asserts what is flushed and what is held where the flush of this number fails. Each frame comes
/// in a piece of its own.
fn assert_failing_flush(rt: &impl Abort, alloc: Global, failing: u64, flushed: &str, held: &str) {
    let input = joined(rt, alloc, &[REGISTER, LOOKUP]);
    let size = joined(rt, alloc, &[REGISTER]).len();
    let mut reader = in_pieces(input.as_slice(), size);
    let mut writer = Holds::new(alloc, failing);
    let outcome = session(alloc, &mut reader, &mut writer, &cores(rt, alloc), 1_000);
    assert_ended(rt, outcome, Err(FrameError::Write), "flush", failing);
    assert_calls(
        rt,
        reader.reads,
        failing.saturating_add(1),
        "flush",
        failing,
    );
    assert_written(rt, alloc, "flushed", writer.flushed.as_slice(), &[flushed]);
    assert_written(rt, alloc, "held", writer.held.as_slice(), &[held]);
}

// A reply is flushed before the next read, and where that fails there is no next read.
#[test]
fn flushed_before_the_next_read(rt: HostRuntime) {
    let alloc = rt.alloc();
    assert_failing_flush(&rt, alloc, 0, "", INSERTED);
    assert_failing_flush(&rt, alloc, 1, INSERTED, FOUND);
}

/// Asserts how a session of the worked frames, in 14 reads of at most ten bytes, ends after this
/// number of reads.
fn assert_turns(rt: &impl Abort, alloc: Global, turns: u64, ends: Result<u64, FrameError>) {
    let input = joined(rt, alloc, &[REGISTER, LOOKUP]);
    let mut reader = in_pieces(input.as_slice(), 10);
    let mut output = Vec::new(alloc);
    let outcome = session(alloc, &mut reader, &mut output, &cores(rt, alloc), turns);
    assert_ended(rt, outcome, ends, "turns", turns);
    assert_calls(rt, reader.reads, turns.min(14), "turns", turns);
}

#[test]
fn too_many_reads(rt: HostRuntime) {
    let alloc = rt.alloc();
    for turns in 0..14 {
        assert_turns(&rt, alloc, turns, Err(FrameError::Turns));
    }
    assert_turns(&rt, alloc, 14, Ok(2));
    assert_turns(&rt, alloc, 15, Ok(2));
}

#[test]
fn too_many_reads_of_a_front(rt: HostRuntime) {
    let alloc = rt.alloc();
    let input = joined(&rt, alloc, &["000000"]);
    let mut output = Vec::new(alloc);
    let mut reader = in_pieces(input.as_slice(), 1);
    let none = Roster::new(Vec::new(alloc));
    let outcome = session(alloc, &mut reader, &mut output, &none, 3);
    assert_same(&rt, &outcome, &Err(FrameError::Turns), &"a front");
}
