//! Sessions over a connection in memory.

use crate::checks::assert_same;
use crate::connections::memory::{MemStream, connection};
use cli_once::{OnceService, cores_of};
use paced_stream::{Ended, Sealed, serve_connection};
use seg_check::TrustAll;
use seg_lookup::Roster;
use session_core::{FrameError, Kinds};
use std::alloc::Global;
use std::fmt::Debug;
use std::process::Abort;
use std::time::{Clock, Duration};
use test_support::digits::{FOUND, LOOKUP, REGISTER};

/// A place and one row inserted.
const INSERTED: &str = "0000001981000000000000000000000001000000000000000000000000";

/// The idle time of sessions whose connection times out, in seconds.
const IDLE: u64 = 60;

/// The idle time of sessions whose connection times out.
fn idle() -> Option<Duration> {
    Some(Duration::from_secs(IDLE))
}

/// The bytes of two hexadecimal texts, one after the other.
fn joined(rt: &impl Abort, alloc: Global, first: &str, second: &str) -> Vec<u8> {
    let mut bytes = hex::decode(alloc, first).expect(rt, "no digits");
    let more = hex::decode(alloc, second).expect(rt, "no digits");
    bytes
        .extend_from_slice(more.as_slice())
        .expect(rt, "no memory");
    bytes
}

/// Serves the worked session at moment 0, where all signatures are good.
fn served<'a, R: Abort + Clock>(
    rt: &R,
    alloc: Global,
    input: MemStream<'a>,
    output: MemStream<'a>,
    idle: Option<Duration>,
) -> Ended<MemStream<'a>> {
    let cores = Roster::new(cores_of(alloc, "1-ff00:0:110").expect(rt, "no list of ASes"));
    let mut service = OnceService::new(alloc, &cores, &TrustAll, 0).expect(rt, "no memory");
    let (input, output) = (Sealed::of(input), Sealed::of(output));
    let ended = serve_connection(rt, alloc, input, output, &mut service, Kinds::Base, idle);
    service.end();
    ended
}

/// Sees what a session ended with in a case, whether it was late, and what was written.
fn assert_ended<C: Debug>(
    rt: &impl Abort,
    ended: &Ended<MemStream<'_>>,
    (replies, is_late): (Result<u64, FrameError>, bool),
    written: &[u8],
    case: &C,
) {
    assert_same(rt, &ended.replies, &replies, &("replies", case));
    assert_same(rt, &ended.is_late, &is_late, &("late", case));
    let taken = ended.output.stream().taken.as_slice();
    assert_same(rt, &taken, &written, &("written", case));
}

/// Sees that a session is replied whose reads and writes move this many bytes, and of which each
/// second read and each third write is interrupted.
fn assert_interrupted<R: Abort + Clock>(
    rt: &R,
    alloc: Global,
    (asked, replies): (&[u8], &[u8]),
    piece: usize,
) {
    let mut input = connection(alloc, asked, piece);
    input.interrupts = 2;
    let mut output = connection(alloc, &[], piece);
    output.interrupts = 3;
    let ended = served(rt, alloc, input, output, None);
    assert_ended(rt, &ended, (Ok(2), false), replies, &piece);
    assert_same(
        rt,
        &ended.input.stream().given.as_slice(),
        &asked,
        &("given", piece),
    );
}

// Reads and writes that move a few bytes, and of which each second one is interrupted.
#[test]
fn in_interrupted_pieces(rt: HostRuntime) {
    let alloc = rt.alloc();
    let asked = joined(&rt, alloc, REGISTER, LOOKUP);
    let replies = joined(&rt, alloc, INSERTED, FOUND);
    for piece in [1, 3, 7, 1_000] {
        assert_interrupted(&rt, alloc, (&asked, &replies), piece);
    }
}

// A peer that sends no more and stays: what it has sent is answered.
#[test]
fn late_read(rt: HostRuntime) {
    let alloc = rt.alloc();
    let asked = joined(&rt, alloc, REGISTER, "");
    let replies = joined(&rt, alloc, INSERTED, "");
    let mut input = connection(alloc, asked.as_slice(), 5);
    input.stays_open = true;
    let ended = served(&rt, alloc, input, connection(alloc, &[], 5), idle());
    let wanted = (Err(FrameError::Read), true);
    assert_ended(&rt, &ended, wanted, &replies, &"a late read");
}

/// Sees that a session is late whose peer takes this front of its replies.
fn assert_late_write<R: Abort + Clock>(rt: &R, alloc: Global, asked: &[u8], front: &[u8]) {
    let mut output = connection(alloc, &[], 16);
    output.room = front.len();
    let input = connection(alloc, asked, 1_000);
    let ended = served(rt, alloc, input, output, idle());
    let wanted = (Err(FrameError::Write), true);
    assert_ended(rt, &ended, wanted, front, &front.len());
}

// A peer that takes a front of a reply.
#[test]
fn late_write(rt: HostRuntime) {
    let alloc = rt.alloc();
    let asked = joined(&rt, alloc, REGISTER, LOOKUP);
    let replies = joined(&rt, alloc, INSERTED, FOUND);
    for room in [0, 1, 28, 29, 30, 40] {
        let front = replies.get(..room).expect(&rt, "no front");
        assert_late_write(&rt, alloc, &asked, front);
    }
}

// A connection whose times cannot be set: nothing is read and written.
#[test]
fn not_set_up(rt: HostRuntime) {
    let alloc = rt.alloc();
    let asked = joined(&rt, alloc, REGISTER, "");
    let mut input = connection(alloc, asked.as_slice(), 5);
    input.is_broken = true;
    let ended = served(&rt, alloc, input, connection(alloc, &[], 5), idle());
    let wanted = (Err(FrameError::Read), false);
    assert_ended(&rt, &ended, wanted, &[], &"not set up");
    assert_same(&rt, &ended.input.stream().given.len(), &0, &"given");
}
