//! The times of sessions over a connection in memory, by a clock that the connection and the
//! service move.

use crate::checks::assert_same;
use crate::connections::busy::Busy;
use crate::connections::clock::MovedClock;
use crate::connections::memory::{MemStream, connection};
use cli_once::{OnceService, cores_of};
use paced_stream::{Ended, Sealed, serve_connection};
use seg_check::TrustAll;
use seg_lookup::Roster;
use session_core::{FrameError, Kinds};
use std::alloc::Global;
use std::process::Abort;
use std::sync::atomic::Ordering;
use std::time::Duration;
use test_support::digits::{FOUND, LOOKUP, REGISTER};

/// A place and one row inserted.
const INSERTED: &str = "0000001981000000000000000000000001000000000000000000000000";

/// The idle time, in milliseconds.
const IDLE: u64 = 60_000;

/// How many lookups follow a registration. Each reply to them has 101 bytes, so that 8,192 bytes
/// are full after the head of a reply.
const LOOKUPS: usize = 300;

/// The idle time.
fn idle() -> Option<Duration> {
    Some(Duration::from_millis(IDLE))
}

/// The bytes of a hexadecimal text, and those of another one this number of times.
fn repeated(rt: &impl Abort, alloc: Global, first: &str, next: &str, count: usize) -> Vec<u8> {
    let mut bytes = hex::decode(alloc, first).expect(rt, "no digits");
    let more = hex::decode(alloc, next).expect(rt, "no digits");
    for _ in 0..count {
        bytes
            .extend_from_slice(more.as_slice())
            .expect(rt, "no memory");
    }
    bytes
}

/// Serves a session whose service takes this number of milliseconds for each answer.
fn served<'a>(
    rt: &impl Abort,
    alloc: Global,
    clock: &MovedClock,
    (input, output): (MemStream<'a>, MemStream<'a>),
    takes: u64,
    idle: Option<Duration>,
) -> Ended<MemStream<'a>> {
    let cores = Roster::new(cores_of(alloc, "1-ff00:0:110").expect(rt, "no list of ASes"));
    let service = OnceService::new(alloc, &cores, &TrustAll, 0).expect(rt, "no memory");
    let mut busy = Busy {
        service,
        clock,
        takes,
    };
    let (input, output) = (Sealed::of(input), Sealed::of(output));
    let ended = serve_connection(clock, alloc, input, output, &mut busy, Kinds::Base, idle);
    let Busy {
        service,
        clock: _,
        takes: _,
    } = busy;
    service.end();
    ended
}

/// How a peer goes on, and how a session with it goes. Its times are in milliseconds.
#[derive(Clone, Copy, Debug)]
struct Case {
    /// The most bytes of a read, and how long it takes.
    read: (usize, u64),
    /// Each read is interrupted whose number is a multiple of this, from 1.
    interrupts: u64,
    /// Whether the peer sends no end.
    stays: bool,
    /// How long an answer takes.
    answer: u64,
    /// The most bytes of a write, and how long it takes.
    write: (usize, u64),
    /// The number of bytes that the peer takes.
    room: usize,
}

/// A peer and a server that take no time.
const PROMPT: Case = Case {
    read: (usize::MAX, 0),
    interrupts: u64::MAX,
    stays: false,
    answer: 0,
    write: (usize::MAX, 0),
    room: usize::MAX,
};

impl Case {
    /// Serves a session in which a peer asks this.
    fn served<'a>(
        &self,
        rt: &impl Abort,
        alloc: Global,
        clock: &'a MovedClock,
        asked: &'a [u8],
        idle: Option<Duration>,
    ) -> Ended<MemStream<'a>> {
        let mut input = connection(alloc, asked, self.read.0);
        input.clock = Some(clock);
        input.takes = self.read.1;
        input.interrupts = self.interrupts;
        input.stays_open = self.stays;
        let mut output = connection(alloc, &[], self.write.0);
        output.clock = Some(clock);
        output.takes = self.write.1;
        output.room = self.room;
        served(rt, alloc, clock, (input, output), self.answer, idle)
    }
}

/// Sees that a registration and lookups are all answered in time.
fn assert_answered(rt: &impl Abort, alloc: Global, case: &Case, idle: Option<Duration>) {
    let asked = repeated(rt, alloc, REGISTER, LOOKUP, LOOKUPS);
    let replies = repeated(rt, alloc, INSERTED, FOUND, LOOKUPS);
    let clock = MovedClock::new(u64::MAX);
    let ended = case.served(rt, alloc, &clock, &asked, idle);
    assert_same(rt, &ended.is_late, &false, case);
    assert_same(rt, &ended.replies, &Ok(301), case);
    assert_same(
        rt,
        &ended.output.stream().taken.as_slice(),
        &replies.as_slice(),
        case,
    );
}

// Each answer takes longer than the idle time. Reads and writes end within frames, whose rest
// comes, and is taken, at once.
#[test]
fn work_of_the_server(rt: HostRuntime) {
    for piece in [22, 1_000, usize::MAX] {
        let case = Case {
            read: (piece, 0),
            answer: 2 * IDLE,
            ..PROMPT
        };
        assert_answered(&rt, rt.alloc(), &case, idle());
    }
}

// Each read and each write takes longer than the idle time would be, but there is none.
#[test]
fn no_idle_time(rt: HostRuntime) {
    let case = Case {
        read: (50, 2 * IDLE),
        answer: 2 * IDLE,
        write: (50, 2 * IDLE),
        ..PROMPT
    };
    assert_answered(&rt, rt.alloc(), &case, None);
}

// The peer takes all that is sent, or a part of one reply and of the next one, each time within the
// idle time. Each write ends within a reply.
#[test]
fn replies_taken_in_time(rt: HostRuntime) {
    for write in [(usize::MAX, 36_000), (101, 24_000)] {
        let case = Case { write, ..PROMPT };
        assert_answered(&rt, rt.alloc(), &case, idle());
    }
}

/// Peers that take their replies too slowly; how many bytes they take, and when the session ends.
const SLOW_TO_TAKE: [(Case, usize, u64); 5] = [
    // Nothing is taken.
    (Case { room: 0, ..PROMPT }, 0, 60_000),
    // A part is taken at once, and no more.
    (Case { room: 40, ..PROMPT }, 40, 60_000),
    // A part is taken in the whole idle time.
    (
        Case {
            write: (40, 60_000),
            ..PROMPT
        },
        40,
        60_000,
    ),
    // The reply that begins in the first write is not whole by the second one.
    (
        Case {
            write: (101, 36_000),
            ..PROMPT
        },
        101,
        60_000,
    ),
    // All that is sent first is taken, and then nothing.
    (
        Case {
            write: (usize::MAX, 10_000),
            room: 8_114,
            ..PROMPT
        },
        8_114,
        70_000,
    ),
];

#[test]
fn replies_not_taken_in_time(rt: HostRuntime) {
    let alloc = rt.alloc();
    let asked = repeated(&rt, alloc, REGISTER, LOOKUP, LOOKUPS);
    for (case, taken, at) in SLOW_TO_TAKE {
        let clock = MovedClock::new(u64::MAX);
        let ended = case.served(&rt, alloc, &clock, &asked, idle());
        let wanted = (Err(FrameError::Write), true);
        assert_same(&rt, &(ended.replies, ended.is_late), &wanted, &case);
        assert_same(&rt, &ended.output.stream().taken.len(), &taken, &case);
        assert_same(&rt, &clock.passed(), &at, &case);
    }
}

/// Peers that send a registration of 101 bytes in time, and when the session ends.
const IN_TIME: [(Case, u64); 3] = [
    // Each half comes within the idle time, and then the end.
    (
        Case {
            read: (51, 54_000),
            ..PROMPT
        },
        162_000,
    ),
    // The reads 2 and 4 are interrupted. A frame under way has the time of both reads.
    (
        Case {
            read: (51, 24_000),
            interrupts: 2,
            ..PROMPT
        },
        120_000,
    ),
    // The rest comes in ten pieces within the idle time.
    (
        Case {
            read: (10, 6_000),
            ..PROMPT
        },
        72_000,
    ),
];

#[test]
fn frames_sent_in_time(rt: HostRuntime) {
    let alloc = rt.alloc();
    let asked = repeated(&rt, alloc, REGISTER, "", 0);
    for (case, at) in IN_TIME {
        let clock = MovedClock::new(u64::MAX);
        let ended = case.served(&rt, alloc, &clock, &asked, idle());
        assert_same(&rt, &(ended.replies, ended.is_late), &(Ok(1), false), &case);
        assert_same(&rt, &clock.passed(), &at, &case);
    }
}

/// Peers that send a registration too slowly; how many bytes of it come, and when the session ends:
/// at the latest an idle time after the first read that waits for the rest.
const SLOW_TO_SEND: [(Case, usize, u64); 4] = [
    (
        Case {
            read: (1, 18_000),
            ..PROMPT
        },
        4,
        78_000,
    ),
    (
        Case {
            read: (34, 36_000),
            ..PROMPT
        },
        68,
        96_000,
    ),
    (
        Case {
            read: (51, 36_000),
            interrupts: 2,
            ..PROMPT
        },
        51,
        96_000,
    ),
    (
        Case {
            read: (51, 61_000),
            ..PROMPT
        },
        0,
        60_000,
    ),
];

#[test]
fn frames_not_sent_in_time(rt: HostRuntime) {
    let alloc = rt.alloc();
    let asked = repeated(&rt, alloc, REGISTER, "", 0);
    for (case, given, at) in SLOW_TO_SEND {
        let clock = MovedClock::new(u64::MAX);
        let ended = case.served(&rt, alloc, &clock, &asked, idle());
        let wanted = (Err(FrameError::Read), true);
        assert_same(&rt, &(ended.replies, ended.is_late), &wanted, &case);
        assert_same(&rt, &ended.input.stream().given.len(), &given, &case);
        assert_same(&rt, &clock.passed(), &at, &case);
    }
}

// A peer that sends a part of a second frame: the session ends the idle time after the first read
// that waits for the rest.
#[test]
fn half_a_frame_after_a_whole_one(rt: HostRuntime) {
    let alloc = rt.alloc();
    let asked = repeated(&rt, alloc, REGISTER, "0000001102", 1);
    let case = Case {
        stays: true,
        answer: 2 * IDLE,
        ..PROMPT
    };
    let clock = MovedClock::new(u64::MAX);
    let ended = case.served(&rt, alloc, &clock, &asked, idle());
    let wanted = (Err(FrameError::Read), true);
    assert_same(&rt, &(ended.replies, ended.is_late), &wanted, &"ended");
    assert_same(&rt, &ended.output.stream().taken.len(), &29, &"taken");
    assert_same(&rt, &clock.passed(), &(3 * IDLE), &"passed");
}

// A clock that cannot be read at first, or within a frame: the session ends, and is not late.
#[test]
fn no_clock(rt: HostRuntime) {
    let alloc = rt.alloc();
    let asked = repeated(&rt, alloc, REGISTER, "", 0);
    for (readings, given) in [(0, 0), (1, 51)] {
        let case = Case {
            read: (51, 0),
            ..PROMPT
        };
        let clock = MovedClock::new(readings);
        let ended = case.served(&rt, alloc, &clock, &asked, idle());
        let wanted = (Err(FrameError::Read), false);
        assert_same(&rt, &(ended.replies, ended.is_late), &wanted, &readings);
        assert_same(&rt, &ended.input.stream().given.len(), &given, &readings);
    }
}

// Small replies are sent at once, and not after a wait for more.
#[test]
fn sent_at_once(rt: HostRuntime) {
    let alloc = rt.alloc();
    let clock = MovedClock::new(u64::MAX);
    let ended = PROMPT.served(&rt, alloc, &clock, &[], idle());
    let is_prompt = ended.output.stream().is_prompt.load(Ordering::SeqCst);
    assert_same(&rt, &is_prompt, &true, &"set_nodelay");
}
