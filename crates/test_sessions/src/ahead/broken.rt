//! Sessions that break off while commands are under way: each command takes effect as a whole or
//! not at all, and a later session sees a state that is a front.

use crate::ahead::crowds::{Sessions, crowded, served};
use crate::bytes::push;
use crate::checks::assert_same;
use crate::host::Host;
use crate::service::frames::{PURGE, joined};
use hub_claims::HubName;
use path_hub::{Hub, Senders};
use path_session::FrameError;
use sector_dev::Device;
use std::alloc::Global;
use std::io;
use std::io::{ErrorKind, Write};
use std::process::Abort;
use std::sync::Wait;
use std::thread::Threads;
use std::time::Clock;
use test_group_scripts::acts::{query, shown};
use test_hub_scripts::stores::{Contents, assert_opens_to, new_store};
use test_support::leaving_by;

/// How many registrations a session sends. Each has two segments: those that are left by the
/// interfaces 2 i + 1 and 2 i + 2, where i is its number from 0 on.
const REGISTRATIONS: u8 = 5;

/// A registration of two down segments, up to the first of them: its length, its kind, the entry of
/// a type, and the entry's segments.
const HEAD: &str = "000000bd010ab901080212b401";

/// What comes before each segment: its tag and its length.
const TAG: [u8; 2] = [0x0a, 0x58];

/// The acknowledgements of the registrations.
const REPLIES: [&str; 5] = [
    "0000001981000000000000000000000002000000000000000000000000",
    "0000001981000000000000000100000002000000000000000000000000",
    "0000001981000000000000000200000002000000000000000000000000",
    "0000001981000000000000000300000002000000000000000000000000",
    "0000001981000000000000000400000002000000000000000000000000",
];

/// The acknowledgement of the purge that comes after them, in a session of its own.
const LATER: &str = "0000001983000000000000000500000000000000000000000000000000";

/// The segments after each number of registrations, from none to all, as bits by their interfaces.
const FRONTS: [u64; 6] = [0, 0x6, 0x1e, 0x7e, 0x1fe, 0x7fe];

/// A session that breaks off: what follows the registrations in its input, how many bytes its
/// writer takes, and what it ends with.
#[derive(Clone, Copy)]
struct Break {
    name: &'static str,
    rest: &'static str,
    room: usize,
    ended: Result<u64, FrameError>,
}

/// More bytes than all replies have.
const ENOUGH: usize = 10_000;

const READ: Result<u64, FrameError> = Err(FrameError::Read);

const WRITE: Result<u64, FrameError> = Err(FrameError::Write);

#[rattlefmt::skip]
const BREAKS: [Break; 12] = [
    Break { name: "the end of the input", rest: "", room: ENOUGH, ended: Ok(5) },
    Break { name: "an end in a length", rest: "00", room: ENOUGH, ended: READ },
    Break { name: "an end after a length", rest: "00000009", room: ENOUGH, ended: READ },
    Break { name: "an end in a message", rest: "000000bd010a", room: ENOUGH, ended: READ },
    Break { name: "an empty frame", rest: "00000000", room: ENOUGH,
        ended: Err(FrameError::Length) },
    Break { name: "a frame of no kind", rest: "0000000106", room: ENOUGH,
        ended: Err(FrameError::Kind) },
    Break { name: "no byte is written", rest: "", room: 0, ended: WRITE },
    Break { name: "one byte is written", rest: "", room: 1, ended: WRITE },
    Break { name: "the first reply but its last byte", rest: "", room: 28, ended: WRITE },
    Break { name: "one reply is written", rest: "", room: 29, ended: WRITE },
    Break { name: "a part of the fourth reply", rest: "", room: 100, ended: WRITE },
    Break { name: "all but the last byte", rest: "", room: 144, ended: WRITE },
];

/// Takes a number of bytes, and fails then.
#[derive(Drop)]
struct Narrow {
    taken: Vec<u8>,
    room: usize,
}

impl Write for Narrow {
    fn write(&mut self, buf: &[u8]) -> io::Result<usize> {
        let count = self.room.min(buf.len());
        if count == 0 {
            return Err(io::Error::from(ErrorKind::Other));
        }
        self.taken.extend_from_slice(buf.split_at(count).0)?;
        self.room -= count;
        Ok(count)
    }

    fn flush(&mut self) -> io::Result<()> {
        Ok(())
    }
}

/// Adds the two segments of the registration of this number.
fn push_segments(rt: &impl Abort, frames: &mut Vec<u8>, number: u8) {
    for egress in [1, 2] {
        push(rt, frames, &TAG);
        let egress = number.wrapping_mul(2).wrapping_add(egress);
        push(rt, frames, &leaving_by(egress));
    }
}

/// The registrations, and what follows them.
fn frames_of(rt: &impl Abort, alloc: Global, rest: &str) -> Vec<u8> {
    let mut frames = Vec::new(alloc);
    let head = joined(rt, alloc, &[HEAD]);
    for number in 0..REGISTRATIONS {
        push(rt, &mut frames, &head);
        push_segments(rt, &mut frames, number);
    }
    push(rt, &mut frames, &joined(rt, alloc, &[rest]));
    frames
}

/// A session that breaks off, and a later one.
#[derive(Drop)]
struct Breaks {
    alloc: Global,
    row: Break,
}

impl Breaks {
    /// Serves the session that breaks off. What it writes is a front of the replies.
    fn break_off<D: Device, N: HubName, R: Wait + Clock + Abort>(
        &self,
        hub: &Hub<D, N, R>,
        senders: &Senders<N>,
    ) {
        let rt = hub.handle();
        let Break {
            name,
            rest,
            room,
            ended: wanted,
        } = self.row;
        let frames = frames_of(rt, self.alloc, rest);
        let mut writer = Narrow {
            taken: Vec::new(self.alloc),
            room,
        };
        let ended = served(hub, senders, self.alloc, 0, &frames, &mut writer);
        assert_same(rt, &ended, &wanted, &name);
        let replies = joined(rt, self.alloc, &REPLIES);
        let (front, _rest) = replies.split_at(room.min(replies.len()));
        assert_same(rt, &writer.taken.as_slice(), &front, &name);
    }

    /// Serves the later session, of a purge.
    fn purge<D: Device, N: HubName, R: Wait + Clock + Abort>(
        &self,
        hub: &Hub<D, N, R>,
        senders: &Senders<N>,
    ) {
        let rt = hub.handle();
        let name = self.row.name;
        let purge = joined(rt, self.alloc, &[PURGE]);
        let mut replies = Vec::new(self.alloc);
        let ended = served(hub, senders, self.alloc, 0, &purge, &mut replies);
        assert_same(rt, &ended, &Ok(1), &name);
        assert_same(rt, &replies, &joined(rt, self.alloc, &[LATER]), &name);
    }
}

/// The segments that are shown, as bits by their interfaces.
fn shown_now<D: Device, N: HubName, R: Wait + Clock + Abort>(hub: &Hub<D, N, R>) -> u64 {
    let rt = hub.handle();
    let Ok(mut reader) = hub.reader() else {
        panic!(rt; "no reader");
    };
    let Ok(found) = reader.lookup(&query(), 0) else {
        panic!(rt; "out of memory");
    };
    let bits = shown(&found);
    hub.give_back(reader);
    bits
}

impl Sessions for Breaks {
    fn run<D: Device, N: HubName, R: Wait + Clock + Abort>(
        &self,
        hub: &Hub<D, N, R>,
        senders: &Senders<N>,
        _session: u64,
    ) {
        let rt = hub.handle();
        self.break_off(hub, senders);
        let name = self.row.name;
        let early = shown_now(hub);
        assert_same(rt, &FRONTS.contains(&early), &true, &(name, early));
        self.purge(hub, senders);
        assert_same(rt, &shown_now(hub), &FRONTS[5], &name);
    }
}

/// Sees what a session leaves that breaks off.
fn assert_break<R: Wait + Clock + Threads + Abort + Copy + Drop + Send + Sync>(
    rt: R,
    alloc: Global,
    row: Break,
) {
    let breaks = Breaks { alloc, row };
    let host = Host(rt);
    let device = crowded(rt, alloc, new_store(&host, alloc), &breaks, 1);
    let wanted = Contents {
        rows: 10,
        bytes: 930,
        place: 6,
    };
    let _device = assert_opens_to(&host, alloc, device, wanted);
}

#[test]
fn sessions_that_break_off(rt: HostRuntime) {
    for row in BREAKS {
        assert_break(&rt, rt.alloc(), row);
    }
}
