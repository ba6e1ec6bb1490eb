//! Commands that come ahead of the replies to those before them.

use crate::bytes::joined;
use crate::checks::assert_same;
use crate::sessions::numbers::Numbers;
use seg_core::{SegType, Segment};
use session_core::{
    Ack, Code, CommandKind, FrameError, Kinds, ListRequest, Listing, MOST_AHEAD, Message, Outcome,
    Replies, Service, serve, serve_in_lines,
};
use std::alloc::Global;
use std::io;
use std::io::{ErrorKind, Write};
use std::process::Abort;

/// A service that takes commands ahead, and notes its calls: `h` for a command that is handed in,
/// `s` for one that is settled, `c` for one that is answered in one call, and `l` for a lookup or
/// a list.
#[derive(Drop)]
struct Desk {
    place: u64,
    /// Whether commands are taken ahead.
    takes: bool,
    calls: Vec<u8>,
}

impl Desk {
    fn new(alloc: Global, takes: bool) -> Desk {
        Desk {
            place: 0,
            takes,
            calls: Vec::new(alloc),
        }
    }

    /// Notes a call. A note for which memory is refused is missing.
    fn note(&mut self, call: u8) {
        let _noted = self.calls.push(call);
    }

    /// An acknowledgement at the next place, with this number of purged rows.
    fn ack(&mut self, purged: u32) -> Numbers {
        let place = self.place;
        self.place = place.saturating_add(1);
        Numbers(Ack {
            place,
            outcome: Outcome {
                inserted: 0,
                updated: 0,
                kept: 0,
                purged,
            },
        })
    }
}

impl Service for Desk {
    /// The count that is reported, or a refusal.
    type UnderWay = Result<u32, Code>;

    type Ack = Numbers;

    ghost State = { Unit {0} };

    ghost state = { λ _. tt };

    ghost answers = { λ _ _ _ _. Unit {0} };

    ghost is_for = { λ _ _ _. Unit {0} };

    ghost Sent = { Unit {0} };

    ghost sent = { λ _. tt };

    ghost hands_in = { λ _ _ _. Unit {0} };

    fn register(&mut self, _alloc: Global, _message: &[u8]) -> Result<Numbers, Code> {
        self.note(b'c');
        Ok(self.ack(0))
    }

    fn lookup(&mut self, _alloc: Global, _message: &[u8]) -> Result<(SegType, Vec<Segment>), Code> {
        self.note(b'l');
        Err(Code(0x26))
    }

    /// Reports the lower half of the moment as the count of purged rows.
    fn purge(&mut self, moment: u64) -> Result<Numbers, Code> {
        self.note(b'c');
        Ok(self.ack((moment & 0xffff_ffff) as u32))
    }

    fn remove(&mut self, _kind: u8, _id: &[u8; 32]) -> Result<Numbers, Code> {
        self.note(b'c');
        Err(Code(0x29))
    }

    fn list(&mut self, _alloc: Global, _request: &ListRequest) -> Result<Listing, Code> {
        self.note(b'l');
        Err(Code(0x26))
    }

    /// Refuses each removal.
    fn hand_in(&mut self, _alloc: Global, message: Message<&[u8]>) -> Option<Result<u32, Code>> {
        let _kind = CommandKind::of(&message)?;
        if !self.takes {
            return None;
        }
        self.note(b'h');
        Some(match message {
            Message::Purge(moment) => Ok((moment & 0xffff_ffff) as u32),
            Message::Remove(_, _) => Err(Code(0x29)),
            _ => Ok(0),
        })
    }

    fn settle(&mut self, under_way: Result<u32, Code>) -> Result<Numbers, Code> {
        self.note(b's');
        let purged = under_way?;
        Ok(self.ack(purged))
    }
}

/// Takes this number of bytes and then fails.
#[derive(Drop)]
struct Room {
    taken: Vec<u8>,
    room: usize,
}

impl Write for Room {
    fn write(&mut self, buf: &[u8]) -> io::Result<usize> {
        let count = self.room.min(buf.len());
        if count == 0 {
            return Err(io::Error::from(ErrorKind::Other));
        }
        self.taken.extend_from_slice(buf.split_at(count).0)?;
        self.room -= count;
        Ok(count)
    }

    fn flush(&mut self) -> io::Result<()> {
        Ok(())
    }
}

/// A lookup of nothing, and the reply to it.
const LOOKUP: [u8; 5] = *b"\0\0\0\x01\x02";

const NOT_FOUND: [u8; 6] = *b"\0\0\0\x02\xff\x26";

/// The reply to a removal.
const NOT_REMOVED: [u8; 6] = *b"\0\0\0\x02\xff\x29";

/// A frame of a kind that no message has.
const FAULTY: [u8; 5] = *b"\0\0\0\x01\x06";

/// A purge up to this moment.
fn purge(moment: u8) -> [u8; 13] {
    let mut frame = *b"\0\0\0\x09\x03\0\0\0\0\0\0\0\0";
    frame[12] = moment;
    frame
}

/// The reply to a purge: its place, and the number of purged rows.
fn purged(place: u8, rows: u8) -> [u8; 29] {
    let mut frame = [0; 29];
    frame[3] = 0x19;
    frame[4] = 0x83;
    frame[12] = place;
    frame[28] = rows;
    frame
}

/// A removal.
fn removal() -> [u8; 38] {
    let mut frame = [0x1f; 38];
    frame[..5].copy_from_slice(b"\0\0\0\x22\x04");
    frame
}

/// Purges up to the moments from 100 on, and the replies to them from this place on.
fn purges(rt: &impl Abort, alloc: Global, count: u8) -> (Vec<u8>, Vec<u8>) {
    let mut input = Vec::new(alloc);
    let mut output = Vec::new(alloc);
    for place in 0..count {
        let moment = place.wrapping_add(100);
        input
            .extend_from_slice(&purge(moment))
            .expect(rt, "the purges have memory");
        output
            .extend_from_slice(&purged(place, moment))
            .expect(rt, "the replies have memory");
    }
    (input, output)
}

/// How a session is to end.
#[derive(Clone, Copy)]
struct Wanted<'a> {
    ended: Result<u64, FrameError>,
    calls: &'a [u8],
    written: &'a [u8],
}

/// Serves an input that comes in one piece, over a writer with this room, and checks its end.
fn assert_served(
    rt: &impl Abort,
    alloc: Global,
    (mut input, room): (&[u8], usize),
    takes: bool,
    wanted: &Wanted<'_>,
) {
    let mut desk = Desk::new(alloc, takes);
    let mut replies = Replies::of(Room {
        taken: Vec::new(alloc),
        room,
    });
    let ended = serve(alloc, &mut input, &mut replies, &mut desk, Kinds::Base, 9);
    let writer = replies.into_writer();
    assert_same(rt, &ended, &wanted.ended, &wanted.calls);
    assert_same(rt, &desk.calls.as_slice(), &wanted.calls, &wanted.calls);
    assert_same(rt, &writer.taken.as_slice(), &wanted.written, &wanted.calls);
}

/// A writer's room that no test fills.
const ENOUGH: usize = 10_000;

// Three commands in one piece are handed in before the first is settled.
#[test]
fn three_commands(rt: HostRuntime) {
    let (input, replies) = purges(&rt, rt.alloc(), 3);
    let wanted = Wanted {
        ended: Ok(3),
        calls: b"hhhsss",
        written: &replies,
    };
    assert_served(&rt, rt.alloc(), (&input, ENOUGH), true, &wanted);
}

/// The calls of a session of 136 commands in one piece.
fn calls_of_136(rt: &impl Abort, alloc: Global) -> Vec<u8> {
    let mut calls = Vec::new(alloc);
    for (call, count) in [(b'h', 128), (b's', 128), (b'h', 8), (b's', 8)] {
        let len = calls.len();
        calls
            .resize(len + count, call)
            .expect(rt, "the calls have memory");
    }
    calls
}

// Of 136 commands in one piece, 128 are handed in and settled, and then eight.
#[test]
fn more_commands_than_are_taken_ahead(rt: HostRuntime) {
    let (input, replies) = purges(&rt, rt.alloc(), 136);
    let calls = calls_of_136(&rt, rt.alloc());
    let wanted = Wanted {
        ended: Ok(136),
        calls: &calls,
        written: &replies,
    };
    assert_same(&rt, &MOST_AHEAD, &128, &"most ahead");
    assert_served(&rt, rt.alloc(), (&input, ENOUGH), true, &wanted);
}

// A refusal is written in its turn, between the replies to commands that are handed in with it.
#[test]
fn refusal_in_its_turn(rt: HostRuntime) {
    let input = joined(&rt, rt.alloc(), &[&purge(1), &removal(), &purge(2)]);
    let replies = joined(
        &rt,
        rt.alloc(),
        &[&purged(0, 1), &NOT_REMOVED, &purged(1, 2)],
    );
    let wanted = Wanted {
        ended: Ok(3),
        calls: b"hhhsss",
        written: &replies,
    };
    assert_served(&rt, rt.alloc(), (&input, ENOUGH), true, &wanted);
}

// A lookup is answered once the commands before it are, and the commands after it are handed in
// only then.
#[test]
fn lookup_between(rt: HostRuntime) {
    let input = joined(&rt, rt.alloc(), &[&purge(1), &purge(2), &LOOKUP, &purge(3)]);
    let replies = joined(
        &rt,
        rt.alloc(),
        &[&purged(0, 1), &purged(1, 2), &NOT_FOUND, &purged(2, 3)],
    );
    let wanted = Wanted {
        ended: Ok(4),
        calls: b"hhsslhs",
        written: &replies,
    };
    assert_served(&rt, rt.alloc(), (&input, ENOUGH), true, &wanted);
}

// A faulty frame ends the session after the replies to the commands before it.
#[test]
fn faulty_frame_after_commands(rt: HostRuntime) {
    let input = joined(&rt, rt.alloc(), &[&purge(1), &purge(2), &FAULTY, &purge(3)]);
    let replies = joined(&rt, rt.alloc(), &[&purged(0, 1), &purged(1, 2)]);
    let wanted = Wanted {
        ended: Err(FrameError::Kind),
        calls: b"hhss",
        written: &replies,
    };
    assert_served(&rt, rt.alloc(), (&input, ENOUGH), true, &wanted);
}

// After a write that fails, no further command is settled.
#[test]
fn failed_write(rt: HostRuntime) {
    let (input, replies) = purges(&rt, rt.alloc(), 4);
    let wanted = Wanted {
        ended: Err(FrameError::Write),
        calls: b"hhhhss",
        written: replies.split_at(replies.len().min(40)).0,
    };
    assert_served(&rt, rt.alloc(), (&input, 40), true, &wanted);
}

// A service that takes nothing ahead answers one message after the other, with the same replies.
#[test]
fn one_at_a_time(rt: HostRuntime) {
    let input = joined(
        &rt,
        rt.alloc(),
        &[&purge(1), &removal(), &LOOKUP, &purge(2)],
    );
    let replies = joined(
        &rt,
        rt.alloc(),
        &[&purged(0, 1), &NOT_REMOVED, &NOT_FOUND, &purged(1, 2)],
    );
    let wanted = Wanted {
        ended: Ok(4),
        calls: b"cclc",
        written: &replies,
    };
    assert_served(&rt, rt.alloc(), (&input, ENOUGH), false, &wanted);
}

// A session over bytes in memory hands in commands ahead, too.
#[test]
fn commands_in_lines(rt: HostRuntime) {
    let input = joined(&rt, rt.alloc(), &[&removal(), &removal(), &LOOKUP]);
    let mut desk = Desk::new(rt.alloc(), true);
    let mut replies = Replies::of(Vec::new(rt.alloc()));
    let ended = serve_in_lines(rt.alloc(), input, &mut replies, &mut desk, Kinds::Base);
    let written = replies.into_writer();
    assert_same(&rt, &ended, &Ok(3), &"lines");
    assert_same(&rt, &desk.calls.as_slice(), &b"hhssl".as_slice(), &"lines");
    let wanted = b"00000002ff29\n00000002ff29\n00000002ff26\n";
    assert_same(&rt, &written.as_slice(), &wanted.as_slice(), &"lines");
}
