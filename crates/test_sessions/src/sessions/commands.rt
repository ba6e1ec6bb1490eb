//! Purges and removals, over a service that reports its arguments.

use crate::bytes::joined;
use crate::checks::assert_same;
use crate::sessions::numbers::Numbers;
use seg_core::{SegType, Segment};
use session_core::{
    Ack, Code, FrameError, Kinds, ListRequest, Listing, Message, Outcome, Replies, Service, serve,
};
use std::alloc::Global;
use std::io::Read;
use std::process::Abort;

/// A service that counts the commands, and keeps nothing of them.
#[derive(Drop)]
struct Counter {
    place: u64,
}

impl Counter {
    /// An acknowledgement at the next place, with these counts.
    fn ack(&mut self, kept: u32, purged: u32) -> Numbers {
        let place = self.place;
        self.place = place.saturating_add(1);
        Numbers(Ack {
            place,
            outcome: Outcome {
                inserted: 0,
                updated: 0,
                kept,
                purged,
            },
        })
    }
}

impl Service for Counter {
    /// Nothing, as no message is taken ahead of its reply.
    type UnderWay = ();

    type Ack = Numbers;

    ghost State = { Unit {0} };

    ghost state = { λ _. tt };

    ghost answers = { λ _ _ _ _. Unit {0} };

    ghost is_for = { λ _ _ _. ⊥ };

    ghost Sent = { Unit {0} };

    ghost sent = { λ _. tt };

    ghost hands_in = { λ _ _ _. Unit {0} };

    fn register(&mut self, _alloc: Global, _message: &[u8]) -> Result<Numbers, Code> {
        Ok(self.ack(0, 0))
    }

    fn lookup(&mut self, _alloc: Global, _message: &[u8]) -> Result<(SegType, Vec<Segment>), Code> {
        Err(Code(0x26))
    }

    /// Reports the lower half of the moment as the count of purged rows.
    fn purge(&mut self, moment: u64) -> Result<Numbers, Code> {
        Ok(self.ack(0, (moment & 0xffff_ffff) as u32))
    }

    /// Refuses a byte that is no type, and reports the last byte of the id as the count of kept
    /// rows.
    fn remove(&mut self, kind: u8, id: &[u8; 32]) -> Result<Numbers, Code> {
        if kind < 1 || kind > 3 {
            return Err(Code(0x29));
        }
        Ok(self.ack(u32::from(id[31]), 0))
    }

    fn list(&mut self, _alloc: Global, _request: &ListRequest) -> Result<Listing, Code> {
        Err(Code(0x26))
    }

    fn hand_in(&mut self, _alloc: Global, _message: Message<&[u8]>) -> Option<()> {
        None
    }

    /// Refuses, as nothing is ever under way.
    fn settle(&mut self, _under_way: ()) -> Result<Numbers, Code> {
        Err(Code(0x2b))
    }
}

/// A purge up to the beginning of 2024.
const PURGE: [u8; 13] = [
    0x00, 0x00, 0x00, 0x09, 0x03, // a length of 9, and a purge
    0x00, 0x00, 0x00, 0x00, 0xcb, 0x24, 0x01, 0x00, // the moment, in half seconds
];

/// The removal of a segment of this type.
fn removal(kind: u8) -> [u8; 38] {
    let mut frame = [0x1f; 38];
    frame[..5].copy_from_slice(b"\0\0\0\x22\x04");
    frame[5] = kind;
    frame
}

/// A purge, the removals of a down segment and of a segment of no type, and a registration of
/// nothing.
fn input(rt: &impl Abort, alloc: Global) -> Vec<u8> {
    joined(
        rt,
        alloc,
        &[&PURGE, &removal(2), &removal(4), b"\0\0\0\x01\x01"],
    )
}

/// The replies: acknowledgements at the places 0 and 1, a refusal, and an acknowledgement at the
/// place 2.
const OUTPUT: [u8; 93] = [
    0x00, 0x00, 0x00, 0x19, 0x83, // the purge's, of 25 bytes
    0x00, 0x00, 0x00, 0x00, 0x00, 0x00, 0x00, 0x00, // its place
    0x00, 0x00, 0x00, 0x00, 0x00, 0x00, 0x00, 0x00, // inserted, updated
    0x00, 0x00, 0x00, 0x00, 0xcb, 0x24, 0x01, 0x00, // kept, purged
    0x00, 0x00, 0x00, 0x19, 0x84, // the removal's, of 25 bytes
    0x00, 0x00, 0x00, 0x00, 0x00, 0x00, 0x00, 0x01, // its place
    0x00, 0x00, 0x00, 0x00, 0x00, 0x00, 0x00, 0x00, // inserted, updated
    0x00, 0x00, 0x00, 0x1f, 0x00, 0x00, 0x00, 0x00, // kept, purged
    0x00, 0x00, 0x00, 0x02, 0xff, 0x29, // the refusal's, of 2 bytes
    0x00, 0x00, 0x00, 0x19, 0x81, // the registration's, of 25 bytes
    0x00, 0x00, 0x00, 0x00, 0x00, 0x00, 0x00, 0x02, // its place
    0x00, 0x00, 0x00, 0x00, 0x00, 0x00, 0x00, 0x00, // inserted, updated
    0x00, 0x00, 0x00, 0x00, 0x00, 0x00, 0x00, 0x00, // kept, purged
];

/// Serves an input that comes in two parts, and returns how many replies were written.
fn served(
    alloc: Global,
    (front, rest): (&[u8], &[u8]),
    output: &mut Vec<u8>,
) -> Result<u64, FrameError> {
    let mut service = Counter { place: 0 };
    let mut input = front.chain(rest);
    let mut sink = Replies::of(output);
    serve(alloc, &mut input, &mut sink, &mut service, Kinds::Base, 9)
}

/// Checks the replies to an input that comes in two parts.
fn assert_cut(rt: &impl Abort, alloc: Global, input: (&[u8], &[u8])) {
    let cut = input.0.len();
    let mut output = Vec::new(alloc);
    let count = served(alloc, input, &mut output);
    assert_same(rt, &count, &Ok(4), &cut);
    assert_same(rt, &output.as_slice(), &OUTPUT.as_slice(), &cut);
}

// A session gives the same replies however its input is cut in two.
#[test]
fn any_cut(rt: HostRuntime) {
    let input = input(&rt, rt.alloc());
    for cut in 0..=input.len() {
        assert_cut(&rt, rt.alloc(), input.as_slice().split_at(cut));
    }
}
