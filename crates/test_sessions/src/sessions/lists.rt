//! Frames of lists, and of the replies to them.

ghost use Rattle.std.specs.Prelude.{◌≤◌, length, IfOk};
ghost use Rattle.std.specs.List.{AllByRecursion};
ghost use Rattle.seg_core.specs.Encoding.{IsSegment};

use crate::bytes::{joined, push};
use crate::checks::assert_same;
use crate::sessions::numbers::Numbers;
use seg_core::{SegType, Segment, read_segment};
use session_core::{
    Code, FrameError, Framer, Kinds, ListRequest, Listing, Message, Replies, Service, serve,
};
use std::alloc::Global;
use std::process::Abort;
use test_support::{ID, REGISTER, SEGMENT};

/// Shows the worked segment to each list without an id, after which further segments follow, and no
/// segment to the others.
#[derive(Drop)]
struct Shelf;

impl Shelf {
    /// The segments of a page.
    fn segments(&self, alloc: Global, request: &ListRequest) -> Result<Vec<Segment>, Code>
        ensures few { IfOk result (λ segments. length segments.items ≤ 1) }
        ensures whole { IfOk result (λ segments. AllByRecursion IsSegment segments.items) }
    {
        let mut segments = Vec::new(alloc);
        if request.after.is_some() {
            return Ok(segments);
        }
        let Ok(segment) = read_segment(alloc, &SEGMENT) else {
            return Err(Code(0x01));
        };
        match segments.push(segment) {
            Ok(()) => Ok(segments),
            Err(_) => Err(Code(0x01)),
        }
    }
}

impl Service for Shelf {
    /// Nothing, as no message is taken ahead of its reply.
    type UnderWay = ();

    type Ack = Numbers;

    ghost State = { Unit {0} };

    ghost state = { λ _. tt };

    ghost answers = { λ _ _ _ _. Unit {0} };

    ghost is_for = { λ _ _ _. ⊥ };

    ghost Sent = { Unit {0} };

    ghost sent = { λ _. tt };

    ghost hands_in = { λ _ _ _. Unit {0} };

    fn register(&mut self, _alloc: Global, _message: &[u8]) -> Result<Numbers, Code> {
        Err(Code(0x64))
    }

    fn lookup(&mut self, _alloc: Global, _message: &[u8]) -> Result<(SegType, Vec<Segment>), Code> {
        Err(Code(0x26))
    }

    fn purge(&mut self, _moment: u64) -> Result<Numbers, Code> {
        Err(Code(0x64))
    }

    fn remove(&mut self, _kind: u8, _id: &[u8; 32]) -> Result<Numbers, Code> {
        Err(Code(0x64))
    }

    fn list(&mut self, alloc: Global, request: &ListRequest) -> Result<Listing, Code> {
        let Ok(kind) = SegType::from_number(u64::from(request.kind)) else {
            return Err(Code(0x29));
        };
        let segments = self.segments(alloc, request)?;
        Ok(Listing {
            kind,
            segments,
            more: request.after.is_none(),
        })
    }

    fn hand_in(&mut self, _alloc: Global, _message: Message<&[u8]>) -> Option<()> {
        None
    }

    /// Refuses, as nothing is ever under way.
    fn settle(&mut self, _under_way: ()) -> Result<Numbers, Code> {
        Err(Code(0x2b))
    }
}

/// A list of segments of this type from 1-ff00:0:110 to any AS of the ISD 2.
const fn sides(kind: u8) -> ListRequest {
    ListRequest {
        kind,
        start: 0x0001_ff00_0000_0110,
        end: 0x0002_0000_0000_0000,
        after: None,
    }
}

/// The frame of that list, without its type.
const SIDES: [u8; 16] = [
    0x00, 0x01, 0xff, 0x00, 0x00, 0x00, 0x01, 0x10, // the start
    0x00, 0x02, 0x00, 0x00, 0x00, 0x00, 0x00, 0x00, // the end
];

/// The frame of a list of this type, after an id if there is one.
fn frame(rt: &impl Abort, alloc: Global, kind: u8, id: &[u8]) -> Vec<u8> {
    let len = if id.is_empty() { 0x12 } else { 0x32 };
    joined(rt, alloc, &[&[0, 0, 0, len, 0x05, kind], &SIDES, id])
}

/// Checks that the messages of two pieces are this list, which is one of them.
fn assert_message(
    rt: &impl Abort,
    (before, after): (&[Message], &[Message]),
    wanted: ListRequest,
    cut: usize,
) {
    let found = if before.is_empty() { after } else { before };
    let wanted = [Message::List(wanted)];
    assert_same(rt, &found, &wanted.as_slice(), &cut);
}

/// Checks that bytes which come in two pieces are the frame of this list.
fn assert_list(rt: &impl Abort, alloc: Global, (front, rest): (&[u8], &[u8]), wanted: ListRequest) {
    let cut = front.len();
    let mut framer = Framer::new(alloc, Kinds::WithLists);
    let first = framer.feed(front).expect(rt, "the front has memory");
    let second = framer.feed(rest).expect(rt, "the rest has memory");
    let messages = (first.messages.as_slice(), second.messages.as_slice());
    assert_message(rt, messages, wanted, cut);
    assert_same(rt, &(first.fault, second.fault), &(None, None), &cut);
}

/// Checks that the frame of a list, after an id if there is one, gives this, however it is cut.
fn assert_frame(rt: &impl Abort, alloc: Global, id: &[u8], wanted: ListRequest) {
    let bytes = frame(rt, alloc, wanted.kind, id);
    for cut in 0..=bytes.len() {
        assert_list(rt, alloc, bytes.as_slice().split_at(cut), wanted);
    }
}

// The two lengths of a list's frame give its numbers, however the frame is cut.
#[test]
fn frames_of_lists(rt: HostRuntime) {
    for kind in [0, 1, 2, 3, 4, 255] {
        let first = sides(kind);
        let next = ListRequest {
            after: Some(ID),
            ..first
        };
        assert_frame(&rt, rt.alloc(), &[], first);
        assert_frame(&rt, rt.alloc(), &ID, next);
    }
}

/// What a session of these bytes, with messages of these kinds, ends with. Adds what it writes.
fn served(
    alloc: Global,
    input: &[u8],
    kinds: Kinds,
    output: &mut Vec<u8>,
) -> Result<u64, FrameError> {
    let mut reader = input;
    let mut replies = Replies::of(output);
    serve(alloc, &mut reader, &mut replies, &mut Shelf, kinds, 9)
}

/// The reply with the worked segment, that without one, and the refusal of a type. The first one
/// has a length of 98, the kind, that more follows, and the response of 96 bytes, which is that of
/// the worked registration.
fn replies(rt: &impl Abort, alloc: Global) -> Vec<u8> {
    joined(
        rt,
        alloc,
        &[
            b"\0\0\0\x62\x85\x01",
            &REGISTER[5..],
            b"\0\0\0\x02\x85\x00",
            b"\0\0\0\x02\xff\x29",
        ],
    )
}

/// The frames of three lists: without an id, after one, and of no type.
fn three_lists(rt: &impl Abort, alloc: Global) -> Vec<u8> {
    let mut input = frame(rt, alloc, 2, &[]);
    push(rt, &mut input, &frame(rt, alloc, 2, &ID));
    push(rt, &mut input, &frame(rt, alloc, 4, &[]));
    input
}

// A page with a segment, a page without one, and the refusal of a type.
#[test]
fn replies_to_lists(rt: HostRuntime) {
    let alloc = rt.alloc();
    let input = three_lists(&rt, alloc);
    let mut output = Vec::new(alloc);
    let served = served(alloc, input.as_slice(), Kinds::WithLists, &mut output);
    assert_same(&rt, &served, &Ok(3), &"three lists");
    assert_same(&rt, &output, &replies(&rt, alloc), &"three lists");
}

/// Checks that a session of the first bytes of a list's frame ends so, and has answered nothing.
fn assert_unanswered(
    rt: &impl Abort,
    alloc: Global,
    front: &[u8],
    kinds: Kinds,
    ended: FrameError,
) {
    let mut output = Vec::new(alloc);
    let served = served(alloc, front, kinds, &mut output);
    let cut = front.len();
    assert_same(rt, &served, &Err(ended), &cut);
    assert_same(rt, &output.is_empty(), &true, &cut);
}

// A session whose input ends within the frame of a list has answered nothing.
#[test]
fn cut_lists(rt: HostRuntime) {
    let alloc = rt.alloc();
    for id in [&[][..], &ID[..]] {
        let bytes = frame(&rt, alloc, 2, id);
        for cut in 1..bytes.len() {
            let front = bytes.as_slice().split_at(cut).0;
            assert_unanswered(&rt, alloc, front, Kinds::WithLists, FrameError::Read);
        }
    }
}

/// What a session without lists ends with after this many bytes of the frame of a list: its kind is
/// the fifth byte.
fn ending_at(cut: usize) -> FrameError {
    if cut < 5 {
        FrameError::Read
    } else {
        FrameError::Kind
    }
}

// In a session without lists the frame of a list has an unknown kind, which its fifth byte shows.
#[test]
fn no_lists(rt: HostRuntime) {
    let alloc = rt.alloc();
    for id in [&[][..], &ID[..]] {
        let bytes = frame(&rt, alloc, 2, id);
        for cut in 1..=bytes.len() {
            let front = bytes.as_slice().split_at(cut).0;
            assert_unanswered(&rt, alloc, front, Kinds::Base, ending_at(cut));
        }
    }
}
