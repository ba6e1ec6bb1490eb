//! Streams that come in pieces.

use crate::bytes::joined;
use crate::checks::{assert_same, assert_true};
use crate::sessions::worked::{LOOKUP, REGISTER, stream};
use session_core::{Fed, FrameError, Framer, Kinds, Message};
use std::alloc::{AllocError, Global};
use std::fmt::Debug;
use std::process::Abort;
use std::test::Fail;

/// A framer, and the messages that it completed.
#[derive(Drop)]
struct Taker {
    framer: Framer,
    messages: Vec<Message>,
}

impl Taker {
    fn new(alloc: Global, kinds: Kinds) -> Taker {
        Taker {
            framer: Framer::new(alloc, kinds),
            messages: Vec::new(alloc),
        }
    }

    /// Takes a piece, and adds the messages that it completes. Returns the fault after them.
    fn take(&mut self, piece: &[u8]) -> Result<Option<FrameError>, AllocError> {
        let mut fed = self.framer.feed(piece)?;
        self.messages.append(&mut fed.messages)?;
        Ok(fed.fault)
    }
}

/// Takes a piece in a case, and checks whether there is a fault after it.
fn assert_taken<C: Debug>(
    rt: &impl Abort,
    taker: &mut Taker,
    piece: &[u8],
    fault: Option<FrameError>,
    case: &C,
) {
    let found = taker.take(piece).expect(rt, "the piece has memory");
    assert_same(rt, &found, &fault, case);
}

/// Checks that the messages of a case are these.
fn assert_messages<C: Debug>(rt: &impl Abort, found: &[Message], wanted: &[Message], case: &C) {
    assert_same(rt, &found, &wanted, case);
}

/// The two messages of the worked stream.
fn both(rt: &impl Abort, alloc: Global) -> Vec<Message> {
    let segment = Vec::from_slice(alloc, &REGISTER[5..]).expect(rt, "the segment has memory");
    let ends = Vec::from_slice(alloc, &LOOKUP[5..]).expect(rt, "the lookup has memory");
    let mut messages = Vec::new(alloc);
    messages
        .push(Message::Register(segment))
        .expect(rt, "the first message has room");
    messages
        .push(Message::Lookup(ends))
        .expect(rt, "the second message has room");
    messages
}

/// Takes the two parts of a stream, and checks that its messages are these.
fn assert_cut(
    rt: &impl Abort,
    taker: &mut Taker,
    (front, rest): (&[u8], &[u8]),
    wanted: &[Message],
) {
    let cut = front.len();
    assert_taken(rt, taker, front, None, &cut);
    assert_taken(rt, taker, rest, None, &cut);
    assert_messages(rt, &taker.messages, wanted, &cut);
}

#[test]
fn any_cut(rt: HostRuntime) {
    let bytes = stream();
    let wanted = both(&rt, rt.alloc());
    for cut in 0..=bytes.len() {
        let mut taker = Taker::new(rt.alloc(), Kinds::Base);
        assert_cut(&rt, &mut taker, bytes.split_at(cut), &wanted);
    }
}

/// Takes bytes one by one, and checks that none of them is a fault.
fn assert_bytes_taken(rt: &impl Abort, taker: &mut Taker, bytes: &[u8]) {
    for byte in bytes {
        assert_taken(rt, taker, &[*byte], None, byte);
    }
}

#[test]
fn byte_by_byte(rt: HostRuntime) {
    let wanted = both(&rt, rt.alloc());
    let mut taker = Taker::new(rt.alloc(), Kinds::Base);
    assert_bytes_taken(&rt, &mut taker, &stream());
    assert_messages(&rt, &taker.messages, &wanted, &"byte by byte");
}

/// Frames with a fault that their last byte shows, and no earlier byte, whichever kinds there are.
const FAULTS: [(&[u8], FrameError); 13] = [
    (b"\0\0\0\0", FrameError::Length),
    (b"\0\x02\0\x02", FrameError::Length),
    (b"\xff\xff\xff\xff", FrameError::Length),
    (b"\0\0\0\x01\0", FrameError::Kind),
    (b"\0\0\0\x01\x06", FrameError::Kind),
    (b"\0\0\0\x22\x06", FrameError::Kind),
    (b"\0\x02\0\x01\xff", FrameError::Kind),
    (b"\0\0\0\x01\x03", FrameError::Length),
    (b"\0\0\0\x08\x03", FrameError::Length),
    (b"\0\0\0\x0a\x03", FrameError::Length),
    (b"\0\0\0\x21\x04", FrameError::Length),
    (b"\0\0\0\x23\x04", FrameError::Length),
    (b"\0\x02\0\x01\x04", FrameError::Length),
];

/// The first bytes of frames of kind 5 whose length no list has.
const BAD_LISTS: [&[u8]; 8] = [
    b"\0\0\0\x01\x05",
    b"\0\0\0\x02\x05",
    b"\0\0\0\x11\x05",
    b"\0\0\0\x13\x05",
    b"\0\0\0\x22\x05",
    b"\0\0\0\x31\x05",
    b"\0\0\0\x33\x05",
    b"\0\x02\0\x01\x05",
];

/// The first bytes of the frames of lists, without an id and with one.
const LISTS: [&[u8]; 2] = [b"\0\0\0\x12\x05", b"\0\0\0\x32\x05"];

/// Takes a frame byte by byte and two more pieces, and checks where the fault is reported, and that
/// there is no message.
fn assert_fault_by(rt: &impl Abort, taker: &mut Taker, frame: &[u8], fault: FrameError) {
    for (at, byte) in frame.iter().enumerate() {
        let shown = if at + 1 == frame.len() {
            Some(fault)
        } else {
            None
        };
        assert_taken(rt, taker, &[*byte], shown, &frame);
    }
    assert_taken(rt, taker, &LOOKUP, Some(fault), &frame);
    assert_taken(rt, taker, &[], Some(fault), &frame);
    assert_same(rt, &taker.messages.is_empty(), &true, &frame);
}

/// Checks the same by a framer for messages of these kinds.
fn assert_fault(rt: &impl Abort, alloc: Global, kinds: Kinds, frame: &[u8], fault: FrameError) {
    let mut taker = Taker::new(alloc, kinds);
    assert_fault_by(rt, &mut taker, frame, fault);
}

// A fault is reported at the byte that shows it, and again for each piece from then on, without a
// message.
#[test]
fn frame_faults(rt: HostRuntime) {
    for (frame, fault) in &FAULTS {
        assert_fault(&rt, rt.alloc(), Kinds::Base, frame, *fault);
        assert_fault(&rt, rt.alloc(), Kinds::WithLists, frame, *fault);
    }
}

// A frame of kind 5 with a wrong length has a fault of the length where there are lists. Where
// there are none, each frame of kind 5 has a fault of the kind.
#[test]
fn faults_of_lists(rt: HostRuntime) {
    for frame in BAD_LISTS {
        assert_fault(&rt, rt.alloc(), Kinds::WithLists, frame, FrameError::Length);
        assert_fault(&rt, rt.alloc(), Kinds::Base, frame, FrameError::Kind);
    }
    for frame in LISTS {
        assert_fault(&rt, rt.alloc(), Kinds::Base, frame, FrameError::Kind);
    }
}

/// The worked stream, this frame, and one more after it.
fn with_fault(rt: &impl Abort, alloc: Global, frame: &[u8]) -> Vec<u8> {
    joined(rt, alloc, &[&stream(), frame, &LOOKUP])
}

/// The result of one piece.
fn fed(alloc: Global, piece: &[u8]) -> Result<Fed, AllocError> {
    Framer::new(alloc, Kinds::WithLists).feed(piece)
}

/// Checks that the result of a piece with this frame is these messages and this fault.
fn assert_fed(rt: &impl Abort, fed: &Fed, wanted: &[Message], fault: FrameError, frame: &[u8]) {
    assert_messages(rt, &fed.messages, wanted, &frame);
    assert_same(rt, &fed.fault, &Some(fault), &frame);
}

/// Checks the result of a piece that has the worked stream, this frame, and one more.
fn assert_fault_after(
    rt: &impl Abort,
    alloc: Global,
    wanted: &[Message],
    frame: &[u8],
    fault: FrameError,
) {
    let piece = with_fault(rt, alloc, frame);
    let fed = fed(alloc, &piece).expect(rt, "its messages have memory");
    assert_fed(rt, &fed, wanted, fault, frame);
}

// The messages before a fault in one piece are returned, and nothing after it.
#[test]
fn messages_before_a_fault(rt: HostRuntime) {
    let wanted = both(&rt, rt.alloc());
    for (frame, fault) in &FAULTS {
        assert_fault_after(&rt, rt.alloc(), &wanted, frame, *fault);
    }
}

/// A frame of the greatest length.
fn greatest(rt: &impl Abort, alloc: Global) -> Vec<u8> {
    let mut frame = Vec::from_slice(alloc, b"\0\x02\0\x01\x02").expect(rt, "the head has memory");
    frame.resize(131_077, 7).expect(rt, "the body has memory");
    frame
}

/// Takes that frame in pieces of this size, and checks that no message comes before the last one.
fn assert_pieces(rt: &impl Abort, taker: &mut Taker, frame: &[u8], size: usize) {
    assert_true(rt, size > 0, "pieces have a size");
    for piece in frame.chunks(size) {
        assert_same(rt, &taker.messages.is_empty(), &true, &size);
        assert_taken(rt, taker, piece, None, &size);
    }
}

/// Checks that the only message is a lookup with the body of the frame.
fn assert_lookup(rt: &impl Abort, alloc: Global, messages: &[Message]) {
    assert_same(rt, &messages.len(), &1, &"messages");
    for message in messages {
        let body = vec![in alloc; 7; 131_072].expect(rt, "the body has memory");
        let is_lookup = *message == Message::Lookup(body);
        assert_true(rt, is_lookup, "the message is a lookup with that body");
    }
}

// A frame of the greatest length, in pieces of each size.
#[test]
fn greatest_frame(rt: HostRuntime) {
    let frame = greatest(&rt, rt.alloc());
    for size in [999, 65_536, 131_076, 200_000] {
        let mut taker = Taker::new(rt.alloc(), Kinds::Base);
        assert_pieces(&rt, &mut taker, &frame, size);
        assert_lookup(&rt, rt.alloc(), &taker.messages);
    }
}

/// Whether this is the first or the second message of the worked stream.
fn is_worked(place: u8, message: &Message) -> bool {
    match (place, message) {
        (0, Message::Register(body)) => body.as_slice() == &REGISTER[5..],
        (1, Message::Lookup(body)) => body.as_slice() == &LOOKUP[5..],
        _ => false,
    }
}

/// The result of a piece, which is fed again where memory was refused.
fn fed_again(framer: &mut Framer, piece: &[u8]) -> Result<Fed, AllocError> {
    match framer.feed(piece) {
        Ok(fed) => Ok(fed),
        Err(_) => framer.feed(piece),
    }
}

/// Checks that messages are those of the worked stream from this place on, and returns the place
/// after them.
fn assert_worked(rt: &impl Abort, messages: &[Message], from: u8) -> u8 {
    let mut place = from;
    for message in messages {
        assert_same(rt, &is_worked(place, message), &true, &place);
        place = place.saturating_add(1);
    }
    place
}

/// Feeds a piece of the worked stream, checks its messages from this place on, and returns the
/// place after them.
fn feed_worked(
    rt: &impl Abort,
    framer: &mut Framer,
    piece: &[u8],
    place: u8,
) -> Result<u8, AllocError> {
    let fed = fed_again(framer, piece)?;
    Ok(assert_worked(rt, &fed.messages, place))
}

/// Feeds the worked stream in pieces, and returns how many messages came.
fn feed_stream(rt: &impl Abort, framer: &mut Framer) -> Result<u8, AllocError> {
    let bytes = stream();
    let mut place = 0u8;
    for piece in bytes.chunks(50) {
        place = feed_worked(rt, framer, piece, place)?;
    }
    Ok(place)
}

// Run with each allocation failing in turn: a piece that was refused is fed again, and each message
// comes once.
#[test]
fn refused_memory_keeps_the_stream(rt: HostRuntime) -> Result<(), Fail> {
    let place = feed_stream(&rt, &mut Framer::new(rt.alloc(), Kinds::Base))?;
    assert_same(&rt, &place, &2, &"messages");
    Ok(())
}
