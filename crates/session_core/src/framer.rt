//! Messages from a stream that comes in pieces.

ghost use Rattle.std.specs.Prelude.{◌≡◌, ◌≤◌, [], length, drop, IsOk, IfOk, OnErr};
ghost use Rattle.session_core.specs.Frames.{Rest, AreWholeFrames};
ghost use Rattle.session_core.specs.Front.{message_at};
ghost use Rattle.session_core.specs.Framer.{message_view, message_views, ending_error, IsFaulty, Continues, FramerView, IsFaultOf};

use crate::error::FrameError;
use crate::frames::next_frame;
use crate::message::Message;
use crate::message_kinds::Kinds;
use byte_lists::drop_front;
use std::alloc::{AllocError, Global};
use std::marker::Model;

/// A stream of frames that comes in pieces.
///
/// It returns each message as soon as the message's frame is whole, and the same messages however
/// the stream is cut. Beside the messages it keeps less than a frame in memory, and the piece while
/// it is read. After a fault of a frame it returns no more messages: the result for each later
/// piece is the same fault.
#[derive(Drop)]
pub struct Framer {
    /// Which kinds of messages the stream has.
    kinds: Kinds,
    /// The bytes after the last whole frame.
    kept: Vec<u8>,
    /// The fault of these bytes: `Length` or `Kind`.
    fault: Option<FrameError>,
}

/// The result of feeding a piece of a stream.
#[derive(Drop)]
pub struct Fed {
    /// The messages whose frames the piece ends, in order.
    pub messages: Vec<Message>,
    /// `Length` or `Kind`, where a frame with that fault comes after the messages.
    pub fault: Option<FrameError>,
}

impl Model for Framer {
    ghost use Rattle.session_core.specs.Framer.{FramerView, IsFaultOf, ending_of};

    ghost Value = { FramerView };

    ghost view = { λ f. record { kinds = f.kinds; ending = ending_of f.kept.items f.fault } };

    ghost invariant = { λ f. IsFaultOf f.kinds f.kept.items f.fault };
}

impl Framer {
    /// A framer at the start of a stream of messages of these kinds.
    pub fn new(alloc: Global, kinds: Kinds) -> Framer
        ensures { result ≡ record { kinds = kinds; ending = Rest [] } }
    {
        Framer {
            kinds,
            kept: Vec::new(alloc),
            fault: None,
        }
    }

    /// Takes the next piece of the stream. Where memory is refused, nothing changes, and the piece
    /// can be fed again.
    pub fn feed(&mut self, piece: &[u8]) -> Result<Fed, AllocError>
        ensures stream { IfOk result (λ fed. Continues self.old.kinds self.old.ending piece.now (message_views fed.messages.items) self.new.ending) }
        ensures fault { IfOk result (λ fed. fed.fault ≡ ending_error self.new.ending) }
        ensures kinds { self.new.kinds ≡ self.old.kinds }
        ensures silent { IsFaulty self.old.ending → IfOk result (λ fed. fed.messages.items ≡ []) }
        ensures stopped { IsFaulty self.old.ending → self.new ≡ self.old }
        ensures ready { IsFaulty self.old.ending → IsOk result }
        ensures err { OnErr result (self.new ≡ self.old) }
    {
        let alloc = *self.kept.allocator();
        if let Some(fault) = self.fault {
            return Ok(Fed {
                messages: Vec::new(alloc),
                fault: Some(fault),
            });
        }
        let len = self.kept.len();
        self.kept.extend_from_slice(piece)?;
        match whole_frames(alloc, self.kinds, self.kept.as_slice()) {
            Ok((fed, used)) => {
                drop_front(&mut self.kept, used);
                self.fault = fed.fault;
                Ok(fed)
            }
            Err(e) => {
                self.kept.truncate(len);
                Err(e)
            }
        }
    }
}

/// The messages of the whole frames at the front, the fault after them, and how many bytes the
/// frames have.
fn whole_frames(alloc: Global, kinds: Kinds, bytes: &[u8]) -> Result<(Fed, usize), AllocError>
    ensures within { IfOk result (λ r. r.1 ≤ length bytes.now) }
    ensures messages { IfOk result (λ r. AreWholeFrames kinds bytes.now (message_views r.0.messages.items) (drop r.1 bytes.now)) }
    ensures fault { IfOk result (λ r. IsFaultOf kinds (drop r.1 bytes.now) r.0.fault) }
{
    let mut messages = Vec::new(alloc);
    let mut used = 0;
    let fault = loop {
        match next_frame(kinds, bytes.split_at(used).1) {
            Ok(Some((message, len))) => {
                messages.push(message_copy(alloc, message)?)?;
                used += len;
            }
            Ok(None) => break None,
            Err(fault) => break Some(fault),
        }
    };
    Ok((Fed { messages, fault }, used))
}

/// The message with a copy of its body.
fn message_copy(alloc: Global, message: Message<&[u8]>) -> Result<Message, AllocError>
    ensures { IfOk result (λ m. message_view m ≡ message_at message.entry) }
{
    Ok(match message {
        Message::Register(body) => Message::Register(Vec::from_slice(alloc, body)?),
        Message::Lookup(body) => Message::Lookup(Vec::from_slice(alloc, body)?),
        Message::Purge(moment) => Message::Purge(moment),
        Message::Remove(kind, id) => Message::Remove(kind, id),
        Message::List(request) => Message::List(request),
    })
}
