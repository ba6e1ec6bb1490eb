//! Replies, and their frames.

ghost use Rattle.std.specs.Prelude.{◌≡◌, ◌+◌, ◌<◌, ◌++◌, ◌∷◌, ℕ, List, length, IfOk};
ghost use Rattle.session_core.specs.Commands.{reply_to_kind};
ghost use Rattle.session_core.specs.Frames.{frame_encoding};
ghost use Rattle.session_core.specs.Reply.{ack_encoding, more_byte, reply_frame, HasReplySize, Found, Listed, Refused};
ghost use Rattle.session_core.specs.ReplyViews.{reply_view};

use crate::command_kind::CommandKind;
use crate::format::{ACK_FRAME, ACK_LENGTH, MOST_REPLY, REFUSAL_FRAME, REFUSAL_LENGTH};
use crate::kinds::{FOUND, LISTED, PURGED, REFUSED, REGISTERED, REMOVED};
use crate::service::{Ack, Acknowledges, Code, Listing};
use byteorder::{BigEndian, ByteOrder};
use seg_core::{SegType, Segment, write_response_of_type};
use std::alloc::{AllocError, Global};

/// How replies are written.
#[derive(Clone, Copy)]
pub enum Form {
    /// As their frames.
    Frames,
    /// As lines, each of which is the hexadecimal digits of a frame, in lower case.
    Lines,
}

/// The reply to one message, by what acknowledges a command. A service's reply has the service's
/// acknowledgement, and a client's has what it says.
#[derive(Drop)]
pub enum Reply<A> {
    /// A registration was accepted.
    Registered(A),
    /// The segments that a lookup found, of one type.
    Found(SegType, Vec<Segment>),
    /// A purge was accepted.
    Purged(A),
    /// A removal was accepted.
    Removed(A),
    /// The page that a list found.
    Listed(Listing),
    /// A message was refused.
    Refused(Code),
}

/// The reply to a command of this kind.
pub(crate) fn reply_to<A: Acknowledges>(kind: CommandKind, answered: Result<A, Code>) -> Reply<A>
    ensures reply { reply_view A.says result ≡ reply_to_kind A.says kind answered }
    ensures sized { HasReplySize (reply_view A.says result) }
{
    match answered {
        Ok(ack) => match kind {
            CommandKind::Register => Reply::Registered(ack),
            CommandKind::Purge => Reply::Purged(ack),
            CommandKind::Remove => Reply::Removed(ack),
        },
        Err(code) => Reply::Refused(code),
    }
}

/// The frame of an acknowledgement, under the kind of its command.
pub(crate) fn ack_frame<A: Acknowledges>(kind: u8, ack: &A) -> [u8; ACK_FRAME]
    ensures { result ≡ frame_encoding (kind ∷ ack_encoding (A.says ack.now)) }
{
    let Ack { place, outcome } = ack.says();
    let mut frame = [0; ACK_FRAME];
    BigEndian::write_u32(&mut frame, ACK_LENGTH as u32);
    frame[4] = kind;
    BigEndian::write_u64(&mut frame[5..], place);
    BigEndian::write_u32_into(
        &[
            outcome.inserted,
            outcome.updated,
            outcome.kept,
            outcome.purged,
        ],
        &mut frame[13..],
    );
    frame
}

/// The frame of a refusal: its length, 2, in four bytes, the kind of a refusal, and the code.
#[tactic(auto, unfolding(crate::specs::Reply::reply_frame))]
pub fn refusal_frame(code: Code) -> [u8; 6]
    ensures { result ≡ reply_frame (Refused code.0) }
{
    let mut frame = [0; REFUSAL_FRAME];
    BigEndian::write_u32(&mut frame, REFUSAL_LENGTH as u32);
    frame[4] = REFUSED;
    frame[5] = code.0;
    frame
}

/// The length and the kind before a response of this number of bytes.
pub(crate) fn found_head(response: usize) -> [u8; 5]
    requires { response < MOST_REPLY }
    ensures { (body : List ℕ) → length body ≡ response → result ++ body ≡ frame_encoding (0x82 ∷ body) }
{
    let mut head = [0; 5];
    BigEndian::write_u32(&mut head, response as u32 + 1);
    head[4] = FOUND;
    head
}

/// The length, the kind and the byte that says whether more follows, before a page's response of
/// this number of bytes.
pub(crate) fn listed_head(more: bool, response: usize) -> [u8; 6]
    requires { response + 1 < MOST_REPLY }
    ensures { (body : List ℕ) → length body ≡ response → result ++ body ≡ frame_encoding (0x85 ∷ (more_byte more ∷ body)) }
{
    let mut head = [0; 6];
    BigEndian::write_u32(&mut head, response as u32 + 2);
    head[4] = LISTED;
    head[5] = u8::from(more);
    head
}

/// The frame of a reply.
#[tactic(auto, unfolding(crate::specs::Reply::reply_frame))]
pub(crate) fn whole_frame<A: Acknowledges>(
    alloc: Global,
    reply: &Reply<A>,
) -> Result<Vec<u8>, AllocError>
    requires { HasReplySize (reply_view A.says reply.now) }
    ensures { IfOk result (λ frame. frame.items ≡ reply_frame (reply_view A.says reply.now)) }
{
    match reply {
        Reply::Registered(ack) => Vec::from_slice(alloc, &ack_frame(REGISTERED, ack)),
        Reply::Found(kind, segments) => found_frame(alloc, *kind, segments),
        Reply::Purged(ack) => Vec::from_slice(alloc, &ack_frame(PURGED, ack)),
        Reply::Removed(ack) => Vec::from_slice(alloc, &ack_frame(REMOVED, ack)),
        Reply::Listed(listing) => listed_frame(alloc, listing),
        Reply::Refused(code) => Vec::from_slice(alloc, &refusal_frame(*code)),
    }
}

/// The frame of a page.
#[tactic(auto, unfolding(crate::specs::Reply::reply_frame))]
fn listed_frame(alloc: Global, listing: &Listing) -> Result<Vec<u8>, AllocError>
    requires { HasReplySize (Listed listing.now.more listing.now.kind listing.now.segments.items) }
    ensures { IfOk result (λ frame. frame.items ≡ reply_frame (Listed listing.now.more listing.now.kind listing.now.segments.items)) }
{
    let response = write_response_of_type(alloc, listing.kind, &listing.segments)?;
    let mut frame = Vec::from_slice(alloc, &listed_head(listing.more, response.len()))?;
    frame.extend_from_slice(response.as_slice())?;
    Ok(frame)
}

/// The frame of a response.
#[tactic(auto, unfolding(crate::specs::Reply::reply_frame))]
fn found_frame(alloc: Global, kind: SegType, segments: &[Segment]) -> Result<Vec<u8>, AllocError>
    requires { HasReplySize (Found kind segments.now) }
    ensures { IfOk result (λ frame. frame.items ≡ reply_frame (Found kind segments.now)) }
{
    let response = write_response_of_type(alloc, kind, segments)?;
    let mut frame = Vec::from_slice(alloc, &found_head(response.len()))?;
    frame.extend_from_slice(response.as_slice())?;
    Ok(frame)
}
