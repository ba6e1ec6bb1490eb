//! Writing replies.

ghost use Rattle.std.specs.Prelude.{◌≡◌, ◌++◌, OnOk, IfOk, IfErr, string_bytes};
ghost use Rattle.std.specs.Io.KnownBytes.{Appends};
ghost use Rattle.session_core.specs.Reply.{HasReplySize, Found, Listed, reply_frame, told_as};
ghost use Rattle.session_core.specs.ReplyViews.{reply_view};
ghost use Rattle.session_core.specs.Answered.{FailsToWrite, ReplyWriteFails};

use crate::error::FrameError;
use crate::kinds::{PURGED, REGISTERED, REMOVED};
use crate::reply::{Form, Reply, ack_frame, found_head, listed_head, refusal_frame, whole_frame};
use crate::service::{Acknowledges, Listing};
use crate::sink::Sink;
use seg_core::{SegType, Segment, write_response_of_type};
use std::alloc::{AllocError, Global};
use whole_writes::WriteFailed;

/// The bytes of a response from which on it is joined with its head before both are written: half
/// of what a connection gathers.
const LONG: usize = 4_096;

/// Writes a reply. Where memory is refused, nothing of the reply is written.
pub(crate) fn write_reply<W: Sink, A: Acknowledges>(
    alloc: Global,
    writer: &mut W,
    reply: &Reply<A>,
    form: Form,
) -> Result<(), FrameError>
    requires { HasReplySize (reply_view A.says reply.now) }
    ensures ok { OnOk result (Appends (W.contents writer.old) (W.contents writer.new) (told_as form (reply_view A.says reply.now))) }
    ensures err { IfErr result (FailsToWrite (W.contents writer.old) (W.contents writer.new) (told_as form (reply_view A.says reply.now))) }
{
    match form {
        Form::Frames => write_frame(alloc, writer, reply),
        Form::Lines => write_line(alloc, writer, reply),
    }
}

/// Writes the hexadecimal digits of a reply's frame, and the end of the line.
fn write_line<W: Sink, A: Acknowledges>(
    alloc: Global,
    writer: &mut W,
    reply: &Reply<A>,
) -> Result<(), FrameError>
    requires { HasReplySize (reply_view A.says reply.now) }
    ensures ok { OnOk result (Appends (W.contents writer.old) (W.contents writer.new) (told_as Form.Lines (reply_view A.says reply.now))) }
    ensures err { IfErr result (FailsToWrite (W.contents writer.old) (W.contents writer.new) (told_as Form.Lines (reply_view A.says reply.now))) }
{
    let Ok(line) = line_of(alloc, reply) else {
        return Err(FrameError::NoMemory);
    };
    write_all(writer, line.as_bytes())
}

/// The hexadecimal digits of a reply's frame, and the end of the line.
fn line_of<A: Acknowledges>(alloc: Global, reply: &Reply<A>) -> Result<String, AllocError>
    requires { HasReplySize (reply_view A.says reply.now) }
    ensures { IfOk result (λ line. string_bytes line ≡ told_as Form.Lines (reply_view A.says reply.now)) }
{
    let frame = whole_frame(alloc, reply)?;
    let mut line = hex::encode(alloc, frame.as_slice())?;
    line.push('\n')?;
    Ok(line)
}

/// Writes the frame of a reply. Memory is taken for a response alone, before its first byte is
/// written.
#[tactic(auto, unfolding(crate::specs::Reply::reply_frame))]
fn write_frame<W: Sink, A: Acknowledges>(
    alloc: Global,
    writer: &mut W,
    reply: &Reply<A>,
) -> Result<(), FrameError>
    requires { HasReplySize (reply_view A.says reply.now) }
    ensures ok { OnOk result (Appends (W.contents writer.old) (W.contents writer.new) (reply_frame (reply_view A.says reply.now))) }
    ensures err { IfErr result (FailsToWrite (W.contents writer.old) (W.contents writer.new) (reply_frame (reply_view A.says reply.now))) }
{
    match reply {
        Reply::Registered(ack) => write_all(writer, &ack_frame(REGISTERED, ack)),
        Reply::Found(kind, segments) => write_found(alloc, writer, *kind, segments),
        Reply::Purged(ack) => write_all(writer, &ack_frame(PURGED, ack)),
        Reply::Removed(ack) => write_all(writer, &ack_frame(REMOVED, ack)),
        Reply::Listed(listing) => write_listed(alloc, writer, listing),
        Reply::Refused(code) => write_all(writer, &refusal_frame(*code)),
    }
}

/// Writes the frame of a response.
#[tactic(auto, unfolding(crate::specs::Reply::reply_frame))]
fn write_found<W: Sink>(
    alloc: Global,
    writer: &mut W,
    kind: SegType,
    segments: &[Segment],
) -> Result<(), FrameError>
    requires { HasReplySize (Found kind segments.now) }
    ensures ok { OnOk result (Appends (W.contents writer.old) (W.contents writer.new) (reply_frame (Found kind segments.now))) }
    ensures err { IfErr result (FailsToWrite (W.contents writer.old) (W.contents writer.new) (reply_frame (Found kind segments.now))) }
{
    let Ok(response) = write_response_of_type(alloc, kind, segments) else {
        return Err(FrameError::NoMemory);
    };
    let head = found_head(response.len());
    write_parts(alloc, writer, &head, response)
}

/// Writes the frame of a page.
#[tactic(auto, unfolding(crate::specs::Reply::reply_frame))]
fn write_listed<W: Sink>(alloc: Global, writer: &mut W, listing: &Listing) -> Result<(), FrameError>
    requires { HasReplySize (Listed listing.now.more listing.now.kind listing.now.segments.items) }
    ensures ok { OnOk result (Appends (W.contents writer.old) (W.contents writer.new) (reply_frame (Listed listing.now.more listing.now.kind listing.now.segments.items))) }
    ensures err { IfErr result (FailsToWrite (W.contents writer.old) (W.contents writer.new) (reply_frame (Listed listing.now.more listing.now.kind listing.now.segments.items))) }
{
    let Ok(response) = write_response_of_type(alloc, listing.kind, &listing.segments) else {
        return Err(FrameError::NoMemory);
    };
    let head = listed_head(listing.more, response.len());
    write_parts(alloc, writer, &head, response)
}

/// Writes all bytes of a reply's head and of its body. A long body is joined with the head before,
/// as a connection that does not gather it would send the head alone. The body itself is dropped
/// then, as a peer may take long to read. Where memory for that is refused, the head is written
/// before the body.
fn write_parts<W: Sink>(
    alloc: Global,
    writer: &mut W,
    head: &[u8],
    body: Vec<u8>,
) -> Result<(), FrameError>
    ensures ok { OnOk result (Appends (W.contents writer.old) (W.contents writer.new) (head.now ++ body.items)) }
    ensures err { IfErr result (ReplyWriteFails (W.contents writer.old) (W.contents writer.new) (head.now ++ body.items)) }
{
    if body.len() < LONG {
        return write_both(writer, head, body.as_slice());
    }
    match joined(alloc, head, body.as_slice()) {
        Ok(whole) => {
            drop(body);
            write_all(writer, whole.as_slice())
        }
        Err(_) => write_both(writer, head, body.as_slice()),
    }
}

/// Writes all bytes of two byte strings.
fn write_both<W: Sink>(writer: &mut W, head: &[u8], body: &[u8]) -> Result<(), FrameError>
    ensures ok { OnOk result (Appends (W.contents writer.old) (W.contents writer.new) (head.now ++ body.now)) }
    ensures err { IfErr result (ReplyWriteFails (W.contents writer.old) (W.contents writer.new) (head.now ++ body.now)) }
{
    write_all(writer, head)?;
    write_all(writer, body)
}

/// The bytes of two byte strings, one after the other.
fn joined(alloc: Global, head: &[u8], body: &[u8]) -> Result<Vec<u8>, AllocError>
    ensures { IfOk result (λ whole. whole.items ≡ head.now ++ body.now) }
{
    let mut whole = Vec::with_capacity(alloc, head.len().saturating_add(body.len()))?;
    whole.extend_from_slice(head)?;
    whole.extend_from_slice(body)?;
    Ok(whole)
}

/// Writes all of the bytes. A write that takes no byte is an error, and no failed write is
/// repeated.
pub(crate) fn write_all<W: Sink>(writer: &mut W, bytes: &[u8]) -> Result<(), FrameError>
    ensures ok { OnOk result (Appends (W.contents writer.old) (W.contents writer.new) bytes.now) }
    ensures err { IfErr result (ReplyWriteFails (W.contents writer.old) (W.contents writer.new) bytes.now) }
{
    match writer.write_whole(bytes) {
        Ok(()) => Ok(()),
        Err(WriteFailed) => Err(FrameError::Write),
    }
}
