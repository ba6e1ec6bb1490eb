//! Replies, read from the bytes of their frames.

ghost use Rattle.std.specs.Prelude.{◌≡◌, ◌<◌, ◌∷◌, [], length, IfOk, IfSome};
ghost use Rattle.seg_core.specs.Registration.{typed_segments};
ghost use Rattle.seg_core.specs.Encoding.{response_encoding};
ghost use Rattle.session_core.specs.Reply.{reply_content, ack_encoding, more_byte};
ghost use Rattle.session_core.specs.ReplyViews.{reply_view};

use crate::error::AskError;
use byteorder::{BigEndian, ByteOrder};
use pw_wire::{first_bytes, first_number};
use seg_core::{SegError, SegType, Segment, read_segment, write_response_of_type};
use session_core::kinds::{FOUND, LISTED, PURGED, REFUSED, REGISTERED, REMOVED};
use session_core::{Ack, Code, Listing, Outcome, Reply};
use std::alloc::Global;

/// The number of bytes of an acknowledgement, after its kind.
const ACK: usize = 24;

/// The reply with this content, which is a kind and the bytes that belong to it. Bytes that are not
/// the one encoding of a reply are `Faulty`.
pub(crate) fn read_reply(alloc: Global, content: &[u8]) -> Result<Reply<Ack>, AskError>
    ensures { IfOk result (λ reply. content.now ≡ reply_content (reply_view (λ ack. ack) reply)) }
{
    let Some((kind, body)) = content.split_first() else {
        return Err(AskError::Faulty);
    };
    match *kind {
        REGISTERED => Ok(Reply::Registered(read_ack(body)?)),
        FOUND => {
            let (kind, segments) = read_segments(alloc, body)?;
            Ok(Reply::Found(kind, segments))
        }
        PURGED => Ok(Reply::Purged(read_ack(body)?)),
        REMOVED => Ok(Reply::Removed(read_ack(body)?)),
        LISTED => Ok(Reply::Listed(read_page(alloc, body)?)),
        REFUSED => Ok(Reply::Refused(read_code(body)?)),
        _ => Err(AskError::Faulty),
    }
}

/// The code of a refusal.
fn read_code(body: &[u8]) -> Result<Code, AskError>
    ensures { IfOk result (λ code. body.now ≡ code.0 ∷ []) }
{
    match body {
        [code] => Ok(Code(*code)),
        _ => Err(AskError::Faulty),
    }
}

/// An acknowledgement.
fn read_ack(body: &[u8]) -> Result<Ack, AskError>
    ensures { IfOk result (λ ack. body.now ≡ ack_encoding ack) }
{
    if body.len() != ACK {
        return Err(AskError::Faulty);
    }
    let ack = Ack {
        place: BigEndian::read_u64(&body[..8]),
        outcome: Outcome {
            inserted: BigEndian::read_u32(&body[8..12]),
            updated: BigEndian::read_u32(&body[12..16]),
            kept: BigEndian::read_u32(&body[16..20]),
            purged: BigEndian::read_u32(&body[20..]),
        },
    };
    if ack_bytes(ack).as_slice() != body {
        return Err(AskError::Faulty);
    }
    Ok(ack)
}

/// The bytes of an acknowledgement, after its kind.
fn ack_bytes(ack: Ack) -> [u8; ACK]
    ensures { result ≡ ack_encoding ack }
{
    let mut bytes = [0; ACK];
    BigEndian::write_u64(&mut bytes, ack.place);
    BigEndian::write_u32_into(
        &[
            ack.outcome.inserted,
            ack.outcome.updated,
            ack.outcome.kept,
            ack.outcome.purged,
        ],
        &mut bytes[8..],
    );
    bytes
}

/// A page: a byte that says whether more segments follow, and a response.
fn read_page(alloc: Global, body: &[u8]) -> Result<Listing, AskError>
    ensures { IfOk result (λ page. body.now ≡ more_byte page.more ∷ response_encoding (typed_segments page.kind page.segments.items)) }
{
    let Some((byte, response)) = body.split_first() else {
        return Err(AskError::Faulty);
    };
    let more = match *byte {
        0 => false,
        1 => true,
        _ => return Err(AskError::Faulty),
    };
    let (kind, segments) = read_segments(alloc, response)?;
    Ok(Listing {
        kind,
        segments,
        more,
    })
}

/// The segments of a response, all of one type. The bytes have to be the response's one encoding.
fn read_segments(alloc: Global, body: &[u8]) -> Result<(SegType, Vec<Segment>), AskError>
    ensures { IfOk result (λ read. body.now ≡ response_encoding (typed_segments read.0 read.1.items)) }
{
    let (kind, segments) = segments_in(alloc, body)?;
    let encoded = write_response_of_type(alloc, kind, segments.as_slice())?;
    if encoded.as_slice() != body {
        return Err(AskError::Faulty);
    }
    Ok((kind, segments))
}

/// The segments that a response seems to have.
fn segments_in(alloc: Global, body: &[u8]) -> Result<(SegType, Vec<Segment>), AskError> {
    if body.is_empty() {
        return Ok((SegType::Up, Vec::new(alloc)));
    }
    let Some((entry, _)) = first_bytes(1, body) else {
        return Err(AskError::Faulty);
    };
    let Some((number, len)) = first_number(1, entry) else {
        return Err(AskError::Faulty);
    };
    let Ok(kind) = SegType::from_number(number) else {
        return Err(AskError::Faulty);
    };
    let Some((messages, _)) = first_bytes(2, entry.split_at(len).1) else {
        return Err(AskError::Faulty);
    };
    let segments = segments_of(alloc, messages)?;
    Ok((kind, segments))
}

/// The segments of messages, one after the other.
fn segments_of(alloc: Global, messages: &[u8]) -> Result<Vec<Segment>, AskError> {
    let mut segments = Vec::new(alloc);
    let mut rest = messages;
    while !rest.is_empty() {
        let Some(split) = first_message(rest) else {
            return Err(AskError::Faulty);
        };
        let segment = segment_of(alloc, split.message)?;
        if segments.push(segment).is_err() {
            return Err(AskError::NoMemory);
        }
        rest = split.behind;
    }
    Ok(segments)
}

/// A message, and what follows it.
#[derive(Clone, Copy)]
struct Split<'a> {
    message: &'a [u8],
    behind: &'a [u8],
}

/// The first message of messages, if they begin with one.
fn first_message(messages: &[u8]) -> Option<Split<'_>>
    ensures { IfSome result (λ split. length split.behind.now < length messages.now) }
{
    let Some((message, len)) = first_bytes(1, messages) else {
        return None;
    };
    Some(Split {
        message,
        behind: messages.split_at(len).1,
    })
}

/// The segment of a message.
fn segment_of(alloc: Global, message: &[u8]) -> Result<Segment, AskError> {
    match read_segment(alloc, message) {
        Ok(segment) => Ok(segment),
        Err(SegError::NoMemory) => Err(AskError::NoMemory),
        Err(_) => Err(AskError::Faulty),
    }
}
