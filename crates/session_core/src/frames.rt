//! Frames: a length of four bytes, big-endian, and this number of bytes, which are a kind and a
//! body.

ghost use Rattle.std.specs.Prelude.{◌≡◌, ◌+◌, ◌⊎◌, length, IsTrue, ◌↔◌};
ghost use Rattle.session_core.specs.Frames.{message_kind, message_body, id_bytes, list_body, IsFrameLength, IsMessageKind, IsListLength, IsLengthOf, FitsFrame, FitsList};
ghost use Rattle.session_core.specs.Front.{message_at, IsFrontReading};

use crate::error::FrameError;
use crate::format::{
    LENGTH_SIZE, LIST_AFTER_LENGTH, LIST_LENGTH, MOST_LENGTH, PURGE_LENGTH, REMOVE_LENGTH,
};
use crate::kinds::{LIST, LOOKUP, PURGE, REGISTER, REMOVE};
use crate::list_request::ListRequest;
use crate::message::Message;
use crate::message_kinds::Kinds;
use byteorder::{BigEndian, ByteOrder};

/// The message at the front of the bytes, and how many bytes its frame has. `None` means that the
/// bytes are less than a frame.
///
/// The length is checked once four bytes are there. Once five bytes are there, the kind is checked,
/// and then the length of a purge, a removal or a list.
pub(crate) fn next_frame(
    kinds: Kinds,
    bytes: &[u8],
) -> Result<Option<(Message<&[u8]>, usize)>, FrameError>
    ensures { IsFrontReading kinds bytes.now result }
{
    if bytes.len() < LENGTH_SIZE {
        return Ok(None);
    }
    let len = BigEndian::read_u32(bytes) as usize;
    if len == 0 || len > MOST_LENGTH {
        return Err(FrameError::Length);
    }
    if bytes.len() == LENGTH_SIZE {
        return Ok(None);
    }
    let kind = bytes[LENGTH_SIZE];
    if kind < REGISTER || kind > kinds.greatest() {
        return Err(FrameError::Kind);
    }
    if !is_length_of(kind, len) {
        return Err(FrameError::Length);
    }
    if bytes.len() < LENGTH_SIZE + len {
        return Ok(None);
    }
    let body = &bytes[LENGTH_SIZE + 1..LENGTH_SIZE + len];
    Ok(Some((message_of(kinds, kind, body), LENGTH_SIZE + len)))
}

/// Whether frames of this kind can have this length. Only purges, removals and lists have lengths
/// of their own.
fn is_length_of(kind: u8, len: usize) -> bool
    ensures { IsTrue result ↔ IsLengthOf kind len }
{
    match kind {
        PURGE => len == PURGE_LENGTH,
        REMOVE => len == REMOVE_LENGTH,
        LIST => len == LIST_LENGTH || len == LIST_AFTER_LENGTH,
        _ => true,
    }
}

/// The message of a known kind with this body.
fn message_of(kinds: Kinds, kind: u8, body: &[u8]) -> Message<&[u8]>
    requires known { IsMessageKind kinds kind }
    requires in_range { IsFrameLength (1 + length body.now) }
    requires of_kind { IsLengthOf kind (1 + length body.now) }
    ensures kind { message_kind (message_at result) ≡ kind }
    ensures body { message_body (message_at result) ≡ body.now }
    ensures fits { FitsFrame kinds (message_at result) }
{
    match kind {
        REGISTER => Message::Register(body),
        LOOKUP => Message::Lookup(body),
        PURGE => Message::Purge(BigEndian::read_u64(body)),
        REMOVE => Message::Remove(body[0], id_of(&body[1..])),
        _ => Message::List(list_of(body)),
    }
}

/// The list with this body.
fn list_of(body: &[u8]) -> ListRequest
    requires { IsListLength (1 + length body.now) }
    ensures body { list_body result ≡ body.now }
    ensures fits { FitsList result }
{
    ListRequest {
        kind: body[0],
        start: BigEndian::read_u64(&body[1..9]),
        end: BigEndian::read_u64(&body[9..17]),
        after: after_of(&body[17..]),
    }
}

/// The id at the end of a list's body, if there is one.
fn after_of(bytes: &[u8]) -> Option<[u8; 32]>
    requires { (length bytes.now ≡ 0) ⊎ (length bytes.now ≡ 32) }
    ensures { id_bytes result ≡ bytes.now }
{
    if bytes.is_empty() {
        return None;
    }
    Some(id_of(bytes))
}

/// An id, from its bytes.
fn id_of(bytes: &[u8]) -> [u8; 32]
    requires { length bytes.now ≡ 32 }
    ensures { result ≡ bytes.now }
{
    let mut id = [0; 32];
    id.copy_from_slice(bytes);
    id
}
