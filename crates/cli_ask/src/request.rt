//! The frames of requests.

ghost use Rattle.std.specs.Prelude.{◌≡◌, ◌<◌, ◌≤◌, ◌^◌, ◌∷◌, ◌++◌, [], IfOk, OnOk};
ghost use Rattle.std.specs.Int.{w32, w64, to_be_bytes};
ghost use Rattle.isd_as.specs.IsdAs.{isd_as_number};
ghost use Rattle.seg_core.specs.Encoding.{response_encoding};
ghost use Rattle.seg_core.specs.Registration.{type_number};
ghost use Rattle.session_core.specs.Frames.{message_frame, frame_encoding, list_body};
ghost use Rattle.session_core.specs.Front.{message_at};
ghost use Rattle.cli_ask.specs.Requests.{side_encoding, request_encoding};

use byteorder::{BigEndian, ByteOrder};
use isd_as::IsdAs;
use pw_wire::put_varint_field;
use seg_core::{SegType, Segment, write_response_of};
use session_core::kinds::{LIST, LOOKUP, PURGE, REGISTER, REMOVE};
use session_core::{ListRequest, Message};
use std::alloc::{AllocError, Global};

/// The body of a lookup: a `SegmentsRequest`. A side that is 0 is left out.
pub(crate) fn lookup_body(
    alloc: Global,
    source: IsdAs,
    destination: IsdAs,
) -> Result<Vec<u8>, AllocError>
    ensures { IfOk result (λ body. body.items ≡ request_encoding (isd_as_number source) (isd_as_number destination)) }
{
    let mut body = Vec::new(alloc);
    put_side(&mut body, 1, source)?;
    put_side(&mut body, 2, destination)?;
    Ok(body)
}

/// Appends a side of a lookup as the field of this number, unless it is 0.
fn put_side(body: &mut Vec<u8>, field_number: u32, side: IsdAs) -> Result<(), AllocError>
    requires least { 1 ≤ field_number }
    requires most { field_number < 2 ^ 29 }
    ensures { OnOk result (body.new.items ≡ body.old.items ++ side_encoding field_number (isd_as_number side)) }
{
    let number = side.to_u64();
    if number == 0 {
        return Ok(());
    }
    put_varint_field(body, field_number, number)
}

/// The byte of a type.
pub(crate) fn byte_of(kind: SegType) -> u8
    ensures { result ≡ type_number kind }
{
    kind.number() as u8
}

/// The body of a registration of one segment. A registration of segments is encoded as a response
/// with them is.
pub(crate) fn registration_of(
    alloc: Global,
    kind: SegType,
    segment: &Segment,
) -> Result<Vec<u8>, AllocError>
    ensures { IfOk result (λ body. body.items ≡ response_encoding ((kind, segment.now) ∷ [])) }
{
    write_response_of(alloc, &[(kind, segment)])
}

/// The frame of a message. A body whose length has more than 32 bits is want of memory.
pub(crate) fn frame_of(alloc: Global, message: &Message<&[u8]>) -> Result<Vec<u8>, AllocError>
    ensures { IfOk result (λ frame. frame.items ≡ message_frame (message_at message.now)) }
{
    match message {
        Message::Register(body) => framed(alloc, REGISTER, body),
        Message::Lookup(body) => framed(alloc, LOOKUP, body),
        Message::Purge(moment) => framed(alloc, PURGE, &number_bytes(*moment)),
        Message::Remove(kind, id) => {
            let body = removal_body(alloc, *kind, id)?;
            framed(alloc, REMOVE, body.as_slice())
        }
        Message::List(request) => {
            let body = list_body(alloc, request)?;
            framed(alloc, LIST, body.as_slice())
        }
    }
}

/// The bytes of a number, big-endian.
fn number_bytes(number: u64) -> [u8; 8]
    ensures { result ≡ to_be_bytes w64 number }
{
    let mut bytes = [0; 8];
    BigEndian::write_u64(&mut bytes, number);
    bytes
}

/// The body of a removal: the type and the id.
fn removal_body(alloc: Global, kind: u8, id: &[u8; 32]) -> Result<Vec<u8>, AllocError>
    ensures { IfOk result (λ body. body.items ≡ kind ∷ id.now) }
{
    let mut body = Vec::from_slice(alloc, &[kind])?;
    body.extend_from_slice(id)?;
    Ok(body)
}

/// The body of a list: the type, both sides, and the id after which the page begins, if there is
/// one.
fn list_body(alloc: Global, request: &ListRequest) -> Result<Vec<u8>, AllocError>
    ensures { IfOk result (λ body. body.items ≡ list_body request.now) }
{
    let mut body = Vec::from_slice(alloc, &[request.kind])?;
    body.extend_from_slice(&number_bytes(request.start))?;
    body.extend_from_slice(&number_bytes(request.end))?;
    if let Some(id) = &request.after {
        body.extend_from_slice(id)?;
    }
    Ok(body)
}

/// The frame of a kind and a body.
fn framed(alloc: Global, kind: u8, body: &[u8]) -> Result<Vec<u8>, AllocError>
    ensures { IfOk result (λ frame. frame.items ≡ frame_encoding (kind ∷ body.now)) }
{
    let Ok(len) = u32::try_from(body.len()) else {
        return Err(AllocError);
    };
    let Some(len) = len.checked_add(1) else {
        return Err(AllocError);
    };
    let mut frame = Vec::from_slice(alloc, &length_bytes(len))?;
    frame.push(kind)?;
    frame.extend_from_slice(body)?;
    Ok(frame)
}

/// The bytes of a frame's length, big-endian.
fn length_bytes(len: u32) -> [u8; 4]
    ensures { result ≡ to_be_bytes w32 len }
{
    let mut bytes = [0; 4];
    BigEndian::write_u32(&mut bytes, len);
    bytes
}
