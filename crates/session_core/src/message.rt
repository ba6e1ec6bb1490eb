//! The messages in frames.

use crate::list_request::ListRequest;

/// A message. The body of a registration or a lookup is owned by the caller of a `Framer`, or is a
/// slice of the bytes that were read.
#[derive(Clone, Copy, Debug, Drop, PartialEq)]
pub enum Message<B = Vec<u8>> {
    /// Kind 1: a `SegmentsRegistrationRequest`.
    Register(B),
    /// Kind 2: a `SegmentsRequest`.
    Lookup(B),
    /// Kind 3: a purge of the rows that expire at this moment or before, in half seconds since
    /// 1970; eight bytes, big-endian.
    Purge(u64),
    /// Kind 4: the removal of a segment by its type, a byte that the service checks, and its id.
    Remove(u8, [u8; 32]),
    /// Kind 5: a page of the segments of a type between two sides.
    List(ListRequest),
}
