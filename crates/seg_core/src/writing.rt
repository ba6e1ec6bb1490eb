//! The one encoding of a segment, which the segment keeps.

ghost use Rattle.std.specs.Prelude.{◌≡◌, ◌↔◌, ◌+◌, ◌≤◌, ◌++◌, length, IfOk, IsOk, OnOk, OnErr, IsTrue};
ghost use Rattle.std.specs.Vec.{vec_len, vec_capacity};
ghost use Rattle.seg_core.specs.declared.format.TheConstants.{MOST_SEGMENT_BYTES};
ghost use Rattle.seg_core.specs.Encoding.{segment_encoding, IsSegment};

use crate::format::MOST_SEGMENT_BYTES;
use crate::segment::Segment;
use std::alloc::{AllocError, Global};

/// The length of a `PathSegment` in its one encoding, at most 16,384 bytes.
pub fn encoded_len(segment: &Segment) -> usize
    ensures exact { result ≡ length (segment_encoding segment.now) }
    ensures most { result ≤ MOST_SEGMENT_BYTES }
    ensures whole { IsSegment segment.now }
{
    segment.encoding().len()
}

/// Whether the bytes are the segment's one encoding. The call takes no memory.
pub fn is_encoding_of(bytes: &[u8], segment: &Segment) -> bool
    ensures exact { IsTrue result ↔ (bytes.now ≡ segment_encoding segment.now) }
    ensures whole { IsSegment segment.now }
{
    bytes == segment.encoding()
}

/// Appends the bytes of a `PathSegment`, in its one encoding. Where memory is refused, the vector
/// keeps its items. The call takes no memory where the vector has room.
pub fn put_segment(segment: &Segment, out: &mut Vec<u8>) -> Result<(), AllocError>
    ensures ok { OnOk result (out.new.items ≡ out.old.items ++ segment_encoding segment.now) }
    ensures err { OnErr result (out.new.items ≡ out.old.items) }
    ensures whole { IsSegment segment.now }
    ensures room { vec_len out.old + length (segment_encoding segment.now) ≤ vec_capacity out.old → IsOk result }
{
    out.extend_from_slice(segment.encoding())
}

/// The bytes of a `PathSegment`, in its one encoding, which `read_segment` reads as that segment
/// again. An error means that memory was refused.
pub fn write_segment(alloc: Global, segment: &Segment) -> Result<Vec<u8>, AllocError>
    ensures exact { IfOk result (λ v. v.items ≡ segment_encoding segment.now) }
    ensures whole { IsSegment segment.now }
{
    Vec::from_slice(alloc, segment.encoding())
}
