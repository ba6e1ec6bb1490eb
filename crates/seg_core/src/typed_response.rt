//! Responses of segments of one type.

ghost use Rattle.std.specs.Prelude.{◌≡◌, ◌++◌, length, IfOk, IsOk, OnOk};
ghost use Rattle.seg_core.specs.Registration.{typed_segments};
ghost use Rattle.seg_core.specs.Encoding.{segments_encoding, response_encoding};

use crate::lengths::head_len;
use crate::putting::put_head;
use crate::response::{SLACK, content_len, sum};
use crate::seg_type::SegType;
use crate::segment::Segment;
use crate::writing::{encoded_len, put_segment};
use pw_wire::put_varint_field;
use std::alloc::{AllocError, Global};

/// How many bytes the segments have, each with its tag and its length prefix.
fn segments_len(segments: &[Segment]) -> Result<usize, AllocError>
    ensures { IfOk result (λ n. n ≡ length (segments_encoding segments.now)) }
{
    let mut len = 0;
    for segment in segments {
        let bytes = encoded_len(segment);
        len = sum(len, head_len(bytes) + bytes)?;
    }
    Ok(len)
}

/// Appends the segments, each with its tag and its length prefix.
fn put_all(out: &mut Vec<u8>, segments: &[Segment]) -> Result<(), AllocError>
    ensures { OnOk result (out.new.items ≡ out.old.items ++ segments_encoding segments.now) }
{
    for segment in segments {
        put_head(out, 1, encoded_len(segment))?;
        put_segment(segment, out)?;
    }
    Ok(())
}

/// The bytes of a `SegmentsResponse` of segments of one type: the same bytes as of
/// [`write_response`]. An error means that memory was refused. A response without segments takes no
/// memory.
///
/// [`write_response`]: crate::write_response
pub fn write_response_of_type(
    alloc: Global,
    kind: SegType,
    segments: &[Segment],
) -> Result<Vec<u8>, AllocError>
    ensures exact { IfOk result (λ v. v.items ≡ response_encoding (typed_segments kind segments.now)) }
    ensures nothing { length segments.now ≡ 0 → IsOk result }
{
    if segments.is_empty() {
        return Ok(Vec::new(alloc));
    }
    let value = segments_len(segments)?;
    let content = content_len(value)?;
    let len = sum(head_len(content), content)?;
    let mut out = Vec::with_capacity(alloc, sum(len, SLACK)?)?;
    put_head(&mut out, 1, content)?;
    put_varint_field(&mut out, 1, kind.number())?;
    put_head(&mut out, 2, value)?;
    put_all(&mut out, segments)?;
    Ok(out)
}
