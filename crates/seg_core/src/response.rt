//! Responses: maps from types to segments.

ghost use Rattle.std.specs.Prelude.{◌≡◌, ℕ, ◌+◌, ◌++◌, List, length, IfOk, IsOk, OnOk};
ghost use Rattle.pw_wire.specs.Field.{bytes_field_encoding};
ghost use Rattle.seg_core.specs.declared.seg_type.SegType.{SegType};
ghost use Rattle.seg_core.specs.SegmentView.{SegmentView};
ghost use Rattle.seg_core.specs.TypeLens.{AreTypeLens};
ghost use Rattle.seg_core.specs.Encoding.{segments_encoding, of_type, map_entry_encoding, response_encoding, referred_rows};

use crate::lengths::head_len;
use crate::putting::put_head;
use crate::seg_type::SegType;
use crate::segment::Segment;
use crate::writing::{encoded_len, put_segment};
use pw_wire::put_varint_field;
use std::alloc::{AllocError, Global};

/// The room that is reserved for the last bytes of a response, beyond their length: two varints of
/// ten bytes.
pub(crate) const SLACK: usize = 20;
/// The length of the key of a map entry: a tag, and a type of one byte.
const KEY_LEN: usize = 2;

/// A sum of lengths. An error means that the sum has more than 64 bits.
pub(crate) fn sum(a: usize, b: usize) -> Result<usize, AllocError>
    ensures { IfOk result (λ n. n ≡ a + b) }
{
    a.checked_add(b).ok_or(AllocError)
}

/// How many bytes the segments of each type have, each with its tag and its length prefix.
#[derive(Clone, Copy)]
struct TypeLens {
    up: usize,
    down: usize,
    core: usize,
}

/// The lengths of the segments of each type, by one pass.
fn type_lens(segments: &[(SegType, &Segment)]) -> Result<TypeLens, AllocError>
    ensures { IfOk result (AreTypeLens (referred_rows segments.now)) }
{
    let mut lens = TypeLens {
        up: 0,
        down: 0,
        core: 0,
    };
    for (kind, segment) in segments {
        let bytes = encoded_len(segment);
        let len = head_len(bytes) + bytes;
        match kind {
            SegType::Up => lens.up = sum(lens.up, len)?,
            SegType::Down => lens.down = sum(lens.down, len)?,
            SegType::Core => lens.core = sum(lens.core, len)?,
        }
    }
    Ok(lens)
}

/// Appends the segments of a type, each with its tag and its length prefix.
fn put_segments(
    out: &mut Vec<u8>,
    segments: &[(SegType, &Segment)],
    kind: SegType,
) -> Result<(), AllocError>
    ensures { OnOk result (out.new.items ≡ out.old.items ++ segments_encoding (of_type kind (referred_rows segments.now))) }
{
    for (of, segment) in segments {
        if *of == kind {
            put_head(out, 1, encoded_len(segment))?;
            put_segment(segment, out)?;
        }
    }
    Ok(())
}

/// The length of a map entry's key and value, given the length of the value.
pub(crate) fn content_len(value: usize) -> Result<usize, AllocError>
    ensures { (bytes : List ℕ) → length bytes ≡ value → IfOk result (λ n. n ≡ 2 + length (bytes_field_encoding 2 bytes)) }
{
    sum(KEY_LEN + head_len(value), value)
}

/// The length of the map entry of a type, given the length of its segments: 0 where there are none.
fn map_entry_len(value: usize) -> Result<usize, AllocError>
    ensures { (kind : SegType) (segments : List SegmentView) → value ≡ length (segments_encoding segments)
        → IfOk result (λ len. len ≡ length (map_entry_encoding kind segments)) }
{
    if value == 0 {
        return Ok(0);
    }
    let content = content_len(value)?;
    sum(head_len(content), content)
}

/// Appends the map entry of a type, given the length of its segments: nothing where there are none.
fn put_type(
    out: &mut Vec<u8>,
    segments: &[(SegType, &Segment)],
    kind: SegType,
    value: usize,
) -> Result<(), AllocError>
    requires { value ≡ length (segments_encoding (of_type kind (referred_rows segments.now))) }
    ensures { OnOk result (out.new.items ≡ out.old.items ++ map_entry_encoding kind (of_type kind (referred_rows segments.now))) }
{
    if value == 0 {
        return Ok(());
    }
    put_head(out, 1, content_len(value)?)?;
    put_varint_field(out, 1, kind.number())?;
    put_head(out, 2, value)?;
    put_segments(out, segments, kind)
}

/// The length of a response in bytes, given the lengths of its segments.
#[tactic(auto, unfolding(crate::specs::Encoding::response_encoding))]
fn response_len(lens: &TypeLens) -> Result<usize, AllocError>
    ensures { (rows : List (SegType × SegmentView)) → AreTypeLens rows lens.now → IfOk result (λ len. len ≡ length (response_encoding rows)) }
{
    let up = map_entry_len(lens.up)?;
    let down = map_entry_len(lens.down)?;
    let core = map_entry_len(lens.core)?;
    sum(up, sum(down, core)?)
}

/// The bytes of a `SegmentsResponse` of segments that the caller keeps elsewhere, the same bytes as
/// of [`write_response`].
#[tactic(auto, unfolding(crate::specs::Encoding::response_encoding))]
pub fn write_response_of(
    alloc: Global,
    segments: &[(SegType, &Segment)],
) -> Result<Vec<u8>, AllocError>
    ensures exact { IfOk result (λ v. v.items ≡ response_encoding (referred_rows segments.now)) }
    ensures nothing { length segments.now ≡ 0 → IsOk result }
{
    if segments.is_empty() {
        return Ok(Vec::new(alloc));
    }
    let lens = type_lens(segments)?;
    let mut out = Vec::with_capacity(alloc, sum(response_len(&lens)?, SLACK)?)?;
    put_type(&mut out, segments, SegType::Up, lens.up)?;
    put_type(&mut out, segments, SegType::Down, lens.down)?;
    put_type(&mut out, segments, SegType::Core, lens.core)?;
    Ok(out)
}

/// The bytes of a `SegmentsResponse`: for each type that has segments, these segments in their
/// order. An error means that memory was refused. A response without segments takes no memory.
#[tactic(auto, unfolding(crate::specs::Encoding::response_encoding))]
pub fn write_response(alloc: Global, segments: &[(SegType, Segment)]) -> Result<Vec<u8>, AllocError>
    ensures exact { IfOk result (λ v. v.items ≡ response_encoding segments.now) }
    ensures nothing { length segments.now ≡ 0 → IsOk result }
{
    if segments.is_empty() {
        return write_response_of(alloc, &[]);
    }
    let mut referred = Vec::with_capacity(alloc, segments.len())?;
    for (kind, segment) in segments {
        referred.push((*kind, segment))?;
    }
    write_response_of(alloc, &referred)
}
