//! Putting an entry after other bytes, in its one encoding. Each call returns the ranges of the
//! pieces that it puts.

ghost use Rattle.std.specs.Prelude.{◌≡◌, ◌+◌, ◌<◌, ◌≤◌, ◌++◌, length, IfOk, OnOk};
ghost use Rattle.std.specs.Option.{option_map, ForSome};
ghost use Rattle.pw_wire.specs.Field.{bytes_field_encoding};
ghost use Rattle.seg_core.specs.declared.format.TheConstants.{MOST_SEGMENT_BYTES};
ghost use Rattle.seg_core.specs.Pieces.{IsSpanWithin, AreWithin, piece_at, pieces_at};
ghost use Rattle.seg_core.specs.EntryView.{borrowed_pieces, borrowed_view};
ghost use Rattle.seg_core.specs.Encoding.{field_head_encoding, bytes_encoding, optional_encoding, pieces_encoding, as_entry_encoding};

use crate::entry::BorrowedEntry;
use crate::format::MOST_SEGMENT_BYTES;
use crate::lengths::{entry_len, signed_len};
use crate::pieces::{Span, Spans};
use pw_wire::put_varint;
use std::alloc::AllocError;

/// Numbers below this limit take one byte as a varint.
const ONE_BYTE: usize = 128;

/// Appends the tag and the length of a field of bytes.
#[tactic(auto, unfolding(crate::specs::Encoding::field_head_encoding))]
pub(crate) fn put_head(out: &mut Vec<u8>, number: u32, len: usize) -> Result<(), AllocError>
    requires { number < 15 }
    ensures { OnOk result (out.new.items ≡ out.old.items ++ field_head_encoding number len) }
{
    if len < ONE_BYTE {
        return out.extend_from_slice(&[number as u8 * 8 + 2, len as u8]);
    }
    put_varint(out, u64::from(number) * 8 + 2)?;
    put_varint(out, len as u64)
}

/// Appends a piece.
fn put_piece(out: &mut Vec<u8>, bytes: &[u8]) -> Result<Span, AllocError>
    requires { length out.old.items + length bytes.now ≤ MOST_SEGMENT_BYTES }
    ensures put { IfOk result (λ _. out.new.items ≡ out.old.items ++ bytes.now) }
    ensures within { IfOk result (λ span. IsSpanWithin out.new.items span) }
    ensures there { IfOk result (λ span. piece_at out.new.items span ≡ bytes.now) }
{
    let start = out.len() as u16;
    out.extend_from_slice(bytes)?;
    Ok(Span {
        start,
        end: out.len() as u16,
    })
}

/// Appends a piece as a field.
fn put_field(out: &mut Vec<u8>, number: u32, bytes: &[u8]) -> Result<Span, AllocError>
    requires number { number < 15 }
    requires short { length out.old.items + length (bytes_field_encoding number bytes.now) ≤ MOST_SEGMENT_BYTES }
    ensures put { IfOk result (λ _. out.new.items ≡ out.old.items ++ bytes_field_encoding number bytes.now) }
    ensures within { IfOk result (λ span. IsSpanWithin out.new.items span) }
    ensures there { IfOk result (λ span. piece_at out.new.items span ≡ bytes.now) }
{
    put_head(out, number, bytes.len())?;
    put_piece(out, bytes)
}

/// Appends a piece as a field. An empty piece is left out.
pub(crate) fn put_bytes(out: &mut Vec<u8>, number: u32, bytes: &[u8]) -> Result<Span, AllocError>
    requires number { number < 15 }
    requires short { length out.old.items + length (bytes_encoding number bytes.now) ≤ MOST_SEGMENT_BYTES }
    ensures put { IfOk result (λ _. out.new.items ≡ out.old.items ++ bytes_encoding number bytes.now) }
    ensures within { IfOk result (λ span. IsSpanWithin out.new.items span) }
    ensures there { IfOk result (λ span. piece_at out.new.items span ≡ bytes.now) }
{
    if bytes.is_empty() {
        return put_piece(out, bytes);
    }
    put_field(out, number, bytes)
}

/// Appends what is not signed as a field, where the entry has it.
fn put_unsigned(out: &mut Vec<u8>, bytes: Option<&[u8]>) -> Result<Option<Span>, AllocError>
    requires { length out.old.items + length (optional_encoding 2 (option_map (λ s. s.now) bytes)) ≤ MOST_SEGMENT_BYTES }
    ensures put { IfOk result (λ _. out.new.items ≡ out.old.items ++ optional_encoding 2 (option_map (λ s. s.now) bytes.entry)) }
    ensures within { IfOk result (λ span. ForSome span (λ s. IsSpanWithin out.new.items s)) }
    ensures there { IfOk result (λ span. option_map (λ s. piece_at out.new.items s) span ≡ option_map (λ s. s.now) bytes.entry) }
{
    match bytes {
        None => Ok(None),
        Some(bytes) => Ok(Some(put_field(out, 2, bytes)?)),
    }
}

/// Appends the pieces of an entry, after the tag and the length of its signed message: the signed
/// message, and what is not signed.
fn put_pieces(out: &mut Vec<u8>, entry: &BorrowedEntry<'_>) -> Result<Spans, AllocError>
    requires { length out.old.items + length (pieces_encoding (borrowed_view entry.now)) ≤ MOST_SEGMENT_BYTES }
    ensures put { IfOk result (λ _. out.new.items ≡ out.old.items ++ pieces_encoding (borrowed_view entry.now)) }
    ensures within { IfOk result (λ spans. AreWithin out.new.items spans) }
    ensures there { IfOk result (λ spans. pieces_at out.new.items spans ≡ borrowed_pieces entry.now) }
{
    let signed = put_bytes(out, 1, entry.signed)?;
    let signature = put_bytes(out, 2, entry.signature)?;
    let unsigned = put_unsigned(out, entry.unsigned)?;
    Ok(Spans {
        signed,
        signature,
        unsigned,
    })
}

/// Appends an entry as a field of its segment.
pub(crate) fn put_entry(out: &mut Vec<u8>, entry: &BorrowedEntry<'_>) -> Result<Spans, AllocError>
    requires { length out.old.items + length (bytes_field_encoding 2 (as_entry_encoding (borrowed_view entry.now))) ≤ MOST_SEGMENT_BYTES }
    ensures put { IfOk result (λ _. out.new.items ≡ out.old.items ++ bytes_field_encoding 2 (as_entry_encoding (borrowed_view entry.now))) }
    ensures within { IfOk result (λ spans. AreWithin out.new.items spans) }
    ensures there { IfOk result (λ spans. pieces_at out.new.items spans ≡ borrowed_pieces entry.now) }
{
    let signed = signed_len(entry);
    put_head(out, 2, entry_len(entry, signed))?;
    put_head(out, 1, signed)?;
    put_pieces(out, entry)
}
