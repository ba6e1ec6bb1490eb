//! The lengths of encodings, so that a message can be written after its length.

ghost use Rattle.std.specs.Prelude.{◌≡◌, ℕ, ◌+◌, ◌<◌, ◌≤◌, List, length};
ghost use Rattle.pw_wire.specs.Varint.{varint_encoding};
ghost use Rattle.pw_wire.specs.Field.{bytes_field_encoding};
ghost use Rattle.seg_core.specs.declared.format.TheConstants.{MOST_SEGMENT_BYTES};
ghost use Rattle.seg_core.specs.EntryView.{borrowed_view};
ghost use Rattle.seg_core.specs.Encoding.{bytes_encoding, optional_encoding, signed_encoding, as_entry_encoding};

use crate::entry::BorrowedEntry;

/// The length of a number's shortest varint, in bytes.
fn varint_len(n: u64) -> usize
    ensures { result ≡ length (varint_encoding n) }
{
    let mut len = 1;
    let mut rest = n;
    while rest >= 128 {
        rest /= 128;
        len += 1;
    }
    len
}

/// The length of the tag and the length prefix of a field whose tag takes one byte.
pub(crate) fn head_len(len: usize) -> usize
    ensures exact { (k : ℕ) (bytes : List ℕ) → k < 15 → length bytes ≡ len → result + len ≡ length (bytes_field_encoding k bytes) }
    ensures most { result ≤ 11 }
{
    1 + varint_len(len as u64)
}

/// The length of a field of bytes, which is left out where the bytes are empty.
fn bytes_len(bytes: &[u8]) -> usize
    requires { length bytes.now ≤ MOST_SEGMENT_BYTES }
    ensures { (k : ℕ) → k < 15 → result ≡ length (bytes_encoding k bytes.now) }
{
    if bytes.is_empty() {
        return 0;
    }
    head_len(bytes.len()) + bytes.len()
}

/// The length of an entry's signed message.
pub(crate) fn signed_len(entry: &BorrowedEntry<'_>) -> usize
    requires { length (signed_encoding (borrowed_view entry.now)) ≤ MOST_SEGMENT_BYTES }
    ensures { result ≡ length (signed_encoding (borrowed_view entry.now)) }
{
    bytes_len(entry.signed) + bytes_len(entry.signature)
}

/// The length of the field with the extensions that are not signed, 0 where the entry has none.
fn unsigned_len(entry: &BorrowedEntry<'_>) -> usize
    requires { length (optional_encoding 2 (borrowed_view entry.now).unsigned) ≤ MOST_SEGMENT_BYTES }
    ensures { result ≡ length (optional_encoding 2 (borrowed_view entry.now).unsigned) }
{
    match entry.unsigned {
        None => 0,
        Some(unsigned) => head_len(unsigned.len()) + unsigned.len(),
    }
}

/// The length of an entry, given the length of its signed message.
pub(crate) fn entry_len(entry: &BorrowedEntry<'_>, signed: usize) -> usize
    requires signed { signed ≡ length (signed_encoding (borrowed_view entry.now)) }
    requires short { length (as_entry_encoding (borrowed_view entry.now)) ≤ MOST_SEGMENT_BYTES }
    ensures { result ≡ length (as_entry_encoding (borrowed_view entry.now)) }
{
    head_len(signed) + signed + unsigned_len(entry)
}
