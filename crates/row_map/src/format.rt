//! The bytes that a row's record and its key begin with, and the most bytes of a record.

ghost use Rattle.std.specs.Prelude.{◌≡◌};
ghost use Rattle.seg_core.specs.Registration.{type_number};

use seg_core::{MOST_SEGMENT_BYTES, SegType};

/// The length of a row's record before its segment, in bytes: the type (1) and the length (4).
pub const ROW_HEAD: usize = 5;
/// The most bytes of a row's record.
pub const MOST_ROW_BYTES: usize = ROW_HEAD + MOST_SEGMENT_BYTES;

/// The number of a type as one byte: 1, 2 or 3.
pub fn type_byte(kind: SegType) -> u8
    ensures { result ≡ type_number kind }
{
    kind.number() as u8
}
