//! A row of the database.

ghost use Rattle.std.specs.Prelude.{◌≡◌, ◌≤◌, length, IfOk};
ghost use Rattle.std.specs.Ordering.{nat_cmp};
ghost use Rattle.std.specs.Cmp.Lexicographic.{slice_cmp};
ghost use Rattle.seg_core.specs.Encoding.{segment_encoding};
ghost use Rattle.seg_core.specs.Digest.{segment_digest};
ghost use Rattle.row_map.specs.Database.{key, key_of, row_len};

use crate::format::ROW_HEAD;
use seg_core::{SegType, Segment, encoded_len};
use std::alloc::AllocError;
use std::cmp::Ordering;

/// A segment of the database with its type. Its id is in the segment.
#[derive(Drop)]
pub struct Row {
    pub kind: SegType,
    pub segment: Segment,
    pub ghost short: { length (segment_encoding segment) ≤ 16384 },
}

impl Row {
    ghost use Rattle.row_map.specs.Row.{row_view};

    /// The row of a segment.
    pub fn new(kind: SegType, segment: Segment) -> Row
        ensures { row_view result ≡ (kind, segment) }
    {
        let _short = encoded_len(&segment);
        Row { kind, segment }
    }

    /// The row's id: SHA-256 over the hops of its segment, 32 bytes.
    pub fn id(&self) -> &[u8; 32]
        ensures { result.now ≡ segment_digest (row_view self.now).1 }
    {
        self.segment.digest()
    }

    /// An equal row, which shares the segment. The call takes no memory. An error means that 2^63
    /// rows share the segment already.
    pub fn try_clone(&self) -> Result<Row, AllocError>
        ensures view { IfOk result (λ copy. row_view copy ≡ row_view self.now) }
        ensures same { IfOk result (λ copy. copy ≡ self.now) }
    {
        Ok(Row {
            kind: self.kind,
            segment: self.segment.try_clone()?,
        })
    }

    /// The order of the row's key and the key of a type and an id.
    #[tactic(auto, unfolding(crate::specs::Database::key_of))]
    pub fn cmp_key(&self, kind: SegType, id: &[u8; 32]) -> Ordering
        ensures { result ≡ slice_cmp nat_cmp (key_of (row_view self.now)) (key kind id.now) }
    {
        match self.kind.number().cmp(&kind.number()) {
            Ordering::Equal => self.id().as_slice().cmp(&id.as_slice()),
            unequal => unequal,
        }
    }

    /// The length of the row's record in bytes.
    pub fn len(&self) -> u64
        ensures same { result ≡ row_len (row_view self.now) }
        ensures short { result ≤ 16389 }
    {
        (ROW_HEAD + encoded_len(&self.segment)) as u64
    }
}

impl Clone for Row {
    ghost is_clone = { λ row copy. copy ≡ row };

    fn clone(&self) -> Result<Row, AllocError> {
        self.try_clone()
    }
}
