//! The keys of rows.

ghost use Rattle.std.specs.Prelude.{◌≡◌};
ghost use Rattle.std.specs.Ordering.{nat_cmp};
ghost use Rattle.std.specs.Cmp.Lexicographic.{slice_cmp};
ghost use Rattle.row_map.specs.Database.{key_of};
ghost use Rattle.row_map.specs.Row.{row_view};
ghost use Rattle.path_records.specs.Key.{key_bytes};

use row_map::Row;
use seg_check::seg_id;
use seg_core::{SegType, Segment};
use std::cmp::Ordering;

/// The key of a row: its type and its id. Keys are ordered by the types' numbers, and under one
/// type by the ids' bytes.
#[derive(Clone, Copy, Debug, PartialEq, Eq)]
pub struct Key {
    pub kind: SegType,
    /// SHA-256 over the hops of the segment, 32 bytes.
    pub id: [u8; 32],
}

impl Key {
    /// The key of a segment of a type. The call computes the id.
    #[tactic(auto, unfolding(row_map::specs::Database::key_of))]
    pub fn of(kind: SegType, segment: &Segment) -> Key
        ensures { key_bytes result ≡ key_of (kind, segment.now) }
    {
        Key {
            kind,
            id: seg_id(segment),
        }
    }

    /// The key of a row. The id is the row's.
    #[tactic(auto, unfolding(row_map::specs::Database::key_of))]
    pub fn of_row(row: &Row) -> Key
        ensures { key_bytes result ≡ key_of (row_view row.now) }
    {
        Key {
            kind: row.kind,
            id: *row.id(),
        }
    }

    /// The order of this key and another.
    pub fn order(&self, other: &Key) -> Ordering
        ensures { result ≡ slice_cmp nat_cmp (key_bytes self.now) (key_bytes other.now) }
    {
        match self.kind.number().cmp(&other.kind.number()) {
            Ordering::Equal => self.id.as_slice().cmp(&other.id.as_slice()),
            unequal => unequal,
        }
    }
}
