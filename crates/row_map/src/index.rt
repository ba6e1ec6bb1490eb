//! The index: a set of rows by their index keys, in the order of these.

ghost use Rattle.std.specs.Prelude.{◌≡◌, ◌+◌, ◌^◌, ◌<◌, ◌≤◌, ◌⊎◌, [], ◌&&◌, ◌||◌, true, false, not, Bool, Option, IfOk, IfSome, OnOk, OnErr, filter};
ghost use Rattle.std.specs.List.Sorted.{IsStrictlySortedBy};
ghost use Rattle.seg_core.specs.declared.seg_type.SegType.{SegType as SegTypeView};
ghost use Rattle.seg_core.specs.SegmentView.{SegmentView};
ghost use Rattle.seg_core.specs.Registration.{type_number};
ghost use Rattle.row_map.specs.IndexKey.{IndexKey, AreKnown, index_key_cmp, has, is_same, stands_at, stands_between, is_after_id};

use crate::index_row::IndexRow;
use seg_core::SegType;
use std::alloc::{AllocError, Global};
use std::collections::BTreeSet;
use std::collections::btree_set::Range;
use std::marker::Model;
use std::ops::Bound;

/// A set of rows by their index keys, in the order of these.
#[derive(Drop)]
pub struct EndIndex {
    index_rows: BTreeSet<IndexRow>,
}

impl Model for EndIndex {
    ghost use Rattle.std.specs.Prelude.{List};
    ghost use Rattle.row_map.specs.IndexKey.{IndexKey};

    ghost Value = { List IndexKey };

    ghost view = { λ s. s.index_rows.keys };
}

/// An iterator over index rows, in the order of their index keys.
pub type IndexKeys<'a> = Range<'a, IndexRow>;

impl EndIndex {
    /// An index without rows.
    pub fn new(alloc: Global) -> EndIndex
        ensures { result ≡ [] }
    {
        EndIndex {
            index_rows: BTreeSet::new(alloc),
        }
    }

    /// Adds a row. Where one is at its index key, no clause says which of the two the index has
    /// then. Where memory is refused, the index is unchanged.
    pub fn add(&mut self, index_row: IndexRow) -> Result<(), AllocError>
        ensures ok { OnOk result ((q : IndexKey) → has self.new q ≡ (is_same q index_row || has self.old q)) }
        ensures rows { OnOk result ((known : IndexKey → Bool) (row : IndexKey → Option (SegTypeView × SegmentView))
            → AreKnown known row self.old → (known index_row ≡ true) ⊎ (index_row.row ≡ row index_row) → AreKnown known row self.new) }
        ensures err { OnErr result (self.new ≡ self.old) }
    {
        self.index_rows.insert(index_row)?;
        Ok(())
    }

    /// Replaces the row at an index key by this one. The call takes no memory. Where no row is at
    /// its index key, the index is unchanged, or has the row.
    pub fn renew(&mut self, index_row: IndexRow)
        ensures kept { has self.old index_row ≡ true → (q : IndexKey) → has self.new q ≡ has self.old q }
        ensures rows { has self.old index_row ≡ true → (known : IndexKey → Bool) (row : IndexKey → Option (SegTypeView × SegmentView))
            → AreKnown known row self.old → index_row.row ≡ row index_row → AreKnown (λ q. known q && not (is_same q index_row)) row self.new }
        ensures other { has self.old index_row ≡ false → (self.new ≡ self.old) ⊎ ((q : IndexKey) → has self.new q ≡ (is_same q index_row || has self.old q)) }
        ensures known { (known : IndexKey → Bool) (row : IndexKey → Option (SegTypeView × SegmentView))
            → AreKnown known row self.old → (known index_row ≡ true) ⊎ (index_row.row ≡ row index_row) → AreKnown known row self.new }
    {
        let _count = self.index_rows.len();
        let _replaced = self.index_rows.replace(index_row);
    }

    /// Removes the row at an index key, where there is one. The call takes no memory.
    pub fn remove(&mut self, index_row: &IndexRow)
        ensures gone { (q : IndexKey) → has self.new q ≡ (not (is_same q index_row.now) && has self.old q) }
        ensures rows { (known : IndexKey → Bool) (row : IndexKey → Option (SegTypeView × SegmentView))
            → AreKnown known row self.old → AreKnown (λ q. known q && not (is_same q index_row.now)) row self.new }
    {
        let _count = self.index_rows.len();
        self.index_rows.remove(index_row);
    }

    /// An equal index, which shares the segments. An error means that memory was refused.
    pub fn try_clone(&self) -> Result<EndIndex, AllocError>
        ensures { IfOk result (λ copy. copy ≡ self.now) }
    {
        Ok(EndIndex {
            index_rows: self.index_rows.clone()?,
        })
    }

    /// The rows of a type and an ISD-AS, by rising id. No others are visited.
    pub fn keys_at(&self, kind: SegType, isd_as: u64) -> IndexKeys<'_>
        requires { isd_as + 1 < 2 ^ 64 }
        ensures same { result ≡ filter (stands_at (type_number kind) isd_as) self.now }
        ensures rising { IsStrictlySortedBy index_key_cmp self.now }
    {
        let low = IndexRow::below(kind, isd_as);
        let high = IndexRow::below(kind, isd_as + 1);
        self.index_rows.range(low..high)
    }

    /// The rows of a type and an ISD-AS whose ids are above this one, by rising id. No others are
    /// visited. `None` means that memory was refused for a copy of the id: no clause says when that
    /// is, and the caller can use `keys_at`.
    pub fn keys_after(
        &self,
        alloc: Global,
        kind: SegType,
        isd_as: u64,
        id: &[u8; 32],
    ) -> Option<IndexKeys<'_>>
        requires { isd_as + 1 < 2 ^ 64 }
        ensures same { IfSome result (λ keys. keys ≡ filter (λ q. stands_at (type_number kind) isd_as q && is_after_id id.now q) self.now) }
        ensures rising { IsStrictlySortedBy index_key_cmp self.now }
    {
        let _count = self.index_rows.len();
        let Ok(low) = IndexRow::after(alloc, kind, isd_as, id) else {
            return None;
        };
        let high = IndexRow::below(kind, isd_as + 1);
        Some(
            self.index_rows
                .range((Bound::Excluded(low), Bound::Excluded(high))),
        )
    }

    /// The rows of a type whose ISD-AS is at least `low` and below `high`, by rising ISD-AS and
    /// then by rising id. No others are visited.
    pub fn keys_between(&self, kind: SegType, low: u64, high: u64) -> IndexKeys<'_>
        requires { low ≤ high }
        ensures same { result ≡ filter (stands_between (type_number kind) low high) self.now }
        ensures rising { IsStrictlySortedBy index_key_cmp self.now }
    {
        let first = IndexRow::below(kind, low);
        let behind = IndexRow::below(kind, high);
        self.index_rows.range(first..behind)
    }
}
