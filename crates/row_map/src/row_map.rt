//! The rows of a database by their keys.

ghost use Rattle.std.specs.Prelude.{◌≡◌, ◌+◌, ◌*◌, ◌<◌, ◌≤◌, ◌^◌, [], ◌∷◌, ◌++◌, true, not, IfOk, OnOk, OnErr, None, filter, length, count_by};
ghost use Rattle.std.specs.Option.{ForSome, option_map};
ghost use Rattle.row_map.specs.declared.end.By.{By};
ghost use Rattle.row_map.specs.Database.{IsRising, key, key_of, row_under, row_len, rows_len};
ghost use Rattle.row_map.specs.Drops.{database_after_purge, database_after_removal};
ghost use Rattle.row_map.specs.Ranges.{is_of_type, is_after};
ghost use Rattle.row_map.specs.EndKeys.{index_number, IsAlike, HasRow};
ghost use Rattle.row_map.specs.Put.{database_after_put, change_of};
ghost use Rattle.row_map.specs.Row.{row_view, row_views};
ghost use Rattle.row_map.specs.RowMap.{AreUnderTheirKeys, HasRowPut, NoneExpiresBefore, bytes_of, views_of, len_if_any, indexed_key};
ghost use Rattle.row_map.specs.Buckets.{bucket_count};
ghost use Rattle.row_map.specs.Purge.{is_below, HasPassedBuckets, AllOutlast};

use crate::bucket_walk::BucketWalk;
use crate::change::Change;
use crate::end_keys::keeps_keys;
use crate::expiry_bounds::ExpiryBounds;
use crate::format::type_byte;
use crate::index_row::IndexRow;
use crate::purge_walk::PurgeWalk;
use crate::row::Row;
use crate::row_key::RowKey;
use crate::row_list::Rows;
use crate::row_range::RowRange;
use crate::type_counts::TypeCounts;
use seg_check::expiry;
use seg_core::SegType;
use std::alloc::{AllocError, Global};
use std::collections::BTreeMap;
use std::marker::Model;
use std::mem::replace;
use std::ops::Bound;

/// Rows, each under its key, in the order of the keys.
#[derive(Drop)]
pub struct RowMap {
    rows: BTreeMap<RowKey, Row>,
    counts: TypeCounts,
    /// Lower bounds of the moments at which the rows expire.
    bounds: ExpiryBounds,
}

impl Model for RowMap {
    ghost use Rattle.std.specs.Prelude.{List};
    ghost use Rattle.row_map.specs.Database.{RowView};
    ghost use Rattle.row_map.specs.RowMap.{views_of, IsRowMap};

    ghost Value = { List RowView };

    ghost view = { λ s. views_of s.rows.entries };

    ghost invariant = { λ s. IsRowMap s.rows.entries s.counts s.bounds };
}

impl RowMap {
    /// A map without rows.
    pub fn new(alloc: Global) -> RowMap
        ensures { result ≡ [] }
    {
        RowMap {
            rows: BTreeMap::new(alloc),
            counts: TypeCounts::new(),
            bounds: ExpiryBounds::new(alloc),
        }
    }

    /// The number of rows.
    pub fn len(&self) -> usize
        ensures same { result ≡ length self.now }
        ensures few { result < 2 ^ 63 }
        ensures bytes { rows_len self.now ≤ 16389 * result }
        ensures rising { IsRising self.now }
    {
        self.rows.len()
    }

    /// The number of rows of a type. No row is visited.
    pub fn len_of(&self, kind: SegType) -> usize
        ensures { result ≡ count_by (is_of_type kind) self.now }
    {
        self.counts.of(kind)
    }

    /// All rows, in the order of their keys.
    pub fn rows(&self) -> Rows<'_>
        ensures { result ≡ self.now }
    {
        Rows::of(self.rows.values())
    }

    /// The rows of a type, in the order of their keys. No others are visited.
    pub fn of_type(&self, kind: SegType) -> RowRange<'_>
        ensures { result ≡ filter (is_of_type kind) self.now }
    {
        let number = type_byte(kind);
        let low = RowKey {
            kind: number,
            id: [0; 32],
        };
        let high = RowKey {
            kind: number + 1,
            id: [0; 32],
        };
        RowRange::of(self.rows.range(low..high))
    }

    /// The rows of a type whose ids are above this one, in the order of their keys. No others are
    /// visited.
    pub fn of_type_after(&self, kind: SegType, id: &[u8; 32]) -> RowRange<'_>
        ensures { result ≡ filter (is_of_type kind) (filter (is_after kind id.now) self.now) }
    {
        let number = type_byte(kind);
        let low = RowKey {
            kind: number,
            id: *id,
        };
        let high = RowKey {
            kind: number + 1,
            id: [0; 32],
        };
        RowRange::of(
            self.rows
                .range((Bound::Excluded(low), Bound::Excluded(high))),
        )
    }

    /// The rows whose keys are not lower than this one, in the order of their keys. No others are
    /// visited.
    pub(crate) fn from(&self, key: RowKey) -> RowRange<'_>
        ensures same { result ≡ filter (λ row. not (is_below key row)) self.now }
        ensures rising { IsRising self.now }
    {
        RowRange::of(self.rows.range(key..))
    }

    /// An equal map, which shares the segments. A copy of no rows takes no memory.
    pub fn try_clone(&self, alloc: Global) -> Result<RowMap, AllocError>
        ensures same { IfOk result (λ copy. copy ≡ self.now) }
        ensures memory { OnErr result (0 < length self.now) }
    {
        if self.rows.is_empty() {
            return Ok(RowMap::new(alloc));
        }
        Ok(RowMap {
            rows: self.rows.clone()?,
            counts: self.counts,
            bounds: self.bounds.copy(alloc),
        })
    }

    /// The row under the key of an index row. `None` for a bound.
    pub(crate) fn at(&self, index_row: &IndexRow) -> Option<&Row>
        ensures { HasRow index_row.now → option_map (λ row. row_view row.now) result ≡ row_under (indexed_key index_row.now) self.now }
    {
        match index_row.row() {
            Some((kind, segment)) => self.get(kind, segment.digest()),
            None => None,
        }
    }

    /// The row of a type and an id.
    pub fn get(&self, kind: SegType, id: &[u8; 32]) -> Option<&Row>
        ensures same { option_map (λ row. row_view row.now) result ≡ row_under (key kind id.now) self.now }
        ensures rising { IsRising self.now }
    {
        let key = row_key(kind, id);
        self.rows.get(&key)
    }

    /// Puts a row under its key, and returns the row that was there. Replacing a row takes no
    /// memory.
    pub fn set(&mut self, row: Row) -> Result<Option<Row>, AllocError>
        ensures ok { IfOk result (λ old. HasRowPut self.old (row_view row) self.new) }
        ensures old { IfOk result (λ old. option_map row_view old ≡ row_under (key_of (row_view row)) self.old) }
        ensures bytes { IfOk result (λ old. rows_len self.new + len_if_any (option_map row_view old) ≡ rows_len self.old + row_len (row_view row)) }
        ensures err { OnErr result (self.new ≡ self.old) }
        ensures absent { OnErr result (row_under (key_of (row_view row)) self.old ≡ None) }
        ensures rising { IsRising self.new }
    {
        let key = key_of_row(&row);
        let kind = row.kind;
        let expires = expiry(&row.segment);
        let old = self.rows.insert(key, row)?;
        let is_new = old.is_none();
        let _count = self.rows.len();
        self.counts.add(kind, is_new);
        self.bounds.lower(&key, expires);
        self.bounds.split_for(&self.rows, is_new);
        Ok(old)
    }

    /// Replaces an older row under the same key and with the same ends, or keeps one that is as
    /// new, and returns which of both was done. This takes no memory. `None` means that there is no
    /// such row and nothing changed. `bytes` counts the bytes of all rows.
    pub fn renew(&mut self, bytes: &mut u128, row: Row) -> Option<Change>
        requires { bytes.old ≡ rows_len self.old }
        ensures rows { ForSome result (λ _. self.new ≡ database_after_put self.old (row_view row)) }
        ensures change { ForSome result (λ change. change ≡ change_of self.old (row_view row)) }
        ensures alike { ForSome result (λ _. (by : By) → IsAlike (index_number by) (row_view row) (row_under (key_of (row_view row)) self.old)) }
        ensures bytes { bytes.new ≡ rows_len self.new }
        ensures more { bytes.new ≤ bytes.old + row_len (row_view row) }
        ensures none { result ≡ None → self.new ≡ self.old }
        ensures absent { result ≡ None → ¬ ((by : By) → IsAlike (index_number by) (row_view row) (row_under (key_of (row_view row)) self.old)) }
    {
        let _count = self.len();
        let key = key_of_row(&row);
        let old = self.rows.get_mut(&key)?;
        if !keeps_keys(&row, old) {
            return None;
        }
        if old.segment.timestamp() >= row.segment.timestamp() {
            return Some(Change::Kept);
        }
        self.bounds.lower(&key, expiry(&row.segment));
        *bytes += u128::from(row.len());
        let old = replace(old, row);
        *bytes -= u128::from(old.len());
        Some(Change::Updated)
    }

    /// Removes the row of a type and an id, and returns it. This takes no memory.
    pub fn remove(&mut self, kind: SegType, id: &[u8; 32]) -> Option<Row>
        ensures left { self.new ≡ database_after_removal self.old (key kind id.now) }
        ensures old { option_map row_view result ≡ row_under (key kind id.now) self.old }
        ensures bytes { rows_len self.new + len_if_any (option_map row_view result) ≡ rows_len self.old }
        ensures was_rising { IsRising self.old }
        ensures rising { IsRising self.new }
    {
        let key = row_key(kind, id);
        let old = self.rows.remove(&key);
        self.counts.subtract(kind, old.is_some());
        old
    }

    /// Whether every row is known to expire after a moment, in half seconds since 1970. No row is
    /// visited.
    pub fn outlasts(&self, moment: u64) -> bool
        ensures { result ≡ true → database_after_purge self.now moment ≡ self.now }
    {
        moment < self.bounds.least
    }

    /// Keeps a lower bound of the moments at which the rows expire, in half seconds since 1970.
    pub fn keep_least_expiry(&mut self, least: u64)
        requires { NoneExpiresBefore least self.old }
        ensures { self.new ≡ self.old }
    {
        self.bounds.keep_least(least);
    }

    /// Keeps what a walk has found of the rows of its buckets.
    pub fn keep_found(&mut self, walk: &PurgeWalk)
        requires { AllOutlast walk.now self.old }
        ensures { self.new ≡ self.old }
    {
        self.bounds.keep(walk.low, walk.high, walk.least);
    }

    /// Passes the buckets whose rows are known to expire after the walk's moment, and visits no
    /// row. Returns the end of the next buckets, whose rows the caller visits: the first bucket
    /// that is none of them.
    pub fn pass_lasting(&self, walk: &mut BucketWalk) -> usize
        requires passed { HasPassedBuckets walk.old self.now }
        requires within { walk.old.bucket ≤ bucket_count }
        ensures passed { HasPassedBuckets walk.new self.now }
        ensures moment { walk.new.moment ≡ walk.old.moment }
        ensures onwards { walk.old.bucket ≤ walk.new.bucket }
        ensures within { walk.new.bucket ≤ bucket_count }
        ensures end { walk.new.bucket < bucket_count → walk.new.bucket < result }
        ensures end_within { result ≤ bucket_count }
    {
        self.bounds.pass_lasting(walk)
    }
}

/// The key of a row.
#[tactic(auto, unfolding(crate::specs::Database::key_of))]
pub(crate) fn key_of_row(row: &Row) -> RowKey
    ensures { bytes_of result ≡ key_of (row_view row.now) }
{
    row_key(row.kind, row.id())
}

/// The map of rows, whose keys rise, and how many bytes their records have. Each node of its tree
/// is full but for the last ones.
pub fn map_of(alloc: Global, rows: Vec<Row>) -> Result<(RowMap, u128), AllocError>
    requires { IsRising (row_views rows.items) }
    ensures rows { IfOk result (λ made. made.0 ≡ row_views rows.items) }
    ensures bytes { IfOk result (λ made. made.1 ≡ rows_len (row_views rows.items)) }
{
    let mut counts = TypeCounts::new();
    let mut bounds = ExpiryBounds::for_rows(alloc, rows.len());
    let mut bytes = 0;
    let mut entries = Vec::with_capacity(alloc, rows.len())?;
    for row in rows {
        let _count = entries.len();
        let key = key_of_row(&row);
        counts.add(row.kind, true);
        bounds.lower(&key, expiry(&row.segment));
        bytes += u128::from(row.len());
        entries.push((key, row))?;
    }
    let rows = tree_of(alloc, entries)?;
    Ok((
        RowMap {
            rows,
            counts,
            bounds,
        },
        bytes,
    ))
}

/// The tree of rows by their keys, which rise.
fn tree_of(alloc: Global, entries: Vec<(RowKey, Row)>) -> Result<BTreeMap<RowKey, Row>, AllocError>
    requires own { AreUnderTheirKeys entries.items }
    requires rising { IsRising (views_of entries.items) }
    ensures own { IfOk result (λ tree. AreUnderTheirKeys tree.entries) }
    ensures same { IfOk result (λ tree. views_of tree.entries ≡ views_of entries.items) }
{
    BTreeMap::from_iter(alloc, entries)
}

/// The key of a type and an id.
pub(crate) fn row_key(kind: SegType, id: &[u8; 32]) -> RowKey
    ensures { bytes_of result ≡ key kind id.now }
{
    RowKey {
        kind: type_byte(kind),
        id: *id,
    }
}
