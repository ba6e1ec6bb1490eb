//! Lower bounds of the moments at which the rows of a map expire.

ghost use Rattle.std.specs.Prelude.{◌≡◌, ℕ, ◌<◌, ◌≤◌, ◌+◌, true, false};
ghost use Rattle.std.specs.List.{AllByRecursion};
ghost use Rattle.seg_check.specs.Expiry.{expiry_of};
ghost use Rattle.row_map.specs.Database.{RowView, key_of};
ghost use Rattle.row_map.specs.RowMap.{bytes_of, views_of};
ghost use Rattle.row_map.specs.Buckets.{bucket_count, first_key, is_among, IsBoundedBy};
ghost use Rattle.row_map.specs.Purge.{OutlastsBefore};

use crate::bucket_walk::BucketWalk;
use crate::row::Row;
use crate::row_key::RowKey;
use crate::row_list::Rows;
use crate::row_map::key_of_row;
use seg_check::expiry;
use std::alloc::Global;
use std::collections::BTreeMap;

/// The number of buckets. A bucket is a type and the first two bytes of an id, and buckets are in
/// the order of their keys.
pub const BUCKETS: usize = 196_608;
/// The number of values of the first two bytes of an id.
const BUCKETS_OF_TYPE: usize = 65_536;
/// A map of this number of rows and more has a bound for each bucket.
const ROWS_OF_BUCKETS: usize = 4096;

/// Lower bounds of the moments at which the rows of a map expire, in half seconds since 1970. A put
/// lowers them, a removal leaves them, and a purge makes those exact whose rows it visits.
#[derive(Drop)]
pub(crate) struct ExpiryBounds {
    /// No row expires before this moment. It is 2^64 - 1 in a new map.
    pub least: u64,
    /// No row of a bucket expires before the moment at the bucket's index. The list is empty while
    /// the map is small, and where memory for it was refused.
    pub by_bucket: Vec<u64>,
}

impl ExpiryBounds {
    /// The bounds of no rows. They take no memory.
    pub(crate) fn new(alloc: Global) -> ExpiryBounds {
        ExpiryBounds {
            least: u64::MAX,
            by_bucket: Vec::new(alloc),
        }
    }

    /// The bounds of no rows, for a map that this number of rows is put into. Where memory for a
    /// bound of each bucket is refused, there is one bound of all rows.
    pub(crate) fn for_rows(alloc: Global, rows: usize) -> ExpiryBounds {
        let mut bounds = ExpiryBounds::new(alloc);
        if bounds.is_to_be_split(rows) {
            bounds.split();
        }
        bounds
    }

    /// Whether there is no bound of each bucket, and a map of this number of rows has one.
    fn is_to_be_split(&self, rows: usize) -> bool {
        rows >= ROWS_OF_BUCKETS && self.by_bucket.is_empty()
    }

    /// Makes a bound for each bucket, that of no rows. Where memory is refused nothing changes, and
    /// the result is `false`.
    fn split(&mut self) -> bool
        ensures least { self.new.least ≡ self.old.least }
        ensures kept { result ≡ false → self.new.by_bucket.items ≡ self.old.by_bucket.items }
    {
        self.by_bucket.resize(BUCKETS, u64::MAX).is_ok()
    }

    /// Makes a bound for each bucket of these rows, if there are enough, where one of them is new
    /// and there are no such bounds. Where memory is refused nothing changes. No clause says that a
    /// bound is the greatest one: a lower one costs a purge time, and changes nothing that it
    /// drops.
    pub(crate) fn split_for(&mut self, rows: &BTreeMap<RowKey, Row>, has_new: bool)
        ensures { AllByRecursion (IsBoundedBy self.old) (views_of rows.now.entries) → AllByRecursion (IsBoundedBy self.new) (views_of rows.now.entries) }
    {
        if has_new && self.is_to_be_split(rows.len()) {
            self.split_by(Rows::of(rows.values()));
        }
    }

    /// Makes a bound for each bucket of these rows. Where memory is refused nothing changes.
    fn split_by(&mut self, rows: Rows<'_>)
        ensures { AllByRecursion (IsBoundedBy self.old) rows.entry → AllByRecursion (IsBoundedBy self.new) rows.entry }
    {
        if self.split() {
            self.lower_for(rows);
        }
    }

    /// Lowers the bounds for rows.
    fn lower_for(&mut self, rows: Rows<'_>)
        ensures { AllByRecursion (IsBoundedBy self.new) rows.entry }
    {
        for row in rows {
            self.lower(&key_of_row(row), expiry(&row.segment));
        }
    }

    /// A copy, which has one bound of all rows where memory for the others is refused.
    pub(crate) fn copy(&self, alloc: Global) -> ExpiryBounds
        ensures { (row : RowView) → IsBoundedBy self.now row → IsBoundedBy result row }
    {
        let mut by_bucket = Vec::new(alloc);
        let _ = by_bucket.extend_from_slice(&self.by_bucket);
        ExpiryBounds {
            least: self.least,
            by_bucket,
        }
    }

    /// Lowers the bounds for a row that is put under a key and expires at a moment, in half seconds
    /// since 1970.
    pub(crate) fn lower(&mut self, key: &RowKey, expires: u64)
        ensures kept { (row : RowView) → IsBoundedBy self.old row → IsBoundedBy self.new row }
        ensures put { (row : RowView) → bytes_of key.now ≡ key_of row → expires ≤ expiry_of row.1 → IsBoundedBy self.new row }
    {
        self.least = self.least.min(expires);
        let bucket = bucket_of(key);
        if bucket < self.by_bucket.len() {
            self.by_bucket[bucket] = self.by_bucket[bucket].min(expires);
        }
    }

    /// Keeps a lower bound of the moments at which all rows expire, in half seconds since 1970.
    pub(crate) fn keep_least(&mut self, least: u64)
        ensures { (row : RowView) → IsBoundedBy self.old row → least ≤ expiry_of row.1 → IsBoundedBy self.new row }
    {
        self.least = least;
    }

    /// Keeps a lower bound of the moments at which the rows of the buckets from `low` up to the one
    /// before `high` expire, where this is one bucket that has a bound. Otherwise nothing changes.
    /// The bound is in half seconds since 1970.
    pub(crate) fn keep(&mut self, low: usize, high: usize, least: u64)
        ensures { (row : RowView) → IsBoundedBy self.old row → (is_among low high row ≡ true → least ≤ expiry_of row.1) → IsBoundedBy self.new row }
    {
        if low < self.by_bucket.len() && low + 1 == high {
            self.by_bucket[low] = least;
        }
    }

    /// Passes the buckets whose rows are known to expire after the walk's moment, and visits no
    /// row. Returns the end of the next buckets, whose rows the caller visits: the first bucket
    /// that is none of them.
    pub(crate) fn pass_lasting(&self, walk: &mut BucketWalk) -> usize
        requires { walk.old.bucket ≤ bucket_count }
        ensures passed { (row : RowView) → IsBoundedBy self.now row → OutlastsBefore walk.old row → OutlastsBefore walk.new row }
        ensures moment { walk.new.moment ≡ walk.old.moment }
        ensures onwards { walk.old.bucket ≤ walk.new.bucket }
        ensures within { walk.new.bucket ≤ bucket_count }
        ensures end { walk.new.bucket < bucket_count → walk.new.bucket < result }
        ensures end_within { result ≤ bucket_count }
    {
        let bounds = self.by_bucket.as_slice();
        let count = bounds.len().min(BUCKETS);
        let mut bucket = walk.bucket;
        let mut least = walk.least;
        while bucket < count && bounds[bucket] > walk.moment {
            least = least.min(bounds[bucket]);
            bucket += 1;
        }
        walk.bucket = bucket;
        walk.least = least;
        if bucket < count { bucket + 1 } else { BUCKETS }
    }
}

/// The bucket of a key.
fn bucket_of(key: &RowKey) -> usize
    ensures { (row : RowView) → bytes_of key.now ≡ key_of row → (n : ℕ) → is_among n (n + 1) row ≡ true → result ≡ n }
{
    let kind = usize::from(key.kind).saturating_sub(1);
    let first = key.id[0];
    let second = key.id[1];
    kind * BUCKETS_OF_TYPE + usize::from(first) * 256 + usize::from(second)
}

/// The least key of a bucket.
pub(crate) fn first_key(bucket: usize) -> RowKey
    requires { bucket ≤ bucket_count }
    ensures { bytes_of result ≡ first_key bucket }
{
    let mut id = [0; 32];
    id[0] = (bucket / 256 % 256) as u8;
    id[1] = (bucket % 256) as u8;
    RowKey {
        kind: (bucket / BUCKETS_OF_TYPE + 1) as u8,
        id,
    }
}
