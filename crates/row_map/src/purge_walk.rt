//! The walk of a purge over the rows of a bucket.

ghost use Rattle.std.specs.Prelude.{◌≡◌, ◌≤◌, true, List, IfSome, IfNone};
ghost use Rattle.row_map.specs.Database.{RowView, key_of};
ghost use Rattle.row_map.specs.Row.{row_view};
ghost use Rattle.row_map.specs.RowMap.{bytes_of};
ghost use Rattle.row_map.specs.Buckets.{bucket_count, first_key, is_before};
ghost use Rattle.row_map.specs.Purge.{HasPassed, IsExpiredUnder, AllOutlast};

use crate::expiry_bounds::first_key;
use crate::row::Row;
use crate::row_key::RowKey;
use crate::row_map::{RowMap, key_of_row};
use seg_check::expiry;

/// A walk over the rows of some buckets in the order of their keys, which finds those that expire
/// at a moment or before.
#[derive(Drop)]
pub struct PurgeWalk {
    /// The moment of the purge, in half seconds since 1970.
    pub moment: u64,
    /// The first bucket.
    pub low: usize,
    /// The first bucket after the last one.
    pub high: usize,
    /// The key from which the walk goes on: the rows under lower keys were passed.
    pub from: RowKey,
    /// The least expiry of the rows that were passed, in half seconds since 1970. It is 2^64 - 1
    /// where there are none.
    pub least: u64,
    /// How many rows were visited, or 2^64 - 1 for more.
    pub visited: u64,
}

impl PurgeWalk {
    /// A walk over the rows of the buckets from `low` up to the one before `high`, which has passed
    /// no rows.
    pub fn new(moment: u64, low: usize, high: usize) -> PurgeWalk
        requires { low ≤ bucket_count }
        ensures moment { result.moment ≡ moment }
        ensures low { result.low ≡ low }
        ensures high { result.high ≡ high }
        ensures passed { (rows : List RowView) → HasPassed result rows }
    {
        PurgeWalk {
            moment,
            low,
            high,
            from: first_key(low),
            least: u64::MAX,
            visited: 0,
        }
    }

    /// The next row that expires at the moment or before. The rows before it are passed. `None`
    /// means that all rows were passed. This takes no memory.
    pub fn next_expired<'a>(&mut self, rows: &'a RowMap) -> Option<&'a Row>
        requires passed { HasPassed self.old rows.now }
        requires high { self.old.high ≤ bucket_count }
        ensures expired { IfSome result (λ row. IsExpiredUnder self.old.moment (key_of (row_view row.now)) rows.now) }
        ensures next { IfSome result (λ row. bytes_of self.new.from ≡ key_of (row_view row.now)) }
        ensures below_end { IfSome result (λ row. is_before (first_key self.old.high) (row_view row.now) ≡ true) }
        ensures none { IfNone result (AllOutlast self.new rows.now) }
        ensures passed { HasPassed self.new rows.now }
        ensures moment { self.new.moment ≡ self.old.moment }
        ensures low { self.new.low ≡ self.old.low }
        ensures high { self.new.high ≡ self.old.high }
    {
        let end = first_key(self.high);
        let mut least = self.least;
        for row in rows.from(self.from) {
            self.visited = self.visited.saturating_add(1);
            let key = key_of_row(row);
            let expires = expiry(&row.segment);
            if key.cmp(&end).is_ge() {
                self.least = least;
                return None;
            }
            if expires <= self.moment {
                self.from = key;
                self.least = least;
                return Some(row);
            }
            least = least.min(expires);
        }
        self.least = least;
        None
    }
}
