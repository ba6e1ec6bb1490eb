//! The walk of a purge over the buckets.

ghost use Rattle.std.specs.Prelude.{◌≡◌, ◌≤◌, List};
ghost use Rattle.row_map.specs.Database.{RowView};
ghost use Rattle.row_map.specs.Purge.{OutlastsBefore, OutlastsAmong, HasPassedBuckets};

use crate::purge_walk::PurgeWalk;

/// A walk over the buckets in the order of their keys, after which all rows of the passed ones
/// expire after a moment.
#[derive(Drop)]
pub struct BucketWalk {
    /// The moment of the purge, in half seconds since 1970.
    pub moment: u64,
    /// The bucket from which the walk goes on: lower buckets were passed.
    pub bucket: usize,
    /// No row of the passed buckets expires before this moment, in half seconds since 1970. It is
    /// 2^64 - 1 where there are none.
    pub least: u64,
}

impl BucketWalk {
    /// A walk that has passed no buckets.
    pub fn new(moment: u64) -> BucketWalk
        ensures moment { result.moment ≡ moment }
        ensures first { result.bucket ≡ 0 }
        ensures passed { (rows : List RowView) → HasPassedBuckets result rows }
    {
        BucketWalk {
            moment,
            bucket: 0,
            least: u64::MAX,
        }
    }

    /// Passes the buckets whose rows another walk has passed.
    pub fn pass(&mut self, walk: &PurgeWalk)
        requires moment { walk.now.moment ≡ self.old.moment }
        requires low { walk.now.low ≡ self.old.bucket }
        ensures passed { (row : RowView) → OutlastsBefore self.old row → OutlastsAmong walk.now row → OutlastsBefore self.new row }
        ensures moment { self.new.moment ≡ self.old.moment }
        ensures bucket { self.new.bucket ≡ walk.now.high }
    {
        self.bucket = walk.high;
        self.least = self.least.min(walk.least);
    }
}
