//! How long lookups took, as threads count it.

ghost use Rattle.std.specs.Prelude.{◌≡◌, ◌<◌, IfSome};
ghost use Rattle.status_server.specs.LookupTimes.{first_bound, place_of, total_of, bucket_of, buckets_of, times_of, AreLookupTimes};

use status_page::{LOOKUP_BUCKETS, LookupTimes};
use std::array;
use std::sync::atomic::{AtomicU64, Ordering};
use store_loops::Bucket;

/// The longest times of the buckets, in nanoseconds, in rising order.
const BOUNDS: [u64; LOOKUP_BUCKETS] = [
    2_000,
    5_000,
    10_000,
    20_000,
    50_000,
    100_000,
    200_000,
    500_000,
    1_000_000,
    10_000_000,
    100_000_000,
    1_000_000_000,
];

const _: () = prove!(
    BOUNDS[0] < BOUNDS[1]
        && BOUNDS[1] < BOUNDS[2]
        && BOUNDS[2] < BOUNDS[3]
        && BOUNDS[3] < BOUNDS[4]
        && BOUNDS[4] < BOUNDS[5]
        && BOUNDS[5] < BOUNDS[6]
        && BOUNDS[6] < BOUNDS[7]
        && BOUNDS[7] < BOUNDS[8]
        && BOUNDS[8] < BOUNDS[9]
        && BOUNDS[9] < BOUNDS[10]
        && BOUNDS[10] < BOUNDS[11]
);

/// The number of counts: one for each bucket, and one for the lookups that took longer than all.
const PLACES: usize = 13;

/// How long lookups took. Threads share the counts, so that no clause says what a count is.
#[derive(Drop)]
pub(crate) struct LookupCounters {
    /// The number of lookups that took at most the time of a bucket, and longer than that of the
    /// bucket before.
    counts: [AtomicU64; PLACES],
    /// The time that all took.
    nanoseconds: AtomicU64,
}

impl LookupCounters {
    /// No lookup yet. No clause says so.
    pub(crate) fn new() -> LookupCounters {
        LookupCounters {
            counts: array::from_fn(|_place| AtomicU64::new(0)),
            nanoseconds: AtomicU64::new(0),
        }
    }

    /// Counts a lookup that took this many nanoseconds.
    pub(crate) fn count(&self, nanoseconds: u64) {
        self.counts[place_of(nanoseconds)].fetch_add(1, Ordering::SeqCst);
        self.nanoseconds.fetch_add(nanoseconds, Ordering::SeqCst);
    }

    /// How long the lookups took, by one read of each count. No clause says which numbers these
    /// have.
    #[tactic(auto, using(crate::proofs::LookupLemmas::are_lookup_times))]
    pub(crate) fn times(&self) -> LookupTimes
        ensures { AreLookupTimes result }
    {
        let mut counts = [0u64; PLACES];
        for (count, counted) in counts.iter_mut().zip(&self.counts) {
            *count = counted.load(Ordering::SeqCst);
        }
        times_of(&counts, self.nanoseconds.load(Ordering::SeqCst))
    }
}

/// The place among the counts of a lookup that took this many nanoseconds.
#[tactic(auto, unfolding(crate::specs::LookupTimes::place_of))]
fn place_of(nanoseconds: u64) -> usize
    ensures place { result ≡ place_of nanoseconds }
    ensures within { result < PLACES }
{
    match first_bound(nanoseconds) {
        Some(place) => place,
        None => LOOKUP_BUCKETS,
    }
}

/// The first bound that is no less than this time.
#[tactic(auto, unfolding(crate::specs::LookupTimes::first_bound))]
fn first_bound(nanoseconds: u64) -> Option<usize>
    ensures first { result ≡ first_bound nanoseconds }
    ensures within { IfSome result (λ place. place < LOOKUP_BUCKETS) }
{
    BOUNDS.iter().position(|bound| nanoseconds <= *bound)
}

/// The times by the counts of all places, and by the nanoseconds of all lookups.
#[tactic(auto, unfolding(crate::specs::LookupTimes::times_of))]
fn times_of(counts: &[u64; PLACES], nanoseconds: u64) -> LookupTimes
    ensures { result ≡ times_of counts.now nanoseconds }
{
    LookupTimes {
        buckets: buckets_of(counts),
        count: total_of(counts),
        microseconds: nanoseconds / 1_000,
    }
}

/// The buckets of all bounds.
#[tactic(auto, unfolding(crate::specs::LookupTimes::buckets_of))]
fn buckets_of(counts: &[u64; PLACES]) -> [Bucket; LOOKUP_BUCKETS]
    ensures { result ≡ buckets_of counts.now }
{
    [
        bucket_of(counts, 0),
        bucket_of(counts, 1),
        bucket_of(counts, 2),
        bucket_of(counts, 3),
        bucket_of(counts, 4),
        bucket_of(counts, 5),
        bucket_of(counts, 6),
        bucket_of(counts, 7),
        bucket_of(counts, 8),
        bucket_of(counts, 9),
        bucket_of(counts, 10),
        bucket_of(counts, 11),
    ]
}

/// The bucket of a bound, which has the lookups of all counts up to the bound's place.
#[tactic(auto, unfolding(crate::specs::LookupTimes::bucket_of))]
fn bucket_of(counts: &[u64; PLACES], place: usize) -> Bucket
    requires { place < LOOKUP_BUCKETS }
    ensures { result ≡ bucket_of counts.now place }
{
    Bucket {
        microseconds: BOUNDS[place] / 1_000,
        count: total_of(&counts[..place + 1]),
    }
}

/// All of some counts, at most 2^64 - 1.
#[tactic(auto, unfolding(crate::specs::LookupTimes::total_of))]
fn total_of(counts: &[u64]) -> u64
    ensures { result ≡ total_of counts.now }
{
    let mut total = 0u64;
    for count in counts {
        total = total.saturating_add(*count);
    }
    total
}
