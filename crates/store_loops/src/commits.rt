//! How long commits took.

ghost use Rattle.std.specs.Prelude.{◌≡◌, ◌∷◌, [], map};
ghost use Rattle.store_loops.specs.Commits.{bucket_after, times_after};

/// The number of microseconds in a second.
pub const SECOND: u64 = 1_000_000;

/// The number of buckets of a `CommitTimes`.
pub const BUCKETS: usize = 11;

/// The number of commits that took at most some time.
#[derive(Clone, Copy, Debug, PartialEq, Eq)]
pub struct Bucket {
    /// The time, in microseconds.
    pub microseconds: u64,
    /// The number of those commits. The count stays at 2^64 - 1.
    pub count: u64,
}

impl Bucket {
    /// Counts a commit, where it took at most the bucket's time.
    fn add(&mut self, microseconds: u64)
        ensures { self.new ≡ bucket_after microseconds self.old }
    {
        if microseconds <= self.microseconds {
            self.count = self.count.saturating_add(1);
        }
    }
}

/// No commits, by the times of all buckets, which rise.
const NO_COMMITS: [Bucket; BUCKETS] = [
    Bucket {
        microseconds: 500,
        count: 0,
    },
    Bucket {
        microseconds: 1_000,
        count: 0,
    },
    Bucket {
        microseconds: 2_000,
        count: 0,
    },
    Bucket {
        microseconds: 5_000,
        count: 0,
    },
    Bucket {
        microseconds: 10_000,
        count: 0,
    },
    Bucket {
        microseconds: 20_000,
        count: 0,
    },
    Bucket {
        microseconds: 50_000,
        count: 0,
    },
    Bucket {
        microseconds: 100_000,
        count: 0,
    },
    Bucket {
        microseconds: 200_000,
        count: 0,
    },
    Bucket {
        microseconds: 500_000,
        count: 0,
    },
    Bucket {
        microseconds: 1_000_000,
        count: 0,
    },
];

/// How long commits took.
#[derive(Clone, Copy, Debug, PartialEq, Eq)]
pub struct CommitTimes {
    /// For each of some times, in rising order, the number of commits that took at most that time.
    pub buckets: [Bucket; BUCKETS],
    /// The number of commits. The count stays at 2^64 - 1.
    pub count: u64,
    /// The time that they took in all, in microseconds, at most 2^64 - 1.
    pub microseconds: u64,
}

impl CommitTimes {
    /// No commit was made yet. The times of the buckets rise, from half a millisecond to a second.
    pub fn new() -> CommitTimes
        ensures empty { result ≡ record { buckets = NO_COMMITS; count = 0; microseconds = 0 } }
        ensures times { map (λ bucket. bucket.microseconds) result.buckets
            ≡ 500 ∷ 1000 ∷ 2000 ∷ 5000 ∷ 10000 ∷ 20000 ∷ 50000 ∷ 100000 ∷ 200000 ∷ 500000 ∷ 1000000 ∷ [] }
        ensures none { map (λ bucket. bucket.count) result.buckets ≡ 0 ∷ 0 ∷ 0 ∷ 0 ∷ 0 ∷ 0 ∷ 0 ∷ 0 ∷ 0 ∷ 0 ∷ 0 ∷ [] }
    {
        CommitTimes {
            buckets: NO_COMMITS,
            count: 0,
            microseconds: 0,
        }
    }

    /// Counts a commit that took this many microseconds.
    pub fn add(&mut self, microseconds: u64)
        ensures { self.new ≡ times_after microseconds self.old }
    {
        add_to_all(&mut self.buckets, microseconds);
        self.count = self.count.saturating_add(1);
        self.microseconds = self.microseconds.saturating_add(microseconds);
    }
}

/// Counts a commit in all buckets.
fn add_to_all(buckets: &mut [Bucket], microseconds: u64)
    ensures { buckets.new ≡ map (bucket_after microseconds) buckets.old }
{
    for bucket in buckets.iter_mut() {
        bucket.add(microseconds);
    }
}
