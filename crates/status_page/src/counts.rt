//! What a server has done.

use store_loops::{Bucket, CommitTimes, DeviceCall};

/// The number of buckets of a `LookupTimes`.
pub const LOOKUP_BUCKETS: usize = 12;

/// What a server has done since it started.
#[derive(Clone, Copy, Debug, PartialEq, Eq)]
pub struct Counts {
    /// The call of the device that is under way.
    pub call: Option<CallTime>,
    /// The number of groups of commands that were committed.
    pub groups: u64,
    /// The number of journals that were sealed.
    pub seals: u64,
    /// The number of checkpoints that were completed.
    pub checkpoints: u64,
    /// How long these checkpoints took in all, in microseconds.
    pub checkpoint_time: u64,
    /// Which threads of the store wait for memory.
    pub waits: MemoryWaits,
    /// How long the commits of groups took.
    pub commits: CommitTimes,
    /// How long the lookups took that were answered.
    pub lookups: LookupTimes,
    /// The number of sessions that are open.
    pub sessions: u64,
    /// The number of sessions that were started.
    pub started: u64,
    /// The number of connections that were refused a session.
    pub refused: RefusedCounts,
    /// The number of sessions that have ended.
    pub ended: EndCounts,
    /// The number of registrations that were accepted.
    pub registered: u64,
    /// The number of lookups that were answered.
    pub found: u64,
    /// The number of lists that were answered with a page.
    pub listed: u64,
    /// The number of purges that were accepted.
    pub purged: u64,
    /// The number of removals that were accepted.
    pub removed: u64,
    /// What became of the segments and rows of acknowledged commands.
    pub outcomes: OutcomeCounts,
    /// What the server's own purges have done.
    pub own_purges: OwnPurges,
    /// The number of notices that were dropped, since the log took none.
    pub dropped: u64,
    /// The number of seconds that the server has run.
    pub seconds: u64,
    /// When the server began, in seconds since 1970, or 0 where that could not be read.
    pub begun: u64,
    /// What the process uses of the machine. `None`: that is not known.
    pub usage: Option<Usage>,
}

/// What a process uses of its machine.
#[derive(Clone, Copy, Debug, PartialEq, Eq)]
pub struct Usage {
    /// The bytes of memory that it has in use.
    pub memory: u64,
    /// The processor time that it has taken, in microseconds.
    pub processor: u64,
    /// The number of file descriptors that it has open.
    pub open_files: u64,
    /// The number of file descriptors that it may have open.
    pub most_files: u64,
}

/// How long lookups took.
#[derive(Clone, Copy, Debug, PartialEq, Eq)]
pub struct LookupTimes {
    /// For each of some times, in rising order, the number of lookups that took at most that time.
    pub buckets: [Bucket; LOOKUP_BUCKETS],
    /// The number of lookups.
    pub count: u64,
    /// The time that they took in all, in microseconds.
    pub microseconds: u64,
}

/// What became of the segments and rows of acknowledged commands.
#[derive(Clone, Copy, Debug, PartialEq, Eq)]
pub struct OutcomeCounts {
    /// The number of segments of which a row was inserted.
    pub inserted: u64,
    /// The number of segments that took the place of an older one.
    pub updated: u64,
    /// The number of segments that changed nothing, as a newer one was kept.
    pub kept: u64,
    /// The number of rows that purges and removals have dropped.
    pub removed: u64,
}

/// What the purges have done that a server makes by itself.
#[derive(Clone, Copy, Debug, PartialEq, Eq)]
pub struct OwnPurges {
    /// Whether they rest, since the machine's clock is not trusted.
    pub resting: bool,
    /// The number of rows that they have dropped.
    pub rows: u64,
}

/// Which threads of the store were refused memory, and try again.
#[derive(Clone, Copy, Debug, PartialEq, Eq)]
pub struct MemoryWaits {
    /// The one that commits groups.
    pub flusher: bool,
    /// The one that makes checkpoints.
    pub checkpointer: bool,
}

/// A call of the device that is under way.
#[derive(Clone, Copy, Debug, PartialEq, Eq)]
pub struct CallTime {
    /// The call.
    pub call: DeviceCall,
    /// The time that the call has taken so far, in microseconds.
    pub microseconds: u64,
}

/// The number of connections that were refused a session, by the reason.
#[derive(Clone, Copy, Debug, PartialEq, Eq)]
pub struct RefusedCounts {
    /// All seats were taken.
    pub seats: u64,
    /// The peer's address had as many sessions as one address may have.
    pub address: u64,
    /// No thread was given.
    pub thread: u64,
}

/// The number of sessions that have ended, by the cause.
#[derive(Clone, Copy, Debug, PartialEq, Eq)]
pub struct EndCounts {
    /// The peer ended its input after a whole frame.
    pub closed: u64,
    /// The peer sent or took nothing for too long.
    pub idle: u64,
    /// The peer sent a frame that is faulty.
    pub frame: u64,
    /// The connection failed, or ended within a frame.
    pub connection: u64,
    /// Memory was refused.
    pub memory: u64,
    /// The server ended.
    pub server: u64,
}

/// The number of messages that were refused with one code.
#[derive(Clone, Copy, Debug, PartialEq, Eq)]
pub struct CodeCount {
    /// The code of the refusals.
    pub code: u8,
    /// The number of those refusals.
    pub count: u64,
}
