//! The number of replies of each kind, how long lookups took, and what commands did.

ghost use Rattle.std.specs.Prelude.{IfOk};
ghost use Rattle.status_server.specs.LookupTimes.{AreLookupTimes};
ghost use Rattle.status_server.specs.Refusals.{AreRefusals};

use crate::lookup_times::LookupCounters;
use crate::outcomes::OutcomeCounters;
use crate::refusals::{CODES, refusals_of};
use crate::reply_kind::ReplyKind;
use path_db::Outcome;
use status_page::{CodeCount, LookupTimes, OutcomeCounts};
use std::alloc::{AllocError, Global};
use std::array;
use std::sync::atomic::{AtomicU64, Ordering};

/// The number of replies of each kind, and of refusals with each code, how long lookups took, and
/// what became of the segments and rows of commands. Threads share the counts, so that no clause
/// says what a count is.
#[derive(Drop)]
pub struct Replies {
    registered: AtomicU64,
    found: AtomicU64,
    purged: AtomicU64,
    removed: AtomicU64,
    listed: AtomicU64,
    /// The refusals, by their codes.
    refused: [AtomicU64; CODES],
    outcomes: OutcomeCounters,
    lookups: LookupCounters,
    /// The greatest moment of the purges that were acknowledged since it was taken, or 0.
    purged_by: AtomicU64,
}

impl Replies {
    /// All counts 0. No clause says so.
    pub fn new() -> Replies {
        Replies {
            registered: AtomicU64::new(0),
            found: AtomicU64::new(0),
            purged: AtomicU64::new(0),
            removed: AtomicU64::new(0),
            listed: AtomicU64::new(0),
            refused: array::from_fn(|_code| AtomicU64::new(0)),
            outcomes: OutcomeCounters::new(),
            lookups: LookupCounters::new(),
            purged_by: AtomicU64::new(0),
        }
    }

    /// Counts a reply of a kind.
    pub(crate) fn count(&self, kind: ReplyKind) {
        self.counter(kind).fetch_add(1, Ordering::SeqCst);
    }

    /// Counts what a command did.
    pub fn count_outcome(&self, outcome: Outcome) {
        self.outcomes.count(outcome);
    }

    /// Notes the moment of a purge that was acknowledged, in half seconds since 1970.
    pub(crate) fn note_purge(&self, until: u64) {
        self.purged_by.fetch_max(until, Ordering::SeqCst);
    }

    /// Takes the greatest moment of the purges that sessions asked for and that were acknowledged
    /// since it was taken last, in half seconds since 1970. It is `None` where there was none after
    /// 1970. No clause says which moment that is.
    pub fn take_purged_by(&self) -> Option<u64> {
        match self.purged_by.swap(0, Ordering::SeqCst) {
            0 => None,
            until => Some(until),
        }
    }

    /// Counts how long a lookup took, in nanoseconds.
    pub(crate) fn count_lookup(&self, nanoseconds: u64) {
        self.lookups.count(nanoseconds);
    }

    /// What became of the segments and rows of commands, by one read of each count. No clause says
    /// which numbers these are.
    pub fn outcomes(&self) -> OutcomeCounts {
        self.outcomes.counts()
    }

    /// How long lookups took, by one read of each count. No clause says which numbers the counts
    /// had.
    pub fn lookup_times(&self) -> LookupTimes
        ensures { AreLookupTimes result }
    {
        self.lookups.times()
    }

    /// The number of replies of a kind, by one read of its count. No clause says which number that
    /// is.
    pub fn of(&self, kind: ReplyKind) -> u64 {
        self.counter(kind).load(Ordering::SeqCst)
    }

    /// The counter of a kind.
    fn counter(&self, kind: ReplyKind) -> &AtomicU64 {
        match kind {
            ReplyKind::Registered => &self.registered,
            ReplyKind::Found => &self.found,
            ReplyKind::Purged => &self.purged,
            ReplyKind::Removed => &self.removed,
            ReplyKind::Listed => &self.listed,
            ReplyKind::Refused(code) => &self.refused[usize::from(code)],
        }
    }

    /// The number of messages that were refused with each code, for the codes with which messages
    /// can be refused or were, in rising order. No clause says which numbers the counts had.
    #[tactic(auto, using(crate::proofs::RefusalLemmas::are_refusals))]
    pub fn refusals(&self, alloc: Global) -> Result<Vec<CodeCount>, AllocError>
        ensures { IfOk result (λ refusals. AreRefusals CODES refusals.items) }
    {
        let mut counts = [0u64; CODES];
        for (count, refused) in counts.iter_mut().zip(&self.refused) {
            *count = refused.load(Ordering::SeqCst);
        }
        refusals_of(alloc, &counts)
    }
}
