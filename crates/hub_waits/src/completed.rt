//! How much both actors have completed.

ghost use Rattle.std.specs.Prelude.{◌≡◌, nat_lt, if◌then◌else◌};
ghost use Rattle.hub_waits.specs.declared.completed.Done.TheVariants.{Nothing, Group, Seal};
ghost use Rattle.hub_waits.specs.Completed.{completed_after};

use store_loops::CommitTimes;

/// How much was completed since a hub was made. Each count stays at 2^64 - 1.
#[derive(Clone, Copy, Debug, PartialEq, Eq)]
pub struct Completed {
    /// The number of groups of commands that were committed.
    pub groups: u64,
    /// The number of journals that were sealed.
    pub seals: u64,
    /// The number of checkpoints that were made.
    pub checkpoints: u64,
    /// How long the commits of groups took, from the call that staged the group to the call that
    /// published it. A commit at whose beginning or end the clock could not be read is left out.
    pub commits: CommitTimes,
}

/// What a guarded call has completed.
#[derive(Clone, Copy, Debug, PartialEq, Eq)]
pub enum Done {
    /// Nothing that is counted.
    Nothing,
    /// A group or a seal was staged.
    Staged,
    /// A group was staged to follow the group in flight.
    Followed,
    /// A group was committed.
    Group,
    /// A journal was sealed.
    Seal,
    /// A checkpoint was made.
    Checkpoint,
}

impl Done {
    /// What a publication has completed, by the places before and after it: a group takes places,
    /// and a seal none.
    pub fn published(from: u64, to: u64) -> Done
        ensures { result ≡ (if nat_lt from to then Group else Seal) }
    {
        if from < to { Done::Group } else { Done::Seal }
    }

    /// This, unless the call was refused.
    pub fn unless_refused(self, is_ok: bool) -> Done
        ensures { result ≡ (if is_ok then self else Nothing) }
    {
        if is_ok { self } else { Done::Nothing }
    }
}

impl Completed {
    /// Nothing was completed yet.
    pub fn new() -> Completed
        ensures counts { (result.groups ≡ 0) × (result.seals ≡ 0) × (result.checkpoints ≡ 0) }
        ensures commits { (result.commits.count ≡ 0) × (result.commits.microseconds ≡ 0) }
    {
        Completed {
            groups: 0,
            seals: 0,
            checkpoints: 0,
            commits: CommitTimes::new(),
        }
    }

    /// Counts what a guarded call has completed. The commit of a group took this many microseconds,
    /// unless the time is unknown.
    pub fn add(&mut self, done: Done, time: Option<u64>)
        ensures { self.new ≡ completed_after done time self.old }
    {
        match done {
            Done::Nothing | Done::Staged | Done::Followed => {}
            Done::Group => {
                self.groups = self.groups.saturating_add(1);
                if let Some(microseconds) = time {
                    self.commits.add(microseconds);
                }
            }
            Done::Seal => self.seals = self.seals.saturating_add(1),
            Done::Checkpoint => self.checkpoints = self.checkpoints.saturating_add(1),
        }
    }
}
