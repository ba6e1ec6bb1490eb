//! A group that follows the group in flight: it is written before the gate of the group in flight
//! is synced, so that one sync serves both.

ghost use Rattle.std.specs.Prelude.{◌≢◌, MatchResult};
ghost use Rattle.group_phases.specs.declared.phases.Flush.TheVariants.{Following as following, Followed as followed, DurableFollowed as durable_followed};
ghost use Rattle.group_core.specs.Stops.{StepLeaves};
ghost use Rattle.group_core.specs.Steps.{FlushStep};
ghost use Rattle.group_core.specs.StepCalls.{StepCall, Sync, follower_write};
ghost use Rattle.group_core.specs.declared.following.FollowError.TheVariants.{NoMemory};
ghost use Rattle.group_core.specs.Following.{MayFollow, TakesFollower, IsFollowRefused, Follows, PublishFollowedStep};

use crate::error::{PublishError, StepError};
use crate::phases::{AtDurableFollowed, AtFollowed, AtFollowing, AtStable};
use crate::showcase::Showcase;
use crate::staging::{group_bytes, longest_front};
use crate::state::State;
use crate::values::{DurableFollowed, Followed, Following, Opened, Stable};
use byte_lists::SECTOR;
use gate_journal::{fits, payload_sectors};
use group_phases::Flush;
use sector_dev::Device;
use thiserror::Error;

/// Why no group follows. The first that holds is returned, in this order. The value is returned in
/// each case.
#[derive(Clone, Copy, Debug, PartialEq, Eq, Error)]
pub enum FollowError {
    /// It is not this value's turn, or the value is another state's.
    #[error("it is not this value's turn")]
    Stranger = 1,
    /// The state has stopped.
    #[error("the state has stopped")]
    Stopped = 2,
    /// A seal is in flight, and nothing follows a seal.
    #[error("a seal is in flight")]
    Seal = 3,
    /// No command is pending after the group in flight.
    #[error("no command is pending after the group in flight")]
    Empty = 4,
    /// The journal has no room for the next group after the group in flight. No seal follows, even
    /// where the other half is ready for one.
    #[error("the journal has no room")]
    NoRoom = 5,
    /// Memory was refused.
    #[error("out of memory")]
    NoMemory = 6,
}

impl<D: Device, S: Showcase> State<D, S> {
    /// Stages a group to follow the group in flight, whose gate was written open: the longest front
    /// of the commands after those in flight that fits one group, as `stage` takes it once the
    /// group in flight is published. Where no group follows, the value is returned, and `sync_gate`
    /// is next. The call does not use the device.
    pub fn follow(&mut self, value: Opened) -> Result<Following, (Opened, FollowError)>
        ensures step { Follows value result self.old self.new }
        ensures any_moment { StepLeaves self.old self.new }
    {
        let count = match self.next_to_follow(&value) {
            Ok(count) => count,
            Err(refused) => return Err((value, refused)),
        };
        let commands = &self.pending[self.taken..self.taken + count];
        let Ok(bytes) = group_bytes(self.alloc, commands, self.place + self.taken as u64) else {
            return Err((value, FollowError::NoMemory));
        };
        self.staged_next = bytes;
        self.following = count;
        self.flush = Flush::Following;
        Ok(value.at(AtFollowing))
    }

    /// The number of commands that follow the group in flight.
    fn next_to_follow(&self, value: &Opened) -> Result<usize, FollowError>
        ensures { MatchResult result (λ n. MayFollow value.now self.now × TakesFollower self.now n)
            (λ e. (e ≢ NoMemory) × IsFollowRefused e value.now self.now) }
    {
        if self.flush != Flush::Opened || !value.is_of(self.home, self.group.number) {
            return Err(FollowError::Stranger);
        }
        if self.stopped {
            return Err(FollowError::Stopped);
        }
        if self.taken == 0 {
            return Err(FollowError::Seal);
        }
        let later = &self.pending[self.taken..];
        if later.is_empty() {
            return Err(FollowError::Empty);
        }
        let front = longest_front(later, self.version);
        let gate = self.gate + (self.staged.len() / SECTOR) as u64;
        let sectors = payload_sectors(front.bytes as u64);
        if !fits(gate, sectors, u64::from(self.geometry.journal)) {
            return Err(FollowError::NoRoom);
        }
        Ok(front.count)
    }

    /// Writes the following group after the gate that ends the group in flight, in one write. That
    /// gate was written closed and synced with the group in flight, so nothing of the following
    /// group counts, however much of it a stop keeps. The write ends with the next gate, closed.
    pub fn write_following(&mut self, value: Following) -> Result<Followed, StepError<AtFollowing>>
        ensures step { FlushStep following followed following value result self.old self.new }
        ensures call { StepCall (follower_write self.old) result self.old.disk self.new.disk }
        ensures any_moment { StepLeaves self.old self.new }
    {
        let value = self.group_turn(Flush::Following, value)?;
        let gate = self.gate + (self.staged.len() / SECTOR) as u64;
        let at = self.geometry.journal_at(self.half) + (gate + 1);
        match self.device.write(at, &self.staged_next) {
            Ok(()) => {
                self.flush = Flush::Followed;
                Ok(value.at(AtFollowed))
            }
            Err(_) => Err(self.group.fault(&mut self.stopped, value)),
        }
    }

    /// Syncs the gate of the group in flight and the following group. From then on every stop keeps
    /// the group in flight, and the gate of the following group may be written.
    pub fn sync_followed(
        &mut self,
        value: Followed,
    ) -> Result<DurableFollowed, StepError<AtFollowed>>
        ensures step { FlushStep followed durable_followed followed value result self.old self.new }
        ensures call { StepCall Sync result self.old.disk self.new.disk }
        ensures any_moment { StepLeaves self.old self.new }
    {
        let value = self.group_turn(Flush::Followed, value)?;
        match self.device.sync() {
            Ok(()) => {
                self.flush = Flush::DurableFollowed;
                Ok(value.at(AtDurableFollowed))
            }
            Err(_) => Err(self.group.fault(&mut self.stopped, value)),
        }
    }

    /// Shows the durable group in flight, which is committed then. The following group is in flight
    /// after that, written and synced, and `open_gate` is next. The call also works where the state
    /// has stopped.
    pub fn publish_followed(
        &mut self,
        value: DurableFollowed,
    ) -> Result<Stable, PublishError<AtDurableFollowed>>
        ensures step { PublishFollowedStep value result self.old self.new }
        ensures any_moment { StepLeaves self.old self.new }
    {
        match self.flush {
            Flush::DurableFollowed if value.is_of(self.home, self.group.number) => {}
            _ => return Err(PublishError::Stranger(value)),
        }
        let Ok(()) = self.show.show(&self.pending[..self.taken]) else {
            return Err(PublishError::NoMemory(value));
        };
        self.gate += (self.staged.len() / SECTOR) as u64;
        self.place += self.taken as u64;
        self.pending.drain(..self.taken);
        self.taken = self.following;
        self.following = 0;
        std::mem::swap(&mut self.staged, &mut self.staged_next);
        self.flush = Flush::Stable;
        Ok(value.at(AtStable))
    }
}
