//! Staging the next write: a group of the first pending commands, or a seal.

ghost use Rattle.std.specs.Prelude.{◌≡◌, ◌≢◌, ◌≤◌, length, take, IfOk, MatchResult};
ghost use Rattle.std.specs.List.{All};
ghost use Rattle.path_records.specs.CommandRecord.{IsWithinLimits};
ghost use Rattle.store_layout.specs.Limits.{limits_of};
ghost use Rattle.store_layout.specs.Group.{records_of};
ghost use Rattle.gate_journal.specs.Commands.{command_format};
ghost use Rattle.gate_journal.specs.Payload.{IsWithinGroupLimits};
ghost use Rattle.group_phases.specs.Tail.{Commands, Seal, load_bytes};
ghost use Rattle.group_core.specs.declared.staging.StageError.TheVariants.{NoMemory};
ghost use Rattle.group_core.specs.Stops.{StepLeaves};
ghost use Rattle.group_core.specs.Staging.{IsLongestFront, Takes, IsStagingRefused, Stages};

use crate::bookkeeping::Turn;
use crate::phases::AtStaged;
use crate::showcase::Showcase;
use crate::state::State;
use crate::values::{Commit, Staged};
use byte_lists::closed_gate;
use gate_journal::{
    MOST_RECORD_BYTES, encode_group, encode_seal, fits, payload_sectors, record_len,
};
use group_phases::{Check, Flush};
use path_db::Command;
use sector_dev::Device;
use std::alloc::{AllocError, Global};
use store_layout::most_commands;
use thiserror::Error;

/// Why nothing was staged. The first that holds is returned, in this order: `Stopped`, `InFlight`,
/// `Empty`, `NoRoom`, and then `NoMemory`.
#[derive(Clone, Copy, Debug, PartialEq, Eq, Error)]
pub enum StageError {
    /// No command is pending.
    #[error("no command is pending")]
    Empty = 1,
    /// The journal has no room for the group, and the other half is not ready for a seal.
    #[error("the journal has no room")]
    NoRoom = 2,
    /// What was staged before is not published yet.
    #[error("a group or a seal is in flight")]
    InFlight = 3,
    /// The state has stopped.
    #[error("the state has stopped")]
    Stopped = 4,
    /// Memory was refused.
    #[error("out of memory")]
    NoMemory = 5,
}

impl From<AllocError> for StageError {
    ghost from_gives = { λ _ e. e ≡ NoMemory };

    fn from(_refused: AllocError) -> StageError {
        StageError::NoMemory
    }
}

/// The longest front of commands that fits one group: its number of commands, and the number of
/// bytes of their records.
#[derive(Clone, Copy)]
pub(crate) struct GroupSize {
    pub(crate) count: usize,
    pub(crate) bytes: usize,
}

impl<D: Device, S: Showcase> State<D, S> {
    /// Stages the longest front of the pending commands that fits one group. Where the journal has
    /// no room for it, a seal is staged instead, once the other half is ready.
    pub fn stage(&mut self) -> Result<Staged, StageError>
        ensures step { Stages result self.old self.new }
        ensures any_moment { StepLeaves self.old self.new }
    {
        let taken = self.next_to_take()?;
        self.staged = if taken == 0 {
            seal_bytes(self.alloc, self.place)?
        } else {
            group_bytes(self.alloc, &self.pending[..taken], self.place)?
        };
        self.taken = taken;
        self.flush = Flush::Staged;
        self.group = Turn {
            number: self.group.number.wrapping_add(1),
            out: true,
        };
        Ok(Commit::new(self.home, self.group.number, AtStaged))
    }

    /// The number of commands to stage next, or 0 for a seal.
    fn next_to_take(&self) -> Result<usize, StageError>
        ensures { MatchResult result (Takes self.now) (λ e. (e ≢ NoMemory) × IsStagingRefused e self.now) }
    {
        if self.stopped {
            return Err(StageError::Stopped);
        }
        let Flush::Resting = self.flush else {
            return Err(StageError::InFlight);
        };
        if self.pending.is_empty() {
            return Err(StageError::Empty);
        }
        let front = longest_front(&self.pending, self.version);
        let sectors = payload_sectors(front.bytes as u64);
        if fits(self.gate, sectors, u64::from(self.geometry.journal)) {
            return Ok(front.count);
        }
        match self.check {
            Check::Ready => Ok(0),
            _ => Err(StageError::NoRoom),
        }
    }
}

/// The longest front of commands that fits one group.
pub(crate) fn longest_front(commands: &[Command], version: u32) -> GroupSize
    requires { All IsWithinLimits commands.now }
    ensures longest { IsLongestFront (limits_of version) commands.now result.count }
    ensures some { 1 ≤ length commands.now → 1 ≤ result.count }
    ensures bytes { result.bytes ≡ length (records_of command_format (take result.count commands.now)) }
{
    let most = most_commands(version);
    let mut bytes = 0;
    for (count, command) in commands.iter().enumerate() {
        let more = bytes + record_len(command);
        if count == most || more > MOST_RECORD_BYTES {
            return GroupSize { count, bytes };
        }
        bytes = more;
    }
    GroupSize {
        count: commands.len(),
        bytes,
    }
}

/// The bytes to write for a group: its payload, and the closed gate after it.
pub(crate) fn group_bytes(
    alloc: Global,
    commands: &[Command],
    place: u64,
) -> Result<Vec<u8>, AllocError>
    requires { IsWithinGroupLimits commands.now place }
    ensures { IfOk result (λ bytes. bytes.items ≡ load_bytes command_format place (Commands commands.now)) }
{
    let mut bytes = encode_group(alloc, commands, place)?;
    bytes.extend_from_slice(&closed_gate())?;
    Ok(bytes)
}

/// The bytes to write for a seal: its payload.
fn seal_bytes(alloc: Global, place: u64) -> Result<Vec<u8>, AllocError>
    ensures { IfOk result (λ bytes. bytes.items ≡ load_bytes command_format place Seal) }
{
    Vec::from_slice(alloc, &encode_seal(place))
}
