//! Judging a command by the numbers of a state, without the state and its lock.

ghost use Rattle.std.specs.Prelude.{◌≡◌, ◌↔◌, IsTrue};
ghost use Rattle.path_records.specs.RecordLaws.{IsAllowedBy};
ghost use Rattle.store_layout.specs.Limits.{limits_of};
ghost use Rattle.group_core.specs.Numbers.{numbers_of};
ghost use Rattle.group_core.specs.StateView.{StateView};
ghost use Rattle.group_core.specs.Submitting.{Judges};
ghost use Rattle.path_hub.specs.Judging.{IsBounded};

use group_core::{Numbers, SubmitError};
use path_db::Command;
use path_records::is_within_limits;
use store_layout::{JournalKind, allows};

/// The most commands that are pending in a state.
const MOST_PENDING: u64 = 256;

/// What each state that has these numbers says of a command by `State::judge`: whether it may be
/// submitted, as far as is judged without memory, or the first reason why not.
pub(crate) fn judge_by(numbers: &Numbers, command: &Command) -> Result<(), SubmitError>
    ensures { (state : StateView) → IsBounded state → numbers.now ≡ numbers_of state → Judges command.now result state }
{
    if numbers.stopped {
        return Err(SubmitError::Stopped);
    }
    if !is_within_limits(command) {
        return Err(SubmitError::TooLarge);
    }
    if !is_allowed(command, numbers.version) {
        return Err(SubmitError::OldStore);
    }
    if numbers.place.saturating_add(numbers.pending) == u64::MAX {
        return Err(SubmitError::Exhausted);
    }
    if numbers.pending == MOST_PENDING {
        return Err(SubmitError::Busy);
    }
    Ok(())
}

/// Whether a store of a version may keep a command.
fn is_allowed(command: &Command, version: u32) -> bool
    ensures { IsTrue result ↔ IsAllowedBy (limits_of version).removals command.now }
{
    match command {
        Command::Register(_) => allows(version, JournalKind::Registration),
        Command::Purge(_) => allows(version, JournalKind::Purge),
        Command::Remove(_, _) => allows(version, JournalKind::Removal),
    }
}
