//! Committing what is held of a command for which memory was refused.

ghost use Rattle.std.specs.Prelude.{◌≡◌, None, Some, OnOk, IfErr};
ghost use Rattle.once_store.specs.OnceView.{once_view, IsLone};
ghost use Rattle.once_store.specs.Settling.{IsNothingHeld, IsUnsettled};

use crate::committing::{Held, commit_durable, commit_pending};
use crate::memory_state::MemoryState;
use std::alloc::AllocError;
use std::mem;

/// Commits the command that is held, where one is. Where memory is refused again, the command is
/// still held.
pub(crate) fn settle(state: &mut MemoryState, held: &mut Option<Held>) -> Result<(), AllocError>
    requires lone { IsLone state.old held.old }
    ensures lone { IsLone state.new held.new }
    ensures same { once_view state.new ≡ once_view state.old }
    ensures settled { OnOk result (held.new ≡ None) }
{
    match commit_held(state, held.take()) {
        Ok(()) => Ok(()),
        Err(back) => {
            hold(held, back);
            Err(AllocError)
        }
    }
}

/// Holds this from now on, where nothing is held.
pub(crate) fn hold(held: &mut Option<Held>, back: Held)
    requires free { held.old ≡ None }
    ensures held { held.new ≡ Some back }
{
    let before = mem::replace(held, Some(back));
    let None = before else {
        unreachable!();
    };
}

/// Commits the command of which this is held, where something is.
fn commit_held(state: &mut MemoryState, held: Option<Held>) -> Result<(), Held>
    requires lone { IsLone state.old held }
    ensures settled { OnOk result (IsNothingHeld state.old state.new) }
    ensures held { IfErr result (λ back. IsUnsettled back state.old state.new) }
{
    match held {
        None => Ok(()),
        Some(Held { ticket, durable }) => {
            match durable {
                Some(durable) => commit_durable(state, ticket, durable)?,
                None => commit_pending(state, ticket)?,
            };
            Ok(())
        }
    }
}
