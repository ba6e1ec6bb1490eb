//! The flusher's steps, none of which a device in memory refuses.

ghost use Rattle.std.specs.Prelude.{◌≡◌, false, length, IfOk, OnErr};
ghost use Rattle.group_phases.specs.declared.phases.Flush.TheVariants.{Resting as resting, Staged as at_staged, Durable as at_durable};
ghost use Rattle.group_phases.specs.declared.phases.Check.TheVariants.{Ready as ready};
ghost use Rattle.group_core.specs.Steps.{IsFlushTurn};
ghost use Rattle.once_store.specs.Resting.{sizes};
ghost use Rattle.once_store.specs.Committing.{IsNextDurable};

use crate::memory_state::{MemoryState, never_fails};
use group_core::{Durable, StageError, Staged};
use std::alloc::AllocError;

/// Makes the one pending command durable, or a seal where the journal has no room for it.
pub(crate) fn next_durable(state: &mut MemoryState) -> Result<Durable, AllocError>
    requires sizes { state.old.geometry ≡ sizes }
    requires going { state.old.stopped ≡ false }
    requires rests { state.old.flush ≡ resting }
    requires ready { state.old.check ≡ ready }
    requires one { length state.old.pending ≡ 1 }
    ensures durable { IfOk result (λ durable. IsNextDurable durable state.old state.new) }
    ensures same { OnErr result (state.new ≡ state.old) }
{
    match state.stage() {
        Ok(staged) => Ok(make_durable(state, staged)),
        Err(StageError::NoMemory) => Err(AllocError),
        Err(_) => unreachable!(),
    }
}

/// Writes and syncs what is staged, and then its gate.
fn make_durable(state: &mut MemoryState, staged: Staged) -> Durable
    requires turn { IsFlushTurn at_staged staged state.old }
    requires going { state.old.stopped ≡ false }
    ensures turn { IsFlushTurn at_durable result state.new }
    ensures state { state.new ≡ record state.old { disk = state.new.disk; flush = at_durable } }
{
    let written = match state.write_group(staged) {
        Ok(written) => written,
        Err(_refused) => {
            never_fails(state);
            unreachable!()
        }
    };
    let stable = match state.sync_group(written) {
        Ok(stable) => stable,
        Err(_refused) => {
            never_fails(state);
            unreachable!()
        }
    };
    let opened = match state.open_gate(stable) {
        Ok(opened) => opened,
        Err(_refused) => {
            never_fails(state);
            unreachable!()
        }
    };
    match state.sync_gate(opened) {
        Ok(durable) => durable,
        Err(_refused) => {
            never_fails(state);
            unreachable!()
        }
    }
}
