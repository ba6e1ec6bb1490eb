//! The checkpointer's steps, none of which a device in memory refuses.

ghost use Rattle.std.specs.Prelude.{◌≡◌, ◌<◌, false, OnOk, OnErr};
ghost use Rattle.group_phases.specs.declared.phases.Check.TheVariants.{Laid as at_laid};
ghost use Rattle.store_layout.specs.Group.{last_place};
ghost use Rattle.group_core.specs.Steps.{IsPlanTurn, IsCheckTurn};
ghost use Rattle.once_store.specs.Resting.{IsSteady};
ghost use Rattle.once_store.specs.Folding.{HasWholeSectors, IsFoldedFrom, MayFold, IsReadyOrFolded, IsRoomMade, OnlyDeviceWasRead};

use crate::memory_state::{MemoryState, never_fails};
use group_core::{BeginError, Laid, Plan};
use std::alloc::AllocError;

/// Makes the checkpoint of the sealed half, where there is one, so that the other half is ready for
/// the next seal.
#[tactic(auto, using(crate::proofs::Rests::may_fold, crate::proofs::Rests::room_made, crate::proofs::Rests::looked_at))]
pub(crate) fn make_room(state: &mut MemoryState) -> Result<(), AllocError>
    requires steady { IsSteady state.old }
    requires place { state.old.value.place < last_place }
    ensures made { OnOk result (IsRoomMade state.old state.new) }
    ensures same { OnErr result (OnlyDeviceWasRead state.old state.new) }
{
    fold(state)
}

/// Makes the checkpoint of the sealed half, in all its steps, where there is one.
fn fold(state: &mut MemoryState) -> Result<(), AllocError>
    requires may { MayFold state.old }
    ensures folded { OnOk result (IsReadyOrFolded state.old state.new) }
    ensures same { OnErr result (state.new ≡ record state.old { disk = state.new.disk; unprepared = state.new.unprepared }) }
{
    byte_lists::padded_sectors();
    match state.begin() {
        Ok(plan) => {
            let laid = lay(state, plan);
            make_ready(state, laid);
            Ok(())
        }
        Err(BeginError::NotSealed) => Ok(()),
        Err(BeginError::NoMemory) => Err(AllocError),
        Err(_) => {
            never_fails(state);
            unreachable!()
        }
    }
}

/// Writes all of a checkpoint, and syncs it.
fn lay(state: &mut MemoryState, plan: Plan) -> Laid
    requires turn { IsPlanTurn plan state.old }
    requires going { state.old.stopped ≡ false }
    requires sectors { HasWholeSectors state.old }
    ensures turn { IsCheckTurn at_laid result state.new }
    ensures state { state.new ≡ record state.old { disk = state.new.disk; check = at_laid; written = state.new.written } }
{
    let mut plan = plan;
    'chunks: while !plan.is_done() {
        plan = match state.write_chunk(plan) {
            Ok(next) => next,
            Err(_refused) => {
                never_fails(state);
                unreachable!()
            }
        };
    }
    match state.sync_chunks(plan) {
        Ok(laid) => laid,
        Err(_refused) => {
            never_fails(state);
            unreachable!()
        }
    }
}

/// Switches to the half that is laid, and makes the other one ready.
fn make_ready(state: &mut MemoryState, laid: Laid)
    requires turn { IsCheckTurn at_laid laid state.old }
    requires going { state.old.stopped ≡ false }
    ensures folded { IsFoldedFrom state.old state.new }
{
    let switched = match state.open_half(laid) {
        Ok(switched) => switched,
        Err(_refused) => {
            never_fails(state);
            unreachable!()
        }
    };
    let live = match state.sync_half(switched) {
        Ok(live) => live,
        Err(_refused) => {
            never_fails(state);
            unreachable!()
        }
    };
    let closing = match state.close_half(live) {
        Ok(closing) => closing,
        Err(_refused) => {
            never_fails(state);
            unreachable!()
        }
    };
    match state.sync_close(closing) {
        Ok(()) => {}
        Err(_refused) => {
            never_fails(state);
            unreachable!()
        }
    }
}
