//! The end of a store in memory.

ghost use Rattle.once_store.specs.OnceView.{IsLone};

use crate::committing::Held;
use crate::memory_state::MemoryState;
use group_core::Redeemed;

/// Stops the state, ends what is held of a command, and drops the device. The call takes no memory.
pub(crate) fn end(state: MemoryState, held: Option<Held>)
    requires lone { IsLone state held }
{
    let mut state = state;
    state.halt();
    if let Some(Held { ticket, durable }) = held {
        if let Some(durable) = durable {
            match state.abandon(durable) {
                Ok(()) => {}
                Err(_durable) => unreachable!(),
            }
        }
        match state.redeem(ticket) {
            Redeemed::Unknown(_place) => {}
            Redeemed::Committed(_receipt) => unreachable!(),
            Redeemed::Waiting(_ticket) => unreachable!(),
            Redeemed::Stranger(_ticket) => unreachable!(),
        }
    }
    let (_device, _show) = state.into_parts();
}
