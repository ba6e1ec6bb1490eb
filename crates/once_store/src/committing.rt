//! Committing the one command that is pending.

ghost use Rattle.std.specs.Prelude.{◌≡◌, ◌≤◌, IfOk, IfErr, false};
ghost use Rattle.group_phases.specs.declared.phases.Flush.TheVariants.{Resting as resting, Durable as at_durable};
ghost use Rattle.group_phases.specs.declared.phases.Check.TheVariants.{Ready as ready};
ghost use Rattle.group_core.specs.Steps.{IsFlushTurn};
ghost use Rattle.once_store.specs.Resting.{IsSteady, HasOnePending};
ghost use Rattle.once_store.specs.Committing.{PublishesAndRedeems, IsOnePendingCommitted, IsHeldBack};

use crate::flushing::next_durable;
use crate::folding::make_room;
use crate::memory_state::MemoryState;
use group_core::{Durable, PublishError, Redeemed, Ticket};
use path_db::Outcome;

/// What is held of an accepted command where memory was refused before it was committed: its
/// ticket, and the value of its group where the group is durable.
pub(crate) struct Held {
    pub(crate) ticket: Ticket,
    pub(crate) durable: Option<Durable>,
}

/// Commits the one pending command, in a group. Where the journal has no room for the group, a seal
/// comes first.
pub(crate) fn commit_pending(state: &mut MemoryState, ticket: Ticket) -> Result<Outcome, Held>
    requires one { HasOnePending ticket state.old }
    requires rests { state.old.flush ≡ resting }
    requires steady { IsSteady state.old }
    ensures committed { IfOk result (λ outcome. IsOnePendingCommitted outcome state.old state.new) }
    ensures held { IfErr result (λ held. IsHeldBack held.ticket held.durable ticket state.old state.new) }
{
    if make_room(state).is_err() {
        return Err(Held {
            ticket,
            durable: None,
        });
    }
    let Ok(durable) = next_durable(state) else {
        return Err(Held {
            ticket,
            durable: None,
        });
    };
    match publish_and_redeem(state, ticket, durable) {
        Ok(Redeemed::Committed(receipt)) => Ok(receipt.outcome()),
        Ok(Redeemed::Waiting(ticket)) => commit_after_seal(state, ticket),
        Ok(Redeemed::Unknown(_place)) => unreachable!(),
        Ok(Redeemed::Stranger(_ticket)) => unreachable!(),
        Err((ticket, durable)) => Err(Held {
            ticket,
            durable: Some(durable),
        }),
    }
}

/// Commits the one pending command after a seal. The checkpoint of the sealed half is made, and the
/// tail's journal is empty, so that the group has room.
fn commit_after_seal(state: &mut MemoryState, ticket: Ticket) -> Result<Outcome, Held>
    requires one { HasOnePending ticket state.old }
    requires rests { state.old.flush ≡ resting }
    requires steady { IsSteady state.old }
    requires empty { state.old.gate ≡ 0 }
    ensures committed { IfOk result (λ outcome. IsOnePendingCommitted outcome state.old state.new) }
    ensures held { IfErr result (λ held. IsHeldBack held.ticket held.durable ticket state.old state.new) }
{
    if make_room(state).is_err() {
        return Err(Held {
            ticket,
            durable: None,
        });
    }
    let Ok(durable) = next_durable(state) else {
        return Err(Held {
            ticket,
            durable: None,
        });
    };
    commit_durable(state, ticket, durable)
}

/// Commits the one pending command, whose group is durable.
#[tactic(auto, using(crate::proofs::Commits::committed, crate::proofs::Commits::held_durable))]
pub(crate) fn commit_durable(
    state: &mut MemoryState,
    ticket: Ticket,
    durable: Durable,
) -> Result<Outcome, Held>
    requires turn { IsFlushTurn at_durable durable state.old }
    requires one { HasOnePending ticket state.old }
    requires taken { state.old.taken ≡ 1 }
    requires ready { state.old.check ≡ ready }
    requires steady { IsSteady state.old }
    ensures committed { IfOk result (λ outcome. IsOnePendingCommitted outcome state.old state.new) }
    ensures held { IfErr result (λ held. IsHeldBack held.ticket held.durable ticket state.old state.new) }
{
    match publish_and_redeem(state, ticket, durable) {
        Ok(Redeemed::Committed(receipt)) => Ok(receipt.outcome()),
        Ok(Redeemed::Waiting(_ticket)) => unreachable!(),
        Ok(Redeemed::Unknown(_place)) => unreachable!(),
        Ok(Redeemed::Stranger(_ticket)) => unreachable!(),
        Err((ticket, durable)) => Err(Held {
            ticket,
            durable: Some(durable),
        }),
    }
}

/// Publishes what is durable, and redeems the ticket, which is still waiting after a seal.
fn publish_and_redeem(
    state: &mut MemoryState,
    ticket: Ticket,
    durable: Durable,
) -> Result<Redeemed<()>, (Ticket, Durable)>
    requires turn { IsFlushTurn at_durable durable state.old }
    requires one { HasOnePending ticket state.old }
    requires few { state.old.taken ≤ 1 }
    requires going { state.old.stopped ≡ false }
    ensures { PublishesAndRedeems ticket durable result state.old state.new }
{
    match state.publish(durable) {
        Ok(()) => Ok(state.redeem(ticket)),
        Err(PublishError::NoMemory(durable)) => Err((ticket, durable)),
        Err(PublishError::Stranger(_durable)) => unreachable!(),
    }
}
