//! Claims on the answers to commands that were handed in.

ghost use Rattle.std.specs.Prelude.{◌≡◌, true, IfSome, IfOk, IfErr};
ghost use Rattle.hub_claims.specs.Committed.{ReceiptShows, reason_in};

use crate::answer::{NotCommitted, Slot};
use crate::name::HubName;
use command_queue::Claim;
use hub_readers::HubReceipt;
use std::alloc::Global;
use std::marker::Model;
use std::sync::{Arc, Wait};

/// A claim on the answer to a command that was handed in at the hub of this name. Contracts see a
/// claim as that command. It is made of the claim of the hub's queue. Where a claim is dropped, its
/// command is committed or refused as any other, and nobody has the answer.
#[derive(Drop)]
pub struct HubClaim<N: HubName> {
    claim: Claim<N>,
    slot: Arc<Slot<N>, Global>,
}

impl<N: HubName> Model for HubClaim<N> {
    ghost use Rattle.path_db.specs.declared.command.Command.{Command};

    ghost Value = { Command };

    ghost view = { λ c. c.claim.command.value };
}

impl<N: HubName> HubClaim<N> {
    /// The claim on the answer that goes to a slot.
    pub fn on(claim: Claim<N>, slot: Arc<Slot<N>, Global>) -> HubClaim<N>
        ensures { result ≡ claim.command.value }
    {
        HubClaim { claim, slot }
    }

    /// The number of the command among all commands that were handed in at the hub, counted from 0.
    pub fn number(&self) -> u64 {
        self.claim.number()
    }

    /// Takes the answer, if it is there. A receipt is of the claim's command.
    pub fn take_answer(&self, rt: &impl Wait) -> Option<Result<HubReceipt<N>, NotCommitted>>
        ensures committed { IfSome result (λ outcome. IfOk outcome (ReceiptShows N.opening self.now)) }
        ensures refused { IfSome result (λ outcome. IfErr outcome (λ why. N.refused self.now (reason_in why) ≡ true)) }
    {
        self.slot.take(rt, &self.claim)
    }
}
