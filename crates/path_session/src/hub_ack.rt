//! The acknowledgements of a service over a hub.

ghost use Rattle.std.specs.Prelude.{◌≡◌};

use hub_claims::HubName;
use hub_readers::HubReceipt;
use session_core::{Ack, Acknowledges};
use std::marker::Model;

/// The acknowledgement of a command that is committed at the hub of this name. It has the hub's
/// receipt of the command, and is made of that alone. Contracts see what it says.
#[derive(Drop)]
pub struct HubAck<N: HubName> {
    receipt: HubReceipt<N>,
}

impl<N: HubName> Model for HubAck<N> {
    ghost use Rattle.session_core.specs.declared.service.Ack.{Ack};

    ghost Value = { Ack };

    ghost view = { λ a. record { place = a.receipt.place; outcome = a.receipt.outcome } };
}

impl<N: HubName> HubAck<N> {
    /// The acknowledgement of the command of a receipt.
    pub(crate) fn of(receipt: HubReceipt<N>) -> HubAck<N>
        ensures place { result.place ≡ receipt.place }
        ensures outcome { result.outcome ≡ receipt.outcome }
    {
        HubAck { receipt }
    }
}

impl<N: HubName> Acknowledges for HubAck<N> {
    ghost says = { λ ack. ack };

    fn says(&self) -> Ack {
        Ack {
            place: self.receipt.place(),
            outcome: self.receipt.outcome(),
        }
    }
}
