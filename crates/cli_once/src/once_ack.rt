//! The acknowledgements of a service over a store in memory.

ghost use Rattle.std.specs.Prelude.{◌≡◌};

use once_store::Taken;
use session_core::{Ack, Acknowledges};
use std::marker::Model;

/// The acknowledgement of a command that the store has taken. It is made of what the store returned
/// for the command alone. Contracts see what it says.
#[derive(Drop)]
pub struct OnceAck {
    taken: Taken,
}

impl Model for OnceAck {
    ghost use Rattle.session_core.specs.declared.service.Ack.{Ack};

    ghost Value = { Ack };

    ghost view = { λ a. record { place = a.taken.place; outcome = a.taken.outcome } };
}

impl OnceAck {
    /// The acknowledgement of a command that was taken.
    pub(crate) fn of(taken: Taken) -> OnceAck
        ensures place { result.place ≡ taken.place }
        ensures outcome { result.outcome ≡ taken.outcome }
    {
        OnceAck { taken }
    }
}

impl Acknowledges for OnceAck {
    ghost says = { λ ack. ack };

    fn says(&self) -> Ack {
        Ack {
            place: self.taken.place(),
            outcome: self.taken.outcome(),
        }
    }
}
