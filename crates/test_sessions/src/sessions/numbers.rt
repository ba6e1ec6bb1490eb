//! Acknowledgements of services without a store.

ghost use Rattle.std.specs.Prelude.{◌≡◌};

use session_core::{Ack, Acknowledges};

/// An acknowledgement of any place and outcome.
#[derive(Drop)]
pub struct Numbers(pub Ack);

impl Acknowledges for Numbers {
    ghost says = { λ ack. ack.0 };

    fn says(&self) -> Ack {
        self.0
    }
}
