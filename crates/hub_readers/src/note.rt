//! Notes of what a hub has shown, and the receipts that have them.

ghost use Rattle.std.specs.Prelude.{◌≡◌};

use logged_state::{LoggedReceipt, StateName};
use std::marker::{Model, PhantomData};

/// A note that the hub of this name has shown a place, which is the number of commands that had
/// made the rows. Contracts see a note as that number. Only the hub's showcase makes one.
#[derive(Drop)]
pub struct HubNote<N: StateName> {
    shown: u64,
    of: PhantomData<N>,
}

impl<N: StateName> Model for HubNote<N> {
    ghost use Rattle.std.specs.Prelude.{ℕ};

    ghost Value = { ℕ };

    ghost view = { λ note. note.shown };
}

impl<N: StateName> HubNote<N> {
    /// A note of this place.
    pub(crate) fn of(shown: u64) -> HubNote<N>
        ensures { result ≡ shown }
    {
        HubNote {
            shown,
            of: PhantomData,
        }
    }

    /// The place.
    pub fn shown(&self) -> u64
        ensures { result ≡ self.now }
    {
        self.shown
    }
}

/// A receipt of a command that a hub has committed, with the claim that the log of the hub's state
/// has the command at its index.
pub type HubReceipt<N> = LoggedReceipt<N, HubNote<N>>;
