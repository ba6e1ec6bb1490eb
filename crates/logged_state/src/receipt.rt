//! Receipts of a state with a log.

ghost use Rattle.std.specs.Prelude.{◌≡◌, ◌+◌, None, [], ◌∷◌, ◌++◌};

use crate::ghosts::name::StateName;
use command_log::{Accepted, ClaimCollector, Logged, LoggedList};
use group_core::{Receipt, Ticket};
use path_db::Outcome;
use std::marker::Model;

/// What a ticket is redeemed for once its command is committed. The receipt's command is the one
/// that its claim shows to clauses: the log has that command at the receipt's place.
#[derive(Drop)]
pub struct LoggedReceipt<B: StateName, N> {
    pub(crate) place: u64,
    pub(crate) outcome: Outcome,
    pub(crate) note: Option<N>,
    /// The claim that the command is committed.
    pub(crate) logged: Logged<B>,
}

impl<B: StateName, N> Model for LoggedReceipt<B, N> {
    ghost use Rattle.std.specs.Prelude.{◌≡◌, ◌+◌};
    ghost use Rattle.logged_state.specs.ReceiptView.{ReceiptView};

    ghost Value = { ReceiptView N };

    ghost view = { λ r. record {
      place = r.place;
      outcome = r.outcome;
      note = r.note;
      logged = r.logged;
    } };

    ghost invariant = { λ r. r.place ≡ B.opening.place + r.logged.index };
}

impl<B: StateName, N> LoggedReceipt<B, N> {
    /// A state's receipt, with the claim of its command.
    pub(crate) fn of(mut receipt: Receipt<N>, logged: Logged<B>) -> LoggedReceipt<B, N>
    where
        N: Drop,
        requires { receipt.place ≡ B.opening.place + logged.index }
        ensures place { result.place ≡ receipt.place }
        ensures outcome { result.outcome ≡ receipt.outcome }
        ensures note { result.note ≡ receipt.note }
        ensures claim { result.logged ≡ logged }
    {
        LoggedReceipt {
            place: receipt.place(),
            outcome: receipt.outcome(),
            note: receipt.take_note(),
            logged,
        }
    }

    /// The place of the command.
    pub fn place(&self) -> u64
        ensures { result ≡ self.now.place }
    {
        self.place
    }

    /// What the command did.
    pub fn outcome(&self) -> Outcome
        ensures { result ≡ self.now.outcome }
    {
        self.outcome
    }

    /// Takes the note that the showcase made when the ticket was redeemed. The receipt has the note
    /// until it is taken.
    pub fn take_note(&mut self) -> Option<N>
        ensures note { result ≡ self.old.note }
        ensures taken { self.new ≡ record self.old { note = None } }
    {
        self.note.take()
    }

    /// Adds the claim that the command is committed to a list. The receipt keeps it too.
    pub fn add_to(&mut self, collector: &ClaimCollector<B>, list: &mut LoggedList<B>)
        ensures claims { list.new ≡ list.old ++ self.old.logged ∷ [] }
        ensures same { self.new ≡ self.old }
    {
        collector.add(list, &mut self.logged);
    }

    /// The claim that the command is committed: the place counts from that of the opening value.
    pub fn into_claim(self) -> Logged<B>
    where
        N: Drop,
        ensures claim { result ≡ self.logged }
        ensures place { self.place ≡ B.opening.place + result.index }
    {
        let LoggedReceipt {
            place: _,
            outcome: _,
            note: _,
            logged,
        } = self;
        logged
    }
}

/// That a state has stopped, and that the accepted command of this claim was not committed before
/// as far as is known. Only a state that has stopped gives one, in exchange for the claim: a
/// command has a receipt or one of these, and not both.
#[derive(Drop)]
pub struct Lost<B: StateName> {
    place: u64,
    accepted: Accepted<B>,
}

impl<B: StateName> Lost<B> {
    /// The claim of a command at a place, at a state that has stopped.
    pub(crate) fn of(place: u64, accepted: Accepted<B>) -> Lost<B>
        ensures { (result.place ≡ place) × (result.accepted ≡ accepted) }
    {
        Lost { place, accepted }
    }

    /// The place of the command. It is not known whether a stop of the device keeps the command.
    pub fn place(&self) -> u64
        ensures { result ≡ self.now.place }
    {
        self.place
    }
}

/// What a ticket was redeemed for.
pub enum LoggedRedeemed<B: StateName, N> {
    /// The command is committed.
    Committed(LoggedReceipt<B, N>),
    /// Not committed; the ticket is returned, with its claim.
    Waiting(Ticket, Accepted<B>),
    /// The state has stopped before the command was committed, with its claim.
    Unknown(Lost<B>),
    /// Not this state's, or already redeemed; returned, with its claim.
    Stranger(Ticket, Accepted<B>),
}
