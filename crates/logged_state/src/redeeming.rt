//! Redeeming tickets.

ghost use Rattle.std.specs.Prelude.{◌≡◌};
ghost use Rattle.group_core.specs.Stops.{StepLeaves};
ghost use Rattle.group_core.specs.Redeeming.{Redeems};
ghost use Rattle.logged_state.specs.Claims.{redeemed_in, IsClaimOf, HasClaim};

use crate::ghosts::name::StateName;
use crate::receipt::{LoggedReceipt, LoggedRedeemed, Lost};
use crate::state::LoggedState;
use command_log::Accepted;
use group_core::{Redeemed, Showcase, Ticket};
use sector_dev::Device;

impl<D: Device, S: Showcase, B: StateName> LoggedState<D, S, B> {
    /// `State::redeem`.
    pub fn redeem(&mut self, ticket: Ticket) -> Redeemed<S::Note>
        ensures redeemed { Redeems S.tells ticket result self.old.state self.new.state }
        ensures any_moment { StepLeaves self.old.state self.new.state }
        ensures log { self.new.log ≡ self.old.log }
    {
        self.state.redeem(ticket)
    }

    /// `redeem`, of a ticket with its claim. The receipt of a committed command also has the claim
    /// that the command is committed.
    pub fn redeem_logged(
        &mut self,
        ticket: Ticket,
        claim: Accepted<B>,
    ) -> LoggedRedeemed<B, S::Note>
        requires { IsClaimOf B.opening ticket claim }
        ensures redeemed { Redeems S.tells ticket (redeemed_in result) self.old.state self.new.state }
        ensures any_moment { StepLeaves self.old.state self.new.state }
        ensures claim { HasClaim claim result }
        ensures log { self.new.log ≡ self.old.log }
    {
        match self.state.redeem(ticket) {
            Redeemed::Committed(receipt) => {
                let logged = self.log.redeem(claim);
                LoggedRedeemed::Committed(LoggedReceipt::of(receipt, logged))
            }
            Redeemed::Waiting(ticket) => LoggedRedeemed::Waiting(ticket, claim),
            Redeemed::Unknown(place) => LoggedRedeemed::Unknown(Lost::of(place, claim)),
            Redeemed::Stranger(ticket) => LoggedRedeemed::Stranger(ticket, claim),
        }
    }
}
