//! Stopping a state.

ghost use Rattle.std.specs.Prelude.{◌≡◌};
ghost use Rattle.group_core.specs.Stops.{StepLeaves};
ghost use Rattle.group_core.specs.Redeeming.{halted};
ghost use Rattle.logged_state.specs.Claims.{IsClaimOf};

use crate::ghosts::name::StateName;
use crate::receipt::Lost;
use crate::state::LoggedState;
use command_log::Accepted;
use group_core::{Commit, Showcase, Ticket};
use sector_dev::Device;

impl<D: Device, S: Showcase, B: StateName> LoggedState<D, S, B> {
    /// `State::halt`.
    pub fn halt(&mut self)
        ensures halted { self.new.state ≡ halted self.old.state }
        ensures any_moment { StepLeaves self.old.state self.new.state }
        ensures log { self.new.log ≡ self.old.log }
    {
        self.state.halt();
    }

    /// `State::give_up`.
    pub fn give_up<P: Copy>(&mut self, value: Commit<P>)
        ensures halted { self.new.state ≡ halted self.old.state }
        ensures any_moment { StepLeaves self.old.state self.new.state }
        ensures log { self.new.log ≡ self.old.log }
    {
        self.state.give_up(value);
    }

    /// `State::give_up_ticket`, of a ticket with its claim.
    pub fn give_up_ticket(&mut self, ticket: Ticket, claim: Accepted<B>) -> Lost<B>
        requires { IsClaimOf B.opening ticket claim }
        ensures lost { (result.place ≡ ticket.place) × (result.accepted ≡ claim) }
        ensures halted { self.new.state ≡ halted self.old.state }
        ensures any_moment { StepLeaves self.old.state self.new.state }
        ensures log { self.new.log ≡ self.old.log }
    {
        let lost = Lost::of(ticket.place(), claim);
        self.state.give_up_ticket(ticket);
        lost
    }
}
