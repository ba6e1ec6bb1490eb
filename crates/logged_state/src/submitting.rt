//! Submitting commands.

ghost use Rattle.std.specs.Prelude.{◌≡◌, IfOk, OnOk, OnErr};
ghost use Rattle.command_log.specs.Log.{log_with};
ghost use Rattle.group_core.specs.Stops.{StepLeaves};
ghost use Rattle.group_core.specs.Submitting.{Judges, Submits};
ghost use Rattle.logged_state.specs.Claims.{ticket_in, IsClaimOf};

use crate::ghosts::name::StateName;
use crate::state::LoggedState;
use command_log::Accepted;
use group_core::{Showcase, State, SubmitError, Ticket};
use path_db::Command;
use sector_dev::Device;
use std::snapshot::Snapshot;

impl<D: Device, S: Showcase, B: StateName> LoggedState<D, S, B> {
    /// `State::submit`. An accepted command is then the last of the log.
    pub fn submit(&mut self, command: Command) -> Result<Ticket, (Command, SubmitError)>
        ensures step { Submits command result self.old.state self.new.state }
        ensures any_moment { StepLeaves self.old.state self.new.state }
        ensures log { OnOk result (self.new.log ≡ log_with command self.old.log) }
        ensures same { OnErr result (self.new.log ≡ self.old.log) }
    {
        match self.submit_logged(command) {
            Ok((ticket, _claim)) => Ok(ticket),
            Err(refused) => Err(refused),
        }
    }

    /// `submit`, which also returns the claim of an accepted command.
    pub fn submit_logged(
        &mut self,
        command: Command,
    ) -> Result<(Ticket, Accepted<B>), (Command, SubmitError)>
        ensures step { Submits command (ticket_in result) self.old.state self.new.state }
        ensures any_moment { StepLeaves self.old.state self.new.state }
        ensures claim { IfOk result (λ given. IsClaimOf B.opening given.0 given.1) }
        ensures log { OnOk result (self.new.log ≡ log_with command self.old.log) }
        ensures same { OnErr result (self.new.log ≡ self.old.log) }
    {
        let shown = Snapshot::of(&command);
        match self.state.submit(command) {
            Ok(ticket) => {
                let claim = self.log.append(&shown);
                Ok((ticket, claim))
            }
            Err(refused) => Err(refused),
        }
    }

    /// `State::judge`.
    pub fn judge(&self, command: &Command) -> Result<(), SubmitError>
        ensures judges { Judges command.now result self.now.state }
    {
        self.state.judge(command)
    }
}
