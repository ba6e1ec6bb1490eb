//! Publishing what is durable: the commands of a published group are then committed in the log too.

ghost use Rattle.std.specs.Prelude.{◌≡◌, ◌+◌, ◌≤◌, length};
ghost use Rattle.command_log.specs.Log.{with_committed};
ghost use Rattle.group_core.specs.Stops.{StepLeaves};
ghost use Rattle.group_core.specs.Publishing.{PublishStep};
ghost use Rattle.group_core.specs.Following.{PublishFollowedStep};
ghost use Rattle.logged_state.specs.LoggedView.{log_after, moment_number};

use crate::ghosts::name::StateName;
use crate::state::LoggedState;
use command_log::{CommandLog, CommitMoment};
use group_core::{
    AtDurable, AtDurableFollowed, Durable, DurableFollowed, PublishError, Showcase, Stable,
};
use sector_dev::Device;
use std::marker::Brand;

impl<D: Device, S: Showcase, B: StateName> LoggedState<D, S, B> {
    /// `State::publish`.
    pub fn publish(&mut self, value: Durable) -> Result<(), PublishError<AtDurable>>
        ensures step { PublishStep value result self.old.state self.new.state }
        ensures any_moment { StepLeaves self.old.state self.new.state }
        ensures log { self.new.log ≡ log_after self.old self.new.state }
    {
        self.state.stops_leave_fronts();
        let from = self.state.place();
        let published = self.state.publish(value);
        let to = self.state.place();
        note_committed::<D, B>(&mut self.log, to - from, self.state.device());
        published
    }

    /// `State::publish_followed`.
    pub fn publish_followed(
        &mut self,
        value: DurableFollowed,
    ) -> Result<Stable, PublishError<AtDurableFollowed>>
        ensures step { PublishFollowedStep value result self.old.state self.new.state }
        ensures any_moment { StepLeaves self.old.state self.new.state }
        ensures log { self.new.log ≡ log_after self.old self.new.state }
    {
        self.state.stops_leave_fronts();
        let from = self.state.place();
        let published = self.state.publish_followed(value);
        let to = self.state.place();
        note_committed::<D, B>(&mut self.log, to - from, self.state.device());
        published
    }
}

/// Notes in the log that more commands are committed, at the present moment of a device.
pub(crate) fn note_committed<D: Device, B: StateName>(
    log: &mut CommandLog<B>,
    more: u64,
    device: &D,
)
    requires { log.old.committed + more ≤ length log.old.commands }
    ensures { log.new ≡ with_committed more (moment_number (D.disk device.now)) log.old }
{
    note_chosen::<Brand, D, B>(log, more, device);
}

/// `note_committed` for one number `M`. The device is passed so that the caller can pick it.
fn note_chosen<M: CommitMoment, D: Device, B: StateName>(
    log: &mut CommandLog<B>,
    more: u64,
    device: &D,
)
    requires chosen { M.moment ≡ moment_number (D.disk device.now) }
    requires few { log.old.committed + more ≤ length log.old.commands }
    ensures { log.new ≡ with_committed more M.moment log.old }
{
    let _ = device;
    log.commit::<M>(more);
}
