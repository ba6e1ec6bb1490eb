//! The steps of a group that follows the group in flight.

ghost use Rattle.std.specs.Prelude.{◌≡◌};
ghost use Rattle.group_phases.specs.declared.phases.Flush.TheVariants.{Following as following, Followed as followed, DurableFollowed as durable_followed};
ghost use Rattle.group_core.specs.Stops.{StepLeaves};
ghost use Rattle.group_core.specs.Steps.{FlushStep};
ghost use Rattle.group_core.specs.StepCalls.{StepCall, Sync, follower_write};
ghost use Rattle.group_core.specs.Following.{Follows};

use crate::ghosts::name::StateName;
use crate::state::LoggedState;
use group_core::{
    AtFollowed, AtFollowing, DurableFollowed, FollowError, Followed, Following, Opened, Showcase,
    StepError,
};
use sector_dev::Device;

impl<D: Device, S: Showcase, B: StateName> LoggedState<D, S, B> {
    /// `State::follow`.
    pub fn follow(&mut self, value: Opened) -> Result<Following, (Opened, FollowError)>
        ensures step { Follows value result self.old.state self.new.state }
        ensures any_moment { StepLeaves self.old.state self.new.state }
        ensures log { self.new.log ≡ self.old.log }
    {
        self.state.follow(value)
    }

    /// `State::write_following`.
    pub fn write_following(&mut self, value: Following) -> Result<Followed, StepError<AtFollowing>>
        ensures step { FlushStep following followed following value result self.old.state self.new.state }
        ensures call { StepCall (follower_write self.old.state) result self.old.state.disk self.new.state.disk }
        ensures any_moment { StepLeaves self.old.state self.new.state }
        ensures log { self.new.log ≡ self.old.log }
    {
        self.state.write_following(value)
    }

    /// `State::sync_followed`.
    pub fn sync_followed(
        &mut self,
        value: Followed,
    ) -> Result<DurableFollowed, StepError<AtFollowed>>
        ensures step { FlushStep followed durable_followed followed value result self.old.state self.new.state }
        ensures call { StepCall Sync result self.old.state.disk self.new.state.disk }
        ensures any_moment { StepLeaves self.old.state self.new.state }
        ensures log { self.new.log ≡ self.old.log }
    {
        self.state.sync_followed(value)
    }
}
