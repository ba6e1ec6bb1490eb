//! The checkpointer's steps on the device.

ghost use Rattle.std.specs.Prelude.{◌≡◌, true, false};
ghost use Rattle.group_phases.specs.declared.phases.Check.TheVariants.{Laid as laid, Switched as switched, SwitchFailed as switch_failed};
ghost use Rattle.group_phases.specs.declared.phases.Check.TheVariants.{Live as live, Closing as closing, CloseFailed as close_failed};
ghost use Rattle.group_core.specs.Stops.{StepLeaves};
ghost use Rattle.group_core.specs.Steps.{WritesChunk, SyncsChunks, WritesGate, SyncsHalf, SyncsClose};
ghost use Rattle.group_core.specs.StepCalls.{StepCall, Sync, chunk_write, half_write, close_write};

use crate::ghosts::name::StateName;
use crate::state::LoggedState;
use group_core::{
    AtClosing, AtLaid, AtLive, AtPlan, AtSwitched, Closing, Laid, Live, Plan, Showcase, StepError,
    Switched,
};
use sector_dev::Device;

impl<D: Device, S: Showcase, B: StateName> LoggedState<D, S, B> {
    /// `State::write_chunk`.
    pub fn write_chunk(&mut self, value: Plan) -> Result<Plan, StepError<AtPlan>>
        requires { value.phase.done ≡ false }
        ensures step { WritesChunk value result self.old.state self.new.state }
        ensures call { StepCall (chunk_write self.old.state) result self.old.state.disk self.new.state.disk }
        ensures any_moment { StepLeaves self.old.state self.new.state }
        ensures log { self.new.log ≡ self.old.log }
    {
        self.state.write_chunk(value)
    }

    /// `State::sync_chunks`.
    pub fn sync_chunks(&mut self, value: Plan) -> Result<Laid, StepError<AtPlan>>
        requires { value.phase.done ≡ true }
        ensures step { SyncsChunks value result self.old.state self.new.state }
        ensures call { StepCall Sync result self.old.state.disk self.new.state.disk }
        ensures any_moment { StepLeaves self.old.state self.new.state }
        ensures log { self.new.log ≡ self.old.log }
    {
        self.state.sync_chunks(value)
    }

    /// `State::open_half`.
    pub fn open_half(&mut self, value: Laid) -> Result<Switched, StepError<AtLaid>>
        ensures step { WritesGate laid switched switch_failed value result self.old.state self.new.state }
        ensures call { StepCall (half_write self.old.state) result self.old.state.disk self.new.state.disk }
        ensures any_moment { StepLeaves self.old.state self.new.state }
        ensures log { self.new.log ≡ self.old.log }
    {
        self.state.open_half(value)
    }

    /// `State::sync_half`.
    pub fn sync_half(&mut self, value: Switched) -> Result<Live, StepError<AtSwitched>>
        ensures step { SyncsHalf value result self.old.state self.new.state }
        ensures call { StepCall Sync result self.old.state.disk self.new.state.disk }
        ensures any_moment { StepLeaves self.old.state self.new.state }
        ensures log { self.new.log ≡ self.old.log }
    {
        self.state.sync_half(value)
    }

    /// `State::close_half`.
    pub fn close_half(&mut self, value: Live) -> Result<Closing, StepError<AtLive>>
        ensures step { WritesGate live closing close_failed value result self.old.state self.new.state }
        ensures call { StepCall (close_write self.old.state) result self.old.state.disk self.new.state.disk }
        ensures any_moment { StepLeaves self.old.state self.new.state }
        ensures log { self.new.log ≡ self.old.log }
    {
        self.state.close_half(value)
    }

    /// `State::sync_close`.
    pub fn sync_close(&mut self, value: Closing) -> Result<(), StepError<AtClosing>>
        ensures step { SyncsClose value result self.old.state self.new.state }
        ensures call { StepCall Sync result self.old.state.disk self.new.state.disk }
        ensures any_moment { StepLeaves self.old.state self.new.state }
        ensures log { self.new.log ≡ self.old.log }
    {
        self.state.sync_close(value)
    }
}
